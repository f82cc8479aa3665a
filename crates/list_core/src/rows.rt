//! Parts of a list's rows.
ghost use Rattle.std.specs.Prelude.{◌≡◌, ◌++◌, [], replicate, OnOk};
ghost use Rattle.report_core.specs.Lines.{fields_of};

use std::alloc::{AllocError, Global};

/// So many fields more, with nothing in them.
pub fn push_empty(alloc: Global, row: &mut Vec<String>, count: usize) -> Result<(), AllocError>
    ensures { OnOk result (fields_of row.new ≡ fields_of row.old ++ replicate count []) }
{
    for _field in 0..count {
        row.push(String::new(alloc))?;
    }
    Ok(())
}
