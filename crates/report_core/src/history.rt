//! The history of an item: what became of it.
ghost use Rattle.std.specs.Prelude.{◌≡◌, map, IfOk};
ghost use Rattle.desk_core.specs.ShopView.{state_of};
ghost use Rattle.report_core.specs.History.{history_lines};
ghost use Rattle.report_core.specs.Lines.{Gives, lines_of};
ghost use Rattle.yard_core.specs.EntryLines.{entry_line};

use crate::lines::Report;
use desk_core::Shop;
use part_core::{CoreFault, Refusal};
use std::alloc::{AllocError, Global};
use yard_core::{Entry, entry_line};

fn entry_lines(alloc: Global, entries: &[&Entry]) -> Result<Vec<Vec<String>>, AllocError>
    ensures { IfOk result (λ lines. lines_of lines.items
        ≡ map entry_line (map (λ e. e.now) entries.now)) }
{
    let mut lines = Vec::with_capacity(alloc, entries.len())?;
    for entry in entries {
        lines.push(entry_line(alloc, entry)?)?;
    }
    Ok(lines)
}

/// The entries on the item of that number, in order. NoSuch where there is no such item; one that is
/// gone is still there.
pub fn history(alloc: Global, shop: &Shop, number: u64) -> Result<Report, CoreFault>
    ensures { Gives (history_lines number (state_of shop.now)) result }
{
    if shop.yard().item(number).is_none() {
        return Err(CoreFault::Refused(Refusal::NoSuch));
    }
    let entries = shop.yard().history(number)?;
    let lines = entry_lines(alloc, entries.as_slice())?;
    Ok(Report::new(lines))
}
