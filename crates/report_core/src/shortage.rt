//! The shortage of a build: what it still wants of each line of its bill that is counted.
ghost use Rattle.std.specs.Prelude.{◌≡◌, map, IfOk};
ghost use Rattle.part_core.specs.CatalogueView.{parts_of};
ghost use Rattle.desk_core.specs.ShopView.{state_of};
ghost use Rattle.report_core.specs.Lines.{Gives, fields_of, lines_of};
ghost use Rattle.report_core.specs.Shortage.{shortage_line, shortage_lines, wants_of};

use crate::fields::{amount_field, name_field, number_field};
use crate::lines::Report;
use build_core::{Shortage, shortages};
use desk_core::Shop;
use part_core::{Catalogue, CoreFault, Refusal};
use std::alloc::{AllocError, Global};

fn shortage_line(
    alloc: Global,
    catalogue: &Catalogue,
    row: &Shortage,
) -> Result<Vec<String>, AllocError>
    ensures { IfOk result (λ line. fields_of line
        ≡ shortage_line (parts_of catalogue.now) row.now) }
{
    let line = number_field(alloc, row.line)?;
    let name = name_field(alloc, catalogue, row.component)?;
    let required = amount_field(alloc, row.required)?;
    let allocated = amount_field(alloc, row.allocated)?;
    let missing = amount_field(alloc, row.missing)?;
    Ok(vec![in alloc; line, name, required, allocated, missing]?)
}

fn shortage_lines(
    alloc: Global,
    catalogue: &Catalogue,
    rows: &[Shortage],
) -> Result<Vec<Vec<String>>, AllocError>
    ensures { IfOk result (λ lines. lines_of lines.items
        ≡ map (shortage_line (parts_of catalogue.now)) rows.now) }
{
    let mut lines = Vec::with_capacity(alloc, rows.len())?;
    for row in rows {
        lines.push(shortage_line(alloc, catalogue, row)?)?;
    }
    Ok(lines)
}

/// What the build of that number still wants.
pub fn wants_of(alloc: Global, shop: &Shop, number: u64) -> Result<Vec<Shortage>, AllocError>
    ensures { IfOk result (λ wants. wants.items ≡ wants_of number (state_of shop.now)) }
{
    shortages(
        alloc,
        shop.catalogue(),
        shop.boms(),
        shop.builds(),
        shop.allocations(),
        number,
    )
}

/// What the build of that number still wants: for each line of its bill that is counted, in order of number, the line,
/// its component's name, what is required, what is allocated and what is missing. NoSuch where there is no such build;
/// one that isn't open has no lines.
pub fn shortage(alloc: Global, shop: &Shop, number: u64) -> Result<Report, CoreFault>
    ensures { Gives (shortage_lines number (state_of shop.now)) result }
{
    if shop.builds().build(number).is_none() {
        return Err(CoreFault::Refused(Refusal::NoSuch));
    }
    let rows = wants_of(alloc, shop, number)?;
    let lines = shortage_lines(alloc, shop.catalogue(), rows.as_slice())?;
    Ok(Report::new(lines))
}
