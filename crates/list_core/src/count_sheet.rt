//! The sheet for a stocktake: what lies at a location and below it, with an empty field for what is counted.
ghost use Rattle.std.specs.Prelude.{◌≡◌, ◌∷◌, map, IfOk};
ghost use Rattle.yard_core.specs.YardView.{stock_of};
ghost use Rattle.desk_core.specs.ShopView.{state_of};
ghost use Rattle.list_core.specs.CountSheet.{count_sheet, loose_items, sheet_header, sheet_row};
ghost use Rattle.list_core.specs.CountSheet.{sheet_rows};
ghost use Rattle.report_core.specs.Lines.{Gives, fields_of, lines_of};

use crate::place_list::{items_under, location_of};
use crate::ways::way_field;
use desk_core::Shop;
use part_core::{CoreFault, Id, Refusal};
use report_core::Report;
use report_core::fields::{batch_field, name_field, number_field, serial_field, words_line};
use std::alloc::{AllocError, Global};
use yard_core::{Item, Yard};

/// The items that lie at a location themselves, in order of number. An error is one of memory.
fn loose_items(yard: &Yard) -> Result<Vec<&Item>, AllocError>
    ensures { IfOk result (λ items.
        map (λ i. i.now) items.items ≡ loose_items (stock_of yard.now)) }
{
    yard.items().select(|item| item.place.is_at())
}

/// The row of that number, with nothing counted yet.
fn sheet_row(
    alloc: Global,
    shop: &Shop,
    number: u64,
    item: &Item,
) -> Result<Vec<String>, AllocError>
    ensures { IfOk result (λ line.
        fields_of line ≡ sheet_row (state_of shop.now) number item.now) }
{
    let number = number_field(alloc, number)?;
    let own_number = number_field(alloc, item.number)?;
    let name = name_field(alloc, shop.catalogue(), item.part)?;
    let way = way_field(alloc, shop.yard().locations(), location_of(item.place))?;
    let batch = batch_field(alloc, &item.lot.batch)?;
    let serial = serial_field(alloc, &item.lot.serial)?;
    let expected = number_field(alloc, item.quantity)?;
    let counted = String::new(alloc);
    Ok(vec![in alloc;
        number, own_number, name, way, batch, serial, expected, counted,
    ]?)
}

fn sheet_header(alloc: Global) -> Result<Vec<String>, AllocError>
    ensures { IfOk result (λ line. fields_of line ≡ sheet_header) }
{
    words_line(
        alloc,
        &[
            "number", "item", "part", "way", "batch", "serial", "expected", "quantity",
        ],
    )
}

/// The header, and a row for each of these items, numbered from 1.
fn sheet_lines(alloc: Global, shop: &Shop, items: &[&Item]) -> Result<Vec<Vec<String>>, AllocError>
    ensures { IfOk result (λ lines. lines_of lines.items ≡ sheet_header
        ∷ sheet_rows (state_of shop.now) 1 (map (λ i. i.now) items.now)) }
{
    let mut lines = vec![in alloc; sheet_header(alloc)?]?;
    for (index, item) in items.iter().enumerate() {
        let number = index as u64 + 1;
        lines.push(sheet_row(alloc, shop, number, item)?)?;
    }
    Ok(lines)
}

/// A row for each item that lies at the location or below it, or at any location where none is given, in order of
/// number. What lies in an item isn't counted by itself. NoSuch where there is no such location.
pub fn count_sheet(alloc: Global, shop: &Shop, location: Option<Id>) -> Result<Report, CoreFault>
    ensures { Gives (count_sheet location (state_of shop.now)) result }
{
    let items = match location {
        Some(top) => {
            if shop.yard().location(top).is_none() {
                return Err(CoreFault::Refused(Refusal::NoSuch));
            }
            items_under(shop.yard(), top)?
        }
        None => loose_items(shop.yard())?,
    };
    let lines = sheet_lines(alloc, shop, items.as_slice())?;
    Ok(Report::new(lines))
}
