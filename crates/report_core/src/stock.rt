//! The stock of a part: each of its items that isn't gone.
ghost use Rattle.std.specs.Prelude.{◌≡◌, filter, map, not, IfOk};
ghost use Rattle.std.specs.FinMap as table;
ghost use Rattle.yard_core.specs.Stock.{is_gone};
ghost use Rattle.yard_core.specs.YardView.{stock_of};
ghost use Rattle.desk_core.specs.ShopView.{state_of};
ghost use Rattle.report_core.specs.Lines.{Gives, fields_of, lines_of};
ghost use Rattle.report_core.specs.Stock.{is_stock_of, item_line, stock_lines};

use crate::fields::{batch_field, number_field, serial_field};
use crate::lines::Report;
use desk_core::Shop;
use part_core::{CoreFault, Refusal, Worded};
use std::alloc::{AllocError, Global};
use yard_core::{Item, Place, Yard, place_text};

/// Whether the item is used up, and stands in no place any more.
pub fn is_gone(item: &Item) -> bool
    ensures { result ≡ is_gone item.now.place }
{
    matches!(item.place, Place::Gone)
}

fn item_line(alloc: Global, item: &Item) -> Result<Vec<String>, AllocError>
    ensures { IfOk result (λ line. fields_of line ≡ item_line item.now) }
{
    let number = number_field(alloc, item.number)?;
    let quantity = number_field(alloc, item.quantity)?;
    let status = String::from_str(alloc, item.lot.status.word())?;
    let place = place_text(alloc, item.place)?;
    let batch = batch_field(alloc, &item.lot.batch)?;
    let serial = serial_field(alloc, &item.lot.serial)?;
    Ok(vec![in alloc; number, quantity, status, place, batch, serial]?)
}

/// The lines of those that aren't gone.
fn item_lines(alloc: Global, items: &[&Item]) -> Result<Vec<Vec<String>>, AllocError>
    ensures { IfOk result (λ lines. lines_of lines.items
        ≡ map item_line (filter (λ i. not (is_gone i.place)) (map (λ i. i.now) items.now))) }
{
    let mut lines = Vec::with_capacity(alloc, items.len())?;
    for item in items {
        if !is_gone(item) {
            lines.push(item_line(alloc, item)?)?;
        }
    }
    Ok(lines)
}

/// The lines of the part's items that aren't gone. It looks at the part's items alone.
fn part_lines(alloc: Global, yard: &Yard, part: u64) -> Result<Vec<Vec<String>>, AllocError>
    ensures { IfOk result (λ lines. lines_of lines.items ≡ map item_line
        (filter (is_stock_of part) (table.values (stock_of yard.now).items))) }
{
    let items = yard.items_of(part)?;
    item_lines(alloc, items.as_slice())
}

/// The items of the part of that number that aren't gone, in order of number. NoSuch where there is
/// no such part. It looks at the part's items alone.
pub fn stock(alloc: Global, shop: &Shop, number: u64) -> Result<Report, CoreFault>
    ensures { Gives (stock_lines number (state_of shop.now)) result }
{
    if shop.catalogue().part(number).is_none() {
        return Err(CoreFault::Refused(Refusal::NoSuch));
    }
    let lines = part_lines(alloc, shop.yard(), number)?;
    Ok(Report::new(lines))
}
