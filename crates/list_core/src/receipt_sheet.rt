//! The sheet for a delivery: the lines of purchases of which something is still to come, with empty fields for what came.
ghost use Rattle.std.specs.Prelude.{◌≡◌, ◌∷◌, [], map, option_copied, IfOk};
ghost use Rattle.desk_core.specs.ShopView.{state_of};
ghost use Rattle.report_core.specs.Lines.{Gives, fields_of, lines_of};
ghost use Rattle.list_core.specs.ReceiptSheet.{awaited, awaits, is_awaited, is_line_of, is_order_or_none};
ghost use Rattle.list_core.specs.ReceiptSheet.{receipt_header, receipt_row, receipt_rows, receipt_sheet};

use crate::history_list::partner_of;
use desk_core::Shop;
use order_core::{Order, OrderLine};
use part_core::{CoreFault, Id, Refusal};
use report_core::Report;
use report_core::fields::{name_field, number_field, words_line};
use std::alloc::{AllocError, Global};

/// Whether it is a purchase that is under way.
fn awaits(order: Option<&Order>) -> bool
    ensures { result ≡ awaits (option_copied order.entry) }
{
    match order {
        Some(order) => !order.side.is_sale() && order.state.is_in_progress(),
        None => false,
    }
}

/// Whether it is the line's order; any order is, where none is given.
fn is_line_of(of: Option<Id>, line: &OrderLine) -> bool
    ensures { result ≡ is_line_of of line.now }
{
    match of {
        Some(order) => line.order == order,
        None => true,
    }
}

/// Whether something of the line is still to come.
fn is_awaited(shop: &Shop, of: Option<Id>, line: &OrderLine) -> bool
    ensures { result ≡ is_awaited of (state_of shop.now) line.now }
{
    is_line_of(of, line) && line.done < line.quantity && awaits(shop.orders().order(line.order))
}

/// The lines of which something is still to come, in order of number. It goes over all lines once. An error is one of
/// memory.
pub(crate) fn awaited(shop: &Shop, of: Option<Id>) -> Result<Vec<&OrderLine>, AllocError>
    ensures { IfOk result (λ lines.
        map (λ l. l.now) lines.items ≡ awaited of (state_of shop.now)) }
{
    let orders = shop.orders();
    orders.lines().select(|line| is_awaited(shop, of, line))
}

/// The row of that number, with nothing that came yet.
fn receipt_row(
    alloc: Global,
    shop: &Shop,
    number: u64,
    line: &OrderLine,
) -> Result<Vec<String>, AllocError>
    ensures { IfOk result (λ row.
        fields_of row ≡ receipt_row (state_of shop.now) number line.now) }
{
    let number = number_field(alloc, number)?;
    let own_number = number_field(alloc, line.number)?;
    let order = number_field(alloc, line.order)?;
    let partner = partner_of(alloc, shop, Some(line.order))?;
    let name = name_field(alloc, shop.catalogue(), line.part)?;
    let outstanding = number_field(alloc, line.quantity.saturating_sub(line.done))?;
    let location = String::new(alloc);
    let quantity = String::new(alloc);
    let batch = String::new(alloc);
    let serials = String::new(alloc);
    Ok(vec![in alloc;
        number,
        own_number,
        order,
        partner,
        name,
        outstanding,
        location,
        quantity,
        batch,
        serials,
    ]?)
}

fn receipt_header(alloc: Global) -> Result<Vec<String>, AllocError>
    ensures { IfOk result (λ row. fields_of row ≡ receipt_header) }
{
    words_line(
        alloc,
        &[
            "number",
            "line",
            "order",
            "partner",
            "part",
            "outstanding",
            "location",
            "quantity",
            "batch",
            "serials",
        ],
    )
}

/// The header, and a row for each of these lines, numbered from 1.
fn receipt_lines(
    alloc: Global,
    shop: &Shop,
    lines: &[&OrderLine],
) -> Result<Vec<Vec<String>>, AllocError>
    ensures { IfOk result (λ rows. lines_of rows.items ≡ receipt_header
        ∷ receipt_rows (state_of shop.now) 1 (map (λ l. l.now) lines.now)) }
{
    let mut rows = vec![in alloc; receipt_header(alloc)?]?;
    for (index, line) in lines.iter().enumerate() {
        let number = index as u64 + 1;
        rows.push(receipt_row(alloc, shop, number, line)?)?;
    }
    Ok(rows)
}

/// Whether there is the order, where one is given.
fn is_order_or_none(shop: &Shop, of: Option<Id>) -> bool
    ensures { result ≡ is_order_or_none of (state_of shop.now) }
{
    match of {
        Some(order) => shop.orders().order(order).is_some(),
        None => true,
    }
}

/// A row for each line of which something is still to come, in order of number: of all purchases that are under way, or of
/// the order of that number. NoSuch where there is no such order. It goes over all lines once.
pub fn receipt_sheet(alloc: Global, shop: &Shop, of: Option<Id>) -> Result<Report, CoreFault>
    ensures { Gives (receipt_sheet of (state_of shop.now)) result }
{
    if !is_order_or_none(shop, of) {
        return Err(CoreFault::Refused(Refusal::NoSuch));
    }
    let lines = awaited(shop, of)?;
    let rows = receipt_lines(alloc, shop, lines.as_slice())?;
    Ok(Report::new(rows))
}
