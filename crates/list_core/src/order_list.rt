//! The list of orders, with their lines.
ghost use Rattle.std.specs.Prelude.{◌≡◌, ◌||◌, ◌++◌, ◌∷◌, [], not, decimal, filter, flat_map, map};
ghost use Rattle.std.specs.Prelude.{IfOk, OnOk};
ghost use Rattle.std.specs.FinMap as table;
ghost use Rattle.part_core.specs.Catalogue.{part_in};
ghost use Rattle.sheet_core.specs.Sheet.{now_of};
ghost use Rattle.alloc_core.specs.Allocations.{allocated_for_sale_line};
ghost use Rattle.order_core.specs.Orders.{is_open};
ghost use Rattle.desk_core.specs.ShopView.{state_of};
ghost use Rattle.report_core.specs.Fields.{name_of};
ghost use Rattle.report_core.specs.Lines.{fields_of, lines_of};
ghost use Rattle.list_core.specs.OrderList.{bare_order_row, order_fields, order_header, order_line_row};
ghost use Rattle.list_core.specs.OrderList.{order_list, order_rows, order_rows_by, order_state_name, outstanding};
ghost use Rattle.list_core.specs.Past.{IsPast};

use crate::past::{Past, Subject, past_fields, past_of};
use crate::rows::push_empty;
use desk_core::Shop;
use order_core::{Order, OrderLine, OrderState};
use part_core::{Sheet, Worded};
use report_core::Report;
use report_core::fields::{amount_field, name_field, number_field, words_line};
use std::alloc::{AllocError, Global};

/// The word for a state.
pub(crate) fn order_state_name(state: OrderState) -> &'static str
    ensures { result.now ≡ order_state_name state }
{
    match state {
        OrderState::Pending => "pending",
        OrderState::InProgress => "in progress",
        OrderState::Complete => "complete",
        OrderState::Cancelled => "cancelled",
    }
}

/// What is still to come or to go of a line, which is none where its order isn't open.
pub(crate) fn outstanding(order: &Order, line: &OrderLine) -> u64
    ensures { result ≡ outstanding order.now line.now }
{
    if order.state.is_open() {
        line.quantity.saturating_sub(line.done)
    } else {
        0
    }
}

/// The list's first row.
fn header(alloc: Global) -> Result<Vec<String>, AllocError>
    ensures { IfOk result (λ row. fields_of row ≡ order_header) }
{
    words_line(
        alloc,
        &[
            "order",
            "side",
            "state",
            "partner",
            "line",
            "part",
            "name",
            "wanted",
            "done",
            "allocated",
            "outstanding",
            "key",
            "day",
            "last",
        ],
    )
}

/// What is said of the order itself.
fn order_fields(alloc: Global, order: &Order) -> Result<Vec<String>, AllocError>
    ensures { IfOk result (λ row. fields_of row ≡ order_fields order.now) }
{
    let number = number_field(alloc, order.number)?;
    let side = String::from_str(alloc, order.side.word())?;
    let state = String::from_str(alloc, order_state_name(order.state))?;
    let partner = String::from_str(alloc, order.partner.as_str())?;
    Ok(vec![in alloc; number, side, state, partner]?)
}

/// What is said of a line of an order.
fn line_fields(
    alloc: Global,
    shop: &Shop,
    order: &Order,
    line: &OrderLine,
) -> Result<Vec<String>, AllocError>
    ensures { IfOk result (λ row. fields_of row ≡
        decimal line.now.number
        ∷ decimal line.now.part
        ∷ name_of (part_in line.now.part (state_of shop.now).parts)
        ∷ decimal line.now.quantity
        ∷ decimal line.now.done
        ∷ decimal (allocated_for_sale_line line.now.number (state_of shop.now).allocations)
        ∷ decimal (outstanding order.now line.now)
        ∷ []) }
{
    let number = number_field(alloc, line.number)?;
    let part = number_field(alloc, line.part)?;
    let name = name_field(alloc, shop.catalogue(), line.part)?;
    let wanted = number_field(alloc, line.quantity)?;
    let done = number_field(alloc, line.done)?;
    let allocated = shop.allocations().allocated_for_sale_line(line.number);
    let allocated = amount_field(alloc, allocated)?;
    let outstanding = number_field(alloc, outstanding(order, line))?;
    Ok(vec![in alloc; number, part, name, wanted, done, allocated, outstanding]?)
}

/// The row of a line of an order.
fn order_line_row(
    alloc: Global,
    shop: &Shop,
    past: &Past,
    order: &Order,
    line: &OrderLine,
) -> Result<Vec<String>, AllocError>
    requires { IsPast Subject.Orders (state_of shop.now) past.now }
    ensures { IfOk result (λ row.
        fields_of row ≡ order_line_row (state_of shop.now) order.now line.now) }
{
    let mut row = order_fields(alloc, order)?;
    let mut fields = line_fields(alloc, shop, order, line)?;
    row.append(&mut fields)?;
    let mut told = past_fields(alloc, past, order.number)?;
    row.append(&mut told)?;
    Ok(row)
}

/// The row of an order that has no line.
fn bare_order_row(
    alloc: Global,
    shop: &Shop,
    past: &Past,
    order: &Order,
) -> Result<Vec<String>, AllocError>
    requires { IsPast Subject.Orders (state_of shop.now) past.now }
    ensures { IfOk result (λ row. fields_of row ≡ bare_order_row (state_of shop.now) order.now) }
{
    let mut row = order_fields(alloc, order)?;
    push_empty(alloc, &mut row, 7)?;
    let mut told = past_fields(alloc, past, order.number)?;
    row.append(&mut told)?;
    Ok(row)
}

/// The rows of these lines of an order come behind the rows so far.
fn push_line_rows(
    alloc: Global,
    shop: &Shop,
    past: &Past,
    order: &Order,
    lines: &[&OrderLine],
    rows: &mut Vec<Vec<String>>,
) -> Result<(), AllocError>
    requires { IsPast Subject.Orders (state_of shop.now) past.now }
    ensures { OnOk result (lines_of rows.new.items ≡ lines_of rows.old.items
        ++ map (order_line_row (state_of shop.now) order.now) (map (λ l. l.now) lines.now)) }
{
    for line in lines {
        rows.push(order_line_row(alloc, shop, past, order, line)?)?;
    }
    Ok(())
}

/// The rows of an order with these lines come behind the rows so far.
fn push_rows_by(
    alloc: Global,
    shop: &Shop,
    past: &Past,
    order: &Order,
    lines: &[&OrderLine],
    rows: &mut Vec<Vec<String>>,
) -> Result<(), AllocError>
    requires { IsPast Subject.Orders (state_of shop.now) past.now }
    ensures { OnOk result (lines_of rows.new.items ≡ lines_of rows.old.items
        ++ order_rows_by (state_of shop.now) order.now (map (λ l. l.now) lines.now)) }
{
    if lines.is_empty() {
        rows.push(bare_order_row(alloc, shop, past, order)?)?;
        return Ok(());
    }
    push_line_rows(alloc, shop, past, order, lines, rows)
}

/// The rows of an order come behind the rows so far. It looks at the order's lines alone.
fn push_order_rows(
    alloc: Global,
    shop: &Shop,
    past: &Past,
    order: &Order,
    rows: &mut Vec<Vec<String>>,
) -> Result<(), AllocError>
    requires { IsPast Subject.Orders (state_of shop.now) past.now }
    ensures { OnOk result (lines_of rows.new.items
        ≡ lines_of rows.old.items ++ order_rows (state_of shop.now) order.now) }
{
    let lines = shop.orders().lines_of(order.number)?;
    push_rows_by(alloc, shop, past, order, lines.as_slice(), rows)
}

/// The rows of these orders come behind the rows so far.
fn push_orders(
    alloc: Global,
    shop: &Shop,
    past: &Past,
    orders: &[&Order],
    rows: &mut Vec<Vec<String>>,
) -> Result<(), AllocError>
    requires { IsPast Subject.Orders (state_of shop.now) past.now }
    ensures { OnOk result (lines_of rows.new.items ≡ lines_of rows.old.items
        ++ flat_map (order_rows (state_of shop.now)) (map (λ o. o.now) orders.now)) }
{
    for order in orders {
        push_order_rows(alloc, shop, past, order, rows)?;
    }
    Ok(())
}

/// The orders that the list shows, in order of number.
fn listed_orders(orders: &Sheet<Order>, only_open: bool) -> Result<Vec<&Order>, AllocError>
    ensures { IfOk result (λ listed. map (λ o. o.now) listed.items
        ≡ filter (λ o. not only_open || is_open o.state) (table.values (now_of orders.now))) }
{
    orders.select(|order| !only_open || order.state.is_open())
}

/// The header, and the rows of these orders.
fn rows_of(
    alloc: Global,
    shop: &Shop,
    past: &Past,
    orders: &[&Order],
) -> Result<Vec<Vec<String>>, AllocError>
    requires { IsPast Subject.Orders (state_of shop.now) past.now }
    ensures { IfOk result (λ rows. lines_of rows.items ≡ order_header
        ∷ flat_map (order_rows (state_of shop.now)) (map (λ o. o.now) orders.now)) }
{
    let mut rows = vec![in alloc; header(alloc)?]?;
    push_orders(alloc, shop, past, orders, &mut rows)?;
    Ok(rows)
}

/// The orders in order of number, each with its lines: a row for each line, in order of number, or one for the order
/// alone where it has none. If only open ones are asked for, those that are complete or cancelled are left out. It goes
/// over what is kept and over the history once. An error is one of memory.
pub fn order_list(alloc: Global, shop: &Shop, only_open: bool) -> Result<Report, AllocError>
    ensures { IfOk result (λ list. list ≡ order_list only_open (state_of shop.now)) }
{
    let orders = listed_orders(shop.orders().orders(), only_open)?;
    let past = past_of(alloc, shop, Subject::Orders)?;
    let rows = rows_of(alloc, shop, &past, orders.as_slice())?;
    Ok(Report::new(rows))
}
