//! The lists of the way of items forward and back.
ghost use Rattle.std.specs.Prelude.{◌≡◌, ◌∷◌, [], IfOk, OnOk, filter, map};
ghost use Rattle.std.specs.FinMap as table;
ghost use Rattle.std.specs.String.{string_bytes};
ghost use Rattle.desk_core.specs.Machine.{IsSoundState};
ghost use Rattle.desk_core.specs.ShopView.{state_of};
ghost use Rattle.report_core.specs.Lines.{Gives, fields_of, lines_of};
ghost use Rattle.list_core.specs.Trace.{batch_items, is_batch, is_item, item_roots};
ghost use Rattle.list_core.specs.TraceList.{above_row, again_row, build_row, delivery_row, first_row, how_text};
ghost use Rattle.list_core.specs.TraceList.{item_row, step_row, trace_header, trace_lines};
ghost use Rattle.list_core.specs.TraceList.{day_or, delivery_where, has_batch, trace_list, trace_where, unknown_row};
ghost use Rattle.list_core.specs.TraceTables.{AreTables};

use crate::build_list::build_state_name;
use crate::item_list::where_field;
use crate::lives::first_day;
use crate::origins::{day_field, key_day_field, key_field, origin_day};
use crate::trace_tables::{TraceTables, trace_tables};
use crate::walk::{Direction, How, Node, Step, unknown_of, walk};
use build_core::Build;
use desk_core::Shop;
use order_core::OrderLine;
use part_core::{CoreFault, Day, Id, Refusal};
use report_core::Report;
use report_core::fields::{
    amount_field, batch_field, name_field, number_field, serial_field, words_line,
};
use std::alloc::{AllocError, Global};
use yard_core::{Item, Place};

fn trace_header(alloc: Global) -> Result<Vec<String>, AllocError>
    ensures { IfOk result (λ line. fields_of line ≡ trace_header) }
{
    words_line(
        alloc,
        &[
            "depth", "kind", "number", "part", "name", "quantity", "batch", "serial", "where",
            "how", "day", "key",
        ],
    )
}

/// How one row leads to the next, in words.
fn how_text(how: How) -> &'static str
    ensures { result.now ≡ how_text how }
{
    match how {
        How::Root => "",
        How::Holds => "holds it",
        How::Used => "used it",
        How::CutOff => "cut off it",
        How::Begun => "begun for it",
        How::Unknown => "not known",
        How::Inside => "inside it",
        How::Made => "made it",
        How::Delivered => "delivered it",
        How::Cut => "it was cut off this",
        How::UsedFor => "used for it",
    }
}

/// Where something is: of what was sent for an order also to whom.
pub(crate) fn trace_where(alloc: Global, shop: &Shop, place: Place) -> Result<String, AllocError>
    ensures { IfOk result (λ text. string_bytes text ≡ trace_where (state_of shop.now) place) }
{
    let Place::Sent(number) = place else {
        return where_field(alloc, shop, place);
    };
    match shop.orders().order(number) {
        Some(order) => {
            let partner = order.partner.as_str();
            format!(in alloc; "sent {number} to {partner}")
        }
        None => format!(in alloc; "sent {number}"),
    }
}

/// The first of two days that there is.
fn day_or(day: Option<Day>, other: Option<Day>) -> Option<Day>
    ensures { result ≡ day_or day other }
{
    match day {
        Some(day) => Some(day),
        None => other,
    }
}

fn item_row(
    alloc: Global,
    shop: &Shop,
    tables: &TraceTables,
    step: Step,
    item: &Item,
) -> Result<Vec<String>, AllocError>
    requires { AreTables (state_of shop.now) tables.now }
    ensures { IfOk result (λ line. fields_of line ≡ item_row (state_of shop.now) step item.now) }
{
    let depth = number_field(alloc, step.depth)?;
    let kind = String::from_str(alloc, "item")?;
    let number = number_field(alloc, item.number)?;
    let part = number_field(alloc, item.part)?;
    let name = name_field(alloc, shop.catalogue(), item.part)?;
    let quantity = number_field(alloc, item.quantity)?;
    let batch = batch_field(alloc, &item.lot.batch)?;
    let serial = serial_field(alloc, &item.lot.serial)?;
    let place = trace_where(alloc, shop, item.place)?;
    let how = String::from_str(alloc, how_text(step.how))?;
    let first = first_day(&tables.lives, item.number);
    let day = day_field(
        alloc,
        day_or(first, origin_day(&tables.origins, item.number)),
    )?;
    let key = key_field(alloc, &tables.origins, item.number)?;
    Ok(vec![in alloc;
        depth, kind, number, part, name, quantity, batch, serial, place, how, day, key,
    ]?)
}

fn build_row(
    alloc: Global,
    shop: &Shop,
    tables: &TraceTables,
    step: Step,
    build: &Build,
) -> Result<Vec<String>, AllocError>
    requires { AreTables (state_of shop.now) tables.now }
    ensures { IfOk result (λ line. fields_of line ≡ build_row (state_of shop.now) step build.now) }
{
    let depth = number_field(alloc, step.depth)?;
    let kind = String::from_str(alloc, "build")?;
    let number = number_field(alloc, build.number)?;
    let part = number_field(alloc, build.part)?;
    let name = name_field(alloc, shop.catalogue(), build.part)?;
    let quantity = number_field(alloc, build.quantity)?;
    let batch = String::new(alloc);
    let serial = String::new(alloc);
    let state = String::from_str(alloc, build_state_name(build.state))?;
    let how = String::from_str(alloc, how_text(step.how))?;
    let day = key_day_field(alloc, &tables.origins, build.number)?;
    let key = key_field(alloc, &tables.origins, build.number)?;
    Ok(vec![in alloc;
        depth, kind, number, part, name, quantity, batch, serial, state, how, day, key,
    ]?)
}

fn unknown_row(
    alloc: Global,
    shop: &Shop,
    tables: &TraceTables,
    step: Step,
    build: &Build,
) -> Result<Vec<String>, AllocError>
    requires { AreTables (state_of shop.now) tables.now }
    ensures { IfOk result (λ line.
        fields_of line ≡ unknown_row (state_of shop.now) step build.now) }
{
    let unknown = unknown_of(alloc, shop, tables, build.number)?;
    let depth = number_field(alloc, step.depth)?;
    let kind = String::from_str(alloc, "item")?;
    let part = number_field(alloc, build.part)?;
    let name = name_field(alloc, shop.catalogue(), build.part)?;
    let quantity = amount_field(alloc, unknown)?;
    let how = String::from_str(alloc, how_text(step.how))?;
    Ok(vec![in alloc;
        depth,
        kind,
        String::new(alloc),
        part,
        name,
        quantity,
        String::new(alloc),
        String::new(alloc),
        String::new(alloc),
        how,
        String::new(alloc),
        String::new(alloc),
    ]?)
}

/// The line of a delivery, and from whom it was.
fn delivery_where(alloc: Global, shop: &Shop, line: &OrderLine) -> Result<String, AllocError>
    ensures { IfOk result (λ text. string_bytes text
        ≡ delivery_where (state_of shop.now) line.now) }
{
    let number = line.number;
    match shop.orders().order(line.order) {
        Some(order) => {
            let partner = order.partner.as_str();
            format!(in alloc; "line {number} from {partner}")
        }
        None => format!(in alloc; "line {number} from "),
    }
}

fn delivery_row(
    alloc: Global,
    shop: &Shop,
    tables: &TraceTables,
    step: Step,
    item: Id,
    line: &OrderLine,
) -> Result<Vec<String>, AllocError>
    requires { AreTables (state_of shop.now) tables.now }
    ensures { IfOk result (λ row.
        fields_of row ≡ delivery_row (state_of shop.now) step item line.now) }
{
    let depth = number_field(alloc, step.depth)?;
    let kind = String::from_str(alloc, "order")?;
    let number = number_field(alloc, line.order)?;
    let part = number_field(alloc, line.part)?;
    let name = name_field(alloc, shop.catalogue(), line.part)?;
    let quantity = number_field(alloc, line.quantity)?;
    let batch = String::new(alloc);
    let serial = String::new(alloc);
    let place = delivery_where(alloc, shop, line)?;
    let how = String::from_str(alloc, how_text(step.how))?;
    let day = key_day_field(alloc, &tables.origins, item)?;
    let key = key_field(alloc, &tables.origins, item)?;
    Ok(vec![in alloc;
        depth, kind, number, part, name, quantity, batch, serial, place, how, day, key,
    ]?)
}

/// The row of what was shown above.
fn above_row(alloc: Global, step: Step, kind: &str, number: Id) -> Result<Vec<String>, AllocError>
    ensures { IfOk result (λ line. fields_of line ≡ above_row step kind.now number) }
{
    let depth = number_field(alloc, step.depth)?;
    let kind = String::from_str(alloc, kind)?;
    let number = number_field(alloc, number)?;
    let how = String::from_str(alloc, "above")?;
    Ok(vec![in alloc;
        depth,
        kind,
        number,
        String::new(alloc),
        String::new(alloc),
        String::new(alloc),
        String::new(alloc),
        String::new(alloc),
        String::new(alloc),
        how,
        String::new(alloc),
        String::new(alloc),
    ]?)
}

fn again_row(alloc: Global, step: Step) -> Result<Vec<String>, AllocError>
    ensures { IfOk result (λ line. fields_of line ≡ again_row step step.node) }
{
    match step.node {
        Node::Item(number) => above_row(alloc, step, "item", number),
        Node::Build(number) => above_row(alloc, step, "build", number),
        Node::Unknown(_) | Node::Delivery(_, _) => Ok(Vec::new(alloc)),
    }
}

fn first_row(
    alloc: Global,
    shop: &Shop,
    tables: &TraceTables,
    step: Step,
) -> Result<Vec<String>, AllocError>
    requires { AreTables (state_of shop.now) tables.now }
    ensures { IfOk result (λ line.
        fields_of line ≡ first_row (state_of shop.now) step step.node) }
{
    match step.node {
        Node::Item(number) => match shop.yard().item(number) {
            Some(item) => item_row(alloc, shop, tables, step, item),
            None => Ok(Vec::new(alloc)),
        },
        Node::Build(number) => match shop.builds().build(number) {
            Some(build) => build_row(alloc, shop, tables, step, build),
            None => Ok(Vec::new(alloc)),
        },
        Node::Unknown(number) => match shop.builds().build(number) {
            Some(build) => unknown_row(alloc, shop, tables, step, build),
            None => Ok(Vec::new(alloc)),
        },
        Node::Delivery(number, item) => match shop.orders().line(number) {
            Some(line) => delivery_row(alloc, shop, tables, step, item, line),
            None => Ok(Vec::new(alloc)),
        },
    }
}

fn step_row(
    alloc: Global,
    shop: &Shop,
    tables: &TraceTables,
    step: Step,
) -> Result<Vec<String>, AllocError>
    requires { AreTables (state_of shop.now) tables.now }
    ensures { IfOk result (λ line. fields_of line ≡ step_row (state_of shop.now) step) }
{
    if step.above {
        again_row(alloc, step)
    } else {
        first_row(alloc, shop, tables, step)
    }
}

/// The header, and a row for each step.
fn trace_lines(
    alloc: Global,
    shop: &Shop,
    tables: &TraceTables,
    steps: &[Step],
) -> Result<Vec<Vec<String>>, AllocError>
    requires { AreTables (state_of shop.now) tables.now }
    ensures { IfOk result (λ lines.
        lines_of lines.items ≡ trace_lines (state_of shop.now) steps.now) }
{
    let mut lines = vec![in alloc; trace_header(alloc)?]?;
    for step in steps {
        lines.push(step_row(alloc, shop, tables, *step)?)?;
    }
    Ok(lines)
}

/// A row for each step of the walk from these items. NoSuch where there is none of them.
#[tactic(auto, using(crate::proofs::TraceSome::trace_some))]
fn trace_list(
    alloc: Global,
    shop: &Shop,
    direction: Direction,
    roots: &[Id],
) -> Result<Report, CoreFault>
    requires { IsSoundState (state_of shop.now) }
    ensures { Gives (trace_list direction (state_of shop.now) roots.now) result }
{
    if roots.is_empty() {
        return Err(CoreFault::Refused(Refusal::NoSuch));
    }
    let tables = trace_tables(alloc, shop)?;
    let steps = walk(alloc, shop, &tables, direction, roots)?;
    let lines = trace_lines(alloc, shop, &tables, steps.as_slice())?;
    Ok(Report::new(lines))
}

/// The items of the batch, in order of number. It looks at all items.
fn batch_items(alloc: Global, shop: &Shop, batch: &str) -> Result<Vec<Id>, AllocError>
    ensures { IfOk result (λ numbers.
        numbers.items ≡ batch_items batch.now (state_of shop.now)) }
{
    let items = items_of_batch(shop, batch)?;
    numbers_of(alloc, items.as_slice())
}

/// The numbers of the items. An error is one of memory.
fn numbers_of(alloc: Global, items: &[&Item]) -> Result<Vec<Id>, AllocError>
    ensures { IfOk result (λ numbers. numbers.items
        ≡ map (λ x. x.number) (map (λ i. i.now) items.now)) }
{
    let mut numbers = Vec::new(alloc);
    for item in items {
        numbers.push(item.number)?;
    }
    Ok(numbers)
}

fn items_of_batch<'a>(shop: &'a Shop, batch: &str) -> Result<Vec<&'a Item>, AllocError>
    ensures { IfOk result (λ items. map (λ i. i.now) items.items
        ≡ filter (λ x. is_batch batch.now x.lot.batch)
        (table.values (state_of shop.now).stock.items)) }
{
    shop.yard().items().select(|item| is_batch(batch, item))
}

/// Whether the item is of the batch.
fn is_batch(batch: &str, item: &Item) -> bool
    ensures { result ≡ is_batch batch.now item.now.lot.batch }
{
    match &item.lot.batch {
        Some(own) => own.as_str() == batch,
        None => false,
    }
}

/// Whether any item is of the batch. It looks at all items.
pub fn has_batch(shop: &Shop, batch: &str) -> bool
    ensures { result ≡ has_batch batch.now (state_of shop.now) }
{
    shop.yard().items().any(|item| is_batch(batch, item))
}

/// Whether there is an item of that number.
pub fn is_item(shop: &Shop, number: Id) -> bool
    ensures { result ≡ is_item (state_of shop.now) number }
{
    shop.yard().item(number).is_some()
}

/// The items of the batch, of whatever part, and where each went: what it lies in, what builds made with it, what was cut
/// off it, and the same of those. NoSuch where no item is of it. It goes over the kept answers, the items and the history
/// once, and then takes time for what it shows.
pub fn batch_list(alloc: Global, shop: &Shop, batch: &str) -> Result<Report, CoreFault>
    requires { IsSoundState (state_of shop.now) }
    ensures { Gives (trace_list Direction.Forward (state_of shop.now)
        (batch_items batch.now (state_of shop.now))) result }
{
    let roots = batch_items(alloc, shop, batch)?;
    trace_list(alloc, shop, Direction::Forward, roots.as_slice())
}

/// The item, and its way forward or back: forward as of a batch, and back what lies in it, what its build used, the
/// delivery that it came with and what it was cut off, and the same of those. NoSuch where there is no such item.
pub fn item_trace(
    alloc: Global,
    shop: &Shop,
    direction: Direction,
    number: Id,
) -> Result<Report, CoreFault>
    requires { IsSoundState (state_of shop.now) }
    ensures { Gives (trace_list direction (state_of shop.now)
        (item_roots number (state_of shop.now))) result }
{
    if shop.yard().item(number).is_none() {
        return Err(CoreFault::Refused(Refusal::NoSuch));
    }
    trace_list(alloc, shop, direction, &[number])
}
