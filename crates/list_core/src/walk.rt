//! The way of items forward and back, as a walk from one row to the next.
ghost use Rattle.std.specs.Prelude.{◌≡◌, ◌+◌, ◌++◌, ◌∷◌, [], OnOk, IfOk, Some, flat_map, map, sum_by};
ghost use Rattle.desk_core.specs.Machine.{IsSoundState, is_build};
ghost use Rattle.desk_core.specs.ShopView.{state_of};
ghost use Rattle.sheet_core.specs.Sheet.{now_of};
ghost use Rattle.list_core.specs.Origins.{origin_at};
ghost use Rattle.list_core.specs.Trace.{after_build, after_item, after_place, before_build, before_item};
ghost use Rattle.list_core.specs.Trace.{build_child, children, delivery_child, has_delivery, item_child};
ghost use Rattle.list_core.specs.Trace.{item_children, known_outputs, origin_child, output_amount};
ghost use Rattle.list_core.specs.Trace.{outputs_begun, root_visit, source_child, unknown_child};
ghost use Rattle.list_core.specs.Trace.{unknown_outputs, visit_at, visits_after, walk};
ghost use Rattle.list_core.specs.TraceTables.{AreTables};

use crate::amounts::added;
use crate::lives::built_of;
use crate::origins::{Source, begun_numbers, cut_numbers};
use crate::shown::Shown;
use crate::trace_tables::TraceTables;
use crate::used::used_numbers;
use desk_core::Shop;
use part_core::Id;
use std::alloc::{AllocError, Global};
use std::collections::VecDeque;
use yard_core::Place;

/// Which way a walk goes.
#[derive(Clone, Copy, Debug, PartialEq, Eq)]
pub enum Direction {
    Forward,
    Back,
}

/// What a walk comes to.
#[derive(Clone, Copy, Debug, PartialEq, Eq)]
pub enum Node {
    Item(Id),
    Build(Id),
    /// The outputs of this build that no kept request began.
    Unknown(Id),
    /// The delivery of a line of an order with which an item came.
    Delivery(Id, Id),
}

/// How one row leads to the next.
#[derive(Clone, Copy, Debug, PartialEq, Eq)]
pub enum How {
    /// The walk begins here.
    Root,
    /// It holds the item.
    Holds,
    /// It used the item.
    Used,
    /// It was cut off the item.
    CutOff,
    /// It was begun for the build.
    Begun,
    /// It is an output of the build, and no more is known.
    Unknown,
    /// It lies inside the item.
    Inside,
    /// It made the item.
    Made,
    /// It brought the item.
    Delivered,
    /// The item was cut off this.
    Cut,
    /// It was used for the build.
    UsedFor,
}

/// What a node leads to, and how.
#[derive(Clone, Copy, Debug)]
pub struct Child {
    pub node: Node,
    pub how: How,
}

/// A node that is to be visited.
#[derive(Clone, Copy, Debug)]
pub struct Visit {
    pub node: Node,
    pub how: How,
    pub depth: u64,
}

/// A step of a walk. `above` says that its node is that of an earlier step.
#[derive(Clone, Copy, Debug)]
pub struct Step {
    pub node: Node,
    pub how: How,
    pub depth: u64,
    pub above: bool,
}

/// Adds the item of that number, if there is one.
fn push_item(shop: &Shop, number: Id, how: How, found: &mut Vec<Child>) -> Result<(), AllocError>
    ensures { OnOk result (found.new.items
        ≡ found.old.items ++ item_child (state_of shop.now) how number) }
{
    if shop.yard().item(number).is_some() {
        found.push(Child {
            node: Node::Item(number),
            how,
        })?;
    }
    Ok(())
}

/// Adds the items of these numbers that there are.
fn push_items(
    shop: &Shop,
    numbers: &[Id],
    how: How,
    found: &mut Vec<Child>,
) -> Result<(), AllocError>
    ensures { OnOk result (found.new.items
        ≡ found.old.items ++ item_children (state_of shop.now) how numbers.now) }
{
    for number in numbers {
        push_item(shop, *number, how, found)?;
    }
    Ok(())
}

/// Adds the build of that number, if there is one.
fn push_build(shop: &Shop, number: Id, how: How, found: &mut Vec<Child>) -> Result<(), AllocError>
    ensures { OnOk result (found.new.items
        ≡ found.old.items ++ build_child (state_of shop.now) how number) }
{
    if shop.builds().has_build(number) {
        found.push(Child {
            node: Node::Build(number),
            how,
        })?;
    }
    Ok(())
}

/// Adds what lies round something that is at that place, or the build that used it.
fn push_after_place(shop: &Shop, place: Place, found: &mut Vec<Child>) -> Result<(), AllocError>
    ensures { OnOk result (found.new.items
        ≡ found.old.items ++ after_place (state_of shop.now) place) }
{
    match place {
        Place::In(holder) => push_item(shop, holder, How::Holds, found),
        Place::Used(build) => push_build(shop, build, How::Used, found),
        _ => Ok(()),
    }
}

/// Adds what an item leads to.
fn push_after_item(
    alloc: Global,
    shop: &Shop,
    tables: &TraceTables,
    number: Id,
    found: &mut Vec<Child>,
) -> Result<(), AllocError>
    requires { AreTables (state_of shop.now) tables.now }
    ensures { OnOk result (found.new.items
        ≡ found.old.items ++ after_item (state_of shop.now) number) }
{
    let Some(item) = shop.yard().item(number) else {
        return Ok(());
    };
    push_after_place(shop, item.place, found)?;
    let pieces = cut_numbers(alloc, &tables.origins, number)?;
    push_items(shop, pieces.as_slice(), How::CutOff, found)
}

/// How many of the build's outputs the item is or was.
fn output_amount(shop: &Shop, tables: &TraceTables, build: Id, number: Id) -> u128
    requires { AreTables (state_of shop.now) tables.now }
    ensures { result ≡ output_amount (state_of shop.now) build number }
{
    match shop.yard().item(number) {
        Some(item) => {
            if item.place.is_output_of(build) {
                u128::from(item.quantity)
            } else {
                built_of(&tables.lives, number)
            }
        }
        None => 0,
    }
}

/// How many of the build's outputs these items are or were.
fn known_amount(
    shop: &Shop,
    tables: &TraceTables,
    build: Id,
    numbers: &[Id],
) -> Result<u128, AllocError>
    requires { AreTables (state_of shop.now) tables.now }
    ensures { IfOk result (λ sum. sum
        ≡ sum_by (output_amount (state_of shop.now) build) numbers.now) }
{
    let mut known = 0;
    for number in numbers {
        known = added(known, output_amount(shop, tables, build, *number))?;
    }
    Ok(known)
}

/// How many of the build's outputs aren't among these, which are all that kept requests began.
fn unknown_outputs(
    shop: &Shop,
    tables: &TraceTables,
    build: Id,
    numbers: &[Id],
) -> Result<u128, AllocError>
    requires tables { AreTables (state_of shop.now) tables.now }
    requires begun { numbers.now ≡ outputs_begun build (state_of shop.now) }
    ensures { IfOk result (λ unknown. unknown ≡ unknown_outputs (state_of shop.now) build) }
{
    let done = match shop.builds().build(build) {
        Some(build) => build.done,
        None => 0,
    };
    let known = known_amount(shop, tables, build, numbers)?;
    let all = added(u128::from(done), shop.yard().quantity_out(build))?;
    Ok(all.saturating_sub(known))
}

/// How many of the build's outputs no kept request began. An error is one of memory.
pub(crate) fn unknown_of(
    alloc: Global,
    shop: &Shop,
    tables: &TraceTables,
    build: Id,
) -> Result<u128, AllocError>
    requires { AreTables (state_of shop.now) tables.now }
    ensures { IfOk result (λ unknown. unknown ≡ unknown_outputs (state_of shop.now) build) }
{
    let outputs = begun_numbers(alloc, &tables.origins, build)?;
    unknown_outputs(shop, tables, build, outputs.as_slice())
}

/// Adds what a build leads to.
fn push_after_build(
    alloc: Global,
    shop: &Shop,
    tables: &TraceTables,
    build: Id,
    found: &mut Vec<Child>,
) -> Result<(), AllocError>
    requires { AreTables (state_of shop.now) tables.now }
    ensures { OnOk result (found.new.items
        ≡ found.old.items ++ after_build (state_of shop.now) build) }
{
    let outputs = begun_numbers(alloc, &tables.origins, build)?;
    push_items(shop, outputs.as_slice(), How::Begun, found)?;
    if unknown_outputs(shop, tables, build, outputs.as_slice())? > 0 {
        found.push(Child {
            node: Node::Unknown(build),
            how: How::Unknown,
        })?;
    }
    Ok(())
}

/// Whether there is the line of an order, and its order.
fn has_delivery(shop: &Shop, line: Id) -> bool
    ensures { result ≡ has_delivery (state_of shop.now) line }
{
    match shop.orders().line(line) {
        Some(line) => shop.orders().order(line.order).is_some(),
        None => false,
    }
}

/// Adds the delivery of that line with which the item came, if there is one.
fn push_delivery(shop: &Shop, line: Id, item: Id, found: &mut Vec<Child>) -> Result<(), AllocError>
    ensures { OnOk result (found.new.items
        ≡ found.old.items ++ delivery_child (state_of shop.now) line item) }
{
    if has_delivery(shop, line) {
        found.push(Child {
            node: Node::Delivery(line, item),
            how: How::Delivered,
        })?;
    }
    Ok(())
}

/// Adds what an item came from, by what its origin says.
fn push_source(
    shop: &Shop,
    number: Id,
    source: Source,
    found: &mut Vec<Child>,
) -> Result<(), AllocError>
    ensures { OnOk result (found.new.items
        ≡ found.old.items ++ source_child (state_of shop.now) number source) }
{
    match source {
        Source::Begun(build) => push_build(shop, build, How::Made, found),
        Source::Received(line) => push_delivery(shop, line, number, found),
        Source::CutOff(item) => push_item(shop, item, How::Cut, found),
        Source::Made => Ok(()),
    }
}

/// Adds what an item came from, where it has an origin.
fn push_origin(
    shop: &Shop,
    tables: &TraceTables,
    number: Id,
    found: &mut Vec<Child>,
) -> Result<(), AllocError>
    ensures { OnOk result (found.new.items ≡ found.old.items
        ++ origin_child (state_of shop.now) number (origin_at number (now_of tables.now.origins))) }
{
    match tables.origins.get(number) {
        Some(origin) => push_source(shop, number, origin.source, found),
        None => Ok(()),
    }
}

/// Adds what leads to an item.
fn push_before_item(
    shop: &Shop,
    tables: &TraceTables,
    number: Id,
    found: &mut Vec<Child>,
) -> Result<(), AllocError>
    requires { AreTables (state_of shop.now) tables.now }
    ensures { OnOk result (found.new.items
        ≡ found.old.items ++ before_item (state_of shop.now) number) }
{
    let inside = shop.yard().children(number)?;
    push_items(shop, inside.as_slice(), How::Inside, found)?;
    push_origin(shop, tables, number, found)
}

/// Adds what leads to a build.
fn push_before_build(
    alloc: Global,
    shop: &Shop,
    tables: &TraceTables,
    build: Id,
    found: &mut Vec<Child>,
) -> Result<(), AllocError>
    requires { AreTables (state_of shop.now) tables.now }
    ensures { OnOk result (found.new.items
        ≡ found.old.items ++ before_build (state_of shop.now) build) }
{
    let used = used_numbers(alloc, &tables.used, build)?;
    push_items(shop, used.as_slice(), How::UsedFor, found)
}

/// What a node leads to. An error is one of memory.
fn children(
    alloc: Global,
    shop: &Shop,
    tables: &TraceTables,
    direction: Direction,
    node: Node,
) -> Result<Vec<Child>, AllocError>
    requires { AreTables (state_of shop.now) tables.now }
    ensures { IfOk result (λ found.
        found.items ≡ children direction (state_of shop.now) node) }
{
    let mut found = Vec::new(alloc);
    match direction {
        Direction::Forward => match node {
            Node::Item(number) => push_after_item(alloc, shop, tables, number, &mut found)?,
            Node::Build(number) => push_after_build(alloc, shop, tables, number, &mut found)?,
            Node::Unknown(_) | Node::Delivery(_, _) => {}
        },
        Direction::Back => match node {
            Node::Item(number) => push_before_item(shop, tables, number, &mut found)?,
            Node::Build(number) => push_before_build(alloc, shop, tables, number, &mut found)?,
            Node::Unknown(_) | Node::Delivery(_, _) => {}
        },
    }
    Ok(found)
}

/// Puts the children before what is to be visited.
fn put_before(
    children: &[Child],
    depth: u64,
    visits: &mut VecDeque<Visit>,
) -> Result<(), AllocError>
    ensures { OnOk result (visits.new.items
        ≡ map (visit_at depth) children.now ++ visits.old.items) }
{
    let mut left = children.len();
    while left > 0 {
        left -= 1;
        let child = children[left];
        visits.push_front(Visit {
            node: child.node,
            how: child.how,
            depth,
        })?;
    }
    Ok(())
}

/// Puts what is to be visited right after a step before the rest.
fn put_after_step(
    alloc: Global,
    shop: &Shop,
    tables: &TraceTables,
    direction: Direction,
    step: Step,
    visits: &mut VecDeque<Visit>,
) -> Result<(), AllocError>
    requires { AreTables (state_of shop.now) tables.now }
    ensures { OnOk result (visits.new.items
        ≡ visits_after direction (state_of shop.now) step ++ visits.old.items) }
{
    if step.above {
        return Ok(());
    }
    let depth = step.depth.checked_add(1).ok_or(AllocError)?;
    let found = children(alloc, shop, tables, direction, step.node)?;
    put_before(found.as_slice(), depth, visits)
}

/// The visits that a walk begins with.
fn root_visits(alloc: Global, roots: &[Id]) -> Result<VecDeque<Visit>, AllocError>
    ensures { IfOk result (λ visits. visits.items ≡ map root_visit roots.now) }
{
    let mut visits = VecDeque::new(alloc);
    for root in roots {
        visits.push_back(Visit {
            node: Node::Item(*root),
            how: How::Root,
            depth: 0,
        })?;
    }
    Ok(visits)
}

/// The steps of the walk from these items: each item and each build once, but for the words that it was shown above. It
/// takes time for what it shows alone. An error is one of memory.
pub(crate) fn walk(
    alloc: Global,
    shop: &Shop,
    tables: &TraceTables,
    direction: Direction,
    roots: &[Id],
) -> Result<Vec<Step>, AllocError>
    requires { AreTables (state_of shop.now) tables.now }
    ensures { IfOk result (λ steps.
        walk direction (state_of shop.now) roots.now ≡ Some steps.items) }
{
    let mut visits = root_visits(alloc, roots)?;
    let mut shown = Shown::new(alloc);
    let mut steps = Vec::new(alloc);
    for _count in 0..u64::MAX {
        let visit = match visits.pop_front() {
            Some(visit) => visit,
            None => return Ok(steps),
        };
        let step = Step {
            node: visit.node,
            how: visit.how,
            depth: visit.depth,
            above: shown.has(visit.node),
        };
        put_after_step(alloc, shop, tables, direction, step, &mut visits)?;
        shown.add(visit.node)?;
        steps.push(step)?;
    }
    Err(AllocError)
}
