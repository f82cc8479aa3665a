//! Sheets of items and of a shop, and what is pending in them.
ghost use Rattle.desk_core.specs.Machine.{IsSoundState};
ghost use Rattle.desk_core.specs.ShopView.{state_of};

use crate::outcomes::{Wanted, holds, plays};
use crate::requests::{
    allocate_output, allocate_sale, assembly, auto_allocate, build, cancel_build, cancel_output,
    category, complete_build, complete_output, component, drop_line, found, hold_build,
    issue_build, issue_order, line, location, order_line, part, release, return_item, salable,
    sale, scrap_output, serialised, ship, substitute, transfer,
};
use desk_core::{Key, Request, Shop};
use part_core::{Limits, Seed, Serial, Sheet, Status};
use std::alloc::{AllocError, Global};
use std::test::Fail;
use yard_core::{Item, Lot, Place};

fn item(alloc: Global, number: u64) -> Result<Item, AllocError> {
    Ok(Item {
        number,
        part: 7,
        lot: Lot {
            batch: None,
            serial: Serial::new(String::from_str(alloc, "A-1")?),
            status: Status::Okay,
        },
        quantity: 1,
        place: Place::At(1),
    })
}

#[test]
fn kept_and_taken_back(rt: HostRuntime) -> Result<(), Fail> {
    let alloc = rt.alloc();
    let mut sheet = Sheet::new(alloc, Seed::new(0));
    sheet.put(item(alloc, 1)?)?;
    sheet.put(item(alloc, 2)?)?;
    sheet.keep();
    assert_eq!(rt; sheet.pending()?.len(), 0);
    assert_eq!(rt; sheet.len(), 2);
    assert!(rt; sheet.get(&1).is_some());
    let row = sheet.get_mut(1)?;
    row.quantity = 5;
    sheet.remove(&2)?;
    assert_eq!(rt; sheet.pending()?.len(), 2);
    assert_eq!(rt; sheet.len(), 1);
    sheet.back();
    assert_eq!(rt; sheet.pending()?.len(), 0);
    assert_eq!(rt; sheet.len(), 2);
    assert_eq!(rt; sheet.get(&1).map_or(0, |row| row.quantity), 1);
    assert_eq!(rt; sheet.get(&2).map_or(0, |row| row.quantity), 1);
    Ok(())
}

/// How many rows of each sheet are pending.
fn pending(alloc: Global, shop: &Shop) -> Result<Vec<usize>, AllocError> {
    let mut counts = Vec::new(alloc);
    counts.push(shop.catalogue().categories().pending()?.len())?;
    counts.push(shop.catalogue().parts().pending()?.len())?;
    counts.push(shop.boms().lines().pending()?.len())?;
    counts.push(shop.boms().substitutes().pending()?.len())?;
    counts.push(shop.yard().locations().pending()?.len())?;
    counts.push(shop.yard().items().pending()?.len())?;
    counts.push(shop.yard().whole_history().pending().len())?;
    counts.push(shop.answers().pending()?.len())?;
    counts.push(shop.orders().orders().pending()?.len())?;
    counts.push(shop.orders().lines().pending()?.len())?;
    counts.push(shop.allocations().rows().pending()?.len())?;
    counts.push(shop.builds().rows().pending()?.len())?;
    Ok(counts)
}

/// Runs the request, and fails where other rows are pending after it: categories, parts, lines,
/// substitutes, locations, items, entries, kept answers, orders, their lines, allocations and builds.
fn changes(
    alloc: Global,
    shop: &mut Shop,
    request: Request,
    wanted: Wanted,
    rows: [usize; 12],
) -> Result<(), Fail>
    requires { IsSoundState (state_of shop.old) }
    ensures { IsSoundState (state_of shop.new) }
{
    let mut requests = Vec::new(alloc);
    requests.push(request)?;
    plays(alloc, shop, requests, &[wanted])?;
    holds(
        pending(alloc, shop)?.as_slice() == rows.as_slice(),
        "other rows pending",
    )
}

fn with_key(alloc: Global, mut request: Request) -> Result<Request, Fail> {
    request.key = Key::new(String::from_str(alloc, "k")?);
    Ok(request)
}

fn change_each_sheet(alloc: Global, shop: &mut Shop) -> Result<(), Fail>
    requires { IsSoundState (state_of shop.old) }
{
    let mut assembly = component();
    assembly.assembly = true;
    let screw = part(alloc, "Screw", None, component())?;
    let robot = part(alloc, "Robot", None, assembly)?;
    changes(
        alloc,
        shop,
        category(alloc, "All", None)?,
        Wanted::Drawn(1, 0),
        [1, 0, 0, 0, 0, 0, 0, 0, 0, 0, 0, 0],
    )?;
    changes(
        alloc,
        shop,
        screw,
        Wanted::Drawn(2, 0),
        [0, 1, 0, 0, 0, 0, 0, 0, 0, 0, 0, 0],
    )?;
    changes(
        alloc,
        shop,
        robot,
        Wanted::Drawn(3, 0),
        [0, 1, 0, 0, 0, 0, 0, 0, 0, 0, 0, 0],
    )?;
    changes(
        alloc,
        shop,
        part(alloc, "Bolt", None, component())?,
        Wanted::Drawn(4, 0),
        [0, 1, 0, 0, 0, 0, 0, 0, 0, 0, 0, 0],
    )?;
    changes(
        alloc,
        shop,
        line(3, 2, 8)?,
        Wanted::Drawn(5, 0),
        [0, 0, 1, 0, 0, 0, 0, 0, 0, 0, 0, 0],
    )?;
    changes(
        alloc,
        shop,
        substitute(5, 4)?,
        Wanted::Drawn(6, 0),
        [0, 0, 0, 1, 0, 0, 0, 0, 0, 0, 0, 0],
    )?;
    changes(
        alloc,
        shop,
        location(alloc, "A", None)?,
        Wanted::Drawn(7, 0),
        [0, 0, 0, 0, 1, 0, 0, 0, 0, 0, 0, 0],
    )?;
    changes(
        alloc,
        shop,
        with_key(alloc, found(2, 7, 9)?)?,
        Wanted::Drawn(8, 1),
        [0, 0, 0, 0, 0, 1, 1, 1, 0, 0, 0, 0],
    )?;
    changes(
        alloc,
        shop,
        with_key(alloc, found(2, 7, 9)?)?,
        Wanted::Drawn(8, 1),
        [0, 0, 0, 0, 0, 0, 0, 0, 0, 0, 0, 0],
    )?;
    changes(
        alloc,
        shop,
        transfer(8, 7, 4)?,
        Wanted::Drawn(9, 2),
        [0, 0, 0, 0, 0, 2, 2, 0, 0, 0, 0, 0],
    )?;
    changes(
        alloc,
        shop,
        drop_line(5)?,
        Wanted::Done(0),
        [0, 0, 1, 1, 0, 0, 0, 0, 0, 0, 0, 0],
    )
}

/// After a request each sheet of the shop has pending what that request changed, and nothing else.
#[test]
fn what_a_request_changed(rt: HostRuntime) -> Result<(), Fail> {
    let alloc = rt.alloc();
    let mut shop = Shop::new(alloc, Seed::new(0), Limits::LARGEST);
    change_each_sheet(alloc, &mut shop)
}

fn stock_a_lamp(alloc: Global, shop: &mut Shop) -> Result<(), Fail>
    requires { IsSoundState (state_of shop.old) }
    ensures { IsSoundState (state_of shop.new) }
{
    let mut requests = Vec::new(alloc);
    requests.push(location(alloc, "A", None)?)?;
    requests.push(part(alloc, "Lamp", None, salable())?)?;
    requests.push(found(2, 1, 9)?)?;
    let wanted = [
        Wanted::Drawn(1, 0),
        Wanted::Drawn(2, 0),
        Wanted::Drawn(3, 1),
    ];
    plays(alloc, shop, requests, &wanted)
}

fn change_each_sheet_of_orders(alloc: Global, shop: &mut Shop) -> Result<(), Fail>
    requires { IsSoundState (state_of shop.old) }
{
    changes(
        alloc,
        shop,
        sale(alloc, "Acme")?,
        Wanted::Drawn(4, 0),
        [0, 0, 0, 0, 0, 0, 0, 0, 1, 0, 0, 0],
    )?;
    changes(
        alloc,
        shop,
        order_line(4, 2, 5)?,
        Wanted::Drawn(5, 0),
        [0, 0, 0, 0, 0, 0, 0, 0, 0, 1, 0, 0],
    )?;
    changes(
        alloc,
        shop,
        issue_order(4)?,
        Wanted::Done(0),
        [0, 0, 0, 0, 0, 0, 0, 0, 1, 0, 0, 0],
    )?;
    changes(
        alloc,
        shop,
        allocate_sale(5, 3, 4)?,
        Wanted::Drawn(6, 0),
        [0, 0, 0, 0, 0, 0, 0, 0, 0, 0, 1, 0],
    )?;
    changes(
        alloc,
        shop,
        allocate_sale(5, 3, 1)?,
        Wanted::Drawn(7, 0),
        [0, 0, 0, 0, 0, 0, 0, 0, 0, 0, 1, 0],
    )?;
    changes(
        alloc,
        shop,
        release(7)?,
        Wanted::Done(0),
        [0, 0, 0, 0, 0, 0, 0, 0, 0, 0, 1, 0],
    )?;
    changes(
        alloc,
        shop,
        ship(4)?,
        Wanted::Drawn(8, 2),
        [0, 0, 0, 0, 0, 2, 2, 0, 0, 1, 1, 0],
    )?;
    changes(
        alloc,
        shop,
        return_item(8, 1)?,
        Wanted::Done(2),
        [0, 0, 0, 0, 0, 1, 2, 0, 0, 0, 0, 0],
    )
}

#[test]
fn what_a_request_changed_of_orders(rt: HostRuntime) -> Result<(), Fail> {
    let alloc = rt.alloc();
    let mut shop = Shop::new(alloc, Seed::new(0), Limits::LARGEST);
    stock_a_lamp(alloc, &mut shop)?;
    change_each_sheet_of_orders(alloc, &mut shop)
}

/// So many rows of items, entries, allocations and builds, and none of another sheet.
fn rows(items: usize, entries: usize, allocations: usize, builds: usize) -> [usize; 12] {
    [0, 0, 0, 0, 0, items, entries, 0, 0, 0, allocations, builds]
}

/// Ten bolts, item 7, and two motors, item 8; a robot has ten bolts by line 5 and a motor by line 6.
fn stock_robots(alloc: Global, shop: &mut Shop) -> Result<(), Fail>
    requires { IsSoundState (state_of shop.old) }
    ensures { IsSoundState (state_of shop.new) }
{
    let mut requests = Vec::new(alloc);
    requests.push(location(alloc, "A", None)?)?;
    requests.push(part(alloc, "Bolt", None, component())?)?;
    requests.push(part(alloc, "Motor", None, assembly())?)?;
    requests.push(part(alloc, "Robot", None, assembly())?)?;
    requests.push(line(4, 2, 10)?)?;
    requests.push(line(4, 3, 1)?)?;
    requests.push(found(2, 1, 10)?)?;
    requests.push(found(3, 1, 2)?)?;
    let wanted = [
        Wanted::Drawn(1, 0),
        Wanted::Drawn(2, 0),
        Wanted::Drawn(3, 0),
        Wanted::Drawn(4, 0),
        Wanted::Drawn(5, 0),
        Wanted::Drawn(6, 0),
        Wanted::Drawn(7, 1),
        Wanted::Drawn(8, 1),
    ];
    plays(alloc, shop, requests, &wanted)
}

/// A robot is built: its motor is cut off from two, and all bolts are used.
fn change_for_a_build(alloc: Global, shop: &mut Shop) -> Result<(), Fail>
    requires { IsSoundState (state_of shop.old) }
    ensures { IsSoundState (state_of shop.new) }
{
    let (done, state) = (Wanted::Done(0), rows(0, 0, 0, 1));
    let planned = build(4, 1)?;
    let begun = serialised(alloc, 9, 1, "R1")?;
    let motor = allocate_output(10, 9, 6, 8, 1)?;
    let bolts = auto_allocate(9)?;
    let fitted = complete_output(10, 1)?;
    let used = complete_build(9)?;
    changes(alloc, shop, planned, Wanted::Drawn(9, 0), state)?;
    changes(alloc, shop, issue_build(9)?, done, state)?;
    changes(alloc, shop, hold_build(9)?, done, state)?;
    changes(alloc, shop, issue_build(9)?, done, state)?;
    changes(alloc, shop, begun, Wanted::Drawn(10, 0), rows(1, 0, 0, 0))?;
    changes(alloc, shop, motor, Wanted::Drawn(11, 0), rows(0, 0, 1, 0))?;
    changes(alloc, shop, bolts, Wanted::Drawn(12, 0), rows(0, 0, 1, 0))?;
    changes(alloc, shop, auto_allocate(9)?, done, rows(0, 0, 0, 0))?;
    changes(alloc, shop, fitted, Wanted::Drawn(13, 3), rows(3, 3, 1, 1))?;
    changes(alloc, shop, used, Wanted::Done(1), rows(1, 1, 1, 1))
}

/// Of another build's outputs one is scrapped, one given up, and two go with the build.
fn change_for_outputs(alloc: Global, shop: &mut Shop) -> Result<(), Fail>
    requires { IsSoundState (state_of shop.old) }
{
    let (done, item) = (Wanted::Done(0), rows(1, 0, 0, 0));
    let planned = build(4, 3)?;
    let first = serialised(alloc, 14, 1, "R2")?;
    let second = serialised(alloc, 14, 1, "R3")?;
    let third = serialised(alloc, 14, 1, "R3")?;
    let fourth = serialised(alloc, 14, 1, "R4")?;
    let motor = allocate_output(15, 14, 6, 8, 1)?;
    let again = allocate_output(18, 14, 6, 8, 1)?;
    let scrapped = scrap_output(15)?;
    changes(alloc, shop, planned, Wanted::Drawn(14, 0), rows(0, 0, 0, 1))?;
    changes(alloc, shop, issue_build(14)?, done, rows(0, 0, 0, 1))?;
    changes(alloc, shop, first, Wanted::Drawn(15, 0), item)?;
    changes(alloc, shop, second, Wanted::Drawn(16, 0), item)?;
    changes(alloc, shop, motor, Wanted::Drawn(17, 0), rows(0, 0, 1, 0))?;
    changes(alloc, shop, scrapped, Wanted::Done(2), rows(1, 2, 1, 0))?;
    changes(alloc, shop, cancel_output(16)?, done, item)?;
    changes(alloc, shop, third, Wanted::Drawn(18, 0), item)?;
    changes(alloc, shop, fourth, Wanted::Drawn(19, 0), item)?;
    changes(alloc, shop, again, Wanted::Drawn(20, 0), rows(0, 0, 1, 0))?;
    changes(alloc, shop, cancel_build(14)?, done, rows(2, 0, 1, 1))
}

#[test]
fn what_a_request_changed_of_builds(rt: HostRuntime) -> Result<(), Fail> {
    let alloc = rt.alloc();
    let mut shop = Shop::new(alloc, Seed::new(0), Limits::LARGEST);
    stock_robots(alloc, &mut shop)?;
    change_for_a_build(alloc, &mut shop)?;
    change_for_outputs(alloc, &mut shop)
}
