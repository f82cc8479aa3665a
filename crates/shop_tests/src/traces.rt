//! The lists of the way of items, on a shop that requests have made with keys and without.
//!
//! Ten regulators come in two batches, L22 and L23, items 8 and 9. Two of L22 are split off, item 10, and go into the lamps
//! of build 11: 12, 13, which is thrown away, and 14. Lamp 12 is installed in rig 16, which Acme buys; Bolt buys lamp 14,
//! and sends it back. What went where was worked out by hand.
ghost use Rattle.std.specs.Prelude.{IfOk};
ghost use Rattle.desk_core.specs.Machine.{IsSoundState};
ghost use Rattle.desk_core.specs.ShopView.{state_of};

use crate::outcomes::{holds, runs};
use crate::requests::{
    allocate_build, allocate_sale, build, complete_build, complete_output, component, found_one,
    install, issue_build, issue_order, keyed, line, location, of_stock, order_line, part, purchase,
    received_batch, return_item, sale, scrap_output, serialised, ship,
};
use desk_core::{Request, Shop};
use list_core::{Listing, has_batch, listed};
use part_core::{CoreFault, Flags, Limits, Refusal, Seed};
use std::alloc::Global;
use std::test::Fail;
use stock_core::StockCommand;

/// The request under this key, or without one.
fn noted(alloc: Global, noting: bool, key: &str, request: Request) -> Result<Request, Fail> {
    if noting {
        keyed(alloc, key, request)
    } else {
        Ok(request)
    }
}

/// The parts, and the delivery of the regulators.
fn delivered(alloc: Global, noting: bool) -> Result<Vec<Request>, Fail> {
    let mut regulator = component();
    regulator.purchaseable = true;
    let mut lamp = component();
    lamp.assembly = true;
    lamp.trackable = true;
    lamp.salable = true;
    let mut rig = Flags::default();
    rig.assembly = true;
    rig.trackable = true;
    rig.salable = true;
    let first = received_batch(alloc, 7, 1, 5, "L22")?;
    let second = received_batch(alloc, 7, 1, 5, "L23")?;
    let mut requests = Vec::new(alloc);
    requests.push(location(alloc, "A", None)?)?;
    requests.push(part(alloc, "Regulator", None, regulator)?)?;
    requests.push(part(alloc, "Lamp", None, lamp)?)?;
    requests.push(part(alloc, "Rig", None, rig)?)?;
    requests.push(line(3, 2, 1)?)?;
    requests.push(purchase(alloc, "Volt")?)?;
    requests.push(order_line(6, 2, 10)?)?;
    requests.push(issue_order(6)?)?;
    requests.push(noted(alloc, noting, "2030-01-02/1", first)?)?;
    requests.push(noted(alloc, noting, "2030-01-03/2", second)?)?;
    Ok(requests)
}

/// The lamps, of regulators of the batch L22.
fn built(alloc: Global, noting: bool) -> Result<Vec<Request>, Fail> {
    let pieces = of_stock(StockCommand::Split {
        item: 8,
        quantity: 2,
    })?;
    let begun = serialised(alloc, 11, 2, "L1,L2")?;
    let last = serialised(alloc, 11, 1, "L3")?;
    let mut requests = Vec::new(alloc);
    requests.push(noted(alloc, noting, "2030-01-04/3", pieces)?)?;
    requests.push(build(3, 2)?)?;
    requests.push(issue_build(11)?)?;
    requests.push(noted(alloc, noting, "2030-02-01/4", begun)?)?;
    requests.push(scrap_output(13)?)?;
    requests.push(noted(alloc, noting, "later/5", last)?)?;
    requests.push(allocate_build(11, 5, 10, 2)?)?;
    requests.push(complete_output(12, 1)?)?;
    requests.push(complete_output(14, 1)?)?;
    requests.push(complete_build(11)?)?;
    Ok(requests)
}

/// A lamp in a rig that is sold, and a lamp that comes back.
fn sold(alloc: Global) -> Result<Vec<Request>, Fail> {
    let mut requests = Vec::new(alloc);
    requests.push(found_one(alloc, 4, 1, "RIG")?)?;
    requests.push(line(4, 3, 1)?)?;
    requests.push(install(12, 16, 1)?)?;
    requests.push(sale(alloc, "Acme")?)?;
    requests.push(order_line(18, 4, 1)?)?;
    requests.push(issue_order(18)?)?;
    requests.push(allocate_sale(19, 16, 1)?)?;
    requests.push(ship(18)?)?;
    requests.push(sale(alloc, "Bolt")?)?;
    requests.push(order_line(21, 3, 1)?)?;
    requests.push(issue_order(21)?)?;
    requests.push(allocate_sale(22, 14, 1)?)?;
    requests.push(ship(21)?)?;
    requests.push(return_item(14, 1)?)?;
    Ok(requests)
}

/// The shop that all of these requests make, with keys or without.
fn workshop(alloc: Global, noting: bool) -> Result<Shop, Fail>
    ensures { IfOk result (λ shop. IsSoundState (state_of shop)) }
{
    let mut shop = Shop::new(alloc, Seed::new(0), Limits::LARGEST);
    runs(alloc, &mut shop, delivered(alloc, noting)?)?;
    runs(alloc, &mut shop, built(alloc, noting)?)?;
    runs(alloc, &mut shop, sold(alloc)?)?;
    Ok(shop)
}

const HEADER: &'static str =
    "depth\tkind\tnumber\tpart\tname\tquantity\tbatch\tserial\twhere\thow\tday\tkey";

/// That the list is these lines behind the header.
fn tells(
    alloc: Global,
    shop: &Shop,
    listing: Listing<'_>,
    wanted: &[&'static str],
) -> Result<(), Fail>
    requires { IsSoundState (state_of shop.now) }
{
    let mut text = String::new(alloc);
    text.push_str(HEADER)?;
    for line in wanted {
        text.push_str("\n")?;
        text.push_str(line)?;
    }
    text.push_str("\n")?;
    let told = listed(alloc, shop, listing)?.text(alloc)?;
    holds(told.as_str() == text.as_str(), "another list")
}

fn finds_nothing(alloc: Global, shop: &Shop, listing: Listing<'_>) -> Result<(), Fail>
    requires { IsSoundState (state_of shop.now) }
{
    let result = listed(alloc, shop, listing);
    holds(
        matches!(result, Err(CoreFault::Refused(Refusal::NoSuch))),
        "there is such a row",
    )
}

/// Where the batch L22 went: into all that the build made, the lamp that was thrown away too, and into the rig. What was
/// split off it is shown once.
#[test]
fn follows_a_batch(rt: HostRuntime) -> Result<(), Fail> {
    let alloc = rt.alloc();
    let shop = workshop(alloc, true)?;
    tells(
        alloc,
        &shop,
        Listing::TraceBatch("L22"),
        &[
            "0\titem\t8\t2\tRegulator\t3\tL22\t\tA\t\t2030-01-02\t2030-01-02/1",
            "1\titem\t10\t2\tRegulator\t2\tL22\t\tused 11\tcut off it\t2030-01-02\t2030-01-04/3",
            "2\tbuild\t11\t3\tLamp\t2\t\t\tcomplete\tused it\t\t",
            "3\titem\t12\t3\tLamp\t1\t\tL1\tin 16\tbegun for it\t2030-01-02\t2030-02-01/4",
            "4\titem\t16\t4\tRig\t1\t\tRIG\tsent 18 to Acme\tholds it\t2030-01-02\t",
            "3\titem\t13\t3\tLamp\t1\t\tL2\toff scrapped\tbegun for it\t2030-01-02\t2030-02-01/4",
            "3\titem\t14\t3\tLamp\t1\t\tL3\tA\tbegun for it\t2030-01-02\tlater/5",
            "0\titem\t10\t\t\t\t\t\t\tabove\t\t",
        ],
    )
}

/// The batch that no build used, and a batch that no item has.
#[test]
fn follows_another_batch(rt: HostRuntime) -> Result<(), Fail> {
    let alloc = rt.alloc();
    let shop = workshop(alloc, true)?;
    holds(has_batch(&shop, "L23"), "no item has the batch")?;
    holds(!has_batch(&shop, "L2"), "an item has the batch")?;
    tells(
        alloc,
        &shop,
        Listing::TraceBatch("L23"),
        &["0\titem\t9\t2\tRegulator\t5\tL23\t\tA\t\t2030-01-02\t2030-01-03/2"],
    )?;
    finds_nothing(alloc, &shop, Listing::TraceBatch("L2"))
}

/// Without keys nothing tells what was cut off what, nor for which build the lamps were begun: of the build's outputs it
/// says how many.
#[test]
fn follows_without_keys(rt: HostRuntime) -> Result<(), Fail> {
    let alloc = rt.alloc();
    let shop = workshop(alloc, false)?;
    tells(
        alloc,
        &shop,
        Listing::TraceForward(10),
        &[
            "0\titem\t10\t2\tRegulator\t2\tL22\t\tused 11\t\t2030-01-02\t",
            "1\tbuild\t11\t3\tLamp\t2\t\t\tcomplete\tused it\t\t",
            "2\titem\t\t3\tLamp\t2\t\t\t\tnot known\t\t",
        ],
    )?;
    tells(
        alloc,
        &shop,
        Listing::TraceBack(16),
        &[
            "0\titem\t16\t4\tRig\t1\t\tRIG\tsent 18 to Acme\t\t2030-01-02\t",
            "1\titem\t12\t3\tLamp\t1\t\tL1\tin 16\tinside it\t2030-01-02\t",
        ],
    )?;
    finds_nothing(alloc, &shop, Listing::TraceForward(7))
}

/// Where the rig came from: the lamp in it, the build that made that, the regulators that this used, the heap that they were
/// split off, and the delivery of that.
#[test]
fn leads_back(rt: HostRuntime) -> Result<(), Fail> {
    let alloc = rt.alloc();
    let shop = workshop(alloc, true)?;
    tells(
        alloc,
        &shop,
        Listing::TraceBack(16),
        &[
            "0\titem\t16\t4\tRig\t1\t\tRIG\tsent 18 to Acme\t\t2030-01-02\t",
            "1\titem\t12\t3\tLamp\t1\t\tL1\tin 16\tinside it\t2030-01-02\t2030-02-01/4",
            "2\tbuild\t11\t3\tLamp\t2\t\t\tcomplete\tmade it\t\t",
            "3\titem\t10\t2\tRegulator\t2\tL22\t\tused 11\tused for it\t2030-01-02\t2030-01-04/3",
            "4\titem\t8\t2\tRegulator\t3\tL22\t\tA\tit was cut off this\t2030-01-02\t2030-01-02/1",
            "5\torder\t6\t2\tRegulator\t10\t\t\tline 7 from Volt\tdelivered it\t2030-01-02\t2030-01-02/1",
        ],
    )?;
    finds_nothing(alloc, &shop, Listing::TraceBack(1))
}
