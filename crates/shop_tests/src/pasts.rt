//! What lists say of who made each row and when, on a shop whose requests have keys with a day, keys without one, or none.
//!
//! A robot takes one screw. What is wanted was worked out by hand.
ghost use Rattle.std.specs.Prelude.{IfOk};
ghost use Rattle.desk_core.specs.Machine.{IsSoundState};
ghost use Rattle.desk_core.specs.ShopView.{state_of};

use crate::lists::{BUILDS, ITEM, ORDERS, PART, tells};
use crate::outcomes::runs;
use crate::requests::{
    allocate_sale, assembly, build, complete_output, component, issue_build, issue_order, keyed,
    line, location, order_line, part, purchase, receive, sale, scrap_output, serialised, ship,
    transfer,
};
use desk_core::{Request, Shop};
use list_core::{Days, Listing};
use part_core::{Day, Limits, Seed};
use std::alloc::Global;
use std::test::Fail;

/// The request on this day.
fn on(day: &str, mut request: Request) -> Result<Request, Fail> {
    request.day = Day::parse(day).ok_or("a day")?;
    Ok(request)
}

/// Locations 1 and 2, screw 3 and robot 4, with line 5 of its bill. No request of these has a key.
fn catalogue(alloc: Global) -> Result<Vec<Request>, Fail> {
    let mut screw = component();
    screw.purchaseable = true;
    screw.salable = true;
    let mut requests = Vec::new(alloc);
    requests.push(location(alloc, "Hall", None)?)?;
    requests.push(location(alloc, "Yard", None)?)?;
    requests.push(part(alloc, "Screw", None, screw)?)?;
    requests.push(part(alloc, "Robot", None, assembly())?)?;
    requests.push(line(4, 3, 1)?)?;
    Ok(requests)
}

/// Purchase 6 with line 7, of which items 8 and 9 come on two days, by a key with a day and by one without, and item 10
/// by a request without a key, on a third day.
fn deliveries(alloc: Global) -> Result<Vec<Request>, Fail> {
    let mut requests = Vec::new(alloc);
    let bolts = purchase(alloc, "Bolts")?;
    requests.push(keyed(alloc, "2030-01-04/1", bolts)?)?;
    requests.push(order_line(6, 3, 50)?)?;
    requests.push(issue_order(6)?)?;
    let first = on("2030-01-06", receive(7, 1, 8)?)?;
    requests.push(keyed(alloc, "2030-01-05/7", first)?)?;
    let second = on("2030-01-08", receive(7, 1, 20)?)?;
    requests.push(keyed(alloc, "Bolts/second", second)?)?;
    requests.push(on("2030-01-09", receive(7, 1, 2)?)?)?;
    Ok(requests)
}

/// Sale 11 with line 12, by a key without a day, of which item 14 is sent; and purchase 15 with line 16, by a request
/// without a key, of which item 17 comes by a key without a day.
fn sales(alloc: Global) -> Result<Vec<Request>, Fail> {
    let mut requests = Vec::new(alloc);
    let acme = sale(alloc, "Acme")?;
    requests.push(keyed(alloc, "acme-7", acme)?)?;
    requests.push(order_line(11, 3, 3)?)?;
    requests.push(issue_order(11)?)?;
    requests.push(allocate_sale(12, 8, 3)?)?;
    requests.push(on("2030-01-12", ship(11)?)?)?;
    requests.push(purchase(alloc, "Nuts")?)?;
    requests.push(order_line(15, 3, 4)?)?;
    requests.push(issue_order(15)?)?;
    let all = on("2030-01-15", receive(16, 2, 4)?)?;
    requests.push(keyed(alloc, "nuts/1", all)?)?;
    Ok(requests)
}

/// Item 18, cut off item 9 by a key with a day; and build 19 with the outputs 20, which is completed, and 21, which is
/// scrapped later. Build 22 has no key and no output.
fn builds(alloc: Global) -> Result<Vec<Request>, Fail> {
    let mut requests = Vec::new(alloc);
    let moved = on("2030-02-01", transfer(9, 2, 5)?)?;
    requests.push(keyed(alloc, "2030-02-01/1", moved)?)?;
    requests.push(keyed(alloc, "2030-02-02/1", build(4, 2)?)?)?;
    requests.push(issue_build(19)?)?;
    let begun = serialised(alloc, 19, 2, "R1,R2")?;
    requests.push(keyed(alloc, "2030-02-03/2", begun)?)?;
    requests.push(on("2030-02-05", complete_output(20, 1)?)?)?;
    requests.push(on("2030-02-07", scrap_output(21)?)?)?;
    requests.push(build(4, 1)?)?;
    Ok(requests)
}

/// The shop that all of these requests make.
fn filled(alloc: Global) -> Result<Shop, Fail>
    ensures { IfOk result (λ shop. IsSoundState (state_of shop)) }
{
    let mut shop = Shop::new(alloc, Seed::new(0), Limits::LARGEST);
    runs(alloc, &mut shop, catalogue(alloc)?)?;
    runs(alloc, &mut shop, deliveries(alloc)?)?;
    runs(alloc, &mut shop, sales(alloc)?)?;
    runs(alloc, &mut shop, builds(alloc)?)?;
    Ok(shop)
}

/// The key is that of the order itself. The last day is that of a delivery by a request with a key, or of what was sent by
/// whatever request.
#[test]
fn lists_the_last_days_of_orders(rt: HostRuntime) -> Result<(), Fail> {
    let alloc = rt.alloc();
    let shop = filled(alloc)?;
    let bolts =
        "6\tpurchase\tin progress\tBolts\t7\t3\tScrew\t50\t30\t0\t20\t2030-01-04/1\t2030-01-04\t2030-01-08";
    let acme = "11\tsale\tin progress\tAcme\t12\t3\tScrew\t3\t3\t0\t0\tacme-7\t\t2030-01-12";
    let nuts = "15\tpurchase\tin progress\tNuts\t16\t3\tScrew\t4\t4\t0\t0\t\t\t2030-01-15";
    tells(
        alloc,
        &shop,
        Listing::Orders(false),
        [ORDERS, bolts, acme, nuts].as_slice(),
    )
}

/// What was scrapped came to no end of its build.
#[test]
fn lists_the_last_days_of_builds(rt: HostRuntime) -> Result<(), Fail> {
    let alloc = rt.alloc();
    let shop = filled(alloc)?;
    let first =
        "19\t4\tRobot\tin production\t2\t1\t5\t3\tScrew\t2\t0\t2\t31\t2030-02-02/1\t2030-02-02\t2030-02-05";
    let second = "22\t4\tRobot\tpending\t1\t0\t5\t3\tScrew\t1\t0\t1\t31\t\t\t";
    tells(
        alloc,
        &shop,
        Listing::Builds(false),
        [BUILDS, first, second].as_slice(),
    )
}

/// What was received names the order and who delivered, whatever else is made names what it was made of, and of what came
/// by a request without a key nothing is told.
#[test]
fn lists_what_made_an_item(rt: HostRuntime) -> Result<(), Fail> {
    let alloc = rt.alloc();
    let shop = filled(alloc)?;
    tells(
        alloc,
        &shop,
        Listing::Item(17),
        [
            ITEM,
            "item\t17\t3\tScrew\t4\t\t\tOK\tYard\t\t",
            "made\t16\t\treceive\t\t\t\t\torder 15 from Nuts\t\tnuts/1",
            "history\t6\t\treceived\t4\t\t\t\tYard\t2030-01-15\t",
        ]
        .as_slice(),
    )?;
    tells(
        alloc,
        &shop,
        Listing::Item(18),
        [
            ITEM,
            "item\t18\t3\tScrew\t5\t\t\tOK\tYard\t\t",
            "made\t9\t\ttransfer\t\t\t\t\t\t2030-02-01\t2030-02-01/1",
            "history\t7\t\tcut\t5\t\t\t\tHall\t2030-02-01\t",
            "history\t8\t\tmoved\t5\t\t\t\tYard\t2030-02-01\t",
        ]
        .as_slice(),
    )?;
    tells(
        alloc,
        &shop,
        Listing::Item(20),
        [
            ITEM,
            "item\t20\t4\tRobot\t1\t\tR1\tOK\tHall\t\t",
            "made\t19\t\toutputs\t\t\t\t\t\t2030-02-03\t2030-02-03/2",
            "history\t9\t\tbuilt\t1\t\t\t\tHall\t2030-02-05\t",
        ]
        .as_slice(),
    )?;
    tells(
        alloc,
        &shop,
        Listing::Item(10),
        [
            ITEM,
            "item\t10\t3\tScrew\t2\t\t\tOK\tHall\t\t",
            "history\t3\t\treceived\t2\t\t\t\tHall\t2030-01-09\t",
        ]
        .as_slice(),
    )
}

/// Each item has its own key.
#[test]
fn lists_keys_of_a_part(rt: HostRuntime) -> Result<(), Fail> {
    let alloc = rt.alloc();
    let shop = filled(alloc)?;
    tells(
        alloc,
        &shop,
        Listing::Part(3),
        [
            PART,
            "part\t3\t\tScrew\t\tcomponent purchaseable salable\t\t\t",
            "sums\t\t\t\t31\treceived 34 + found 0 + built 0 + returned 0 = present 31 + consumed 0 + shipped 3 + written off 0\t\t\t",
            "used in\t4\t\tRobot\t\t\t\t\t",
            "item\t8\t\tOK\t5\tHall\t\t\t2030-01-05/7",
            "item\t9\t\tOK\t15\tHall\t\t\tBolts/second",
            "item\t10\t\tOK\t2\tHall\t\t\t",
            "item\t14\t\tOK\t3\tsent 11\t\t\t",
            "item\t17\t\tOK\t4\tYard\t\t\tnuts/1",
            "item\t18\t\tOK\t5\tYard\t\t\t2030-02-01/1",
        ]
        .as_slice(),
    )
}

const HISTORY: &'static str =
    "entry\tday\twhat\tquantity\tpart\titem\tbatch\tserial\twhere\torder\tpartner\torder key\tkey";

/// A text, if it isn't empty.
fn said(text: &str) -> Option<&str> {
    if text.is_empty() { None } else { Some(text) }
}

/// The history of these days, with these lines under its header.
fn tells_history(
    alloc: Global,
    shop: &Shop,
    of: Option<u64>,
    days: [&str; 2],
    wanted: &[&'static str],
) -> Result<(), Fail>
    requires { IsSoundState (state_of shop.now) }
{
    let days = Days {
        first: said(days[0]),
        last: said(days[1]),
    };
    let mut lines = vec![in alloc; HISTORY]?;
    for line in wanted {
        lines.push(*line)?;
    }
    tells(alloc, shop, Listing::History(of, days), lines.as_slice())
}

/// Of an order what came or went by it; of a part the entries on its items. Both days are among those that are listed. Of
/// what came by a request without a key the order isn't known.
#[test]
fn lists_the_history_in_words(rt: HostRuntime) -> Result<(), Fail> {
    let alloc = rt.alloc();
    let shop = filled(alloc)?;
    let first =
        "1\t2030-01-06\treceived\t8\tScrew\t8\t\t\tHall\t6\tBolts\t2030-01-04/1\t2030-01-05/7";
    let second =
        "2\t2030-01-08\treceived\t20\tScrew\t9\t\t\tHall\t6\tBolts\t2030-01-04/1\tBolts/second";
    let third = "3\t2030-01-09\treceived\t2\tScrew\t10\t\t\tHall\t\t\t\t";
    let cut = "4\t2030-01-12\tcut\t3\tScrew\t14\t\t\tHall\t\t\t\t";
    let sent = "5\t2030-01-12\tshipped\t3\tScrew\t14\t\t\tsent 11 to Acme\t11\tAcme\tacme-7\t";
    let built = "9\t2030-02-05\tbuilt\t1\tRobot\t20\t\tR1\tHall\t\t\t\t2030-02-03/2";
    tells_history(alloc, &shop, Some(6), ["", ""], &[first, second])?;
    tells_history(alloc, &shop, Some(6), ["2030-01-07", ""], &[second])?;
    tells_history(alloc, &shop, Some(11), ["", ""], &[sent])?;
    tells_history(alloc, &shop, Some(4), ["", "2030-02-05"], &[built])?;
    tells_history(alloc, &shop, Some(10), ["", ""], &[third])?;
    tells_history(
        alloc,
        &shop,
        None,
        ["2030-01-09", "2030-01-12"],
        &[third, cut, sent],
    )
}
