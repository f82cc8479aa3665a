//! Each list, on a shop that requests have made.
//!
//! A robot takes six screws, by line 10, and two motors, by line 11. What is wanted was worked out by hand.
ghost use Rattle.std.specs.Prelude.{IfOk};
ghost use Rattle.desk_core.specs.Machine.{IsSoundState};
ghost use Rattle.desk_core.specs.ShopView.{state_of};

use crate::outcomes::{holds, runs};
use crate::requests::{
    allocate_build, allocate_output, allocate_sale, build, cancel_build, cancel_order, category,
    component, found, found_batch, found_one, install, issue_build, issue_order, keyed, line,
    location, order_line, part, part_in, purchase, receive, remove, sale, serialised, set_status,
};
use desk_core::{Request, Shop};
use list_core::{Level, Listing, called_text, listed, serial_found};
use part_core::{CoreFault, Flags, Found, Limits, Refusal, Seed, Status};
use std::alloc::Global;
use std::test::Fail;

/// Categories 1 and 2, one in the other; locations 3, 4 and 5, each in the one before, and 6 beside them; and the parts
/// 7, 8 and 9.
fn catalogue(alloc: Global) -> Result<Vec<Request>, Fail> {
    let mut screw = component();
    screw.purchaseable = true;
    screw.salable = true;
    let mut motor = component();
    motor.trackable = true;
    let mut robot = Flags::default();
    robot.assembly = true;
    robot.trackable = true;
    robot.salable = true;
    let mut requests = Vec::new(alloc);
    requests.push(category(alloc, "Drives", None)?)?;
    requests.push(category(alloc, "Motors", Some(1))?)?;
    requests.push(location(alloc, "Hall", None)?)?;
    requests.push(location(alloc, "Shelf", Some(3))?)?;
    requests.push(location(alloc, "Bin A-1", Some(4))?)?;
    requests.push(location(alloc, "Yard", None)?)?;
    requests.push(part(alloc, "Screw", None, screw)?)?;
    requests.push(part_in(alloc, "Motor A-1", 2, motor)?)?;
    requests.push(part_in(alloc, "Robot", 1, robot)?)?;
    requests.push(line(9, 7, 6)?)?;
    requests.push(line(9, 8, 2)?)?;
    Ok(requests)
}

/// Screws in a bin, item 12; motor 13; robot 14, and motor 15 in it; screws 16, which are damaged, 17, which are gone,
/// and 18, which are quarantined.
fn items(alloc: Global) -> Result<Vec<Request>, Fail> {
    let mut requests = Vec::new(alloc);
    let screws = found_batch(alloc, 7, 5, 10, "A-1")?;
    requests.push(keyed(alloc, "A-1/screws", screws)?)?;
    requests.push(found_one(alloc, 8, 4, "A-1")?)?;
    let robot = found_one(alloc, 9, 3, "A-10")?;
    requests.push(keyed(alloc, "robot/A-1", robot)?)?;
    requests.push(found_one(alloc, 8, 4, "M-2")?)?;
    requests.push(install(15, 14, 1)?)?;
    requests.push(found(7, 6, 5)?)?;
    requests.push(set_status(16, Status::Damaged)?)?;
    requests.push(found_batch(alloc, 7, 6, 3, "Old")?)?;
    requests.push(remove(17, 3)?)?;
    requests.push(found(7, 3, 6)?)?;
    requests.push(set_status(18, Status::Quarantined)?)?;
    Ok(requests)
}

/// Purchase 19, of whose line 20 item 21 has come; sale 22 with the lines 23, for which four of item 12 are meant, and
/// 24; purchase 26 with line 27, which is cancelled; and sale 28, which has no line.
fn orders(alloc: Global) -> Result<Vec<Request>, Fail> {
    let mut requests = Vec::new(alloc);
    requests.push(purchase(alloc, "Bolts")?)?;
    requests.push(order_line(19, 7, 20)?)?;
    requests.push(keyed(alloc, "A-1/bolts", issue_order(19)?)?)?;
    requests.push(receive(20, 4, 8)?)?;
    requests.push(sale(alloc, "Acme")?)?;
    requests.push(order_line(22, 7, 6)?)?;
    requests.push(order_line(22, 9, 1)?)?;
    requests.push(issue_order(22)?)?;
    requests.push(allocate_sale(23, 12, 4)?)?;
    requests.push(purchase(alloc, "Nuts")?)?;
    requests.push(order_line(26, 7, 50)?)?;
    requests.push(cancel_order(26)?)?;
    requests.push(sale(alloc, "Later")?)?;
    Ok(requests)
}

/// Build 29, for which five of item 12 are meant, and motor 13 for its output, item 31; build 33, which hasn't begun;
/// and build 34, which is cancelled.
fn builds(alloc: Global) -> Result<Vec<Request>, Fail> {
    let mut requests = Vec::new(alloc);
    requests.push(build(9, 3)?)?;
    requests.push(issue_build(29)?)?;
    requests.push(allocate_build(29, 10, 12, 5)?)?;
    requests.push(serialised(alloc, 29, 1, "R-2")?)?;
    requests.push(allocate_output(31, 29, 11, 13, 1)?)?;
    requests.push(build(9, 1)?)?;
    requests.push(build(9, 5)?)?;
    requests.push(cancel_build(34)?)?;
    Ok(requests)
}

/// The shop that all of these requests make, which finds its rows by hashes that begin so.
fn filled_from(alloc: Global, seed: Seed) -> Result<Shop, Fail>
    ensures { IfOk result (λ shop. IsSoundState (state_of shop)) }
{
    let mut shop = Shop::new(alloc, seed, Limits::LARGEST);
    runs(alloc, &mut shop, catalogue(alloc)?)?;
    runs(alloc, &mut shop, items(alloc)?)?;
    runs(alloc, &mut shop, orders(alloc)?)?;
    runs(alloc, &mut shop, builds(alloc)?)?;
    Ok(shop)
}

/// The shop that all of these requests make.
pub fn filled(alloc: Global) -> Result<Shop, Fail>
    ensures { IfOk result (λ shop. IsSoundState (state_of shop)) }
{
    filled_from(alloc, Seed::new(0))
}

/// That the list is these lines.
pub fn tells(
    alloc: Global,
    shop: &Shop,
    listing: Listing<'_>,
    wanted: &[&'static str],
) -> Result<(), Fail>
    requires { IsSoundState (state_of shop.now) }
{
    let mut text = String::new(alloc);
    for line in wanted {
        text.push_str(line)?;
        text.push_str("\n")?;
    }
    let told = listed(alloc, shop, listing)?.text(alloc)?;
    holds(told.as_str() == text.as_str(), "another list")
}

fn finds_nothing(alloc: Global, shop: &Shop, listing: Listing<'_>) -> Result<(), Fail>
    requires { IsSoundState (state_of shop.now) }
{
    let result = listed(alloc, shop, listing);
    holds(
        matches!(result, Err(CoreFault::Refused(Refusal::NoSuch))),
        "there is such a row",
    )
}

const STOCK: &'static str = "number\tname\tcategory\tpresent\tfree\tallocated\titems\twhere";

/// A motor in a robot is present, lies where the robot does, and isn't free; an output isn't present; what is damaged is free, and what is
/// quarantined isn't. With an amount, those parts are listed of which less is free.
#[test]
fn lists_stock(rt: HostRuntime) -> Result<(), Fail> {
    let alloc = rt.alloc();
    let shop = filled(alloc)?;
    let screw = "7\tScrew\t\t29\t14\t9\t4\tHall / Shelf / Bin A-1; Yard; Hall; Hall / Shelf";
    let motor = "8\tMotor A-1\tDrives / Motors\t2\t0\t1\t2\tHall / Shelf; Hall";
    let robot = "9\tRobot\tDrives\t1\t1\t0\t2\tHall";
    tells(
        alloc,
        &shop,
        Listing::Stock(None),
        [STOCK, screw, motor, robot].as_slice(),
    )?;
    tells(
        alloc,
        &shop,
        Listing::Stock(Some(14)),
        [STOCK, motor, robot].as_slice(),
    )?;
    tells(
        alloc,
        &shop,
        Listing::Stock(Some(1)),
        [STOCK, motor].as_slice(),
    )?;
    tells(alloc, &shop, Listing::Stock(Some(0)), [STOCK].as_slice())
}

const PLACE: &'static str = "way\tdepth\titem\tpart\tname\tquantity\tfree\tbatch\tserial\tstatus";

const BIN_12: &'static str = "Hall / Shelf / Bin A-1\t1\t12\t7\tScrew\t10\t1\tA-1\t\tOK";

const SHELF_13: &'static str = "Hall / Shelf\t1\t13\t8\tMotor A-1\t1\t0\t\tA-1\tOK";

const SHELF_21: &'static str = "Hall / Shelf\t1\t21\t7\tScrew\t8\t8\t\t\tOK";

/// What lies in an item stands below it, and has no way of its own.
#[test]
fn lists_what_lies_at_a_location(rt: HostRuntime) -> Result<(), Fail> {
    let alloc = rt.alloc();
    let shop = filled(alloc)?;
    tells(
        alloc,
        &shop,
        Listing::At(3),
        [
            PLACE,
            BIN_12,
            SHELF_13,
            "Hall\t1\t14\t9\tRobot\t1\t1\t\tA-10\tOK",
            "\t2\t15\t8\t  Motor A-1\t1\t0\t\tM-2\tOK",
            "Hall\t1\t18\t7\tScrew\t6\t0\t\t\tQuarantined",
            SHELF_21,
        ]
        .as_slice(),
    )?;
    tells(
        alloc,
        &shop,
        Listing::At(4),
        [PLACE, BIN_12, SHELF_13, SHELF_21].as_slice(),
    )?;
    tells(
        alloc,
        &shop,
        Listing::At(6),
        [PLACE, "Yard\t1\t16\t7\tScrew\t5\t5\t\t\tDamaged"].as_slice(),
    )?;
    finds_nothing(alloc, &shop, Listing::At(7))
}

pub const PART: &'static str = "kind\tnumber\tpart\tname\tquantity\tmore\tbatch\tserial\tkey";

/// An output is an item of its part too, but isn't present.
#[test]
fn lists_what_there_is_of_a_part(rt: HostRuntime) -> Result<(), Fail> {
    let alloc = rt.alloc();
    let shop = filled(alloc)?;
    tells(
        alloc,
        &shop,
        Listing::Part(7),
        [
            PART,
            "part\t7\t\tScrew\t\tcomponent purchaseable salable\t\t\t",
            "sums\t\t\t\t29\treceived 8 + found 24 + built 0 + returned 0 = present 29 + consumed 0 + shipped 0 + written off 3\t\t\t",
            "used in\t9\t\tRobot\t\t\t\t\t",
            "item\t12\t\tOK\t10\tHall / Shelf / Bin A-1\tA-1\t\tA-1/screws",
            "item\t16\t\tDamaged\t5\tYard\t\t\t",
            "item\t18\t\tQuarantined\t6\tHall\t\t\t",
            "item\t21\t\tOK\t8\tHall / Shelf\t\t\t",
        ]
        .as_slice(),
    )?;
    tells(
        alloc,
        &shop,
        Listing::Part(9),
        [
            PART,
            "part\t9\t\tRobot\t\tassembly trackable salable\t\t\t",
            "sums\t\t\t\t1\treceived 0 + found 1 + built 0 + returned 0 = present 1 + consumed 0 + shipped 0 + written off 0\t\t\t",
            "line\t10\t7\tScrew\t6\t\t\t\t",
            "line\t11\t8\tMotor A-1\t2\t\t\t\t",
            "item\t14\t\tOK\t1\tHall\t\tA-10\trobot/A-1",
            "item\t31\t\tOK\t1\toutput 29\t\tR-2\t",
        ]
        .as_slice(),
    )?;
    finds_nothing(alloc, &shop, Listing::Part(14))
}

pub const ITEM: &'static str =
    "kind\tnumber\tpart\tname\tquantity\tbatch\tserial\tstatus\twhere\tday\tkey";

/// An item that is gone still has its history. The robot alone was found by a request that is kept.
#[test]
fn lists_what_there_is_of_an_item(rt: HostRuntime) -> Result<(), Fail> {
    let alloc = rt.alloc();
    let shop = filled(alloc)?;
    tells(
        alloc,
        &shop,
        Listing::Item(14),
        [
            ITEM,
            "item\t14\t9\tRobot\t1\t\tA-10\tOK\tHall\t\t",
            "inside\t15\t8\t  Motor A-1\t1\t\tM-2\tOK\tin 14\t\t",
            "made\t\t\tfound\t\t\t\t\t\t\trobot/A-1",
            "history\t3\t\tfound\t1\t\t\t\tHall\t2030-01-02\t",
        ]
        .as_slice(),
    )?;
    tells(
        alloc,
        &shop,
        Listing::Item(15),
        [
            ITEM,
            "item\t15\t8\tMotor A-1\t1\t\tM-2\tOK\tin 14\t\t",
            "history\t4\t\tfound\t1\t\t\t\tHall / Shelf\t2030-01-02\t",
            "history\t5\t\tinstalled\t1\t\t\t\tin 14\t2030-01-02\t",
        ]
        .as_slice(),
    )?;
    tells(
        alloc,
        &shop,
        Listing::Item(17),
        [
            ITEM,
            "item\t17\t7\tScrew\t0\tOld\t\tOK\tgone\t\t",
            "history\t8\t\tfound\t3\t\t\t\tYard\t2030-01-02\t",
            "history\t9\t\twritten\t3\t\t\t\toff removed\t2030-01-02\t",
        ]
        .as_slice(),
    )?;
    finds_nothing(alloc, &shop, Listing::Item(9))
}

pub const ORDERS: &'static str =
    "order\tside\tstate\tpartner\tline\tpart\tname\twanted\tdone\tallocated\toutstanding\tkey\tday\tlast";

/// What is allocated is still outstanding, and nothing is of a cancelled order.
#[test]
fn lists_orders(rt: HostRuntime) -> Result<(), Fail> {
    let alloc = rt.alloc();
    let shop = filled(alloc)?;
    let bolts = "19\tpurchase\tin progress\tBolts\t20\t7\tScrew\t20\t8\t0\t12\t\t\t";
    let screws = "22\tsale\tin progress\tAcme\t23\t7\tScrew\t6\t0\t4\t6\t\t\t";
    let robot = "22\tsale\tin progress\tAcme\t24\t9\tRobot\t1\t0\t0\t1\t\t\t";
    let nuts = "26\tpurchase\tcancelled\tNuts\t27\t7\tScrew\t50\t0\t0\t0\t\t\t";
    let later = "28\tsale\tpending\tLater\t\t\t\t\t\t\t\t\t\t";
    tells(
        alloc,
        &shop,
        Listing::Orders(false),
        [ORDERS, bolts, screws, robot, nuts, later].as_slice(),
    )?;
    tells(
        alloc,
        &shop,
        Listing::Orders(true),
        [ORDERS, bolts, screws, robot, later].as_slice(),
    )
}

pub const BUILDS: &'static str =
    "build\tpart\tname\tstate\twanted\tdone\tline\tcomponent\tcomponent name\trequired\tallocated\tmissing\tfree\tkey\tday\tlast";

/// A cancelled build wants nothing.
#[test]
fn lists_builds(rt: HostRuntime) -> Result<(), Fail> {
    let alloc = rt.alloc();
    let shop = filled(alloc)?;
    let screws = "29\t9\tRobot\tin production\t3\t0\t10\t7\tScrew\t18\t5\t13\t14\t\t\t";
    let motors = "29\t9\tRobot\tin production\t3\t0\t11\t8\tMotor A-1\t6\t1\t5\t0\t\t\t";
    let more_screws = "33\t9\tRobot\tpending\t1\t0\t10\t7\tScrew\t6\t0\t6\t14\t\t\t";
    let more_motors = "33\t9\tRobot\tpending\t1\t0\t11\t8\tMotor A-1\t2\t0\t2\t0\t\t\t";
    let cancelled = "34\t9\tRobot\tcancelled\t5\t0\t\t\t\t\t\t\t\t\t\t";
    tells(
        alloc,
        &shop,
        Listing::Builds(false),
        [BUILDS, screws, motors, more_screws, more_motors, cancelled].as_slice(),
    )?;
    tells(
        alloc,
        &shop,
        Listing::Builds(true),
        [BUILDS, screws, motors, more_screws, more_motors].as_slice(),
    )
}

/// Both builds together lack 19 screws, of which 14 are free, and 7 motors, of which none is.
#[test]
fn lists_shortages(rt: HostRuntime) -> Result<(), Fail> {
    let alloc = rt.alloc();
    let shop = filled(alloc)?;
    tells(
        alloc,
        &shop,
        Listing::Shortages,
        [
            "part\tname\trequired\tallocated\tmissing\tfree\tbuy",
            "7\tScrew\t24\t5\t19\t14\t5",
            "8\tMotor A-1\t8\t1\t7\t0\t7",
        ]
        .as_slice(),
    )
}

const FOUND: &'static str = "kind\tnumber\tname\twhere";

/// A word stands in a name or a key, is the front of a serial, or is a batch, in either case.
#[test]
fn lists_what_a_word_finds(rt: HostRuntime) -> Result<(), Fail> {
    let alloc = rt.alloc();
    let shop = filled(alloc)?;
    tells(
        alloc,
        &shop,
        Listing::Find("A-1"),
        [
            FOUND,
            "part\t8\tMotor A-1\tDrives / Motors",
            "location\t5\tBin A-1\tHall / Shelf / Bin A-1",
            "item\t12\tScrew\tHall / Shelf / Bin A-1",
            "item\t13\tMotor A-1\tHall / Shelf",
            "item\t14\tRobot\tHall",
            "key\t\tA-1/bolts\t",
            "key\t12\tA-1/screws\t",
            "key\t14\trobot/A-1\t",
        ]
        .as_slice(),
    )?;
    tells(
        alloc,
        &shop,
        Listing::Find("M-2"),
        [FOUND, "item\t15\tMotor A-1\tin 14"].as_slice(),
    )?;
    tells(
        alloc,
        &shop,
        Listing::Find("Old"),
        [FOUND, "item\t17\tScrew\tgone"].as_slice(),
    )?;
    tells(
        alloc,
        &shop,
        Listing::Find("OLD"),
        [FOUND, "item\t17\tScrew\tgone"].as_slice(),
    )?;
    tells(
        alloc,
        &shop,
        Listing::Find("Crew"),
        [FOUND, "part\t7\tScrew\t", "key\t12\tA-1/screws\t"].as_slice(),
    )?;
    tells(
        alloc,
        &shop,
        Listing::Find("m-"),
        [FOUND, "item\t15\tMotor A-1\tin 14"].as_slice(),
    )?;
    tells(alloc, &shop, Listing::Find("-2"), [FOUND].as_slice())?;
    tells(
        alloc,
        &shop,
        Listing::Find("Ol"),
        [FOUND, "key\t\tA-1/bolts\t"].as_slice(),
    )
}

const LOW: &'static str = "part\tname\tcategory\tlevel\tfree\tcoming\tbuy";

/// A part with its level.
fn level(part: u64, amount: u64) -> Level {
    Level { part, amount }
}

/// 14 screws are free, and 12 are to come by the purchase that is under way; of motors none is free, and of robots one.
#[test]
fn lists_what_is_below_its_level(rt: HostRuntime) -> Result<(), Fail> {
    let alloc = rt.alloc();
    let shop = filled(alloc)?;
    let levels = [
        level(7, 40),
        level(9, 1),
        level(8, 2),
        level(7, 14),
        level(7, 15),
    ];
    tells(
        alloc,
        &shop,
        Listing::Low(levels.as_slice()),
        [
            LOW,
            "7\tScrew\t\t40\t14\t12\t14",
            "8\tMotor A-1\tDrives / Motors\t2\t0\t0\t2",
            "7\tScrew\t\t15\t14\t12\t0",
        ]
        .as_slice(),
    )?;
    tells(alloc, &shop, Listing::Low([].as_slice()), [LOW].as_slice())?;
    let absent = [level(8, 2), level(12, 1)];
    finds_nothing(alloc, &shop, Listing::Low(absent.as_slice()))
}

const SHEET: &'static str = "number\titem\tpart\tway\tbatch\tserial\texpected\tquantity";

/// What lies in a robot isn't counted by itself, and neither is what a build has begun.
#[test]
fn lists_what_is_to_be_counted(rt: HostRuntime) -> Result<(), Fail> {
    let alloc = rt.alloc();
    let shop = filled(alloc)?;
    let bin = "1\t12\tScrew\tHall / Shelf / Bin A-1\tA-1\t\t10\t";
    let motor = "2\t13\tMotor A-1\tHall / Shelf\t\tA-1\t1\t";
    tells(
        alloc,
        &shop,
        Listing::CountSheet(None),
        [
            SHEET,
            bin,
            motor,
            "3\t14\tRobot\tHall\t\tA-10\t1\t",
            "4\t16\tScrew\tYard\t\t\t5\t",
            "5\t18\tScrew\tHall\t\t\t6\t",
            "6\t21\tScrew\tHall / Shelf\t\t\t8\t",
        ]
        .as_slice(),
    )?;
    tells(
        alloc,
        &shop,
        Listing::CountSheet(Some(4)),
        [SHEET, bin, motor, "3\t21\tScrew\tHall / Shelf\t\t\t8\t"].as_slice(),
    )?;
    finds_nothing(alloc, &shop, Listing::CountSheet(Some(9)))
}

const DELIVERY: &'static str =
    "number\tline\torder\tpartner\tpart\toutstanding\tlocation\tquantity\tbatch\tserials";

/// What is sold isn't awaited, nor what a purchase wants that is cancelled.
#[test]
fn lists_what_is_to_come(rt: HostRuntime) -> Result<(), Fail> {
    let alloc = rt.alloc();
    let shop = filled(alloc)?;
    let bolts = "1\t20\t19\tBolts\tScrew\t12\t\t\t\t";
    for order in [None, Some(19)] {
        tells(
            alloc,
            &shop,
            Listing::ReceiptSheet(order),
            [DELIVERY, bolts].as_slice(),
        )?;
    }
    for order in [22, 26] {
        tells(
            alloc,
            &shop,
            Listing::ReceiptSheet(Some(order)),
            [DELIVERY].as_slice(),
        )?;
    }
    finds_nothing(alloc, &shop, Listing::ReceiptSheet(Some(7)))
}

/// A serial is that of one item, as it is written.
#[test]
fn says_items_by_serials(rt: HostRuntime) -> Result<(), Fail> {
    let alloc = rt.alloc();
    let shop = filled(alloc)?;
    holds(
        serial_found(&shop, "A-10")? == Found::One(14),
        "another item",
    )?;
    holds(serial_found(&shop, "A-2")? == Found::Nothing, "an item")?;
    let told = called_text(alloc, &shop, "A-1")?;
    holds(told.as_str() == "Motor A-1 (item 13)", "other items")
}

/// Whether the lists of two shops are the same.
fn are_alike(alloc: Global, shop: &Shop, other: &Shop, listing: Listing<'_>) -> Result<bool, Fail>
    requires one { IsSoundState (state_of shop.now) }
    requires both { IsSoundState (state_of other.now) }
{
    let told = listed(alloc, shop, listing)?.text(alloc)?;
    let again = listed(alloc, other, listing)?.text(alloc)?;
    Ok(told.as_str() == again.as_str())
}

/// No list shows what hashes begin with.
#[test]
fn lists_of_two_seeds_are_alike(rt: HostRuntime) -> Result<(), Fail> {
    let alloc = rt.alloc();
    let shop = filled(alloc)?;
    let other = filled_from(alloc, Seed::new(7))?;
    assert!(rt; are_alike(alloc, &shop, &other, Listing::Stock(None))?);
    assert!(rt; are_alike(alloc, &shop, &other, Listing::Part(7))?);
    assert!(rt; are_alike(alloc, &shop, &other, Listing::Builds(false))?);
    assert!(rt; are_alike(alloc, &shop, &other, Listing::Find("A-1"))?);
    assert!(rt; are_alike(alloc, &shop, &other, Listing::Shortages)?);
    assert!(rt; are_alike(alloc, &shop, &other, Listing::TraceForward(15))?);
    Ok(())
}
