//! Each report once, on a shop that requests have made.
ghost use Rattle.desk_core.specs.Machine.{IsSoundState};
ghost use Rattle.desk_core.specs.ShopView.{state_of};

use crate::outcomes::{holds, runs};
use crate::requests::{
    found, found_of, found_one, install, line, location, name, of_stock, part, remove,
};
use desk_core::{Request, Shop};
use part_core::{CoreFault, Day, Flags, Limits, Refusal, Seed, Serials, Status, read_serials};
use report_core::{ReportName, report};
use std::alloc::Global;
use std::test::Fail;
use stock_core::{NewStock, StockCommand};

/// A screw in a robot in a cell.
fn parts(alloc: Global) -> Result<Vec<Request>, Fail> {
    let mut screw = Flags::default();
    screw.component = true;
    screw.trackable = true;
    let mut cell = Flags::default();
    cell.assembly = true;
    cell.trackable = true;
    let mut robot = cell;
    robot.component = true;
    let mut requests = Vec::new(alloc);
    requests.push(location(alloc, "A", None)?)?;
    requests.push(part(alloc, "Screw", None, screw)?)?;
    requests.push(part(alloc, "Robot", None, robot)?)?;
    requests.push(part(alloc, "Cell", None, cell)?)?;
    requests.push(line(3, 2, 1)?)?;
    requests.push(line(4, 3, 1)?)?;
    Ok(requests)
}

fn with_batch(alloc: Global, quantity: u64) -> Result<NewStock, Fail> {
    let batch = name(alloc, "L 7")?;
    Ok(NewStock {
        quantity,
        batch: Some(batch),
        serials: None,
    })
}

fn with_serials(alloc: Global, quantity: u64, list: &str) -> Result<NewStock, Fail> {
    let serials = read_serials(alloc, list).ok().ok_or("serials")?;
    Ok(NewStock {
        quantity,
        batch: None,
        serials: Some(Serials::new(serials)),
    })
}

/// Items 7 with a batch, 8 and 9 with serials, 10 with neither, and 11, which is cut off from 7.
fn items(alloc: Global) -> Result<Vec<Request>, Fail> {
    let status = Status::Damaged;
    let mut requests = Vec::new(alloc);
    requests.push(found_of(2, 1, with_batch(alloc, 10)?)?)?;
    requests.push(found_of(2, 1, with_serials(alloc, 2, "A-1,A-2")?)?)?;
    requests.push(found(2, 1, 5)?)?;
    requests.push(remove(10, 5)?)?;
    requests.push(remove(8, 1)?)?;
    requests.push(of_stock(StockCommand::SetStatus { item: 9, status })?)?;
    requests.push(of_stock(StockCommand::Split {
        item: 7,
        quantity: 4,
    })?)?;
    Ok(requests)
}

/// Screws, item 10, which are cut off from 9, in robot 7, in cell 8.
fn nested(alloc: Global) -> Result<Vec<Request>, Fail> {
    let mut requests = Vec::new(alloc);
    requests.push(found_one(alloc, 3, 1, "R-1")?)?;
    requests.push(found_one(alloc, 4, 1, "C-1")?)?;
    requests.push(found(2, 1, 5)?)?;
    requests.push(install(9, 7, 4)?)?;
    requests.push(install(7, 8, 1)?)?;
    Ok(requests)
}

fn tells(
    alloc: Global,
    shop: &Shop,
    name: ReportName,
    number: u64,
    wanted: &str,
) -> Result<(), Fail>
    requires { IsSoundState (state_of shop.now) }
{
    let text = report(alloc, shop, name, number)?.text(alloc)?;
    holds(text.as_str() == wanted, "another report")
}

fn finds_nothing(alloc: Global, shop: &Shop, name: ReportName, number: u64) -> Result<(), Fail>
    requires { IsSoundState (state_of shop.now) }
{
    let result = report(alloc, shop, name, number);
    holds(
        matches!(result, Err(CoreFault::Refused(Refusal::NoSuch))),
        "there is such a row",
    )
}

const LEDGER: &'static str =
    "ledger\t2\tScrew\nreceived\t0\nfound\t17\nbuilt\t0\nreturned\t0\nconsumed\t0\nshipped\t0\nwritten\t6\npresent\t11\nsent\t0\nused\t0\n";

const STOCK: &'static str =
    "7\t6\tOK\tat 1\tL 7\t\n8\t1\tOK\toff removed\t\tA-1\n9\t1\tDamaged\tat 1\t\tA-2\n11\t4\tOK\tat 1\tL 7\t\n";

fn reports(alloc: Global, shop: &mut Shop) -> Result<(), Fail>
    requires { IsSoundState (state_of shop.old) }
{
    runs(alloc, shop, parts(alloc)?)?;
    runs(alloc, shop, items(alloc)?)?;
    tells(alloc, shop, ReportName::Ledger, 2, LEDGER)?;
    tells(alloc, shop, ReportName::Stock, 2, STOCK)?;
    tells(alloc, shop, ReportName::Stock, 4, "")?;
    tells(alloc, shop, ReportName::WhereUsed, 2, "3\tRobot\n4\tCell\n")?;
    tells(alloc, shop, ReportName::Content, 8, "1\t8\tScrew\t1\tA-1\n")?;
    tells(alloc, shop, ReportName::Content, 10, "1\t10\tScrew\t0\t\n")?;
    tells(
        alloc,
        shop,
        ReportName::History,
        10,
        "4\t2030-01-02\tfound\t5\tat 1\n5\t2030-01-02\twritten\t5\toff removed\n",
    )
}

#[test]
fn tells_each_report(rt: HostRuntime) -> Result<(), Fail> {
    let alloc = rt.alloc();
    let mut shop = Shop::new(alloc, Seed::new(0), Limits::LARGEST);
    reports(alloc, &mut shop)
}

fn contents(alloc: Global, shop: &mut Shop) -> Result<(), Fail>
    requires { IsSoundState (state_of shop.old) }
{
    runs(alloc, shop, parts(alloc)?)?;
    runs(alloc, shop, nested(alloc)?)?;
    tells(
        alloc,
        shop,
        ReportName::Content,
        8,
        "1\t8\tCell\t1\tC-1\n2\t7\tRobot\t1\tR-1\n3\t10\tScrew\t4\t\n",
    )?;
    tells(
        alloc,
        shop,
        ReportName::Content,
        7,
        "1\t7\tRobot\t1\tR-1\n2\t10\tScrew\t4\t\n",
    )?;
    tells(alloc, shop, ReportName::Content, 9, "1\t9\tScrew\t1\t\n")
}

/// An item begins its own tree, also where it lies in another.
#[test]
fn tells_content_at_each_depth(rt: HostRuntime) -> Result<(), Fail> {
    let alloc = rt.alloc();
    let mut shop = Shop::new(alloc, Seed::new(0), Limits::LARGEST);
    contents(alloc, &mut shop)
}

fn missing_rows(alloc: Global, shop: &mut Shop) -> Result<(), Fail>
    requires { IsSoundState (state_of shop.old) }
{
    runs(alloc, shop, parts(alloc)?)?;
    finds_nothing(alloc, shop, ReportName::Ledger, 1)?;
    finds_nothing(alloc, shop, ReportName::Stock, 5)?;
    finds_nothing(alloc, shop, ReportName::WhereUsed, 7)?;
    finds_nothing(alloc, shop, ReportName::History, 2)?;
    finds_nothing(alloc, shop, ReportName::Content, 2)?;
    finds_nothing(alloc, shop, ReportName::Shortage, 2)
}

/// A number of another table's row is no number of this one's.
#[test]
fn finds_no_such_row(rt: HostRuntime) -> Result<(), Fail> {
    let alloc = rt.alloc();
    let mut shop = Shop::new(alloc, Seed::new(0), Limits::LARGEST);
    missing_rows(alloc, &mut shop)
}

fn as_json(alloc: Global, shop: &mut Shop) -> Result<(), Fail>
    requires { IsSoundState (state_of shop.old) }
{
    runs(alloc, shop, parts(alloc)?)?;
    let used = report(alloc, shop, ReportName::WhereUsed, 2)?;
    let text = used.json(alloc)?.to_string(alloc)?;
    holds(
        text.as_str() == r#"[["3","Robot"],["4","Cell"]]"#,
        "other data",
    )
}

#[test]
fn tells_a_report_as_json(rt: HostRuntime) -> Result<(), Fail> {
    let alloc = rt.alloc();
    let mut shop = Shop::new(alloc, Seed::new(0), Limits::LARGEST);
    as_json(alloc, &mut shop)
}

#[test]
fn writes_a_day(rt: HostRuntime) -> Result<(), Fail> {
    let alloc = rt.alloc();
    let text = Day::parse("2030-01-12").ok_or("a day")?.text(alloc)?;
    holds(text.as_str() == "2030-01-12", "another day")
}
