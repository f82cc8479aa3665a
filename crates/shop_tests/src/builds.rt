//! What a build needs and lacks, as a number and as a report.
ghost use Rattle.desk_core.specs.Machine.{IsSoundState};
ghost use Rattle.desk_core.specs.ShopView.{state_of};

use crate::outcomes::{holds, runs};
use crate::requests::{
    allocate_build, allocate_output, assembly, build, cancel_build, complete_output, component,
    found, found_one, issue_build, line, location, part, serialised,
};
use build_core::required;
use desk_core::{Request, Shop};
use part_core::{CoreFault, Limits, Refusal, Seed};
use report_core::{ReportName, report};
use std::alloc::Global;
use std::test::Fail;

/// A robot takes four screws, by line 5, and two motors, by line 6. There are ten screws, item 7, and a motor, item 8. Of
/// the three robots of build 9 two are begun, items 10 and 11.
fn robots(alloc: Global) -> Result<Vec<Request>, Fail> {
    let mut requests = Vec::new(alloc);
    requests.push(location(alloc, "A", None)?)?;
    requests.push(part(alloc, "Screw", None, component())?)?;
    requests.push(part(alloc, "Motor", None, assembly())?)?;
    requests.push(part(alloc, "Robot", None, assembly())?)?;
    requests.push(line(4, 2, 4)?)?;
    requests.push(line(4, 3, 2)?)?;
    requests.push(found(2, 1, 10)?)?;
    requests.push(found_one(alloc, 3, 1, "M1")?)?;
    requests.push(build(4, 3)?)?;
    requests.push(issue_build(9)?)?;
    requests.push(serialised(alloc, 9, 2, "R1,R2")?)?;
    requests.push(allocate_build(9, 5, 7, 7)?)?;
    requests.push(allocate_output(10, 9, 6, 8, 1)?)?;
    Ok(requests)
}

fn needs(shop: &Shop, line: u64, output: Option<u64>, wanted: u128) -> Result<(), Fail> {
    let need = required(shop.boms(), shop.builds(), shop.yard(), 9, line, output);
    holds(need == wanted, "another need")
}

fn lacks(alloc: Global, shop: &Shop, wanted: &str) -> Result<(), Fail>
    requires { IsSoundState (state_of shop.now) }
{
    let text = report(alloc, shop, ReportName::Shortage, 9)?.text(alloc)?;
    holds(text.as_str() == wanted, "another report")
}

fn ask_needs(alloc: Global, shop: &mut Shop) -> Result<(), Fail>
    requires { IsSoundState (state_of shop.old) }
{
    runs(alloc, shop, robots(alloc)?)?;
    needs(shop, 5, None, 12)?;
    needs(shop, 6, Some(10), 2)?;
    needs(shop, 6, Some(11), 2)?;
    lacks(alloc, shop, "5\tScrew\t12\t7\t5\n6\tMotor\t6\t1\t5\n")?;
    let json = report(alloc, shop, ReportName::Shortage, 9)?.json(alloc)?;
    holds(
        json.to_string(alloc)?.as_str()
            == r#"[["5","Screw","12","7","5"],["6","Motor","6","1","5"]]"#,
        "other data",
    )?;
    let none = report(alloc, shop, ReportName::Shortage, 8);
    holds(
        matches!(none, Err(CoreFault::Refused(Refusal::NoSuch))),
        "an item is no build",
    )
}

/// Screws for the build, and motors for each robot of it.
#[test]
fn needs_of_a_build(rt: HostRuntime) -> Result<(), Fail> {
    let alloc = rt.alloc();
    let mut shop = Shop::new(alloc, Seed::new(0), Limits::LARGEST);
    ask_needs(alloc, &mut shop)
}

fn ask_later(alloc: Global, shop: &mut Shop) -> Result<(), Fail>
    requires { IsSoundState (state_of shop.old) }
{
    runs(alloc, shop, robots(alloc)?)?;
    let mut requests = Vec::new(alloc);
    requests.push(found_one(alloc, 3, 1, "M2")?)?;
    requests.push(allocate_output(10, 9, 6, 14, 1)?)?;
    requests.push(complete_output(10, 1)?)?;
    runs(alloc, shop, requests)?;
    needs(shop, 5, None, 12)?;
    lacks(alloc, shop, "5\tScrew\t12\t7\t5\n6\tMotor\t4\t0\t4\n")?;
    let mut requests = Vec::new(alloc);
    requests.push(cancel_build(9)?)?;
    runs(alloc, shop, requests)?;
    lacks(alloc, shop, "")
}

/// Motors for those that aren't done yet, and nothing for a build that was given up.
#[test]
fn needs_while_it_goes_on(rt: HostRuntime) -> Result<(), Fail> {
    let alloc = rt.alloc();
    let mut shop = Shop::new(alloc, Seed::new(0), Limits::LARGEST);
    ask_later(alloc, &mut shop)
}
