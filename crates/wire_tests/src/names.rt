//! Lines in which rows are called by what a clerk calls them, each with what answers it on a shop.
ghost use Rattle.std.specs.Prelude.{IfOk};
ghost use Rattle.desk_core.specs.Machine.{IsSoundState};
ghost use Rattle.desk_core.specs.ShopView.{state_of};

use desk_core::Shop;
use desk_wire::{ReadError, Wish, answer_text, fault_text, read_line, refused_text, report_text};
use part_core::{CoreFault, Limits, Seed};
use report_core::report;
use std::alloc::Global;
use std::process::Abort;
use std::test::Fail;

/// What answers the line, where names are allowed.
fn answer(alloc: Global, shop: &mut Shop, line: &str) -> Result<String, Fail>
    requires { IsSoundState (state_of shop.old) }
    ensures { IsSoundState (state_of shop.new) }
{
    match read_line(alloc, Some(&*shop), line.as_bytes(), 1) {
        Ok(Wish::Request(request)) => match shop.decide(&request) {
            Ok(answer) => Ok(answer_text(alloc, &answer)?),
            Err(CoreFault::Refused(refusal)) => Ok(refused_text(alloc, refusal)?),
            Err(CoreFault::Memory) => Ok(String::from_str(alloc, "no memory")?),
        },
        Ok(Wish::Report { name, of }) => match report(alloc, shop, name, of) {
            Ok(report) => Ok(report_text(alloc, &report)?),
            Err(_) => Ok(String::from_str(alloc, "no report")?),
        },
        Err(ReadError::Wrong(fault)) => Ok(fault_text(alloc, fault)?),
        Err(ReadError::Memory) => Ok(String::from_str(alloc, "no memory")?),
    }
}

/// A shop with locations, parts, items, orders and builds, each line with what answers it.
const SHOP: [(&str, &str); 33] = [
    (
        r#"{"do":"add_location","day":"2030-01-02","name":"Store"}"#,
        r#"{"entries":0,"ids":[1]}"#,
    ),
    (
        r#"{"do":"add_location","day":"2030-01-02","name":"Shelf A","parent":"Store"}"#,
        r#"{"entries":0,"ids":[2]}"#,
    ),
    (
        r#"{"do":"add_location","day":"2030-01-02","name":"Shelf A","parent":["Store","Shelf A"]}"#,
        r#"{"entries":0,"ids":[3]}"#,
    ),
    (
        r#"{"do":"add_part","day":"2030-01-02","name":"Screw","flags":["component","purchaseable"]}"#,
        r#"{"entries":0,"ids":[4]}"#,
    ),
    (
        r#"{"do":"add_part","day":"2030-01-02","name":"Robot","flags":["assembly","trackable"]}"#,
        r#"{"entries":0,"ids":[5]}"#,
    ),
    (
        r#"{"do":"found","day":"2030-01-02","part":"Screw","location":["Store","Shelf A"],"quantity":10}"#,
        r#"{"entries":1,"ids":[6]}"#,
    ),
    (
        r#"{"do":"found","day":"2030-01-02","part":"Robot","location":"Store","quantity":1,"serials":"R1"}"#,
        r#"{"entries":1,"ids":[7]}"#,
    ),
    (
        r#"{"do":"transfer","day":"2030-01-02","item":{"part":"Robot","serial":"R1"},"location":["Store","Shelf A","Shelf A"],"quantity":1}"#,
        r#"{"entries":1,"ids":[]}"#,
    ),
    (
        r#"{"do":"order","day":"2030-01-02","side":"purchase","partner":"Smith","key":"PO-1"}"#,
        r#"{"entries":0,"ids":[8]}"#,
    ),
    (
        r#"{"do":"order_line","day":"2030-01-02","order":{"key":"PO-1"},"part":"Screw","quantity":5,"key":"PO-1/1"}"#,
        r#"{"entries":0,"ids":[9]}"#,
    ),
    (
        r#"{"do":"issue_order","day":"2030-01-02","order":{"key":"PO-1"}}"#,
        r#"{"entries":0,"ids":[]}"#,
    ),
    (
        r#"{"do":"receive","day":"2030-01-02","line":{"key":"PO-1/1"},"location":["Store"],"quantity":5,"key":"D1"}"#,
        r#"{"entries":1,"ids":[10]}"#,
    ),
    (
        r#"{"do":"receive","day":"2030-01-03","line":9,"location":1,"quantity":5,"key":"D1"}"#,
        r#"{"entries":1,"ids":[10]}"#,
    ),
    (
        r#"{"do":"receive","day":"2030-01-03","line":9,"location":2,"quantity":5,"key":"D1"}"#,
        r#"{"refused":"KeyTaken"}"#,
    ),
    (
        r#"{"do":"merge","day":"2030-01-03","into":10,"items":[{"key":"D1"}]}"#,
        r#"{"refused":"Mismatch"}"#,
    ),
    (
        r#"{"report":"stock","of":"Screw"}"#,
        r#"{"report":[["6","10","OK","at 2","",""],["10","5","OK","at 1","",""]]}"#,
    ),
    (
        r#"{"report":"content","of":{"part":5,"serial":"R1"}}"#,
        r#"{"report":[["1","7","Robot","1","R1"]]}"#,
    ),
    (
        r#"{"do":"add_category","day":"2030-01-02","name":"Metal"}"#,
        r#"{"entries":0,"ids":[11]}"#,
    ),
    (
        r#"{"do":"add_category","day":"2030-01-02","name":"7","parent":"Metal","key":"C-7"}"#,
        r#"{"entries":0,"ids":[12]}"#,
    ),
    (
        r#"{"do":"add_category","day":"2030-01-02","name":"8","parent":{"key":"C-7"}}"#,
        r#"{"entries":0,"ids":[13]}"#,
    ),
    (
        r#"{"do":"add_part","day":"2030-01-02","name":"Nut","category":["Metal","7","8"],"flags":["component"],"key":"P-Nut"}"#,
        r#"{"entries":0,"ids":[14]}"#,
    ),
    (
        r#"{"do":"add_line","day":"2030-01-02","assembly":"Robot","component":"Screw","quantity":2,"key":"L-1"}"#,
        r#"{"entries":0,"ids":[15]}"#,
    ),
    (
        r#"{"do":"add_substitute","day":"2030-01-02","line":{"key":"L-1"},"part":{"key":"P-Nut"},"key":"S-1"}"#,
        r#"{"entries":0,"ids":[16]}"#,
    ),
    (
        r#"{"do":"drop_substitute","day":"2030-01-02","substitute":{"key":"S-1"}}"#,
        r#"{"entries":0,"ids":[]}"#,
    ),
    (
        r#"{"do":"add_location","day":"2030-01-02","name":"Bench","key":"B-1"}"#,
        r#"{"entries":0,"ids":[17]}"#,
    ),
    (
        r#"{"do":"build","day":"2030-01-02","part":"Robot","quantity":1,"key":"BO-1"}"#,
        r#"{"entries":0,"ids":[18]}"#,
    ),
    (
        r#"{"do":"issue_build","day":"2030-01-02","build":{"key":"BO-1"}}"#,
        r#"{"entries":0,"ids":[]}"#,
    ),
    (
        r#"{"do":"allocate_build","day":"2030-01-02","build":{"key":"BO-1"},"line":{"key":"L-1"},"item":{"key":"D1"},"quantity":2,"output":null,"key":"A-1"}"#,
        r#"{"entries":0,"ids":[19]}"#,
    ),
    (
        r#"{"do":"release","day":"2030-01-02","allocation":{"key":"A-1"}}"#,
        r#"{"entries":0,"ids":[]}"#,
    ),
    (
        r#"{"report":"shortage","of":{"key":"BO-1"}}"#,
        r#"{"report":[["15","Screw","2","0","2"]]}"#,
    ),
    (
        r#"{"do":"found","day":"2030-01-02","part":{"key":"P-Nut"},"location":{"key":"B-1"},"quantity":3}"#,
        r#"{"entries":1,"ids":[20]}"#,
    ),
    (
        r#"{"do":"found","day":"2030-01-02","part":"Robot","location":"Bench","quantity":2,"serials":"R2,R3","key":"F-1"}"#,
        r#"{"entries":2,"ids":[21,22]}"#,
    ),
    (
        r#"{"do":"merge","day":"2030-01-03","into":{"part":"Robot","serial":"R2"},"items":[{"part":"Robot","serial":"R3"},7]}"#,
        r#"{"refused":"Serialised"}"#,
    ),
];

/// What is wrong with a line, or with a value in it, on that shop.
const WRONG: [(&str, &str); 32] = [
    (
        r#""found","part":"Bolt","location":1,"quantity":1"#,
        r#"{"fault":"NoName","field":"part","line":1}"#,
    ),
    (
        r#""found","part":"Screw","location":"Shelf A","quantity":1"#,
        r#"{"fault":"NoName","field":"location","line":1}"#,
    ),
    (
        r#""found","part":"Screw","location":["Store","Bin"],"quantity":1"#,
        r#"{"fault":"NoName","field":"location","line":1}"#,
    ),
    (
        r#""found","part":"Screw","location":["Bin","Shelf A"],"quantity":1"#,
        r#"{"fault":"NoName","field":"location","line":1}"#,
    ),
    (
        r#""found","part":"Screw","location":[],"quantity":1"#,
        r#"{"fault":"WrongType","line":1}"#,
    ),
    (
        r#""found","part":"Screw","location":["Bin",1],"quantity":1"#,
        r#"{"fault":"WrongType","line":1}"#,
    ),
    (
        r#""found","part":["Screw"],"location":1,"quantity":1"#,
        r#"{"fault":"WrongType","line":1}"#,
    ),
    (
        r#""found","part":"Screw","location":1,"quantity":"ten""#,
        r#"{"fault":"WrongType","line":1}"#,
    ),
    (
        r#""found","part":"Screw","location":{"part":"Robot","serial":"R1"},"quantity":1"#,
        r#"{"fault":"WrongType","line":1}"#,
    ),
    (
        r#""add_location","name":"Bin","parent":"Bins""#,
        r#"{"fault":"NoName","field":"parent","line":1}"#,
    ),
    (
        r#""add_part","name":"x","category":["Metal","8"],"flags":[]"#,
        r#"{"fault":"NoName","field":"category","line":1}"#,
    ),
    (
        r#""add_part","name":"x","template":"y","flags":[]"#,
        r#"{"fault":"NoName","field":"template","line":1}"#,
    ),
    (
        r#""drop_line","line":"Screw""#,
        r#"{"fault":"WrongType","line":1}"#,
    ),
    (
        r#""drop_substitute","substitute":["Nut"]"#,
        r#"{"fault":"WrongType","line":1}"#,
    ),
    (
        r#""ship","order":"PO-1""#,
        r#"{"fault":"WrongType","line":1}"#,
    ),
    (
        r#""ship","order":{"key":"PO-2"}"#,
        r#"{"fault":"NoName","field":"order","line":1}"#,
    ),
    (r#""ship","order":{"key":"L-1"}"#, r#"{"refused":"NoSuch"}"#),
    (
        r#""ship","order":{"key":"P O"}"#,
        r#"{"fault":"BadKey","line":1}"#,
    ),
    (
        r#""ship","order":{"key":1}"#,
        r#"{"fault":"WrongType","line":1}"#,
    ),
    (
        r#""ship","order":{"key":"PO-1","x":1}"#,
        r#"{"fault":"UnknownField","line":1}"#,
    ),
    (r#""ship","order":{}"#, r#"{"fault":"WrongType","line":1}"#),
    (
        r#""issue_build","build":"Robot""#,
        r#"{"fault":"WrongType","line":1}"#,
    ),
    (
        r#""release","allocation":{"key":"A-2"}"#,
        r#"{"fault":"NoName","field":"allocation","line":1}"#,
    ),
    (
        r#""split","item":"R1","quantity":1"#,
        r#"{"fault":"WrongType","line":1}"#,
    ),
    (
        r#""split","item":{"part":"Robot"},"quantity":1"#,
        r#"{"fault":"NoField","line":1}"#,
    ),
    (
        r#""split","item":{"part":"Robot","serial":"R 1"},"quantity":1"#,
        r#"{"fault":"BadSerials","line":1}"#,
    ),
    (
        r#""split","item":{"part":"Bolt","serial":"R 1"},"quantity":1"#,
        r#"{"fault":"NoName","field":"item","line":1}"#,
    ),
    (
        r#""split","item":{"part":"Robot","serial":"R9"},"quantity":1"#,
        r#"{"fault":"NoName","field":"item","line":1}"#,
    ),
    (
        r#""split","item":{"key":"F-1"},"quantity":1"#,
        r#"{"fault":"Ambiguous","field":"item","line":1}"#,
    ),
    (
        r#""merge","into":6,"items":[10,{"key":"F-1"},{"key":"F-2"}]"#,
        r#"{"fault":"Ambiguous","field":"items","line":1}"#,
    ),
    (
        r#""merge","into":6,"items":[10,{"key":"F-2"},{"key":"F-1"}]"#,
        r#"{"fault":"NoName","field":"items","line":1}"#,
    ),
    (
        r#""complete_output","output":{"part":"Robot","serial":"R9"},"location":"Bin""#,
        r#"{"fault":"NoName","field":"output","line":1}"#,
    ),
];

/// What is wrong with a line that asks for a report, on that shop.
const WRONG_REPORTS: [(&str, &str); 5] = [
    (
        r#"{"report":"stock","of":"Bolt"}"#,
        r#"{"fault":"NoName","field":"of","line":1}"#,
    ),
    (
        r#"{"report":"history","of":{"key":"F-1"}}"#,
        r#"{"fault":"Ambiguous","field":"of","line":1}"#,
    ),
    (
        r#"{"report":"stocks","of":"Screw"}"#,
        r#"{"fault":"WrongType","line":1}"#,
    ),
    (
        r#"{"report":"shortage","of":"Robot"}"#,
        r#"{"fault":"WrongType","line":1}"#,
    ),
    (
        r#"{"report":"history","of":["Screw"]}"#,
        r#"{"fault":"WrongType","line":1}"#,
    ),
];

/// Each of the lines is answered so.
fn expect_answers(
    rt: &impl Abort,
    alloc: Global,
    shop: &mut Shop,
    lines: &[(&str, &str)],
) -> Result<(), Fail>
    requires { IsSoundState (state_of shop.old) }
    ensures { IsSoundState (state_of shop.new) }
{
    for pair in lines {
        let (line, want) = pair;
        let told = answer(alloc, shop, line)?;
        let want = format!(in alloc; "{want}\n")?;
        assert_eq!(rt; told.as_str(), want.as_str(), "at {line}");
    }
    Ok(())
}

/// Each of the requests, which lack their day and the braces around them, is answered so.
fn expect_faults(
    rt: &impl Abort,
    alloc: Global,
    shop: &mut Shop,
    rests: &[(&str, &str)],
) -> Result<(), Fail>
    requires { IsSoundState (state_of shop.old) }
    ensures { IsSoundState (state_of shop.new) }
{
    for pair in rests {
        let (rest, want) = pair;
        let line = format!(in alloc; "{{\"day\":\"2030-01-02\",\"do\":{rest}}}")?;
        let told = answer(alloc, shop, line.as_str())?;
        let want = format!(in alloc; "{want}\n")?;
        assert_eq!(rt; told.as_str(), want.as_str(), "at {line}");
    }
    Ok(())
}

/// The shop of these lines.
fn shop(rt: &impl Abort, alloc: Global) -> Result<Shop, Fail>
    ensures { IfOk result (λ shop. IsSoundState (state_of shop)) }
{
    let mut shop = Shop::new(
        alloc,
        Seed::new(0),
        Limits::new(1_000, 1_000).ok_or("limits")?,
    );
    expect_answers(rt, alloc, &mut shop, &SHOP)?;
    Ok(shop)
}

#[test]
fn answers_lines_with_names(rt: HostRuntime) -> Result<(), Fail> {
    let _shop = shop(&rt, rt.alloc())?;
    Ok(())
}

#[test]
fn finds_what_is_wrong_with_a_name(rt: HostRuntime) -> Result<(), Fail> {
    let mut shop = shop(&rt, rt.alloc())?;
    expect_faults(&rt, rt.alloc(), &mut shop, &WRONG)?;
    expect_answers(&rt, rt.alloc(), &mut shop, &WRONG_REPORTS)
}

#[test]
fn looks_no_name_up_without_leave(rt: HostRuntime) -> Result<(), Fail> {
    let alloc = rt.alloc();
    for rest in [
        r#""found","part":"Screw","location":1,"quantity":1"#,
        r#""found","part":4,"location":["Store"],"quantity":1"#,
        r#""ship","order":{"key":"PO-1"}"#,
        r#""merge","into":6,"items":[{"key":"D1"}]"#,
    ] {
        let line = format!(in alloc; "{{\"day\":\"2030-01-02\",\"do\":{rest}}}")?;
        let read = read_line::<Shop>(alloc, None, line.as_bytes(), 1);
        let what = match &read {
            Err(ReadError::Wrong(fault)) => fault.what.name(),
            _ => "no fault",
        };
        assert_eq!(rt; what, "WrongType", "at {line}");
    }
    Ok(())
}
