//! Lines that are read, and lines that are written.
use crate::shown::{show, show_request};
use desk_core::Shop;
use desk_wire::{
    FieldName, ReadError, What, WireFault, answer_text, fault_text, read_line, read_request,
    refused_text,
};
use part_core::{Answer, Ids, Refusal};
use std::test::Fail;

#[test]
fn reads_each_command(rt: HostRuntime) -> Result<(), Fail> {
    let alloc = rt.alloc();
    for (line, want) in [
        (
            r#"{"do":"add_category","day":"2030-01-02","name":"Screws","parent":7}"#,
            "add_category Screws Some(7)",
        ),
        (
            r#"{"do":"add_location","day":"2030-01-02","name":"Shelf A","parent":null}"#,
            "add_location Shelf A None",
        ),
        (
            r#"{"do":"add_part","day":"2030-01-02","name":"x","category":1,"template":2,"flags":["template","component","virtual"]}"#,
            "add_part x Some(1) Some(2) [true, false, true, false, false, false, true]",
        ),
        (
            r#"{"do":"add_part","day":"2030-01-02","name":"x","flags":["salable","purchaseable","trackable","assembly"]}"#,
            "add_part x None None [false, true, false, true, true, true, false]",
        ),
        (
            r#"{"do":"add_part","day":"2030-01-02","name":"x","template":null,"flags":[]}"#,
            "add_part x None None [false, false, false, false, false, false, false]",
        ),
        (
            r#"{"do":"retire_part","day":"2030-01-02","part":3}"#,
            "retire_part 3",
        ),
        (
            r#"{"do":"add_line","day":"2030-01-02","assembly":1,"component":2,"quantity":3,"consumable":true,"variants":false}"#,
            "NewLine { assembly: 1, component: 2, quantity: 3, flags: LineFlags { optional: false, consumable: true, inherited: false, variants: false } }",
        ),
        (
            r#"{"do":"drop_line","day":"2030-01-02","line":4}"#,
            "drop_line 4",
        ),
        (
            r#"{"do":"add_substitute","day":"2030-01-02","line":4,"part":5}"#,
            "add_substitute 4 5",
        ),
        (
            r#"{"do":"drop_substitute","day":"2030-01-02","substitute":6}"#,
            "drop_substitute 6",
        ),
        (
            r#"{"do":"found","day":"2030-01-02","part":1,"part":2,"location":0,"quantity":18446744073709551615}"#,
            "found 2 0 18446744073709551615 none of none",
        ),
        (
            r#"{"do":"found","day":"2030-01-02","part":1,"location":2,"quantity":3,"batch":"B 1","serials":"9-10,A-1"}"#,
            "found 1 2 3 B 1 of 9 10 A-1",
        ),
        (
            r#"{"do":"found","day":"2030-01-02","part":1,"location":2,"quantity":3,"batch":null,"serials":null}"#,
            "found 1 2 3 none of none",
        ),
        (
            r#"{"do":"add","day":"2030-01-02","item":1,"quantity":2}"#,
            "add 1 2",
        ),
        (
            r#"{"do":"remove","day":"2030-01-02","item":1,"quantity":2}"#,
            "remove 1 2",
        ),
        (
            r#"{"do":"count","day":"2030-01-02","item":1,"quantity":0}"#,
            "count 1 0",
        ),
        (
            r#"{"do":"transfer","day":"2030-01-02","item":1,"location":2,"quantity":3}"#,
            "transfer 1 2 3",
        ),
        (
            r#"{"do":"split","day":"2030-01-02","item":1,"quantity":2}"#,
            "split 1 2",
        ),
        (
            r#"{"do":"merge","day":"2030-01-02","into":1,"items":[9,2,9]}"#,
            "merge 1 [9, 2, 9]",
        ),
        (
            r#"{"do":"merge","day":"2030-01-02","into":1,"items":[]}"#,
            "merge 1 []",
        ),
        (
            r#"{"do":"serialise","day":"2030-01-02","item":1,"quantity":2,"serials":"b,a"}"#,
            "serialise 1 2 of b a",
        ),
        (
            r#"{"do":"set_status","day":"2030-01-02","item":1,"status":"OK"}"#,
            "set_status 1 Okay",
        ),
        (
            r#"{"do":"set_status","day":"2030-01-02","item":1,"status":"Quarantined"}"#,
            "set_status 1 Quarantined",
        ),
        (
            r#"{"do":"install","day":"2030-01-02","item":1,"parent":2,"quantity":3}"#,
            "install 1 2 3",
        ),
        (
            r#"{"do":"uninstall","day":"2030-01-02","item":1,"location":2}"#,
            "uninstall 1 2",
        ),
        (
            r#"{"do":"disassemble","day":"2030-01-02","item":1,"location":2}"#,
            "disassemble 1 2",
        ),
        (
            r#"{"do":"reinstate","day":"2030-01-02","item":1,"location":2}"#,
            "reinstate 1 2",
        ),
    ] {
        let want = format!(in alloc; "Day {{ year: 2030, month: 1, day: 2 }} {want}")?;
        let wish = read_line::<Shop>(alloc, None, line.as_bytes(), 1).map_err(|_| "it is a line")?;
        assert_eq!(rt; show(alloc, &wish)?, want, "at {line}");
        let request = read_request::<Shop>(alloc, None, line.as_bytes(), 1).map_err(
            |_| "it is a request",
        )?;
        assert_eq!(rt; show_request(alloc, &request)?, want, "at {line}");
    }
    Ok(())
}

/// Commands on orders and on allocations, each with the line that asks for it.
const OF_ORDERS: [(&str, &str); 13] = [
    (
        r#"{"do":"order","day":"2030-01-02","side":"purchase","partner":"Acme & Sons"}"#,
        "order Purchase Acme & Sons",
    ),
    (
        r#"{"do":"order","day":"2030-01-02","side":"purchase","partner":"x","side":"sale"}"#,
        "order Sale x",
    ),
    (
        r#"{"do":"order_line","day":"2030-01-02","order":1,"part":2,"quantity":3}"#,
        "order_line 1 2 3",
    ),
    (
        r#"{"do":"issue_order","day":"2030-01-02","order":1}"#,
        "issue_order 1",
    ),
    (
        r#"{"do":"receive","day":"2030-01-02","line":1,"location":2,"quantity":3}"#,
        "receive 1 2 3 none of none",
    ),
    (
        r#"{"do":"receive","day":"2030-01-02","line":1,"location":2,"quantity":3,"batch":"B 1","serials":"9-10,A-1"}"#,
        "receive 1 2 3 B 1 of 9 10 A-1",
    ),
    (
        r#"{"do":"receive","day":"2030-01-02","line":1,"location":2,"quantity":3,"batch":null,"serials":null}"#,
        "receive 1 2 3 none of none",
    ),
    (
        r#"{"do":"allocate_sale","day":"2030-01-02","line":1,"item":2,"quantity":3}"#,
        "allocate_sale 1 2 3",
    ),
    (r#"{"do":"ship","day":"2030-01-02","order":1}"#, "ship 1"),
    (
        r#"{"do":"return_item","day":"2030-01-02","item":1,"location":2}"#,
        "return_item 1 2",
    ),
    (
        r#"{"do":"close_order","day":"2030-01-02","order":1}"#,
        "close_order 1",
    ),
    (
        r#"{"do":"cancel_order","day":"2030-01-02","order":1}"#,
        "cancel_order 1",
    ),
    (
        r#"{"do":"release","day":"2030-01-02","allocation":1}"#,
        "release 1",
    ),
];

#[test]
fn reads_commands_on_orders(rt: HostRuntime) -> Result<(), Fail> {
    let alloc = rt.alloc();
    for (line, want) in OF_ORDERS {
        let want = format!(in alloc; "Day {{ year: 2030, month: 1, day: 2 }} {want}")?;
        let request = read_request::<Shop>(alloc, None, line.as_bytes(), 1).map_err(
            |_| "it is a request",
        )?;
        assert_eq!(rt; show_request(alloc, &request)?, want, "at {line}");
    }
    Ok(())
}

/// Commands on builds, each with the line that asks for it.
const OF_BUILDS: [(&str, &str); 19] = [
    (
        r#"{"do":"build","day":"2030-01-02","part":1,"quantity":2}"#,
        "build 1 2",
    ),
    (
        r#"{"quantity":18446744073709551615,"part":0,"day":"2030-01-02","do":"build"}"#,
        "build 0 18446744073709551615",
    ),
    (
        r#"{"do":"issue_build","day":"2030-01-02","build":1}"#,
        "issue_build 1",
    ),
    (
        r#"{"do":"hold_build","day":"2030-01-02","build":1}"#,
        "hold_build 1",
    ),
    (
        r#"{"do":"cancel_build","day":"2030-01-02","build":1}"#,
        "cancel_build 1",
    ),
    (
        r#"{"do":"outputs","day":"2030-01-02","build":1,"quantity":2}"#,
        "outputs 1 2 none of none",
    ),
    (
        r#"{"do":"outputs","day":"2030-01-02","build":1,"quantity":4,"batch":"B 1","serials":"9-11,A-1"}"#,
        "outputs 1 4 B 1 of 9 10 11 A-1",
    ),
    (
        r#"{"do":"outputs","day":"2030-01-02","build":1,"quantity":2,"batch":null,"serials":null}"#,
        "outputs 1 2 none of none",
    ),
    (
        r#"{"do":"complete_output","day":"2030-01-02","output":1,"location":2}"#,
        "complete_output 1 2",
    ),
    (
        r#"{"do":"cancel_output","day":"2030-01-02","output":1}"#,
        "cancel_output 1",
    ),
    (
        r#"{"do":"scrap_output","day":"2030-01-02","output":1}"#,
        "scrap_output 1",
    ),
    (
        r#"{"do":"allocate_build","day":"2030-01-02","build":1,"line":2,"item":3,"quantity":4}"#,
        "allocate_build 1 2 3 4 None",
    ),
    (
        r#"{"do":"allocate_build","day":"2030-01-02","build":1,"line":2,"item":3,"quantity":4,"output":5}"#,
        "allocate_build 1 2 3 4 Some(5)",
    ),
    (
        r#"{"do":"allocate_build","day":"2030-01-02","build":1,"line":2,"item":3,"quantity":4,"output":null}"#,
        "allocate_build 1 2 3 4 None",
    ),
    (
        r#"{"do":"auto_allocate","day":"2030-01-02","build":1}"#,
        "auto_allocate 1 false false",
    ),
    (
        r#"{"do":"auto_allocate","day":"2030-01-02","build":1,"substitutes":true}"#,
        "auto_allocate 1 true false",
    ),
    (
        r#"{"do":"auto_allocate","day":"2030-01-02","optional":true,"substitutes":false,"build":1}"#,
        "auto_allocate 1 false true",
    ),
    (
        r#"{"do":"complete_build","day":"2030-01-02","build":1}"#,
        "complete_build 1",
    ),
    (
        r#"{"do":"consume","day":"2030-01-02","allocation":1}"#,
        "consume 1",
    ),
];

#[test]
fn reads_commands_on_builds(rt: HostRuntime) -> Result<(), Fail> {
    let alloc = rt.alloc();
    for (line, want) in OF_BUILDS {
        let want = format!(in alloc; "Day {{ year: 2030, month: 1, day: 2 }} {want}")?;
        let request = read_request::<Shop>(alloc, None, line.as_bytes(), 1).map_err(
            |_| "it is a request",
        )?;
        assert_eq!(rt; show_request(alloc, &request)?, want, "at {line}");
    }
    Ok(())
}

#[test]
fn reads_keys_and_reports(rt: HostRuntime) -> Result<(), Fail> {
    let alloc = rt.alloc();
    for (line, want) in [
        (
            r#" {"key":"!~","do":"split","quantity":2, "item":1,"day":"2099-12-31"} "#,
            "!~ Day { year: 2099, month: 12, day: 31 } split 1 2",
        ),
        (r#"{"of":2,"report":"ledger"}"#, "Ledger of 2"),
        (r#"{"report":"stock","of":0}"#, "Stock of 0"),
        (r#"{"report":"where_used","of":3}"#, "WhereUsed of 3"),
        (r#"{"report":"history","of":4}"#, "History of 4"),
        (r#"{"report":"content","of":5}"#, "Content of 5"),
        (r#"{"of":6,"report":"shortage"}"#, "Shortage of 6"),
    ] {
        let wish = read_line::<Shop>(alloc, None, line.as_bytes(), 1).map_err(|_| "it is a line")?;
        assert_eq!(rt; show(alloc, &wish)?.as_str(), want, "at {line}");
    }
    let read = read_request::<Shop>(alloc, None, br#"{"of":2,"report":"ledger"}"#, 5);
    let told = match &read {
        Err(ReadError::Wrong(fault)) => (fault.what.name(), fault.line),
        _ => ("none", 0),
    };
    assert_eq!(rt; told, ("NoField", 5));
    Ok(())
}

// What is wrong with a line.

#[test]
fn writes_lines(rt: HostRuntime) -> Result<(), Fail> {
    let alloc = rt.alloc();
    let answer = Answer {
        ids: Ids::range(alloc, 3, 2)?,
        entries: 1,
    };
    let text = answer_text(alloc, &answer)?;
    assert_eq!(rt; text.as_str(), "{\"entries\":1,\"ids\":[3,4]}\n");
    let text = refused_text(alloc, Refusal::Short)?;
    assert_eq!(rt; text.as_str(), "{\"refused\":\"Short\"}\n");
    let fault = WireFault {
        line: 12,
        what: What::NotJson,
    };
    let text = fault_text(alloc, fault)?;
    assert_eq!(rt; text.as_str(), "{\"fault\":\"NotJson\",\"line\":12}\n");
    let fault = WireFault {
        line: 7,
        what: What::NoName(FieldName::new("location")),
    };
    let text = fault_text(alloc, fault)?;
    assert_eq!(rt;
        text.as_str(),
        "{\"fault\":\"NoName\",\"field\":\"location\",\"line\":7}\n"
    );
    Ok(())
}
