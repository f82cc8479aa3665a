//! What is wrong with lines.
use desk_core::Shop;
use desk_wire::{ReadError, read_line};
use std::alloc::{AllocError, Global};
use std::test::Fail;

/// The name of the fault that is told of that line.
fn fault_of(alloc: Global, bytes: &[u8], line: u64) -> &'static str {
    let read = read_line::<Shop>(alloc, None, bytes, line);
    match &read {
        Err(ReadError::Wrong(fault)) if fault.line == line => fault.what.name(),
        _ => "none",
    }
}

#[test]
fn finds_what_is_wrong_with_a_line(rt: HostRuntime) -> Result<(), Fail> {
    let alloc = rt.alloc();
    for (line, want) in [
        ("", "NotJson"),
        ("{", "NotJson"),
        ("{}{}", "NotJson"),
        (r#"{"do":"fly","item":1e999}"#, "NotJson"),
        (r#"{"do":"fly","item":"\ud800"}"#, "NotJson"),
        (r#"{"do":"fly","item":"\ud83d\udd29"}"#, "UnknownCommand"),
        (r#"{"do":"fly","item":01}"#, "NotJson"),
        ("[]", "NotObject"),
        ("1", "NotObject"),
        ("{}", "NoField"),
        (r#"{"day":"2030-01-02"}"#, "NoField"),
        (r#"{"do":1}"#, "WrongType"),
        (r#"{"do":null,"report":"ledger"}"#, "WrongType"),
        (r#"{"do":"fly","x":1}"#, "UnknownCommand"),
        (r#"{"do":"add","x":1,"key":""}"#, "UnknownField"),
        (r#"{"do":"add","report":"ledger"}"#, "UnknownField"),
        (r#"{"do":"add","key":null}"#, "WrongType"),
        (r#"{"do":"add","key":1,"day":1}"#, "WrongType"),
        (r#"{"do":"add","key":""}"#, "BadKey"),
        (r#"{"do":"add","key":"a b"}"#, "BadKey"),
        (r#"{"do":"add","key":"é"}"#, "BadKey"),
        (
            r#"{"do":"add","key":"123456789012345678901234567890123456789012345678901234567890123456789012345678901"}"#,
            "BadKey",
        ),
        (r#"{"do":"add","item":1,"quantity":1}"#, "NoField"),
        (r#"{"do":"add","day":1}"#, "WrongType"),
        (r#"{"do":"add","day":null}"#, "WrongType"),
        (r#"{"do":"add","day":"2030-02-30"}"#, "BadDay"),
        (r#"{"do":"add","day":"1999-12-31"}"#, "BadDay"),
        (r#"{"do":"add","day":"2100-01-01"}"#, "BadDay"),
        (r#"{"do":"add","day":"2030-1-2"}"#, "BadDay"),
        (r#"{"report":5}"#, "NoField"),
        (r#"{"report":"x","day":"2030-01-02"}"#, "UnknownField"),
        (r#"{"report":"x","of":null}"#, "WrongType"),
        (r#"{"report":"x","of":"2"}"#, "WrongType"),
        (r#"{"report":null,"of":2}"#, "WrongType"),
        (r#"{"report":"Stock","of":2}"#, "BadWord"),
        (r#"{"report":"shortages","of":2}"#, "BadWord"),
    ] {
        assert_eq!(rt; fault_of(alloc, line.as_bytes(), 7), want, "at {line}");
    }
    assert_eq!(rt; fault_of(alloc, b"\"\xff\"", 7), "NotJson");
    let mut long = vec![in alloc; b' '; 65_536]?;
    assert_eq!(rt; fault_of(alloc, &long, 7), "NotJson");
    long.push(b' ')?;
    assert_eq!(rt; fault_of(alloc, &long, 7), "TooLong");
    Ok(())
}

/// So many arrays in one another.
fn nested(alloc: Global, depth: usize) -> Result<Vec<u8>, AllocError> {
    let mut line = vec![in alloc; b'['; depth]?;
    for _ in 0..depth {
        line.push(b']')?;
    }
    Ok(line)
}

#[test]
fn finds_what_stands_too_deep(rt: HostRuntime) -> Result<(), Fail> {
    let alloc = rt.alloc();
    assert_eq!(rt; fault_of(alloc, &nested(alloc, 127)?, 7), "NotObject");
    assert_eq!(rt; fault_of(alloc, &nested(alloc, 128)?, 7), "NotJson");
    Ok(())
}

#[test]
fn finds_what_is_wrong_with_a_field(rt: HostRuntime) -> Result<(), Fail> {
    let alloc = rt.alloc();
    for (rest, want) in [
        (r#""add""#, "NoField"),
        (r#""add","item":null"#, "WrongType"),
        (r#""add","item":-1"#, "WrongType"),
        (r#""add","item":-0"#, "WrongType"),
        (r#""add","item":1.0"#, "WrongType"),
        (r#""add","item":1e2"#, "WrongType"),
        (r#""add","item":18446744073709551616"#, "WrongType"),
        (r#""add","item":"1","quantity":1"#, "WrongType"),
        (r#""add","item":1,"quantity":true"#, "WrongType"),
        (r#""transfer","item":1,"quantity":true"#, "NoField"),
        (r#""add_location""#, "NoField"),
        (r#""add_location","name":null"#, "WrongType"),
        (r#""add_location","name":"""#, "BadText"),
        (r#""add_location","name":"a\tb","parent":"x""#, "BadText"),
        (r#""add_location","name":"x","parent":"x""#, "WrongType"),
        (r#""add_location","name":"x","parent":1.5"#, "WrongType"),
        (r#""add_part","name":"x""#, "NoField"),
        (r#""add_part","name":"x","flags":null"#, "WrongType"),
        (r#""add_part","name":"x","flags":{}"#, "WrongType"),
        (r#""add_part","name":"x","flags":["x",5]"#, "WrongType"),
        (r#""add_part","name":"x","flags":["x"]"#, "BadWord"),
        (
            r#""add_part","name":"x","flags":["salable","salable"]"#,
            "BadWord",
        ),
        (
            r#""add_part","name":"x","flags":[],"category":{}"#,
            "WrongType",
        ),
        (
            r#""add_line","assembly":1,"component":2,"quantity":3,"optional":null"#,
            "WrongType",
        ),
        (
            r#""add_line","assembly":1,"component":2,"quantity":3,"variants":1"#,
            "WrongType",
        ),
        (
            r#""found","part":1,"location":2,"quantity":3,"batch":"""#,
            "BadText",
        ),
        (
            r#""found","part":1,"location":2,"quantity":3,"batch":4,"serials":"""#,
            "WrongType",
        ),
        (
            r#""found","part":1,"location":2,"quantity":3,"serials":"""#,
            "BadSerials",
        ),
        (
            r#""found","part":1,"location":2,"quantity":3,"serials":["a"]"#,
            "WrongType",
        ),
        (r#""merge","into":1"#, "NoField"),
        (r#""merge","into":1,"items":2"#, "WrongType"),
        (r#""merge","into":1,"items":[2,-3]"#, "WrongType"),
        (r#""serialise","item":1,"quantity":2"#, "NoField"),
        (
            r#""serialise","item":1,"quantity":2,"serials":null"#,
            "WrongType",
        ),
        (
            r#""serialise","item":1,"quantity":2,"serials":"5-3""#,
            "BadSerials",
        ),
        (r#""set_status","item":1"#, "NoField"),
        (r#""set_status","item":1,"status":0"#, "WrongType"),
        (r#""set_status","item":1,"status":"Okay""#, "BadWord"),
        (r#""install","item":1,"quantity":"x""#, "NoField"),
        (r#""install","item":1,"parent":"2""#, "WrongType"),
        (r#""install","item":1,"parent":2"#, "NoField"),
        (
            r#""install","item":1,"parent":2,"quantity":3,"location":4"#,
            "UnknownField",
        ),
        (r#""uninstall","item":1"#, "NoField"),
        (r#""uninstall","item":null,"location":2"#, "WrongType"),
        (
            r#""uninstall","item":1,"location":2,"quantity":1"#,
            "UnknownField",
        ),
        (r#""disassemble","location":2"#, "NoField"),
        (r#""disassemble","item":1,"location":"A""#, "WrongType"),
        (r#""reinstate","item":1"#, "NoField"),
        (r#""reinstate","item":1,"location":2.5"#, "WrongType"),
    ] {
        let line = format!(in alloc; "{{\"day\":\"2030-01-02\",\"do\":{rest}}}")?;
        assert_eq!(rt; fault_of(alloc, line.as_bytes(), 1), want, "at {line}");
    }
    Ok(())
}

/// What is wrong with a field of a command on orders or on allocations.
const WRONG_ORDERS: [(&str, &str); 24] = [
    (r#""order","partner":"x""#, "NoField"),
    (r#""order","side":null,"partner":"x""#, "WrongType"),
    (r#""order","side":0,"partner":"x""#, "WrongType"),
    (r#""order","side":["sale"],"partner":"x""#, "WrongType"),
    (r#""order","side":"Sale","partner":"x""#, "BadWord"),
    (r#""order","side":"sales","partner":"""#, "BadWord"),
    (r#""order","side":"","partner":"x""#, "BadWord"),
    (r#""order","side":"sale""#, "NoField"),
    (r#""order","side":"sale","partner":null"#, "WrongType"),
    (r#""order","side":"sale","partner":"""#, "BadText"),
    (
        r#""order","side":"sale","partner":"x","order":1"#,
        "UnknownField",
    ),
    (r#""order_line","order":1,"part":2"#, "NoField"),
    (
        r#""order_line","order":1,"part":-2,"quantity":3"#,
        "WrongType",
    ),
    (r#""issue_order","order":null"#, "WrongType"),
    (r#""issue_order","line":1"#, "UnknownField"),
    (
        r#""receive","line":1,"location":2,"quantity":3,"batch":"""#,
        "BadText",
    ),
    (
        r#""receive","line":1,"location":2,"quantity":3,"serials":"3-1""#,
        "BadSerials",
    ),
    (
        r#""receive","line":1,"location":2,"quantity":3,"part":4"#,
        "UnknownField",
    ),
    (r#""allocate_sale","line":1,"quantity":3"#, "NoField"),
    (r#""ship","order":"1""#, "WrongType"),
    (r#""return_item","item":1"#, "NoField"),
    (r#""close_order","order":1.5"#, "WrongType"),
    (r#""cancel_order""#, "NoField"),
    (r#""release","allocation":true"#, "WrongType"),
];

#[test]
fn finds_what_is_wrong_with_an_order(rt: HostRuntime) -> Result<(), Fail> {
    let alloc = rt.alloc();
    for (rest, want) in WRONG_ORDERS {
        let line = format!(in alloc; "{{\"day\":\"2030-01-02\",\"do\":{rest}}}")?;
        assert_eq!(rt; fault_of(alloc, line.as_bytes(), 1), want, "at {line}");
    }
    Ok(())
}

/// What is wrong with a field of a command on builds.
const WRONG_BUILDS: [(&str, &str); 29] = [
    (r#""build","quantity":1"#, "NoField"),
    (r#""build","part":1"#, "NoField"),
    (r#""build","part":"1","quantity":1"#, "WrongType"),
    (r#""build","part":1,"quantity":1,"build":2"#, "UnknownField"),
    (r#""issue_build""#, "NoField"),
    (r#""issue_build","part":1"#, "UnknownField"),
    (r#""hold_build","build":null"#, "WrongType"),
    (r#""cancel_build","build":1.0"#, "WrongType"),
    (r#""outputs","build":1"#, "NoField"),
    (r#""outputs","build":1,"quantity":1,"batch":"""#, "BadText"),
    (
        r#""outputs","build":1,"quantity":1,"batch":7,"serials":"""#,
        "WrongType",
    ),
    (
        r#""outputs","build":1,"quantity":1,"serials":"1-1001""#,
        "BadSerials",
    ),
    (
        r#""outputs","build":1,"quantity":1,"serials":["1"]"#,
        "WrongType",
    ),
    (
        r#""outputs","build":1,"quantity":1,"location":2"#,
        "UnknownField",
    ),
    (r#""complete_output","output":1"#, "NoField"),
    (
        r#""complete_output","location":-1,"output":true"#,
        "WrongType",
    ),
    (r#""cancel_output","build":1"#, "UnknownField"),
    (r#""scrap_output""#, "NoField"),
    (r#""allocate_build","build":1,"line":2,"item":3"#, "NoField"),
    (
        r#""allocate_build","build":1,"line":2,"item":3,"quantity":4,"output":"5""#,
        "WrongType",
    ),
    (
        r#""allocate_build","build":1,"line":2,"item":3,"quantity":4,"output":18446744073709551616"#,
        "WrongType",
    ),
    (r#""auto_allocate","substitutes":true"#, "NoField"),
    (
        r#""auto_allocate","build":1,"substitutes":null"#,
        "WrongType",
    ),
    (r#""auto_allocate","build":1,"optional":1"#, "WrongType"),
    (r#""complete_build","build":[1]"#, "WrongType"),
    (r#""complete_build","build":1,"location":1"#, "UnknownField"),
    (r#""consume""#, "NoField"),
    (r#""consume","allocation":null"#, "WrongType"),
    (r#""consume","allocation":1,"quantity":1"#, "UnknownField"),
];

#[test]
fn finds_what_is_wrong_with_a_build(rt: HostRuntime) -> Result<(), Fail> {
    let alloc = rt.alloc();
    for (rest, want) in WRONG_BUILDS {
        let line = format!(in alloc; "{{\"day\":\"2030-01-02\",\"do\":{rest}}}")?;
        assert_eq!(rt; fault_of(alloc, line.as_bytes(), 1), want, "at {line}");
    }
    Ok(())
}
