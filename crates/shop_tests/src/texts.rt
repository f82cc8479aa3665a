//! What limits, days, names and keys are.
use desk_core::is_key;
use part_core::{Day, Limits, Text};
use std::test::Fail;
use yard_core::{Place, Reason};

#[test]
fn limits(rt: HostRuntime) {
    assert!(rt; Limits::new(1, 10_000_000_000).is_some());
    assert!(rt; Limits::new(0, 1).is_none(), "a limit is 1 or more");
    assert!(rt;
        Limits::new(1, 10_000_000_001).is_none(),
        "a limit has a bound"
    );
}

/// Days that a text names, and texts that name none; names, and keys.
#[test]
fn days_and_texts(rt: HostRuntime) -> Result<(), Fail> {
    let alloc = rt.alloc();
    for text in ["2000-01-01", "2024-02-29", "2099-12-31"] {
        assert!(rt; Day::parse(text).is_some(), "{text}");
    }
    for text in [
        "1999-12-31",
        "2100-01-01",
        "2030-02-30",
        "2023-02-29",
        "2030-2-03",
        "2030-01-02T00:00",
        "",
    ] {
        assert!(rt; Day::parse(text).is_none(), "{text}");
    }
    for text in ["", "a\tb", "a\u{7f}"] {
        assert!(rt; Text::new(String::from_str(alloc, text)?).is_none());
    }
    assert!(rt; Text::new(String::from_str(alloc, "Schraube \u{e4}")?).is_some());
    assert!(rt; is_key("count-17!~"));
    for text in ["", "a b", "a\u{7f}", "\u{e4}"] {
        assert!(rt; !is_key(text), "{text}");
    }
    assert!(rt; Place::Off(Reason::Removed) != Place::Gone);
    Ok(())
}
