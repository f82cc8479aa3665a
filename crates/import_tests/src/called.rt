//! Files, and words, in which rows are called by their names.
use crate::shown::{show, under};
use desk_core::Shop;
use desk_wire::{ImportKind, Unread, read_request, row_at_word};
use part_core::{Limits, RowKind, Seed};
use std::alloc::{AllocError, Global};
use std::test::Fail;

const RECEIPTS: &str = "number,line,location,quantity,batch,serials";

const COUNTS: &str = "number,item,quantity";

/// The lines that make the shop.
const SHOP: [&str; 10] = [
    r#"{"do":"add_location","day":"2030-01-02","name":"Store"}"#,
    r#"{"do":"add_location","day":"2030-01-02","name":"Shelf A","parent":1}"#,
    r#"{"do":"add_location","day":"2030-01-02","name":"7"}"#,
    r#"{"do":"add_location","day":"2030-01-02","name":"[x"}"#,
    r#"{"do":"add_part","day":"2030-01-02","name":"Screw","flags":["component","purchaseable"]}"#,
    r#"{"do":"add_part","day":"2030-01-02","name":"Robot","flags":["assembly","trackable"]}"#,
    r#"{"do":"order","day":"2030-01-02","side":"purchase","partner":"Smith"}"#,
    r#"{"do":"order_line","day":"2030-01-02","order":7,"part":5,"quantity":100,"key":"PO-1/1"}"#,
    r#"{"do":"found","day":"2030-01-02","part":6,"location":1,"quantity":2,"serials":"R1,R2","key":"F-1"}"#,
    r#"{"do":"found","day":"2030-01-02","part":5,"location":1,"quantity":10,"key":"F-2"}"#,
];

/// The shop of these lines: locations 1 to 4, parts 5 and 6, order 7 with line 8, and items 9 to 11.
pub fn shop(alloc: Global) -> Result<Shop, Fail> {
    let mut requests = Vec::new(alloc);
    for line in SHOP {
        let request = read_request::<Shop>(alloc, None, line.as_bytes(), 1).map_err(
            |_| "it is a request",
        )?;
        requests.push(request)?;
    }
    let mut shop = Shop::new(
        alloc,
        Seed::new(0),
        Limits::new(1_000, 1_000).ok_or("limits")?,
    );
    for outcome in shop.run_list(alloc, requests.as_slice())? {
        outcome.map_err(|_| "it is done")?;
    }
    Ok(shop)
}

const MARCH: &str = "Day { year: 2030, month: 3, day: 1 }";

#[test]
fn reads_files_with_names(rt: HostRuntime) -> Result<(), Fail> {
    let alloc = rt.alloc();
    let shop = shop(alloc)?;
    let lines = br#"1,"{""key"":""PO-1/1""}",Store,10,L1,
2,8,"[""Store"",""Shelf A""]",5,,
3,008,7,5,,
4,8,"[""7""]",5,,
"#;
    let file = under(alloc, RECEIPTS, lines)?;
    let shown = show(alloc, Some(&shop), ImportKind::Receipts, file.as_slice())?;
    let want = "1 receipts/D1/1 DAY receive 8 1 10 L1
2 receipts/D1/2 DAY receive 8 2 5 none
3 receipts/D1/3 DAY receive 8 7 5 none
4 receipts/D1/4 DAY receive 8 3 5 none
";
    assert_eq!(rt; shown.as_str(), want.replace(alloc, "DAY", MARCH)?.as_str());
    let lines = br#"1,"{""part"":""Robot"",""serial"":""R2""}",1
2,"{""key"":""F-2""}",9
3,11,8
"#;
    let file = under(alloc, COUNTS, lines)?;
    let shown = show(alloc, Some(&shop), ImportKind::Counts, file.as_slice())?;
    let want = "1 counts/D1/1 DAY count 10 1
2 counts/D1/2 DAY count 11 9
3 counts/D1/3 DAY count 11 8
";
    assert_eq!(rt; shown.as_str(), want.replace(alloc, "DAY", MARCH)?.as_str());
    Ok(())
}

#[test]
fn finds_what_is_wrong_with_a_receipts_name(rt: HostRuntime) -> Result<(), Fail> {
    let alloc = rt.alloc();
    let shop = shop(alloc)?;
    let cases: [(&[u8], &str, &str); 15] = [
        (b"1,8,Bin,1,,", "NoName location 2", "WrongType 2"),
        (b"1,8,Shelf A,1,,", "NoName location 2", "WrongType 2"),
        (b"1,8,,1,,", "NoName location 2", "WrongType 2"),
        (
            b"1,8,12345678901234567890,1,,",
            "NoName location 2",
            "WrongType 2",
        ),
        (b"1,8, 1,1,,", "NoName location 2", "WrongType 2"),
        (b"1,PO-1/1,Store,1,,", "WrongType 2", "WrongType 2"),
        (
            br#"1,"{""key"":""PO-9""}",Bin,x,,"#,
            "NoName line 2",
            "WrongType 2",
        ),
        (
            br#"1,8,"[""Store"",""Bin""]",1,,"#,
            "NoName location 2",
            "WrongType 2",
        ),
        (br#"1,8,"[""Store""",1,,"#, "WrongType 2", "WrongType 2"),
        (
            br#"1,8,"{""key"":""F-1""}",1,,"#,
            "Ambiguous location 2",
            "WrongType 2",
        ),
        (br#"1,8,"{""key"":""P O""}",1,,"#, "BadKey 2", "WrongType 2"),
        (
            br#"1,8,"{""part"":6,""serial"":""R1""}",1,,"#,
            "WrongType 2",
            "WrongType 2",
        ),
        (
            b"1,8,1,1,,\n2,8,Bin,1,,",
            "NoName location 3",
            "WrongType 3",
        ),
        (b"1,8,Bin,x,,\n2", "NoName location 2", "WrongType 2"),
        (b"1,8,1,1,\x01,\n2,8,Bin,1,,", "BadText 2", "BadText 2"),
    ];
    for (lines, want, unnamed) in cases {
        let file = under(alloc, RECEIPTS, lines)?;
        let shown = show(alloc, Some(&shop), ImportKind::Receipts, file.as_slice())?;
        assert_eq!(rt; shown.as_str(), want);
        let shown = show(alloc, None, ImportKind::Receipts, file.as_slice())?;
        assert_eq!(rt; shown.as_str(), unnamed);
    }
    Ok(())
}

#[test]
fn finds_what_is_wrong_with_a_counts_name(rt: HostRuntime) -> Result<(), Fail> {
    let alloc = rt.alloc();
    let shop = shop(alloc)?;
    let cases: [(&[u8], &str); 6] = [
        (b"1,Robot,1", "WrongType 2"),
        (br#"1,"[""Store""]",1"#, "WrongType 2"),
        (
            br#"1,"{""part"":""Robot"",""serial"":""R9""}",1"#,
            "NoName item 2",
        ),
        (br#"1,"{""key"":""F-1""}",x"#, "Ambiguous item 2"),
        (br#"1,"{""part"":""Robot""}",1"#, "NoField 2"),
        (br#"1,"{""key"":""F-2"",""x"":1}",1"#, "UnknownField 2"),
    ];
    for (lines, want) in cases {
        let file = under(alloc, COUNTS, lines)?;
        let shown = show(alloc, Some(&shop), ImportKind::Counts, file.as_slice())?;
        assert_eq!(rt; shown.as_str(), want);
    }
    Ok(())
}

/// The row's number, or the fault and the field that it tells.
fn show_word(
    alloc: Global,
    shop: Option<&Shop>,
    table: RowKind,
    word: &str,
) -> Result<String, AllocError> {
    let read = row_at_word(alloc, shop, table, "of", word);
    match &read {
        Ok(number) => format!(in alloc; "{number}"),
        Err(Unread::Wrong(what)) => {
            let (name, field) = (what.name(), what.field().unwrap_or("none"));
            format!(in alloc; "{name} {field}")
        }
        Err(Unread::Memory) => String::from_str(alloc, "no memory"),
    }
}

#[test]
fn reads_words(rt: HostRuntime) -> Result<(), Fail> {
    let alloc = rt.alloc();
    let shop = shop(alloc)?;
    for (table, word, want) in [
        (RowKind::Part, "Screw", "5"),
        (RowKind::Part, "Bolt", "NoName of"),
        (RowKind::Location, "Store", "1"),
        (RowKind::Location, r#"["Store","Shelf A"]"#, "2"),
        (RowKind::Location, "0007", "7"),
        (RowKind::Location, r#"["7"]"#, "3"),
        (RowKind::Location, "[x", "WrongType none"),
        (RowKind::Location, r#"["[x"]"#, "4"),
        (RowKind::Location, r#"["Store"]]"#, "WrongType none"),
        (RowKind::Location, "[]", "WrongType none"),
        (RowKind::Category, "Store", "NoName of"),
        (RowKind::Item, r#"{"part":"Robot","serial":"R1"}"#, "9"),
        (RowKind::Item, r#"{"key":"F-1"}"#, "Ambiguous of"),
        (RowKind::Order, "Smith", "WrongType none"),
        (RowKind::OrderLine, r#"{"key":"PO-1/1"}"#, "8"),
        (RowKind::Build, "9999999999999999999", "9999999999999999999"),
    ] {
        let shown = show_word(alloc, Some(&shop), table, word)?;
        assert_eq!(rt; shown.as_str(), want, "at {word}");
    }
    for (word, want) in [
        ("0007", "7"),
        ("Screw", "WrongType none"),
        (r#"{"key":"F-2"}"#, "WrongType none"),
        ("", "WrongType none"),
    ] {
        let shown = show_word(alloc, None, RowKind::Part, word)?;
        assert_eq!(rt; shown.as_str(), want, "at {word}");
    }
    Ok(())
}
