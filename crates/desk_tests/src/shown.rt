//! The books and the history as JSON, and tables as bytes, of a small shop.
ghost use Rattle.desk_core.specs.Machine.{IsSoundState};
ghost use Rattle.desk_core.specs.ShopView.{state_of};

use desk_core::Shop;
use desk_play::play::plays_on;
use desk_store::{books_text, history_text, table_text};
use part_core::{Limits, Seed};
use std::alloc::Global;
use std::test::Fail;
use store_play::outcomes::holds;
use table_store::TableName;

/// Names with a quote, a backslash and characters beyond ASCII.
const LINES: &str = r#"{"day":"2030-01-02","do":"add_location","name":"Shelf \"A\\B\", left"}
{"day":"2030-01-02","do":"add_part","flags":["component","purchaseable","salable"],"name":"Schräubchen 日本 😀"}
{"day":"2030-01-02","do":"found","key":"k","location":1,"part":2,"quantity":100}
{"day":"2030-01-03","do":"remove","item":3,"quantity":30}
"#;

const ANSWERS: &str = r#"{"entries":0,"ids":[1]}
{"entries":0,"ids":[2]}
{"entries":1,"ids":[3]}
{"entries":1,"ids":[]}
"#;

const BOOKS: &str =
    r#""meta":[["1","2","4","2","10000000000","10000000000"]],"categories":[],"locations":[["1","Shelf \"A\\B\", left",""]],"parts":[["2","Schräubchen 日本 😀","","","52","0"]],"lines":[],"substitutes":[],"items":[["3","2","","","0","70","0","1"]],"orders":[],"order_lines":[],"builds":[],"allocations":[],"spent":[]}
"#;

const FIRST: &str = r#"["1","2030-01-02","1","3","2","100","0","1"]"#;

const SECOND: &str = r#"["2","2030-01-03","6","3","2","30","5","0"]"#;

/// The books are told as these tables, behind this number.
fn tells_books(
    alloc: Global,
    shop: &Shop,
    accepted: Option<u64>,
    number: &str,
) -> Result<(), Fail> {
    let text = books_text(alloc, shop, accepted)?;
    let wanted = format!(in alloc; "{{\"accepted\":{number},{BOOKS}")?;
    holds(text.as_slice() == wanted.as_bytes(), "other books")
}

/// The history from the number on is told as these entries.
fn tells_history(alloc: Global, shop: &Shop, from: u64, entries: &str) -> Result<(), Fail> {
    let text = history_text(alloc, shop, from)?;
    let wanted = format!(in alloc; "{{\"history\":[{entries}]}}\n")?;
    holds(text.as_slice() == wanted.as_bytes(), "another history")
}

/// A shop with nothing in it.
fn shop(alloc: Global) -> Shop
    ensures { IsSoundState (state_of result) }
{
    Shop::new(alloc, Seed::new(0), Limits::LARGEST)
}

#[test]
fn books_as_json(rt: HostRuntime) -> Result<(), Fail> {
    let alloc = rt.alloc();
    let mut shop = shop(alloc);
    plays_on(alloc, &mut shop, LINES, ANSWERS)?;
    tells_books(alloc, &shop, Some(4), "4")?;
    tells_books(alloc, &shop, Some(0), "0")?;
    tells_books(alloc, &shop, None, "null")
}

#[test]
fn histories_as_json(rt: HostRuntime) -> Result<(), Fail> {
    let alloc = rt.alloc();
    let mut shop = shop(alloc);
    tells_history(alloc, &shop, 0, "")?;
    plays_on(alloc, &mut shop, LINES, ANSWERS)?;
    let both = format!(in alloc; "{FIRST},{SECOND}")?;
    tells_history(alloc, &shop, 0, both.as_str())?;
    tells_history(alloc, &shop, 1, both.as_str())?;
    tells_history(alloc, &shop, 2, SECOND)?;
    tells_history(alloc, &shop, 3, "")?;
    tells_history(alloc, &shop, u64::MAX, "")
}

#[test]
fn tables_as_bytes(rt: HostRuntime) -> Result<(), Fail> {
    let alloc = rt.alloc();
    let mut shop = shop(alloc);
    plays_on(alloc, &mut shop, LINES, ANSWERS)?;
    let locations = table_text(alloc, TableName::Locations, &shop)?;
    let wanted = "id,name,parent\n1,\"Shelf \"\"A\\B\"\", left\",\n";
    holds(locations.as_slice() == wanted.as_bytes(), "other locations")?;
    let builds = table_text(alloc, TableName::Builds, &shop)?;
    holds(
        builds.as_slice() == "id,part,quantity,state,done\n".as_bytes(),
        "other builds",
    )
}
