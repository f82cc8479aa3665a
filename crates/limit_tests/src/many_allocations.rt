//! Many allocations of one item, which are shipped at once: a thousand on a shop, and fewer on a desk too.
ghost use Rattle.std.specs.Prelude.{◌≤◌};

use desk_core::Shop;
use desk_play::play::{plays, plays_on_shop};
use part_core::{Limits, Seed};
use std::alloc::Global;
use std::test::Fail;

const FIRST: &str = r#"{"day":"2030-01-02","do":"add_location","name":"A"}
{"day":"2030-01-02","do":"add_part","flags":["salable"],"name":"Lamp"}
{"day":"2030-01-02","do":"found","location":1,"part":2,"quantity":1000}
{"day":"2030-01-02","do":"order","partner":"Acme","side":"sale"}
{"day":"2030-01-02","do":"order_line","order":4,"part":2,"quantity":1000}
{"day":"2030-01-02","do":"issue_order","order":4}
"#;

const FIRST_ANSWERS: &str = r#"{"entries":0,"ids":[1]}
{"entries":0,"ids":[2]}
{"entries":1,"ids":[3]}
{"entries":0,"ids":[4]}
{"entries":0,"ids":[5]}
{"entries":0,"ids":[]}
"#;

const ALLOCATE: &str =
    "{\"day\":\"2030-01-02\",\"do\":\"allocate_sale\",\"item\":3,\"line\":5,\"quantity\":1}\n";

const LAST: &str =
    "{\"of\":3,\"report\":\"history\"}\n{\"day\":\"2030-01-02\",\"do\":\"ship\",\"order\":4}\n";

/// The lines: so many pieces are allocated one by one, and all are shipped.
fn lines(alloc: Global, count: u64) -> Result<String, Fail> {
    let mut text = String::from_str(alloc, FIRST)?;
    for _ in 0..count {
        text.push_str(ALLOCATE)?;
    }
    text.push_str(LAST)?;
    Ok(text)
}

/// Each piece is cut off under a number of its own, but where it is the last of the item: that goes itself.
fn answers(alloc: Global, count: u64, cuts: u64) -> Result<String, Fail>
    requires count { count ≤ 1000 }
    requires cuts { cuts ≤ 1000 }
{
    let mut text = String::from_str(alloc, FIRST_ANSWERS)?;
    let first = 6 + count;
    for number in 6..first {
        write!(text, "{{\"entries\":0,\"ids\":[{number}]}}\n")?;
    }
    text.push_str("{\"report\":[[\"1\",\"2030-01-02\",\"found\",\"1000\",\"at 1\"]]}\n")?;
    let entries = count + cuts;
    write!(text, "{{\"entries\":{entries},\"ids\":[{first}")?;
    for number in first + 1..first + cuts {
        write!(text, ",{number}")?;
    }
    text.push_str("]}\n")?;
    Ok(text)
}

#[test]
fn a_thousand_allocations(rt: HostRuntime) -> Result<(), Fail> {
    let alloc = rt.alloc();
    let lines = lines(alloc, 1000)?;
    let answers = answers(alloc, 1000, 999)?;
    let mut shop = Shop::new(alloc, Seed::new(0), Limits::LARGEST);
    plays_on_shop(alloc, &mut shop, lines.as_str(), answers.as_str())
}

#[test]
fn many_allocations(rt: HostRuntime) -> Result<(), Fail> {
    let alloc = rt.alloc();
    let lines = lines(alloc, 30)?;
    let answers = answers(alloc, 30, 30)?;
    plays(alloc, Limits::LARGEST, lines.as_str(), answers.as_str())
}
