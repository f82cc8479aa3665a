//! Runs with a journal: what is answered is what is answered without one, and each request that is accepted is kept.
use desk_app::{LineOptions, RunOptions, run_checked, run_lines};
use desk_core::{RunEnd, Shop};
use part_core::{Limits, Seed};
use std::alloc::Global;
use std::test::Fail;
use store_play::devices::{Sink, Source};
use store_play::outcomes::holds;

/// A day's lines. The second and the sixth have keys of their own, which look as if the journal had given them; the fourth is
/// refused, the fifth is a report, and the seventh can't be read.
const LINES: &str = r#"{"day":"2030-01-02","do":"add_location","name":"A"}
{"day":"2030-01-02","do":"add_location","key":"2030-01-02/3","name":"B"}
{"day":"2030-01-02","do":"add_part","flags":["component","purchaseable"],"name":"Screw"}
{"day":"2030-01-02","do":"add_location","name":"A"}
{"of":3,"report":"stock"}
{"day":"2030-01-02","do":"add_location","key":"2030-01-03/6","name":"C"}
a location more
{"day":"2030-01-03","do":"found","location":1,"part":3,"quantity":100}

{"day":"2030-01-03","do":"add_location","name":"D"}
{"day":"2030-01-02","do":"add_location","key":"2030-01-02/3","name":"B"}
"#;

const ANSWERS: &str = r#"{"entries":0,"ids":[1]}
{"entries":0,"ids":[2]}
{"entries":0,"ids":[3]}
{"refused":"NameTaken"}
{"report":[]}
{"entries":0,"ids":[4]}
{"fault":"NotJson","line":7}
{"entries":1,"ids":[5]}
{"entries":0,"ids":[6]}
{"entries":0,"ids":[2]}
"#;

/// The keys that are kept then, and those without a journal: the third line would be the third that is kept, and finds that
/// key given.
const KEPT: [&str; 6] = [
    "2030-01-02/1",
    "2030-01-02/3",
    "2030-01-02/4",
    "2030-01-03/6",
    "2030-01-03/5",
    "2030-01-03/7",
];

const GIVEN: [&str; 2] = ["2030-01-02/3", "2030-01-03/6"];

/// Lines with a journal, in which no row may be named.
const JOURNAL: RunOptions = RunOptions {
    lines: LineOptions {
        names: false,
        journal: true,
    },
    stop: false,
};

/// Fails where answers are kept under other keys.
fn are_kept(alloc: Global, shop: &Shop, keys: &[&str]) -> Result<(), Fail> {
    holds(
        shop.answers().len() == keys.len(),
        "more or fewer answers are kept",
    )?;
    for key in keys {
        let key = String::from_str(alloc, *key)?;
        holds(shop.answers().get(&key).is_some(), "a key isn't kept")?;
    }
    Ok(())
}

/// Runs the lines on an empty shop, some bytes at a time.
fn runs(alloc: Global, options: RunOptions, step: usize, keys: &[&str]) -> Result<(), Fail> {
    let mut shop = Shop::new(alloc, Seed::new(0), Limits::LARGEST);
    let mut source = Source::new(LINES.as_bytes(), step);
    let mut sink = Sink::new(alloc, 4096);
    let end = run_lines(alloc, &mut source, &mut sink, &mut shop, options);
    holds(end == RunEnd::Done(false), "another end")?;
    holds(
        sink.bytes.as_slice() == ANSWERS.as_bytes(),
        "another answer",
    )?;
    are_kept(alloc, &shop, keys)
}

#[test]
fn a_journal_keeps_what_is_accepted(rt: HostRuntime) -> Result<(), Fail> {
    let alloc = rt.alloc();
    for step in [4096, 1] {
        runs(alloc, JOURNAL, step, KEPT.as_slice())?;
        runs(alloc, RunOptions::PLAIN, step, GIVEN.as_slice())?;
    }
    Ok(())
}

/// Lines that name rows, of which each is accepted.
const NAMED: &str = r#"{"day":"2030-01-02","do":"add_location","name":"A"}
{"day":"2030-01-02","do":"add_location","name":"B","parent":"A"}
{"day":"2030-01-02","do":"add_location","name":"C","parent":["A","B"]}
"#;

#[test]
fn a_journal_is_kept_of_lines_that_were_looked_at(rt: HostRuntime) -> Result<(), Fail> {
    let alloc = rt.alloc();
    let mut shop = Shop::new(alloc, Seed::new(0), Limits::LARGEST);
    let mut sink = Sink::new(alloc, 4096);
    let options = RunOptions {
        lines: LineOptions {
            names: true,
            journal: true,
        },
        stop: false,
    };
    let end = run_checked(alloc, NAMED.as_bytes(), &mut sink, &mut shop, options);
    holds(end == RunEnd::Done(true), "another end")?;
    let keys = ["2030-01-02/1", "2030-01-02/2", "2030-01-02/3"];
    are_kept(alloc, &shop, keys.as_slice())
}
