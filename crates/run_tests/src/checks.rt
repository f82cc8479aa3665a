//! Runs that look at all lines before the first is run.
use desk_app::{LineOptions, RunOptions, run_checked};
use desk_core::{RunEnd, Shop};
use part_core::{Limits, Seed};
use std::test::Fail;
use store_play::devices::Sink;
use store_play::outcomes::holds;

/// Five lines, of which the second and the fourth can't be read. The last names a part that isn't there.
const FAULTY: &str = r#"{"day":"2030-01-02","do":"add_location","name":"A"}
{"day":"2030-01-02","do":"add_location"}
{"day":"2030-01-02","do":"add_location","name":"B","parent":"A"}
a location more
{"of":"Screw","report":"stock"}
"#;

const FAULTS: &str = r#"{"fault":"NoField","line":2}
{"fault":"NotJson","line":4}
"#;

/// Lines that can be read. All but the first name a location that a line before them makes, and the third is refused.
const READABLE: &str = r#"{"day":"2030-01-02","do":"add_location","name":"A"}
{"day":"2030-01-02","do":"add_location","name":"B","parent":"A"}
{"day":"2030-01-02","do":"add_location","name":"B","parent":"A"}
{"day":"2030-01-02","do":"add_location","name":"C","parent":["A","B"]}
"#;

const ANSWERS: &str = r#"{"entries":0,"ids":[1]}
{"entries":0,"ids":[2]}
{"refused":"NameTaken"}
{"entries":0,"ids":[3]}
"#;

/// What is answered up to the line that is refused.
const FIRST_ANSWERS: &str = r#"{"entries":0,"ids":[1]}
{"entries":0,"ids":[2]}
{"refused":"NameTaken"}
"#;

/// What is told of the same lines where no row may be named.
const NUMBERED: &str = r#"{"fault":"WrongType","line":2}
{"fault":"WrongType","line":3}
{"fault":"WrongType","line":4}
"#;

#[test]
fn nothing_is_run_of_a_faulty_text(rt: HostRuntime) -> Result<(), Fail> {
    let alloc = rt.alloc();
    let mut shop = Shop::new(alloc, Seed::new(0), Limits::LARGEST);
    let mut sink = Sink::new(alloc, 4096);
    let end = run_checked(
        alloc,
        FAULTY.as_bytes(),
        &mut sink,
        &mut shop,
        RunOptions::NAMED,
    );
    holds(end == RunEnd::Done(false), "a faulty text ends otherwise")?;
    holds(
        sink.bytes.as_slice() == FAULTS.as_bytes(),
        "other faults are told",
    )?;
    let mut sink = Sink::new(alloc, 4096);
    let end = run_checked(
        alloc,
        READABLE.as_bytes(),
        &mut sink,
        &mut shop,
        RunOptions::NAMED,
    );
    holds(end == RunEnd::Done(false), "a refusal ends otherwise")?;
    holds(
        sink.bytes.as_slice() == ANSWERS.as_bytes(),
        "another answer",
    )
}

#[test]
fn a_text_is_run_to_its_first_refusal(rt: HostRuntime) -> Result<(), Fail> {
    let alloc = rt.alloc();
    let mut shop = Shop::new(alloc, Seed::new(0), Limits::LARGEST);
    let mut sink = Sink::new(alloc, 4096);
    let end = run_checked(
        alloc,
        READABLE.as_bytes(),
        &mut sink,
        &mut shop,
        RunOptions {
            lines: LineOptions::NAMED,
            stop: true,
        },
    );
    holds(end == RunEnd::Done(false), "a refusal ends otherwise")?;
    holds(
        sink.bytes.as_slice() == FIRST_ANSWERS.as_bytes(),
        "another answer",
    )
}

#[test]
fn a_name_is_a_fault_where_none_may_be_said(rt: HostRuntime) -> Result<(), Fail> {
    let alloc = rt.alloc();
    let mut shop = Shop::new(alloc, Seed::new(0), Limits::LARGEST);
    let mut sink = Sink::new(alloc, 4096);
    let end = run_checked(
        alloc,
        READABLE.as_bytes(),
        &mut sink,
        &mut shop,
        RunOptions::PLAIN,
    );
    holds(end == RunEnd::Done(false), "a faulty text ends otherwise")?;
    holds(
        sink.bytes.as_slice() == NUMBERED.as_bytes(),
        "other faults are told",
    )
}
