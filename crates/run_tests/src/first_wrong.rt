//! Runs that stop at the first line that is refused or faulty, and runs of the same lines that don't.
use desk_app::{LineOptions, RunOptions, run_lines};
use desk_core::{RunEnd, Shop};
use part_core::{Limits, Seed};
use std::alloc::Global;
use std::test::Fail;
use store_play::devices::{Sink, Source};
use store_play::outcomes::holds;

/// Five lines, of which the third is refused.
const REFUSED: &str = r#"{"day":"2030-01-02","do":"add_location","name":"A"}
{"day":"2030-01-02","do":"add_part","flags":["component","purchaseable"],"name":"Screw"}
{"day":"2030-01-02","do":"add_location","name":"A"}
{"day":"2030-01-02","do":"found","location":1,"part":2,"quantity":100}
{"day":"2030-01-02","do":"add_location","name":"B"}
"#;

/// What is told of them by a run that stops.
const REFUSED_FRONT: &str = r#"{"entries":0,"ids":[1]}
{"entries":0,"ids":[2]}
{"refused":"NameTaken"}
"#;

/// What is told of them by one that goes on.
const REFUSED_WHOLE: &str = r#"{"entries":0,"ids":[1]}
{"entries":0,"ids":[2]}
{"refused":"NameTaken"}
{"entries":1,"ids":[3]}
{"entries":0,"ids":[4]}
"#;

/// Two lines, of which the first is faulty.
const FAULTY: &str = r#"add_location A
{"day":"2030-01-02","do":"add_location","name":"A"}
"#;

const FAULTY_FRONT: &str = "{\"fault\":\"NotJson\",\"line\":1}\n";

const FAULTY_WHOLE: &str = "{\"fault\":\"NotJson\",\"line\":1}\n{\"entries\":0,\"ids\":[1]}\n";

/// A line that is run afterwards: the number that it is given tells how many lines before it made a row.
const NEXT: &str = "{\"day\":\"2030-01-03\",\"do\":\"add_location\",\"name\":\"Next\"}\n";

const FIRST_NEXT: &str = "{\"entries\":0,\"ids\":[1]}\n";

const SECOND_NEXT: &str = "{\"entries\":0,\"ids\":[2]}\n";

const THIRD_NEXT: &str = "{\"entries\":0,\"ids\":[3]}\n";

const FIFTH_NEXT: &str = "{\"entries\":0,\"ids\":[5]}\n";

/// Runs the lines on an empty shop, some bytes at a time, and one line more afterwards.
fn runs(
    alloc: Global,
    lines: &str,
    stop: bool,
    step: usize,
    end: RunEnd,
    told: [&str; 2],
) -> Result<(), Fail> {
    let mut shop = Shop::new(alloc, Seed::new(0), Limits::LARGEST);
    let mut source = Source::new(lines.as_bytes(), step);
    let mut sink = Sink::new(alloc, 4096);
    let ended = run_lines(
        alloc,
        &mut source,
        &mut sink,
        &mut shop,
        RunOptions {
            lines: LineOptions::PLAIN,
            stop,
        },
    );
    holds(ended == end, "another end")?;
    holds(
        sink.bytes.as_slice() == told[0].as_bytes(),
        "another answer",
    )?;
    let (mut next, mut sink) = (NEXT.as_bytes(), Sink::new(alloc, 4096));
    run_lines(alloc, &mut next, &mut sink, &mut shop, RunOptions::PLAIN);
    holds(
        sink.bytes.as_slice() == told[1].as_bytes(),
        "another answer to what comes next",
    )
}

#[test]
fn stops_at_a_refusal(rt: HostRuntime) -> Result<(), Fail> {
    let alloc = rt.alloc();
    let wrong = RunEnd::Done(false);
    for step in [4096, 1] {
        runs(
            alloc,
            REFUSED,
            true,
            step,
            wrong,
            [REFUSED_FRONT, THIRD_NEXT],
        )?;
        runs(
            alloc,
            REFUSED,
            false,
            step,
            wrong,
            [REFUSED_WHOLE, FIFTH_NEXT],
        )?;
    }
    Ok(())
}

#[test]
fn stops_at_a_fault(rt: HostRuntime) -> Result<(), Fail> {
    let alloc = rt.alloc();
    let wrong = RunEnd::Done(false);
    for step in [4096, 1] {
        runs(alloc, FAULTY, true, step, wrong, [FAULTY_FRONT, FIRST_NEXT])?;
        runs(
            alloc,
            FAULTY,
            false,
            step,
            wrong,
            [FAULTY_WHOLE, SECOND_NEXT],
        )?;
    }
    Ok(())
}

#[test]
fn goes_on_where_all_is_fine(rt: HostRuntime) -> Result<(), Fail> {
    let alloc = rt.alloc();
    let fine = RunEnd::Done(true);
    runs(
        alloc,
        NEXT,
        true,
        4096,
        fine,
        [FIRST_NEXT, "{\"refused\":\"NameTaken\"}\n"],
    )
}
