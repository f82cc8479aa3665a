//! Lines on a desk whose file is taken away meanwhile: what was answered is in the file that lay there, and nothing more is
//! answered or kept.
ghost use Rattle.desk_store.specs.Desks.{IsDesk};

use desk_app::{Advice, HeldFile, RunOptions, WatchedDesk, run_lines};
use desk_core::{RunEnd, Shop};
use desk_play::play::{filled, lines_in};
use desk_store::Desk;
use part_core::{Limits, Seed};
use sqlite::{Alter, FileStore};
use sqlite_disk::Memory;
use std::alloc::{AllocError, Global};
use std::cell::Cell;
use std::test::Fail;
use store_play::devices::{Sink, Source};
use store_play::files::{opened, tables_of};
use store_play::outcomes::holds;
use store_play::tables::tables_text;

const LINES: &str = r#"{"day":"2030-01-02","do":"add_location","name":"A"}
{"day":"2030-01-02","do":"add_part","flags":["component","purchaseable"],"name":"Screw"}
{"day":"2030-01-02","do":"found","location":1,"part":2,"quantity":100}
{"day":"2030-01-03","do":"remove","item":3,"quantity":30}
"#;

const ANSWERS: &str = r#"{"entries":0,"ids":[1]}
{"entries":0,"ids":[2]}
{"entries":1,"ids":[3]}
{"entries":1,"ids":[]}
"#;

const TOLD: &str =
    "invdesk: taken.db: another file lies at its path now, or none, so nothing more is kept in the one that lay there\n";

/// How often a run looks for the file that reads the lines one by one: before each, and twice behind the last.
const LOOKS: u64 = 6;

/// A file that lies at its path for so many looks, and for none later.
#[derive(Drop)]
struct Taken {
    looks: Cell<u64>,
    there: u64,
}

impl HeldFile for Taken {
    fn name(&self) -> &str {
        "taken.db"
    }

    fn is_in_place(&self) -> bool {
        let looks = self.looks.get().saturating_add(1);
        self.looks.set(looks);
        looks <= self.there
    }
}

/// The first of the lines, so many.
fn first_lines(alloc: Global, count: usize) -> Result<String, AllocError> {
    let mut first = String::new(alloc);
    for line in LINES.lines().take(count) {
        first.push_str(line)?;
        first.push_str("\n")?;
    }
    Ok(first)
}

/// The tables of books that ran so many of the lines.
fn tables_after(alloc: Global, count: usize) -> Result<String, Fail> {
    let lines = first_lines(alloc, count)?;
    let mut shop = Shop::new(alloc, Seed::new(0), Limits::LARGEST);
    let mut reader = lines.as_bytes();
    let mut sink = Sink::new(alloc, 4096);
    let plain = RunOptions::PLAIN;
    let end = run_lines(alloc, &mut reader, &mut sink, &mut shop, plain);
    holds(end == RunEnd::Done(true), "the shop runs otherwise")?;
    Ok(tables_text(alloc, &shop)?)
}

/// Runs the lines, byte by byte, on the desk of a file that is there for so many looks. Tells how it ended.
fn runs<S: Alter + Drop>(
    alloc: Global,
    desk: Desk<S>,
    there: u64,
    sink: &mut Sink,
    told: &mut Sink,
) -> (Desk<S>, RunEnd)
    requires { IsDesk S.Store desk }
{
    let file = Taken {
        looks: Cell::new(0),
        there,
    };
    let mut watched = WatchedDesk::new(desk, file, Advice::Nothing, told);
    let mut source = Source::new(LINES.as_bytes(), 1);
    let plain = RunOptions::PLAIN;
    let end = run_lines(alloc, &mut source, sink, &mut watched, plain);
    (watched.into_desk(), end)
}

/// The file of the desk, as it is opened again, has what so many lines made.
fn has_kept(alloc: Global, desk: Desk<FileStore<Memory>>, count: usize) -> Result<(), Fail> {
    let files = desk.close().into_store().close();
    let again = match opened(alloc, files, 9) {
        Ok(again) => again,
        Err(_) => return Err(Fail::from("the file isn't opened again")),
    };
    let kept = tables_of(alloc, &again)?;
    let wanted = tables_after(alloc, count)?;
    holds(kept.as_str() == wanted.as_str(), "the file has other rows")
}

/// The run that ended so was the whole, or it was told why it wasn't.
fn is_told(end: RunEnd, told: &Sink, is_whole: bool) -> bool {
    if is_whole {
        return end == RunEnd::Done(true) && told.bytes.is_empty();
    }
    end == RunEnd::Store && told.bytes.as_slice() == TOLD.as_bytes()
}

/// How many lines are answered, where the file is there for so many looks. They are in the file, and nothing else.
fn answered(alloc: Global, there: u64) -> Result<usize, Fail> {
    let (mut sink, mut told) = (Sink::new(alloc, 4096), Sink::new(alloc, 4096));
    let desk = filled(alloc, "", "")?;
    let (desk, end) = runs(alloc, desk, there, &mut sink, &mut told);
    holds(is_told(end, &told, there >= LOOKS), "another end")?;
    let is_front = ANSWERS.as_bytes().starts_with(sink.bytes.as_slice());
    holds(is_front, "other answers")?;
    let count = lines_in(sink.bytes.as_slice());
    has_kept(alloc, desk, count)?;
    Ok(count)
}

#[test]
fn nothing_is_answered_of_a_file_that_is_gone(rt: HostRuntime) -> Result<(), Fail> {
    let alloc = rt.alloc();
    assert_eq!(rt; answered(alloc, 0)?, 0);
    assert_eq!(rt; answered(alloc, 1)?, 0);
    assert_eq!(rt; answered(alloc, 2)?, 1);
    assert_eq!(rt; answered(alloc, 4)?, 3);
    assert_eq!(rt; answered(alloc, 5)?, 4);
    assert_eq!(rt; answered(alloc, LOOKS)?, 4);
    Ok(())
}
