//! Plays the worked examples, and tells of each that it is answered as it should be.
//!
//! A worked example is two files, `NAME.in` and `NAME.out`: lines that a clerk sends to books with nothing in them, and
//! what answers them. The standard input lists the examples, each as `NAME: what it shows`, and the line is printed once
//! the example was played on a desk and on a shop. Between the name and the colon may stand how many numbers and how many
//! entries the books take. Then come the words that the program is called with, changed tables, calls that no line makes, stops
//! of the disk, a writer that fails, and examples that are too long or too many for files. The first that is answered otherwise
//! ends the run.
#![tactic(auto)]

mod calls;
mod changed;
mod example;
mod exports;
mod words;

use crate::example::Example;
use desk_play::play::plays;
use desk_stops::stops::{Keyed, stops_at_each_call};
use part_core::Limits;
use std::io;
use std::test::Fail;

/// Tells of what was tried that it went well, or what failed.
fn tell(rt: &HostRuntime, what: &str, outcome: Result<(), Fail>) -> Result<(), Fail> {
    match outcome {
        Ok(()) => {
            println!(rt; "{what}")?;
            Ok(())
        }
        Err(fail) => {
            // Where the standard error fails too, the fault alone tells.
            let _ = eprintln!(rt; "not as it should be: {what}");
            Err(fail)
        }
    }
}

/// The limits of an example's books: those that stand behind its name, or the largest.
fn limits_of(head: &str) -> Result<Limits, Fail> {
    let Some((_, limits)) = head.split_once(' ') else {
        return Ok(Limits::LARGEST);
    };
    let (numbers, entries) = limits.split_once(' ').ok_or("two limits")?;
    let numbers = numbers.parse::<u64>()?;
    let entries = entries.parse::<u64>()?;
    Ok(Limits::new(numbers, entries).ok_or("limits")?)
}

/// Plays the worked example of a line of the list.
fn play(rt: &HostRuntime, line: &str) -> Result<(), Fail> {
    let (head, _) = line.split_once(':').ok_or("a line names no example")?;
    let (name, _) = head.split_once(' ').unwrap_or((head, ""));
    let limits = limits_of(head)?;
    let example = Example::read(rt, name)?;
    let (lines, answers) = (example.lines.as_str(), example.answers.as_str());
    plays(rt.alloc(), limits, lines, answers)
}

/// What no line asks.
fn ask(rt: &HostRuntime) -> Result<(), Fail> {
    let alloc = rt.alloc();
    let bills = Example::read(rt, "bill-cycles")?;
    tell(rt, "calls: bills", calls::bills(alloc, &bills))?;
    let rows = Example::read(rt, "refused-rows")?;
    tell(rt, "calls: families", calls::families(alloc, &rows))?;
    let chain = Example::read(rt, "template-chain")?;
    tell(rt, "calls: a chain", calls::chain(alloc, &chain))?;
    let tower = Example::read(rt, "nesting-deep")?;
    tell(rt, "calls: a tower", calls::tower(alloc, &tower))?;
    let robot = Example::read(rt, "robot-build")?;
    tell(rt, "calls: a robot", calls::built(alloc, &robot))
}

/// The example with a stop at each call of the disk that has the log, and at each of that which has the database.
fn stop(rt: &HostRuntime, name: &str) -> Result<(), Fail> {
    let alloc = rt.alloc();
    let example = Example::read(rt, name)?;
    let keyed = Keyed::new(alloc, example.lines.as_str(), example.answers.as_str())?;
    stops_at_each_call(alloc, &keyed, true)?;
    stops_at_each_call(alloc, &keyed, false)
}

fn main(rt: HostRuntime) -> Result<(), Fail> {
    let alloc = rt.alloc();
    let list = io::read_to_string(alloc, rt.reader())?;
    for line in list.lines() {
        tell(&rt, line, play(&rt, line))?;
    }
    tell(&rt, "words: what they ask for", words::play(&rt))?;
    tell(&rt, "changes: tables that are refused", changed::play(&rt))?;
    ask(&rt)?;
    // `cell-shipped` begins as `robot-build` does.
    for name in ["cell-shipped", "consume-tracked"] {
        tell(&rt, name, stop(&rt, name))?;
    }
    let cell = Example::read(&rt, "cell-shipped")?;
    let exported = exports::play(alloc, &cell, "{\"entries\":0,\"ids\":[25]}\n");
    tell(&rt, "exports: a writer that fails", exported)
}
