//! What the words ask for is done by a service: it is asked, and what it answers is printed as it would be of a file.
ghost use Rattle.std.specs.Prelude.{◌≡◌, ◌⊎◌, ◌≤◌, ◌<◌, ◌+◌, length, Ok, Err, IfErr, IfOk, OnOk};
ghost use Rattle.desk_app.specs.Asked.{AddsLine, AsksAndPrints, IsOfInput, Prints, RunsAt};
ghost use Rattle.desk_app.specs.Asked.{TakesBody};
ghost use Rattle.desk_app.specs.Cuts.{left};

use crate::heard::{Shown, Trouble, shown_of};
use crate::lines::Lines;
use desk_core::Stop;
use desk_http::{Answer, LineWords, Question, Unheard};
use desk_store::send;
use std::alloc::Global;
use std::io::{Read, Write};

/// Whoever asks a service, each question over a connection of its own.
pub trait Asker {
    ghost use Rattle.std.specs.Prelude.{List, Option};
    ghost use Rattle.desk_app.specs.Asked.{exchange, Exchange, Logged};

    // what was asked so far, and what was heard, as far as it is known
    ghost log: { Self → Option (List Exchange) };

    /// Asks, with what is run or taken in as the body.
    fn ask(&mut self, question: Question<'_>, body: &[u8]) -> Result<Answer, Unheard>
        ensures { Logged (log self.old) (log self.new) (exchange question.entry body.now result) };
}

/// How many bytes a service takes at once.
const MOST_BYTES: usize = 1_048_576;

/// A body takes one line more while it has no more bytes: a line that is held has 65,537 and its LF.
const ENOUGH: usize = 983_038;

/// Prints what is to be shown: true where nothing of it was refused or faulty.
fn print_shown<W: Write>(writer: &mut W, shown: &Shown) -> Result<bool, Trouble>
    ensures { Prints (Ok (shown.now.text.items, shown.now.fine)) (W.contents writer.old)
        (W.contents writer.new) result }
{
    match send(writer, &shown.text) {
        Ok(()) => Ok(shown.fine),
        Err(_) => Err(Trouble::WriteFailed),
    }
}

/// Asks, and prints what is answered, where so many lines were sent before: true where nothing was refused or faulty.
fn ask_after<A: Asker, W: Write>(
    alloc: Global,
    asker: &mut A,
    question: Question<'_>,
    before: u64,
    body: &[u8],
    writer: &mut W,
) -> Result<bool, Trouble>
    ensures { AsksAndPrints question.entry before body.now (A.log asker.old) (A.log asker.new)
        (W.contents writer.old) (W.contents writer.new) result }
{
    let heard = asker.ask(question, body);
    let shown = shown_of(alloc, question, before, heard)?;
    print_shown(writer, &shown)
}

/// Asks, and prints what is answered: true where nothing was refused or faulty. What is too long to be sent isn't.
pub fn ask_and_print<A: Asker, W: Write>(
    alloc: Global,
    asker: &mut A,
    question: Question<'_>,
    body: &[u8],
    writer: &mut W,
) -> Result<bool, Trouble>
    ensures { ((1048576 < length body.now) × (result ≡ Err Trouble.TooLong)
        × (asker.new ≡ asker.old) × (writer.new ≡ writer.old))
        ⊎ AsksAndPrints question.entry 0 body.now (A.log asker.old) (A.log asker.new)
        (W.contents writer.old) (W.contents writer.new) result }
{
    if body.len() > MOST_BYTES {
        return Err(Trouble::TooLong);
    }
    ask_after(alloc, asker, question, 0, body, writer)
}

/// Why lines can't be read.
fn of_reading(why: Stop) -> Trouble
    ensures { IsOfInput result }
{
    match why {
        Stop::Memory => Trouble::Memory,
        _ => Trouble::ReadFailed,
    }
}

/// Adds the next line of the reader and its LF, as far as a line is held: false where there is none.
#[tactic(auto, using(crate::proofs::Asking::line_added, crate::proofs::Asking::none_added))]
fn add_line<R: Read>(
    lines: &mut Lines,
    reader: &mut R,
    line: &mut Vec<u8>,
    body: &mut Vec<u8>,
) -> Result<bool, Trouble>
    ensures adds { IfOk result (λ found. AddsLine (left (R.remaining reader.old) lines.old)
        (left (R.remaining reader.new) lines.new) found body.old.items body.new.items) }
    ensures short { OnOk result (length body.new.items ≤ length body.old.items + 65538) }
    ensures input { IfErr result IsOfInput }
{
    match lines.next_line(reader, line) {
        Ok(true) => {
            body.extend_from_slice(line)?;
            body.push(b'\n')?;
            Ok(true)
        }
        Ok(false) => Ok(false),
        Err(why) => Err(of_reading(why)),
    }
}

/// Takes the next lines of the reader, as many as were read whole at once and can be sent at once: how many they are, none
/// where there is none.
#[tactic(auto, using(crate::proofs::Asking::taking_none, crate::proofs::Asking::taking_more, crate::proofs::Asking::taken_some, crate::proofs::Asking::taken_all))]
fn take_body<R: Read>(
    alloc: Global,
    lines: &mut Lines,
    reader: &mut R,
    body: &mut Vec<u8>,
) -> Result<u64, Trouble>
    ensures takes { IfOk result (λ count. TakesBody (left (R.remaining reader.old) lines.old)
        (left (R.remaining reader.new) lines.new) count body.new.items) }
    ensures short { OnOk result (length body.new.items ≤ 1048576) }
    ensures input { IfErr result IsOfInput }
{
    body.clear();
    let mut line = Vec::new(alloc);
    for count in 0..u64::MAX {
        if count > 0 && (body.len() > ENOUGH || !lines.has_line()) {
            return Ok(count);
        }
        if !add_line(lines, reader, &mut line, body)? {
            return Ok(count);
        }
    }
    Err(Trouble::ReadFailed)
}

/// So many lines, and so many more: no more than can be counted.
fn with_more(before: u64, count: u64) -> Result<u64, Trouble>
    ensures sum { IfOk result (λ next. next ≡ before + count) }
    ensures input { IfErr result IsOfInput }
{
    match before.checked_add(count) {
        Some(next) => Ok(next),
        None => Err(Trouble::ReadFailed),
    }
}

/// Has a service run the lines of the reader, those that one read gave whole at once, and prints what is answered: true
/// where nothing was refused or faulty. With `stop` the first that is refused or faulty is the last.
pub fn ask_lines<A: Asker, R: Read, W: Write>(
    alloc: Global,
    reader: &mut R,
    writer: &mut W,
    asker: &mut A,
    stop: bool,
) -> Result<bool, Trouble>
    ensures { RunsAt stop (R.remaining reader.old) (A.log asker.old) (A.log asker.new)
        (W.contents writer.old) (W.contents writer.new) result }
{
    let question = Question::Lines(LineWords { stop, check: false });
    let mut lines = Lines::new(alloc)?;
    let mut body = Vec::new(alloc);
    let mut all = true;
    let mut before: u64 = 0;
    for _ in 0..u64::MAX {
        let count = take_body(alloc, &mut lines, reader, &mut body)?;
        if count == 0 {
            return Ok(all);
        }
        let next = with_more(before, count)?;
        let fine = ask_after(alloc, asker, question, before, &body, writer)?;
        all = all && fine;
        if stop && !all {
            return Ok(false);
        }
        before = next;
    }
    Err(Trouble::ReadFailed)
}
