//! Input that comes to a desk one byte at a time, or not whole, and readers and writers that fail: what is written, how it
//! ends, and which tables the desk then has.
ghost use Rattle.std.specs.Prelude.{◌≡◌, false};
ghost use Rattle.sqlite.specs.Held.{state};
ghost use Rattle.sqlite.specs.State.{HasCleanDisk};

use crate::requests::{DELIVERED, FIRST};
use desk_app::{
    Books, BooksService, ImportOf, LineOptions, RunOptions, import_file, read_file, run_lines,
};
use desk_core::RunEnd;
use desk_http::Served;
use desk_play::ask::ask;
use desk_play::play::{lines_in, plays_on};
use desk_wire::{FileReading, ImportKind};
use sqlite::{Alter, Connection};
use std::alloc::Global;
use std::io::Read;
use std::test::Fail;
use store_play::delivery::{DELIVERY, DELIVERY_OUT, ORDERED, ORDERED_OUT, day, document};
use store_play::devices::{Interrupted, Sink, Source};
use store_play::files::{created, tables_of};
use store_play::outcomes::holds;

/// So many bytes at once are all of an input.
const WHOLE: usize = 65_536;

/// How input comes in.
#[derive(Clone, Copy, PartialEq, Eq)]
enum Way {
    Lines,
    Receipts,
    Request,
}

/// Input that is accepted.
#[derive(Clone, Copy)]
struct Sent {
    way: Way,
    /// The lines that the desk ran before it, and their answers.
    before: (&'static str, &'static str),
    /// The input, and what answers it.
    exchange: [&'static str; 2],
}

impl Sent {
    fn input(&self) -> &'static str {
        self.exchange[0]
    }

    fn output(&self) -> &'static str {
        self.exchange[1]
    }
}

const NOTHING: (&str, &str) = ("", "");

const STOCKED: (&str, &str) = (ORDERED, ORDERED_OUT);

/// A location is added by HTTP.
const LOCATION: Sent = Sent {
    way: Way::Request,
    before: NOTHING,
    exchange: FIRST,
};

const SENT: [Sent; 4] = [
    Sent {
        way: Way::Lines,
        before: NOTHING,
        exchange: [ORDERED, ORDERED_OUT],
    },
    Sent {
        way: Way::Receipts,
        before: STOCKED,
        exchange: [DELIVERY, DELIVERY_OUT],
    },
    LOCATION,
    Sent {
        way: Way::Request,
        before: STOCKED,
        exchange: DELIVERED,
    },
];

/// How it ended, whichever way it came in.
#[derive(Clone, Copy, PartialEq, Eq)]
enum End {
    Done,
    ReadFailed,
    WriteFailed,
    /// The input ended before a request did.
    Early,
    /// Something was refused or faulty, or the desk failed.
    NotDone,
}

fn end_of_run(end: RunEnd) -> End {
    match end {
        RunEnd::Done(true) => End::Done,
        RunEnd::ReadFailed => End::ReadFailed,
        RunEnd::WriteFailed => End::WriteFailed,
        _ => End::NotDone,
    }
}

fn end_of_connection(served: Served) -> End {
    match served {
        Served::Answered(200) => End::Done,
        Served::ReadFailed => End::ReadFailed,
        Served::WriteFailed => End::WriteFailed,
        Served::Ended => End::Early,
        _ => End::NotDone,
    }
}

/// Imports a delivery to the books.
fn delivers<R: Read, B: Books>(
    alloc: Global,
    reader: &mut R,
    sink: &mut Sink,
    books: &mut B,
) -> Result<RunEnd, Fail>
    requires { B.are_kept books.old }
{
    let file = match read_file(alloc, reader) {
        Ok(file) => file,
        Err(stop) => return Ok(stop.end()),
    };
    let document = document(alloc)?;
    let asked = ImportOf {
        kind: ImportKind::Receipts,
        document: &document,
        day: day("2030-03-01")?,
        reading: FileReading::Strict,
        names: false,
    };
    Ok(import_file(alloc, &file, &asked, sink, books))
}

/// Takes in to the books what comes that way: how it ends, and the books.
fn comes_in<R: Read, B: Books + Drop>(
    alloc: Global,
    way: Way,
    reader: &mut R,
    sink: &mut Sink,
    mut books: B,
) -> Result<(End, B), Fail>
    requires { B.are_kept books }
{
    if way == Way::Request {
        let mut service = BooksService::new(books, LineOptions::PLAIN, None);
        let served = ask(alloc, reader, sink, &mut service);
        return Ok((end_of_connection(served), service.books));
    }
    let end = if way == Way::Lines {
        run_lines(alloc, reader, sink, &mut books, RunOptions::PLAIN)
    } else {
        delivers(alloc, reader, sink, &mut books)?
    };
    Ok((end_of_run(end), books))
}

/// Sends it to a desk over the connection: how it ends, and all tables then.
fn sends_over<R: Read, S: Alter + Drop>(
    alloc: Global,
    conn: Connection<S>,
    sent: Sent,
    reader: &mut R,
    sink: &mut Sink,
) -> Result<(End, String), Fail>
    requires { HasCleanDisk (state S.Store conn) → (state S.Store conn).in_transaction ≡ false }
{
    let mut desk = created(alloc, conn)?;
    plays_on(alloc, &mut desk, sent.before.0, sent.before.1)?;
    let (end, desk) = comes_in(alloc, sent.way, reader, sink, desk)?;
    Ok((end, tables_of(alloc, &desk)?))
}

/// Sends it to a desk in memory.
fn sends<R: Read>(
    alloc: Global,
    sent: Sent,
    reader: &mut R,
    sink: &mut Sink,
) -> Result<(End, String), Fail> {
    let conn = Connection::open_in_memory(alloc)?;
    sends_over(alloc, conn, sent, reader, sink)
}

/// All tables after a front of the input has come in, and nothing more.
fn tables_after(alloc: Global, sent: Sent, front: &str) -> Result<String, Fail> {
    let mut source = Source::new(front.as_bytes(), WHOLE);
    let (_, tables) = sends(alloc, sent, &mut source, &mut Sink::new(alloc, WHOLE))?;
    Ok(tables)
}

/// All tables before the input, and after each line of it.
fn tables_after_each(alloc: Global, sent: Sent) -> Result<Vec<String>, Fail> {
    let mut tables = Vec::new(alloc);
    let mut front = String::new(alloc);
    tables.push(tables_after(alloc, sent, "")?)?;
    for line in sent.input().lines() {
        front.push_str(line)?;
        front.push('\n')?;
        tables.push(tables_after(alloc, sent, front.as_str())?)?;
    }
    Ok(tables)
}

#[test]
fn one_byte_at_a_time(rt: HostRuntime) -> Result<(), Fail> {
    let alloc = rt.alloc();
    for sent in SENT {
        let wanted = tables_after(alloc, sent, sent.input())?;
        let mut source = Source::new(sent.input().as_bytes(), 1);
        let mut sink = Sink::new(alloc, 1);
        let (end, tables) = sends(alloc, sent, &mut source, &mut sink)?;
        assert!(rt; end == End::Done);
        assert!(rt; sink.bytes.as_slice() == sent.output().as_bytes());
        assert!(rt; tables.as_str() == wanted.as_str());
    }
    Ok(())
}

/// Sends it in some fifteen reads, until the one of that number fails: how it ends. What is answered are the lines that came whole, and they
/// alone are done; of a file or a request nothing is.
fn unread(alloc: Global, sent: Sent, all: &[String], fails: u64) -> Result<End, Fail> {
    let input = sent.input().as_bytes();
    let mut source = Source::new(input, input.len() / 15);
    source.fails = fails;
    let mut sink = Sink::new(alloc, WHOLE);
    let (end, tables) = sends(alloc, sent, &mut source, &mut sink)?;
    let told = sink.bytes.as_slice();
    holds(sent.output().as_bytes().starts_with(told), "another answer")?;
    if end == End::Done {
        holds(told.len() == sent.output().len(), "an answer is missing")?;
        return Ok(end);
    }
    let wanted = all.get(lines_in(told)).ok_or("more answers than lines")?;
    holds(tables.as_str() == wanted.as_str(), "other tables")?;
    Ok(end)
}

/// Sends it once for each of its reads, which fails then: how many there are.
fn each_read_of(alloc: Global, sent: Sent) -> Result<u64, Fail> {
    let all = tables_after_each(alloc, sent)?;
    for fails in 1..100u64 {
        let end = unread(alloc, sent, &all, fails)?;
        if end == End::Done {
            return Ok(fails);
        }
        holds(end == End::ReadFailed, "another end")?;
    }
    Err(Fail::from("it doesn't end"))
}

#[test]
fn each_read_fails(rt: HostRuntime) -> Result<(), Fail> {
    let alloc = rt.alloc();
    for sent in SENT {
        assert!(rt; each_read_of(alloc, sent)? > 12, "hardly a read");
    }
    Ok(())
}

/// Sends it until the write of that number fails: how it ends. All of it is done, and a front of the answer is written.
fn unwritten(alloc: Global, sent: Sent, after: &str, fails: u64) -> Result<End, Fail> {
    let mut source = Source::new(sent.input().as_bytes(), WHOLE);
    let mut sink = Sink::new(alloc, 10);
    sink.fails = fails;
    let (end, tables) = sends(alloc, sent, &mut source, &mut sink)?;
    let told = sink.bytes.as_slice();
    holds(sent.output().as_bytes().starts_with(told), "another answer")?;
    holds(tables.as_str() == after, "other tables")?;
    let whole = told.len() == sent.output().len();
    holds(whole || end != End::Done, "an answer is missing")?;
    Ok(end)
}

/// Sends it once for each of its writes, which fails then: how many there are.
fn each_write_of(alloc: Global, sent: Sent) -> Result<u64, Fail> {
    let after = tables_after(alloc, sent, sent.input())?;
    for fails in 1..100u64 {
        let end = unwritten(alloc, sent, after.as_str(), fails)?;
        if end == End::Done {
            return Ok(fails);
        }
        holds(end == End::WriteFailed, "another end")?;
    }
    Err(Fail::from("it doesn't end"))
}

#[test]
fn each_write_fails(rt: HostRuntime) -> Result<(), Fail> {
    let alloc = rt.alloc();
    for sent in SENT {
        assert!(rt; each_write_of(alloc, sent)? > 8, "hardly a write");
    }
    Ok(())
}

/// Of a request that doesn't come whole nothing is done, and nothing is answered.
#[test]
fn each_front_of_a_request(rt: HostRuntime) -> Result<(), Fail> {
    let alloc = rt.alloc();
    let before = tables_after(alloc, LOCATION, "")?;
    let request = LOCATION.input().as_bytes();
    for length in 0..request.len() {
        let mut source = Source::new(&request[..length], WHOLE);
        let mut sink = Sink::new(alloc, WHOLE);
        let (end, tables) = sends(alloc, LOCATION, &mut source, &mut sink)?;
        assert!(rt; end == End::Early, "at {length} bytes");
        assert!(rt; sink.calls == 0, "at {length} bytes");
        assert!(rt; tables.as_str() == before.as_str(), "at {length} bytes");
    }
    Ok(())
}

/// A reader that is always interrupted is left after 2,000,000 reads.
#[test]
fn an_interrupted_reader(rt: HostRuntime) -> Result<(), Fail> {
    let alloc = rt.alloc();
    let before = tables_after(alloc, LOCATION, "")?;
    let mut reader = Interrupted { calls: 0 };
    let mut sink = Sink::new(alloc, WHOLE);
    let (end, tables) = sends(alloc, LOCATION, &mut reader, &mut sink)?;
    assert!(rt; end == End::ReadFailed);
    assert!(rt; reader.calls == 2_000_000 && sink.calls == 0);
    assert!(rt; tables.as_str() == before.as_str());
    Ok(())
}
