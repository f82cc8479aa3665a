//! Lines that are played on books with nothing in them: on a desk, which is closed and opened again before the last of
//! them, and on a shop.
ghost use Rattle.std.specs.Prelude.{◌≡◌, false, IfOk};
ghost use Rattle.sqlite.specs.Files.{over_files};
ghost use Rattle.sqlite.specs.Held.{state};
ghost use Rattle.sqlite.specs.State.{HasCleanDisk};
ghost use Rattle.desk_core.specs.Machine.{IsSoundState};
ghost use Rattle.desk_core.specs.ShopView.{state_of};
ghost use Rattle.desk_store.specs.Desks.{IsDesk};

use desk_app::{Books, RunOptions, run_lines};
use desk_core::{RunEnd, Shop};
use desk_store::Desk;
use part_core::{Limits, Seed};
use sqlite::{Alter, Connection, FileStore};
use sqlite_disk::Memory;
use std::alloc::Global;
use std::test::Fail;
use store_play::devices::Sink;
use store_play::files::{created_within, fresh, opened};
use store_play::outcomes::holds;

/// The desk, closed and opened again.
fn reopened<S: Alter + Drop>(alloc: Global, desk: Desk<S>) -> Result<Desk<S>, Fail>
    ensures { IfOk result (λ desk. IsDesk S.Store desk) }
{
    match Desk::open(alloc, Seed::new(2), desk.close()) {
        Ok(desk) => Ok(desk),
        Err(_) => Err(Fail::from("the desk is not opened again")),
    }
}

/// Runs the lines on the books.
fn runs_on<B: Books>(alloc: Global, books: &mut B, lines: &str, sink: &mut Sink) -> Result<(), Fail>
    requires { B.are_kept books.old }
    ensures { B.are_kept books.new }
{
    let mut reader = lines.as_bytes();
    let end = run_lines(alloc, &mut reader, sink, books, RunOptions::PLAIN);
    holds(matches!(end, RunEnd::Done(_)), "the run stops")
}

/// Runs the lines on the books, and fails where they are answered otherwise.
pub fn plays_on<B: Books>(
    alloc: Global,
    books: &mut B,
    lines: &str,
    answers: &str,
) -> Result<(), Fail>
    requires { B.are_kept books.old }
    ensures { B.are_kept books.new }
{
    let mut sink = Sink::new(alloc, 4096);
    runs_on(alloc, books, lines, &mut sink)?;
    holds(sink.bytes.as_slice() == answers.as_bytes(), "other answers")
}

/// Runs the lines on a desk with nothing in it, which is closed and opened again before the last of them.
fn plays_out<S: Alter + Drop>(
    alloc: Global,
    limits: Limits,
    conn: Connection<S>,
    lines: &str,
    answers: &str,
) -> Result<(), Fail>
    requires { HasCleanDisk (state S.Store conn) → (state S.Store conn).in_transaction ≡ false }
{
    let mut desk = created_within(alloc, limits, conn)?;
    let mut sink = Sink::new(alloc, 4096);
    let whole = lines.trim_end_matches('\n');
    let (first, last) = whole.rsplit_once('\n').unwrap_or(("", whole));
    runs_on(alloc, &mut desk, first, &mut sink)?;
    let mut desk = reopened(alloc, desk)?;
    runs_on(alloc, &mut desk, last, &mut sink)?;
    holds(sink.bytes.as_slice() == answers.as_bytes(), "other answers")
}

/// Runs the lines on a desk and on a shop with nothing in them, which have these limits, and fails where they are answered
/// otherwise.
pub fn plays(alloc: Global, limits: Limits, lines: &str, answers: &str) -> Result<(), Fail> {
    let mut shop = Shop::new(alloc, Seed::new(0), limits);
    plays_on_shop(alloc, &mut shop, lines, answers)?;
    let conn = Connection::open_in_memory(alloc)?;
    plays_out(alloc, limits, conn, lines, answers)
}

/// Runs the lines on a shop, and fails where they are answered otherwise.
pub fn plays_on_shop(alloc: Global, shop: &mut Shop, lines: &str, answers: &str) -> Result<(), Fail>
    requires { IsSoundState (state_of shop.old) }
    ensures { IsSoundState (state_of shop.new) }
{
    plays_on(alloc, shop, lines, answers)
}

/// The desk of files that ran the lines, which are answered so.
pub fn filled(alloc: Global, lines: &str, answers: &str) -> Result<Desk<FileStore<Memory>>, Fail>
    ensures { IfOk result (λ desk. IsDesk over_files desk) }
{
    let mut desk = match opened(alloc, fresh(alloc)?, 8) {
        Ok(desk) => desk,
        Err(_) => return Err(Fail::from("a new desk isn't opened")),
    };
    plays_on(alloc, &mut desk, lines, answers)?;
    Ok(desk)
}

/// How many lines the text has, each with its LF.
pub fn lines_in(text: &[u8]) -> usize {
    text.iter().filter(|byte| **byte == b'\n').count()
}
