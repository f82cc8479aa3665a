//! All tables of a desk as text, one after another, through a writer whose calls fail in turn.
ghost use Rattle.std.specs.Prelude.{◌≡◌, false};
ghost use Rattle.sqlite.specs.Held.{state};
ghost use Rattle.sqlite.specs.State.{HasCleanDisk};

use crate::example::Example;
use desk_play::play::plays_on;
use desk_store::{Desk, ExportFault};
use sqlite::{Alter, Connection};
use std::alloc::Global;
use std::test::Fail;
use store_play::devices::Sink;
use store_play::files::created;
use store_play::outcomes::holds;
use table_store::TableName;

const TABLES: [TableName; 14] = [
    TableName::Meta,
    TableName::Categories,
    TableName::Locations,
    TableName::Parts,
    TableName::Lines,
    TableName::Substitutes,
    TableName::Items,
    TableName::History,
    TableName::Orders,
    TableName::OrderLines,
    TableName::Builds,
    TableName::Allocations,
    TableName::Kept,
    TableName::Spent,
];

/// A request more.
const ONE_MORE: &str = "{\"day\":\"2030-01-03\",\"do\":\"add_location\",\"name\":\"L\"}\n";

/// Writes all tables, until the writer fails.
fn export_all<S: Alter>(desk: &Desk<S>, sink: &mut Sink) -> Result<(), ExportFault> {
    for table in TABLES {
        desk.export(table, sink)?;
    }
    Ok(())
}

/// Exports all tables of a desk that ran the example, through a writer whose call number `fails` fails: whether they are
/// whole. What was written is a front of their text, and the desk runs its next request, whose number is `next`.
fn fails_at<S: Alter + Drop>(
    alloc: Global,
    conn: Connection<S>,
    example: &Example,
    fails: u64,
    next: &str,
) -> Result<bool, Fail>
    requires { HasCleanDisk (state S.Store conn) → (state S.Store conn).in_transaction ≡ false }
{
    let mut desk = created(alloc, conn)?;
    let (lines, answers) = (example.lines.as_str(), example.answers.as_str());
    plays_on(alloc, &mut desk, lines, answers)?;
    let mut whole = Sink::new(alloc, 4096);
    holds(export_all(&desk, &mut whole).is_ok(), "no export")?;
    let mut sink = Sink::new(alloc, 4096);
    sink.fails = fails;
    let done = export_all(&desk, &mut sink);
    let is_front = whole.bytes.as_slice().starts_with(sink.bytes.as_slice());
    holds(is_front, "no front of the exports")?;
    plays_on(alloc, &mut desk, ONE_MORE, next)?;
    match done {
        Ok(()) => Ok(true),
        Err(ExportFault::WriteFailed) => Ok(false),
        Err(_) => Err(Fail::from("another fault")),
    }
}

/// Lets each call of the writer fail, until none does: after the example, whose desk answers one request more by `next`.
pub fn play(alloc: Global, example: &Example, next: &str) -> Result<(), Fail> {
    for fails in 1..1_000u64 {
        let conn = Connection::open_in_memory(alloc)?;
        if fails_at(alloc, conn, example, fails, next)? {
            return holds(fails > TABLES.len() as u64, "a write for each line");
        }
    }
    Err(Fail::from("the exports don't end"))
}
