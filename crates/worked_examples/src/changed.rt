//! Tables of worked examples that were changed by SQL. Each is refused and left as it is: once the change is undone, the desk
//! is opened with the tables that it had.
use crate::example::Example;
use desk_play::play::filled;
use desk_store::{Desk, OpenFault};
use part_core::Seed;
use sqlite::{Connection, FileStore, Files};
use sqlite_disk::Memory;
use std::alloc::{AllocError, Global};
use std::fs;
use std::test::Fail;
use store_play::files::{connected, tables_of};
use store_play::outcomes::holds;

/// A connection to the files of a desk, whose tables are changed.
fn changed(
    alloc: Global,
    files: Files<Memory>,
    change: &str,
) -> Result<Connection<FileStore<Memory>>, Fail> {
    let Ok(mut conn) = connected(alloc, files, 8) else {
        return Err(Fail::from("no database"));
    };
    conn.execute(change, &[])?;
    Ok(conn)
}

/// The fault for which the tables aren't opened, and their files.
fn refused(
    alloc: Global,
    conn: Connection<FileStore<Memory>>,
) -> Result<(OpenFault, Files<Memory>), Fail> {
    match Desk::open(alloc, Seed::new(2), conn) {
        Ok(_) => Err(Fail::from("changed tables are opened")),
        Err((fault, database)) => Ok((fault, database.close())),
    }
}

/// All tables of the desk that is opened.
fn opened(alloc: Global, conn: Connection<FileStore<Memory>>) -> Result<String, Fail> {
    match Desk::open(alloc, Seed::new(2), conn) {
        Ok(desk) => tables_of(alloc, &desk),
        Err(_) => Err(Fail::from("tables that aren't as they were")),
    }
}

/// Changes the tables of a desk that ran the lines, which are answered so, and undoes that: the fault in between.
fn fault_of(
    alloc: Global,
    (lines, answers): (&str, &str),
    change: &str,
    undo: &str,
) -> Result<OpenFault, Fail> {
    let desk = filled(alloc, lines, answers)?;
    let before = tables_of(alloc, &desk)?;
    let conn = changed(alloc, desk.close().into_store().close(), change)?;
    let (fault, files) = refused(alloc, conn)?;
    let after = opened(alloc, changed(alloc, files, undo)?)?;
    holds(after.as_str() == before.as_str(), "other tables")?;
    Ok(fault)
}

/// The first lines of a text, so many.
fn front(alloc: Global, text: &str, count: usize) -> Result<String, AllocError> {
    let mut front = String::new(alloc);
    for line in text.lines().take(count) {
        front.push_str(line)?;
        front.push('\n')?;
    }
    Ok(front)
}

/// Makes the change of a line, and fails where another fault comes of it.
fn change(rt: &HostRuntime, line: &str) -> Result<(), Fail> {
    let alloc = rt.alloc();
    let words: Vec<&str> = line.split(" | ").collect(alloc)?;
    let [_, name, count, change, undo, wanted] = words.as_slice() else {
        return Err(Fail::from("a line of other parts"));
    };
    let example = Example::read(rt, name)?;
    let count = count.parse::<usize>()?;
    let lines = front(alloc, example.lines.as_str(), count)?;
    let answers = front(alloc, example.answers.as_str(), count)?;
    let fault = fault_of(alloc, (lines.as_str(), answers.as_str()), change, undo)?;
    let wanted = match fault {
        OpenFault::Damaged(_) => *wanted == "Damaged",
        OpenFault::Foreign => *wanted == "Foreign",
        _ => false,
    };
    holds(wanted, "another fault")
}

/// Makes each change of the file `changes`. Its lines have what the change means, an example and how many of its lines were
/// run, the change, what undoes it, and the fault.
pub fn play(rt: &HostRuntime) -> Result<(), Fail> {
    let text = fs::read_to_string(rt, "changes")?;
    for line in text.lines() {
        if let Err(fail) = change(rt, line) {
            // Where the standard error fails too, the fault alone tells.
            let _ = eprintln!(rt; "{line}");
            return Err(fail);
        }
    }
    Ok(())
}
