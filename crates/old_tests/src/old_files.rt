//! Tables as an earlier program left them, those of version 1, and a stop at each call of a disk while they are brought
//! along. What a file then holds are the old tables or those of this version, and of the same state either way.
ghost use Rattle.std.specs.Prelude.{IfOk};
ghost use Rattle.sqlite.specs.Files.{over_files};
ghost use Rattle.desk_store.specs.Desks.{IsDesk};

use desk_app::close_desk;
use desk_play::play::filled;
use desk_store::{Desk, OpenFault};
use part_core::Seed;
use sqlite::{Alter, Connection, FileStore, Files};
use sqlite_disk::{Crash, Disk, Memory};
use std::alloc::Global;
use std::test::Fail;
use store_play::files::{Fused, connected, fused, tables_of};
use store_play::outcomes::holds;

/// Makes the tables those of version 1. What was spent is lost, so let nothing be spent.
pub fn made_old<S: Alter>(conn: &mut Connection<S>) -> Result<(), Fail> {
    conn.execute("DROP TABLE spent", &[])?;
    conn.execute("UPDATE meta SET version = 1", &[])?;
    Ok(())
}

/// Files with tables of version 1.
#[derive(Drop)]
pub struct OldFiles {
    pub files: Files<Memory>,
    /// All tables that they are to have once they are brought along.
    tables: String,
}

impl OldFiles {
    /// Those of a desk that ran the lines, which are answered so. An earlier program has closed them.
    pub fn closed(alloc: Global, lines: &str, answers: &str) -> Result<Self, Fail> {
        let (conn, tables) = old_tables(alloc, lines, answers)?;
        match conn.close_files() {
            Ok(files) => Ok(OldFiles { files, tables }),
            Err((_, database)) => {
                drop(database.close());
                Err(Fail::from("old files that aren't closed"))
            }
        }
    }

    /// The same where the earlier program was killed, so that the log has the newest changes.
    pub fn killed(alloc: Global, lines: &str, answers: &str) -> Result<Self, Fail> {
        let (conn, tables) = old_tables(alloc, lines, answers)?;
        let files = conn.into_store().close();
        Ok(OldFiles { files, tables })
    }
}

/// A connection to files of version 1, on which the lines were run, and all tables of their desk.
fn old_tables(
    alloc: Global,
    lines: &str,
    answers: &str,
) -> Result<(Connection<FileStore<Memory>>, String), Fail> {
    let desk = filled(alloc, lines, answers)?;
    let tables = tables_of(alloc, &desk)?;
    let mut conn = desk.close();
    made_old(&mut conn)?;
    Ok((conn, tables))
}

/// How far files came before their disk stopped.
#[derive(Clone, Copy, PartialEq, Eq)]
enum Reached {
    /// They may be as they were.
    Nothing,
    /// They are brought along.
    Moved,
    /// They are brought along and closed.
    Closed,
}

/// The desk of files that are brought along: none where the disk stops before, which hands them back.
fn moved<D: Disk + Drop>(
    alloc: Global,
    conn: Connection<FileStore<D>>,
) -> Result<Result<Desk<FileStore<D>>, Files<D>>, Fail>
    ensures { IfOk result (λ found. IfOk found (λ desk. IsDesk over_files desk)) }
{
    match Desk::migrate(alloc, Seed::new(2), conn) {
        Ok(desk) => Ok(Ok(desk)),
        Err((OpenFault::Store(_), database)) => Ok(Err(database.close())),
        Err(_) => Err(Fail::from("old files that aren't brought along")),
    }
}

/// Brings the files along and closes them: how far that comes before the disk stops, and the files as it left them.
fn stopped(alloc: Global, files: Files<Fused>) -> Result<(Reached, Files<Fused>), Fail> {
    let conn = match connected(alloc, files, 8) {
        Ok(conn) => conn,
        Err(files) => return Ok((Reached::Nothing, files)),
    };
    let desk = match moved(alloc, conn)? {
        Ok(desk) => desk,
        Err(files) => return Ok((Reached::Nothing, files)),
    };
    match close_desk(desk) {
        Ok(files) => Ok((Reached::Closed, files)),
        Err((_, database)) => Ok((Reached::Moved, database.close())),
    }
}

/// The desk of the files after a stop, which loses what was not synced, and whether they were of this version by then. Old
/// ones are brought along.
fn moved_after<D: Disk + Crash + Drop>(
    alloc: Global,
    mut files: Files<D>,
) -> Result<(bool, Desk<FileStore<D>>), Fail>
    ensures { IfOk result (λ found. IsDesk over_files found.1) }
{
    files.log.crash();
    files.db.crash();
    let Ok(conn) = connected(alloc, files, 9) else {
        return Err(Fail::from("the files aren't opened again"));
    };
    let files = match Desk::open(alloc, Seed::new(2), conn) {
        Ok(desk) => return Ok((true, desk)),
        Err((OpenFault::Old, database)) => database.close(),
        Err(_) => return Err(Fail::from("tables of neither version")),
    };
    let Ok(conn) = connected(alloc, files, 10) else {
        return Err(Fail::from("old files that aren't opened once more"));
    };
    match moved(alloc, conn)? {
        Ok(desk) => Ok((false, desk)),
        Err(_) => Err(Fail::from("a stop of a disk that doesn't stop")),
    }
}

/// Opens the files after the stop, and looks at what is there.
fn opened_after(
    alloc: Global,
    files: Files<Fused>,
    reached: Reached,
    tables: &str,
) -> Result<(), Fail> {
    let (is_new, desk) = moved_after(alloc, files)?;
    holds(
        is_new || reached == Reached::Nothing,
        "old tables after they were brought along",
    )?;
    let found = tables_of(alloc, &desk)?;
    holds(found.as_str() == tables, "tables of another state")
}

/// Stops at each call of the log or of the database in turn, until the files are brought along and closed: how many stops
/// there were.
pub fn stops_amid_migration(alloc: Global, old: &OldFiles, of_log: bool) -> Result<u64, Fail> {
    for calls in 0..4_000u64 {
        let files = fused(alloc, &old.files, calls, of_log)?;
        let (reached, left) = stopped(alloc, files)?;
        opened_after(alloc, left, reached, old.tables.as_str())?;
        if reached == Reached::Closed {
            return Ok(calls);
        }
    }
    Err(Fail::from("the files are never brought along"))
}
