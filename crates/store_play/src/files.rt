//! Desks with nothing in them, and files of a disk in memory: made, opened, stopped after so many calls, and opened again.
ghost use Rattle.std.specs.Prelude.{◌≡◌, false, IfOk};
ghost use Rattle.sqlite.specs.Files.{over_files};
ghost use Rattle.sqlite.specs.Held.{state};
ghost use Rattle.sqlite.specs.State.{HasCleanDisk};
ghost use Rattle.desk_store.specs.Desks.{IsDesk};

use crate::tables::tables_text;
use desk_store::Desk;
use part_core::{Limits, Seed};
use sqlite::{Alter, Connection, FileStore, Files, Options};
use sqlite_disk::{Crash, Disk, Fuse, Memory};
use std::alloc::Global;
use std::test::Fail;

/// A disk that stops after so many calls.
pub type Fused = Fuse<Memory>;

/// A desk with nothing in it, with these limits.
pub fn created_within<S: Alter + Drop>(
    alloc: Global,
    limits: Limits,
    conn: Connection<S>,
) -> Result<Desk<S>, Fail>
    requires { HasCleanDisk (state S.Store conn) → (state S.Store conn).in_transaction ≡ false }
    ensures { IfOk result (λ desk. IsDesk S.Store desk) }
{
    match Desk::create(alloc, Seed::new(1), conn, limits) {
        Ok(desk) => Ok(desk),
        Err(_) => Err(Fail::from("no desk is made")),
    }
}

/// A desk with nothing in it. It fails where the database holds something, or fails itself.
pub fn created<S: Alter + Drop>(alloc: Global, conn: Connection<S>) -> Result<Desk<S>, Fail>
    requires { HasCleanDisk (state S.Store conn) → (state S.Store conn).in_transaction ≡ false }
    ensures { IfOk result (λ desk. IsDesk S.Store desk) }
{
    created_within(alloc, Limits::LARGEST, conn)
}

/// The files of a desk that has nothing.
pub fn fresh(alloc: Global) -> Result<Files<Memory>, Fail> {
    let files = Files {
        log: Memory::new(alloc),
        db: Memory::new(alloc),
    };
    let Ok(conn) = Connection::open_files(alloc, files, Options::new(7)) else {
        return Err(Fail::from("no file is made"));
    };
    match Desk::create(alloc, Seed::new(1), conn, Limits::LARGEST) {
        Ok(desk) => Ok(desk.close().into_store().close()),
        Err((_, database)) => {
            drop(database.close());
            Err(Fail::from("no desk is made"))
        }
    }
}

/// A disk in memory with the same bytes, all of them synced.
fn copied(alloc: Global, disk: &Memory) -> Result<Memory, Fail> {
    let mut copy = Memory::new(alloc);
    copy.write_at(0, disk.bytes())?;
    copy.sync()?;
    Ok(copy)
}

/// Files with the same bytes, of which the log or the database stops after so many calls.
pub fn fused(
    alloc: Global,
    files: &Files<Memory>,
    calls: u64,
    of_log: bool,
) -> Result<Files<Fused>, Fail> {
    let (log, db) = if of_log {
        (calls, u64::MAX)
    } else {
        (u64::MAX, calls)
    };
    Ok(Files {
        log: Fuse::new(copied(alloc, &files.log)?, log),
        db: Fuse::new(copied(alloc, &files.db)?, db),
    })
}

/// A connection to the files, or the files where the disk stopped before.
pub fn connected<D: Disk + Drop>(
    alloc: Global,
    files: Files<D>,
    salt: u64,
) -> Result<Connection<FileStore<D>>, Files<D>> {
    if !files.may_be_used() {
        return Err(files);
    }
    match Connection::open_files(alloc, files, Options::new(salt)) {
        Ok(conn) => Ok(conn),
        Err((_, left)) => Err(left.into_files()),
    }
}

/// The desk of the files, or the files where the disk stopped before.
pub fn opened<D: Disk + Drop>(
    alloc: Global,
    files: Files<D>,
    salt: u64,
) -> Result<Desk<FileStore<D>>, Files<D>>
    ensures { IfOk result (λ desk. IsDesk over_files desk) }
{
    let conn = match connected(alloc, files, salt) {
        Ok(conn) => conn,
        Err(left) => return Err(left),
    };
    match Desk::open(alloc, Seed::new(2), conn) {
        Ok(desk) => Ok(desk),
        Err((_, database)) => Err(database.close()),
    }
}

/// The desk of the files after a stop, which loses what was not synced.
pub fn opened_again<D: Disk + Crash + Drop>(
    alloc: Global,
    mut files: Files<D>,
) -> Result<Desk<FileStore<D>>, Fail>
    ensures { IfOk result (λ desk. IsDesk over_files desk) }
{
    files.log.crash();
    files.db.crash();
    match opened(alloc, files, 9) {
        Ok(desk) => Ok(desk),
        Err(_) => Err(Fail::from("the desk isn't opened again")),
    }
}

/// All tables of the desk.
pub fn tables_of<S: Alter>(alloc: Global, desk: &Desk<S>) -> Result<String, Fail> {
    match desk.shop() {
        Ok(shop) => Ok(tables_text(alloc, shop)?),
        Err(_) => Err(Fail::from("the desk is closed")),
    }
}
