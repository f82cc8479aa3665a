//! A file of an earlier version of the program, which is brought along.
ghost use Rattle.std.specs.Prelude.{◌≡◌, ◌⊎◌, IfOk, IfErr, None};
ghost use Rattle.sqlite.specs.Files.{over_files};
ghost use Rattle.desk_store.specs.Desks.{IsDesk};
ghost use Rattle.desk_cli.specs.FileFaults.{IsOfOpening};
ghost use Rattle.invdesk.specs.Files.{Acts, EndsByFound, EndsOnFile, HasUnmoved, IsMoved, NoneComes};
ghost use Rattle.invdesk.specs.Prints.{PrintsMoved};

use crate::desk_file::{close_desk, file_at, leave_refused, opened};
use crate::pipe::{Output, end_of_print};
use crate::seed::seed_of;
use desk_cli::{Content, FileFault, Task, has_log, look_into, migrate_desk, print_migrated};
use desk_core::RunEnd;
use desk_store::Desk;
use sqlite::{File, FileStore};
use sqlite_disk::Disk;
use std::io;

/// The desk of the file, once an old file is brought along.
fn migrated(rt: &HostRuntime, path: &str) -> Result<Desk<FileStore<File>>, FileFault>
    ensures desk { IfOk result (IsDesk over_files) }
    ensures open { IfOk result (λ desk. desk.failed ≡ None) }
    ensures found { IfOk result (IsMoved over_files) }
    ensures none { IfErr result (λ fault.
        IsOfOpening fault ⊎ HasUnmoved ⟦<File as Disk>⟧ fault) }
{
    let had_log = has_log(rt, path)?;
    let conn = opened(rt, path, had_log)?;
    match migrate_desk(rt.alloc(), seed_of(rt), conn) {
        Ok(desk) => Ok(desk),
        Err((fault, database)) => {
            leave_refused(rt, path, had_log, &fault);
            drop(database);
            Err(fault)
        }
    }
}

/// Prints on the standard output that the file was brought along.
fn print_moved(rt: &HostRuntime) -> RunEnd
    ensures { PrintsMoved result }
{
    let mut output = Output::new(io::writer(rt));
    let end = print_migrated(&mut output);
    end_of_print(end, output.is_left)
}

/// Brings the file along, which has a database, and tells how it ended, or why it couldn't be.
fn migrate_database(rt: &HostRuntime, path: &str) -> Result<RunEnd, FileFault>
    ensures acts { IfOk result (Acts ⟦<File as Disk>⟧ (Task.Migrate path.entry)) }
    ensures none { IfErr result (NoneComes ⟦<File as Disk>⟧ (Task.Migrate path.entry)) }
{
    let desk = migrated(rt, path)?;
    let end = print_moved(rt);
    Ok(close_desk(rt, path, desk, end))
}

/// Brings the file along in which this was found: it has to be there, and to have something.
fn migrate_found(rt: &HostRuntime, path: &str, found: Content) -> Result<RunEnd, FileFault>
    ensures { EndsByFound ⟦<File as Disk>⟧ (Task.Migrate path.entry) found result }
{
    match found {
        Content::Database => migrate_database(rt, path),
        Content::Foreign => Err(FileFault::NoDatabase),
        Content::Absent => Err(FileFault::Missing),
        Content::Empty => Err(FileFault::OtherTables),
    }
}

/// Brings the file along, which is looked at before it is opened, and tells how it ended, or why it couldn't be.
pub fn migrate_file(rt: &HostRuntime, path: &str) -> Result<RunEnd, FileFault>
    ensures { EndsOnFile ⟦<File as Disk>⟧ (Task.Migrate path.entry) result }
{
    file_at(rt, path)?;
    let found = look_into(rt, path)?;
    migrate_found(rt, path, found)
}
