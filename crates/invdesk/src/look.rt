//! A look at the desk in a file, which changes nothing.
ghost use Rattle.std.specs.Prelude.{◌≡◌, IfOk, IfErr};
ghost use Rattle.desk_cli.specs.FileFaults.{IsOfOpening};
ghost use Rattle.invdesk.specs.Files.{EndsByFound, EndsOnFile, LooksAtNone};
ghost use Rattle.invdesk.specs.Files.{finds_database, is_to_be_looked_at};

use crate::desk_file::{closed, file_at, taken};
use crate::print::print_out;
use crate::seed::seed_of;
use crate::tell::tell_line;
use desk_app::let_go;
use desk_cli::{Content, FileFault, LookAt, Task, has_log, look_into, remove_log, take_desk};
use desk_core::RunEnd;
use sqlite::{Connection, File};
use sqlite_disk::Disk;
use std::io::IsTerminal;

/// Says at a terminal that a look found no file, if so.
fn tell_if_absent(rt: &HostRuntime, path: &str, found: Content) {
    if matches!(found, Content::Absent) && rt.stderr().is_terminal() {
        tell_line(
            rt,
            format_args!(
                "{path}: there is no such file, and none was made; this is of an empty workshop"
            ),
        );
    }
}

/// Whether a look finds a database where this was found. It may have to be there.
fn finds_database(found: Content, must_be_there: bool) -> Result<bool, FileFault>
    ensures { result ≡ finds_database found must_be_there }
{
    match found {
        Content::Database => Ok(true),
        Content::Foreign => Err(FileFault::NoDatabase),
        Content::Absent if must_be_there => Err(FileFault::Missing),
        Content::Absent | Content::Empty => Ok(false),
    }
}

/// Whether the file in which this was found is to be opened for a look, which makes it where there is none: it has to have a
/// database; else what is looked at is that of books that are empty. A list and a dump are of a file that is there.
fn is_to_be_looked_at(look: &LookAt<'_>, found: Content) -> Result<bool, FileFault>
    ensures { result ≡ is_to_be_looked_at look.now found }
{
    match look {
        LookAt::Report { .. } | LookAt::Export(_) => finds_database(found, false),
        LookAt::Show { .. } | LookAt::Low { .. } | LookAt::Dump => finds_database(found, true),
    }
}

/// Prints what is looked at of books that are empty, which a file has that isn't there or has nothing. In memory they
/// can't be made for want of it alone.
fn look_at_none(rt: &HostRuntime, look: &LookAt<'_>) -> Result<RunEnd, FileFault>
    ensures looks { IfOk result (LooksAtNone look.now) }
    ensures fault { IfErr result IsOfOpening }
{
    let conn = Connection::open_in_memory(rt.alloc())?;
    match take_desk(rt.alloc(), seed_of(rt), conn) {
        Ok(desk) => Ok(print_out(rt, look, &desk)),
        Err((_fault, _database)) => Err(FileFault::Memory),
    }
}

/// Looks at the desk of the file in which this was found, and tells how it ended, or why there is no desk. After a look that
/// made the file's log, which has nothing then, it is taken away.
fn look_at_found(
    rt: &HostRuntime,
    path: &str,
    look: &LookAt<'_>,
    found: Content,
) -> Result<RunEnd, FileFault>
    ensures { EndsByFound ⟦<File as Disk>⟧ (Task.Look path.entry look.now) found result }
{
    if !is_to_be_looked_at(look, found)? {
        tell_if_absent(rt, path, found);
        return look_at_none(rt, look);
    }
    let had_log = has_log(rt, path)?;
    let desk = taken(rt, path, had_log)?;
    let end = print_out(rt, look, &desk);
    let (end, left) = closed(rt, path, desk, end);
    if !had_log && left.is_ok() {
        let _ = remove_log(rt, path);
    }
    let_go(left);
    Ok(end)
}

/// Looks at the desk of the file, into which it is looked before it is opened, and tells how it ended, or why there is no
/// desk.
pub fn look_at_file(rt: &HostRuntime, path: &str, look: &LookAt<'_>) -> Result<RunEnd, FileFault>
    ensures { EndsOnFile ⟦<File as Disk>⟧ (Task.Look path.entry look.now) result }
{
    file_at(rt, path)?;
    let found = look_into(rt, path)?;
    look_at_found(rt, path, look, found)
}
