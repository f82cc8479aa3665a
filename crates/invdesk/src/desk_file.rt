//! The file of a desk, which is opened, and closed.
ghost use Rattle.std.specs.Prelude.{◌≡◌, ◌⊎◌, false, IfOk, IfErr, None};
ghost use Rattle.sqlite.specs.Files.{over_files};
ghost use Rattle.desk_store.specs.Desks.{IsDesk};
ghost use Rattle.desk_cli.specs.FileFaults.{IsOfOpening};
ghost use Rattle.invdesk.specs.Files.{HasNone, IsClosedAfter, IsClosedWith, IsTaken};
ghost use Rattle.invdesk.specs.Statuses.{status_on_file};

use crate::held::OpenedFile;
use crate::seed::seed_of;
use crate::tell::tell_line;
use desk_app::{HeldFile, end_of_work, let_go};
use desk_cli::{
    FaultyFile, FileFault, connect, has_log, remove_log, status_of, status_of_fault, take_desk,
};
use desk_core::RunEnd;
use desk_store::{Desk, OpenFault};
use sqlite::{Connection, Error, File, FileStore, Files};
use sqlite_disk::Disk;
use std::fs;
use std::io::{self, IsTerminal};

/// A desk after work on it, and how the work ended. What wraps a desk twice leaves its store open: with that of files put
/// in, its proof is too long.
pub type Worked<S> = (Desk<S>, RunEnd);

/// A file of so many bytes takes about a second to read.
const LONG: u64 = 32 * 1024 * 1024;

/// Says at a terminal that a long file is being read, whose name is told so.
fn tell_of_long(rt: &HostRuntime, path: &str, name: &str) {
    if !rt.stderr().is_terminal() {
        return;
    }
    let Ok(found) = fs::metadata(rt, path) else {
        return;
    };
    if found.len() >= LONG {
        let size = found.len() / 1_000_000;
        let _ = eprintln!(rt; "invdesk: {name} has {size} MB; reading it takes a moment");
    }
}

/// The file at the path, before it is opened. At a terminal it is told of one that takes a moment to read.
pub fn file_at(rt: &HostRuntime, path: &str) -> Result<OpenedFile, FileFault>
    ensures { IfErr result IsOfOpening }
{
    let file = OpenedFile::at(rt, path)?;
    tell_of_long(rt, path, file.name());
    Ok(file)
}

/// Leaves no log beside a refused file that had none. Where something failed it is left: by its log a file is known that
/// isn't made yet.
pub fn leave_refused(rt: &HostRuntime, path: &str, had_log: bool, fault: &FileFault) {
    if had_log {
        return;
    }
    match fault {
        FileFault::Memory | FileFault::Desk(OpenFault::Store(_)) => {}
        _ => {
            let _ = remove_log(rt, path);
        }
    }
}

/// Opens the file. Beside one that is no database no log is left, where it had none.
pub fn opened(
    rt: &HostRuntime,
    path: &str,
    had_log: bool,
) -> Result<Connection<FileStore<File>>, FileFault>
    ensures free { IfOk result (λ conn. conn.in_transaction ≡ false) }
    ensures why { IfErr result IsOfOpening }
{
    let conn = connect(rt, path);
    if !had_log && matches!(&conn, Err(FileFault::NoDatabase)) {
        let _ = remove_log(rt, path);
    }
    conn
}

/// Whether nothing is at the path. Where it can't be seen, something is.
fn is_absent(rt: &HostRuntime, path: &str) -> bool {
    match fs::metadata(rt, path) {
        Ok(_) => false,
        Err(error) => error.kind() == io::ErrorKind::NotFound,
    }
}

/// Says at a terminal that a file was made, if it was.
fn tell_if_made(rt: &HostRuntime, path: &str, was_absent: bool) {
    if was_absent && rt.stderr().is_terminal() {
        tell_line(
            rt,
            format_args!("{path}: there was no such file, so it was made"),
        );
    }
}

/// The desk of the file, which had a log or none, and is made where there is none. What a real file holds is known to no clause: it is the desk
/// of some database.
pub fn taken(
    rt: &HostRuntime,
    path: &str,
    had_log: bool,
) -> Result<Desk<FileStore<File>>, FileFault>
    ensures desk { IfOk result (IsDesk over_files) }
    ensures open { IfOk result (λ desk. desk.failed ≡ None) }
    ensures found { IfOk result (IsTaken over_files) }
    ensures none { IfErr result (λ fault.
        IsOfOpening fault ⊎ HasNone ⟦<File as Disk>⟧ fault) }
{
    let was_absent = is_absent(rt, path);
    let conn = opened(rt, path, had_log)?;
    match take_desk(rt.alloc(), seed_of(rt), conn) {
        Ok(desk) => {
            tell_if_made(rt, path, was_absent);
            Ok(desk)
        }
        Err((fault, database)) => {
            leave_refused(rt, path, had_log, &fault);
            drop(database);
            Err(fault)
        }
    }
}

/// The desk of the file, which is made where there is none, and the file.
pub fn open_desk(
    rt: &HostRuntime,
    path: &str,
) -> Result<(Desk<FileStore<File>>, OpenedFile), FileFault>
    ensures desk { IfOk result (λ opened. IsDesk over_files opened.0) }
    ensures open { IfOk result (λ opened. opened.0.failed ≡ None) }
    ensures found { IfOk result (λ opened. IsTaken over_files opened.0) }
    ensures none { IfErr result (λ fault.
        IsOfOpening fault ⊎ HasNone ⟦<File as Disk>⟧ fault) }
{
    let mut file = file_at(rt, path)?;
    let had_log = has_log(rt, path)?;
    let desk = taken(rt, path, had_log)?;
    file.note_if_made();
    Ok((desk, file))
}

/// How work on a file ended, and what closing the file handed back.
pub type Ended = (RunEnd, Result<Files<File>, (Error, FileStore<File>)>);

/// Closes the desk of the file at the path after work that ended so. Where it can't be closed, it is told why, unless a
/// fault has closed the desk before, which was told then.
pub fn closed(rt: &HostRuntime, path: &str, desk: Desk<FileStore<File>>, end: RunEnd) -> Ended
    requires { IsDesk over_files desk }
    ensures { IsClosedAfter desk end result.0 result.1 }
{
    let was_open = desk.failed().is_none();
    let (end, left) = end_of_work(desk, end);
    if let Err((error, _)) = &left {
        if was_open {
            tell_line(rt, format_args!("{path}: {error}"));
        }
    }
    (end, left)
}

/// Closes the desk of the file at the path after work that ended so, and tells how it ended then.
pub fn close_desk(rt: &HostRuntime, path: &str, desk: Desk<FileStore<File>>, end: RunEnd) -> RunEnd
    requires { IsDesk over_files desk }
    ensures { IsClosedWith ⟦<File as Disk>⟧ desk end result }
{
    let (end, left) = closed(rt, path, desk, end);
    let_go(left);
    end
}

/// The status of work on the file that ended so. Where the file is the reason that there was none, it is told.
pub fn told_status(rt: &HostRuntime, path: &str, ended: Result<RunEnd, FileFault>) -> u8
    ensures { result ≡ status_on_file ended }
{
    match ended {
        Ok(end) => status_of(end),
        Err(fault) => {
            let status = status_of_fault(&fault);
            tell_line(rt, FaultyFile { path, fault });
            status
        }
    }
}
