//! Files of comma-separated values, whose rows and lines are run.
ghost use Rattle.std.specs.Prelude.{IfOk, IfErr};
ghost use Rattle.desk_core.specs.ShopView.{state_of};
ghost use Rattle.desk_store.specs.Desks.{IsDesk};
ghost use Rattle.desk_wire.specs.SheetViews.{shown_sheet};
ghost use Rattle.invdesk.specs.Files.{Acts, NoneComes};
ghost use Rattle.invdesk.specs.Rows.{ImportsFile, ImportsSheet, PrintsLines};
ghost use Rattle.invdesk.specs.Works.{may_leave};

use crate::bytes::bytes_at;
use crate::desk_file::{Worked, close_desk, open_desk};
use crate::held::OpenedFile;
use crate::tell::{Explain, reasons, tell_line, terminal};
use desk_app::{
    Advice, Books, CountedBooks, ExplainedBooks, ImportOf, WatchedDesk, import_file, import_sheet,
    print_sheet,
};
use desk_cli::{FileFault, RowsFile, SheetFile, Task};
use desk_core::RunEnd;
use desk_store::Desk;
use desk_wire::{FileReading, Sheet};
use sqlite::{Alter, File};
use sqlite_disk::Disk;
use std::io;

/// Runs the rows of the file on the books. Where it can't be read nothing is done.
fn import<B: Books>(rt: &HostRuntime, rows: &RowsFile<'_>, books: &mut B) -> RunEnd
    requires { B.are_kept books.old }
    ensures kept { B.are_kept books.new }
    ensures imports { ImportsFile rows.now (B.failure_of books.old) (B.failure_of books.new)
        (B.may_leave books.new) (B.state_in books.old) (B.state_in books.new) result }
{
    let asked = ImportOf {
        kind: rows.kind,
        document: &rows.document,
        day: rows.day,
        reading: rows.reading,
        names: rows.names,
    };
    match bytes_at(rt, rows.path) {
        Ok(bytes) => import_file(rt.alloc(), &bytes, &asked, &mut io::writer(rt), books),
        Err(end) => end,
    }
}

/// Tells that no record of a file was a row, where it was read loosely and nothing else is told of it.
fn tell_if_empty(rt: &HostRuntime, path: &str, loose: bool, end: RunEnd, rows: u64) {
    if loose && rows == 0 && matches!(end, RunEnd::Done(true)) {
        tell_line(rt, format_args!("{path}: no row has a quantity"));
    }
}

/// Runs the rows of a file on the desk, whose own file the other is. It may be told why a row isn't done.
fn import_on<S: Alter + Drop>(
    rt: &HostRuntime,
    rows: &RowsFile<'_>,
    desk: Desk<S>,
    file: OpenedFile,
) -> Worked<S>
    requires { IsDesk S.Store desk }
    ensures desk { IsDesk S.Store result.0 }
    ensures imports { ImportsFile rows.now desk.failed result.0.failed (may_leave S.Store result.0)
        (state_of desk.shop) (state_of result.0.shop) result.1 }
{
    let watched = WatchedDesk::new(desk, file, Advice::Nothing, rt.stderr());
    let explained = ExplainedBooks::new(
        rt.alloc(),
        watched,
        reasons(rt, Explain::asked(rows.explain)),
    );
    let mut counted = CountedBooks::new(explained, terminal(rt));
    let end = import(rt, rows, &mut counted);
    let loose = rows.reading != FileReading::Strict;
    tell_if_empty(rt, rows.path, loose, end, counted.done());
    (counted.into_books().into_books().into_desk(), end)
}

/// Runs the rows of a file on the desk of the file at the path, and tells how it ended, or why there is no desk.
pub fn import_to_file(
    rt: &HostRuntime,
    path: &str,
    rows: &RowsFile<'_>,
) -> Result<RunEnd, FileFault>
    ensures acts { IfOk result (Acts ⟦<File as Disk>⟧ (Task.Import path.entry rows.now)) }
    ensures none { IfErr result (NoneComes ⟦<File as Disk>⟧ (Task.Import path.entry rows.now)) }
{
    let (desk, file) = open_desk(rt, path)?;
    let (desk, end) = import_on(rt, rows, desk, file);
    Ok(close_desk(rt, path, desk, end))
}

/// Runs the lines that the file is, by what is told beside it, on the books. Where it can't be read nothing is
/// done. It may be told why the file, or a line, can't be read.
fn run_sheet<B: Books>(rt: &HostRuntime, lines: &SheetFile<'_>, books: &mut B) -> RunEnd
    requires { B.are_kept books.old }
    ensures kept { B.are_kept books.new }
    ensures imports { ImportsSheet lines.now (B.failure_of books.old) (B.failure_of books.new)
        (B.may_leave books.new) (B.state_in books.old) (B.state_in books.new) result }
{
    match bytes_at(rt, lines.path) {
        Ok(bytes) => import_sheet(
            rt.alloc(),
            &lines.sheet,
            &bytes,
            &mut io::writer(rt),
            books,
            lines.stop,
            reasons(rt, Explain::asked(lines.explain)),
        ),
        Err(end) => end,
    }
}

/// Runs the lines that a file is, by what is told beside it, on the desk, whose own file the other is. It may be told why
/// one isn't done.
fn sheet_on<S: Alter + Drop>(
    rt: &HostRuntime,
    lines: &SheetFile<'_>,
    desk: Desk<S>,
    file: OpenedFile,
) -> Worked<S>
    requires { IsDesk S.Store desk }
    ensures desk { IsDesk S.Store result.0 }
    ensures imports { ImportsSheet lines.now desk.failed result.0.failed (may_leave S.Store result.0)
        (state_of desk.shop) (state_of result.0.shop) result.1 }
{
    let watched = WatchedDesk::new(desk, file, Advice::Nothing, rt.stderr());
    let explained = ExplainedBooks::new(
        rt.alloc(),
        watched,
        reasons(rt, Explain::asked(lines.explain)),
    );
    let mut counted = CountedBooks::new(explained, terminal(rt));
    let end = run_sheet(rt, lines, &mut counted);
    (counted.into_books().into_books().into_desk(), end)
}

/// Runs the lines that a file is on the desk of the file at the path, and tells how it ended, or why there is no desk.
pub fn import_sheet_to_file(
    rt: &HostRuntime,
    path: &str,
    lines: &SheetFile<'_>,
) -> Result<RunEnd, FileFault>
    ensures acts { IfOk result (Acts ⟦<File as Disk>⟧ (Task.Sheet path.entry lines.now)) }
    ensures none { IfErr result (NoneComes ⟦<File as Disk>⟧ (Task.Sheet path.entry lines.now)) }
{
    let (desk, file) = open_desk(rt, path)?;
    let (desk, end) = sheet_on(rt, lines, desk, file);
    Ok(close_desk(rt, path, desk, end))
}

/// Prints the lines that the file at the path is, by what is told beside it. At a terminal it is told why it is none.
pub fn print_lines(rt: &HostRuntime, path: &str, sheet: &Sheet<'_>) -> RunEnd
    ensures { PrintsLines (shown_sheet sheet.now) result }
{
    match bytes_at(rt, path) {
        Ok(bytes) => print_sheet(
            rt.alloc(),
            sheet,
            &bytes,
            &mut io::writer(rt),
            reasons(rt, Explain::AtTerminal),
        ),
        Err(end) => end,
    }
}
