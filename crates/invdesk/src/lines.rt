//! The lines of the standard input, which are answered.
ghost use Rattle.std.specs.Prelude.{IfOk, IfErr, Some};
ghost use Rattle.desk_core.specs.ShopView.{state_of};
ghost use Rattle.desk_store.specs.Desks.{IsDesk};
ghost use Rattle.invdesk.specs.Checks.{ChecksInput};
ghost use Rattle.invdesk.specs.Files.{Acts, NoneComes};
ghost use Rattle.invdesk.specs.Lines.{AreTakenBy};
ghost use Rattle.invdesk.specs.Memory.{AnswersInMemory, ChecksInMemory};
ghost use Rattle.invdesk.specs.Statuses.{IsStatusOf};
ghost use Rattle.invdesk.specs.Works.{AnswersOnDesk, ChecksOnDesk, RunsOnDesk};

use crate::bytes::all_of;
use crate::desk_file::{Worked, close_desk, open_desk, told_status};
use crate::held::OpenedFile;
use crate::seed::seed_of;
use crate::tell::{Explain, reasons};
use desk_app::{
    Advice, Books, ExplainedBooks, HeldFile, LineOptions, RunOptions, TypedLines, WatchedDesk,
    explain_faults, run_checked, run_in_memory, run_lines,
};
use desk_cli::{FileFault, RunWords, Task, status_of};
use desk_core::{RunEnd, Shop};
use desk_store::Desk;
use part_core::Limits;
use sqlite::{Alter, File};
use sqlite_disk::Disk;
use std::fmt::Display;
use std::io::{self, Input, IsTerminal, Stderr, StdinLock};

/// The lines of the standard input. Where it is a terminal, they are prompted for on the standard error.
pub fn lines_in(rt: &HostRuntime) -> TypedLines<StdinLock<'static>, Stderr> {
    TypedLines::new(rt.reader(), rt.stderr(), rt.stdin().is_terminal())
}

/// Greets whoever types the lines of a run, with what is said of its books.
pub fn greet<T: Display + Drop>(rt: &HostRuntime, books: T) {
    if rt.stdin().is_terminal() {
        let _ = eprintln!(rt;
            "invdesk: {books} One request a line; help tells more, and quit or Ctrl-D ends."
        );
    }
}

/// Greets whoever types the lines of a run on a desk, whose file is told by that name.
fn greet_at<S: Alter>(rt: &HostRuntime, desk: &Desk<S>, name: &str) {
    if let Ok(shop) = desk.shop() {
        let parts = shop.catalogue().parts().len();
        let items = shop.yard().items().len();
        greet(
            rt,
            format_args!("{name} has {parts} parts and {items} items."),
        );
    }
}

/// How the lines of the standard input are run, by what the words say. Where they are typed at a terminal, requests get
/// keys in any case.
fn options_of(rt: &HostRuntime, how: RunWords) -> RunOptions
    ensures { AreTakenBy how result }
{
    let typed = rt.stdin().is_terminal();
    let lines = LineOptions {
        names: how.names,
        journal: how.journal || typed,
    };
    RunOptions {
        lines,
        stop: how.stop,
    }
}

/// Answers the lines of the standard input with the desk of this file. They are run in this way. It may be told why a line
/// isn't done.
fn run_on<S: Alter + Drop>(
    rt: &HostRuntime,
    options: RunOptions,
    explain: Explain,
    desk: Desk<S>,
    file: OpenedFile,
) -> Worked<S>
    requires { IsDesk S.Store desk }
    ensures desk { IsDesk S.Store result.0 }
    ensures runs { RunsOnDesk S.Store options desk result.0 result.1 }
{
    let watched = WatchedDesk::new(desk, file, Advice::Nothing, rt.stderr());
    let mut explained = ExplainedBooks::new(rt.alloc(), watched, reasons(rt, explain));
    let (mut lines, mut writer) = (lines_in(rt), io::writer(rt));
    let end = run_lines(rt.alloc(), &mut lines, &mut writer, &mut explained, options);
    (explained.into_books().into_desk(), end)
}

/// Answers the lines of the standard input on the books, once all have been looked at. Where it can't be read nothing is
/// done. It may be told why a line can't be read.
fn check<B: Books>(rt: &HostRuntime, options: RunOptions, explain: Explain, books: &mut B) -> RunEnd
    requires { B.are_kept books.old }
    ensures kept { B.are_kept books.new }
    ensures checks { ChecksInput options (B.failure_of books.old) (B.failure_of books.new)
        (B.may_leave books.new) (B.state_in books.old) (B.state_in books.new) result }
{
    match all_of(rt.alloc(), &mut lines_in(rt)) {
        Ok(bytes) => {
            let end = run_checked(rt.alloc(), &bytes, &mut io::writer(rt), books, options);
            if let Some(mut told) = reasons(rt, explain) {
                explain_faults(rt.alloc(), &bytes, options.lines.names, &mut told);
            }
            end
        }
        Err(end) => end,
    }
}

/// Answers the lines of the standard input with the desk of this file, once all have been looked at.
fn check_on<S: Alter + Drop>(
    rt: &HostRuntime,
    options: RunOptions,
    explain: Explain,
    desk: Desk<S>,
    file: OpenedFile,
) -> Worked<S>
    requires { IsDesk S.Store desk }
    ensures desk { IsDesk S.Store result.0 }
    ensures checks { ChecksOnDesk S.Store options desk result.0 result.1 }
{
    let watched = WatchedDesk::new(desk, file, Advice::Nothing, rt.stderr());
    let mut explained = ExplainedBooks::new(rt.alloc(), watched, reasons(rt, explain));
    let end = check(rt, options, explain, &mut explained);
    let desk = explained.into_books().into_desk();
    (desk, end)
}

/// Answers the lines of the standard input with the desk of this file, each as it comes or once all have been looked at.
fn answer_on<S: Alter + Drop>(
    rt: &HostRuntime,
    how: RunWords,
    desk: Desk<S>,
    file: OpenedFile,
) -> Worked<S>
    requires { IsDesk S.Store desk }
    ensures desk { IsDesk S.Store result.0 }
    ensures answers { AnswersOnDesk S.Store how desk result.0 result.1 }
{
    greet_at(rt, &desk, file.name());
    let options = options_of(rt, how);
    let explain = Explain::asked(how.explain);
    if how.check {
        return check_on(rt, options, explain, desk, file);
    }
    run_on(rt, options, explain, desk, file)
}

/// Answers the lines of the standard input with the desk of the file, and tells how it ended, or why there is no desk.
pub fn answer_on_file(rt: &HostRuntime, path: &str, how: RunWords) -> Result<RunEnd, FileFault>
    ensures acts { IfOk result (Acts ⟦<File as Disk>⟧ (Task.Run (Some path.entry) how)) }
    ensures none { IfErr result (NoneComes ⟦<File as Disk>⟧ (Task.Run (Some path.entry) how)) }
{
    let (desk, file) = open_desk(rt, path)?;
    let (desk, end) = answer_on(rt, how, desk, file);
    Ok(close_desk(rt, path, desk, end))
}

/// Answers the lines of the standard input with new books in memory, once all have been looked at.
fn check_in_memory(rt: &HostRuntime, options: RunOptions, explain: Explain) -> RunEnd
    ensures { ChecksInMemory options result }
{
    let shop = Shop::new(rt.alloc(), seed_of(rt), Limits::LARGEST);
    let mut explained = ExplainedBooks::new(rt.alloc(), shop, reasons(rt, explain));
    let end = check(rt, options, explain, &mut explained);
    explained.into_books();
    end
}

/// Answers the lines of the standard input with new books in memory, each as it comes or once all have been looked at.
pub fn answer_in_memory(rt: &HostRuntime, how: RunWords) -> RunEnd
    ensures { AnswersInMemory how result }
{
    greet(rt, "no file is named, so nothing is kept.");
    let options = options_of(rt, how);
    let explain = Explain::asked(how.explain);
    if how.check {
        return check_in_memory(rt, options, explain);
    }
    run_in_memory(
        rt.alloc(),
        seed_of(rt),
        &mut lines_in(rt),
        &mut io::writer(rt),
        reasons(rt, explain),
        options,
    )
}

/// The status of lines that are answered, by the desk in the file, or by a new one in memory where none is named.
pub fn run_status(rt: &HostRuntime, file: Option<&str>, how: RunWords) -> u8
    ensures { IsStatusOf ⟦<File as Disk>⟧ (Task.Run file.entry how) result }
{
    match file {
        Some(path) => told_status(rt, path, answer_on_file(rt, path, how)),
        None => status_of(answer_in_memory(rt, how)),
    }
}
