//! An inventory desk: reads requests from the standard input, one line of JSON each, and writes one line of answer for
//! each to the standard output. Its books are kept in a file, or, where none is named, in memory alone. Deliveries and
//! stocktakes are read as files of comma-separated values. Requests over HTTP are answered on the loopback.
#![tactic(auto)]

mod at;
mod bytes;
mod desk_file;
mod held;
mod import;
mod lines;
mod look;
mod low;
mod migrate;
mod page;
mod pipe;
mod print;
mod seed;
mod serve;
mod streams;
mod tell;
mod token;
mod words;

ghost use Rattle.invdesk.specs.Statuses.{EndsWith, IsStatusOf};

use crate::at::ask_at;
use crate::desk_file::told_status;
use crate::import::{import_sheet_to_file, import_to_file, print_lines};
use crate::lines::run_status;
use crate::look::look_at_file;
use crate::migrate::migrate_file;
use crate::serve::serve_status;
use crate::streams::keep_streams;
use crate::tell::tell_status;
use crate::words::{given, print_guide, status_at_once, tell_words};
use desk_cli::{DEVICE, MEMORY, Task, WRONG_WORDS, read_words, status_of};
use sqlite::File;
use sqlite_disk::Disk;
use std::process::ExitCode;

/// The status of what the words ask for. Here alone it is told apart what that is.
fn status_for(rt: &HostRuntime, task: &Task<'_>) -> u8
    ensures { IsStatusOf ⟦<File as Disk>⟧ task.now result }
{
    match task {
        Task::Run { file, options } => run_status(rt, *file, *options),
        Task::Serve { file, options } => serve_status(rt, *file, *options),
        Task::Import { file, rows } => told_status(rt, file, import_to_file(rt, file, rows)),
        Task::Sheet { file, lines } => told_status(rt, file, import_sheet_to_file(rt, file, lines)),
        Task::Look { file, look } => told_status(rt, file, look_at_file(rt, file, look)),
        Task::Migrate(file) => told_status(rt, file, migrate_file(rt, file)),
        Task::Lines { sheet, path } => status_of(print_lines(rt, path, sheet)),
        Task::At { port, token, asked } => status_of(ask_at(rt, *port, *token, *asked)),
        Task::Guide(topic) => status_at_once(print_guide(rt, topic), 0),
        Task::Help(text) => status_at_once(text.print(rt), 0),
        Task::Wrong(fault) => status_at_once(tell_words(rt, fault), WRONG_WORDS),
        Task::Unreadable => {
            let told = eprintln!(rt; "invdesk: a word isn't UTF-8");
            status_at_once(told, WRONG_WORDS)
        }
        Task::Memory => MEMORY,
    }
}

/// The status of what the words ask for that the program is called with.
fn run(rt: &HostRuntime) -> u8
    ensures { EndsWith ⟦<File as Disk>⟧ result }
{
    let words = match given(rt) {
        Ok(words) => words,
        Err(task) => return status_for(rt, &task),
    };
    let task = read_words(rt.alloc(), words.as_slice());
    let status = status_for(rt, &task);
    status
}

/// The program. It ends with the status that `run` gives, or with that of a device that failed, where a standard stream is
/// closed and nothing can be opened in its place; a clause can't stand here.
fn main(rt: HostRuntime) -> ExitCode {
    let status = match keep_streams(&rt) {
        Ok(()) => run(&rt),
        Err(_) => DEVICE,
    };
    tell_status(&rt, status);
    ExitCode::from(status)
}
