//! The words that the program is called with, and what they ask for.
use desk_cli::{LookAt, ReportOf, RowsFile, RunWords, ServeWords, SheetFile, Task, read_words};
use desk_wire::{FileReading, Sheet};
use std::alloc::{AllocError, Global};
use std::fs;
use std::test::Fail;

/// Whether rows may be named.
fn named(names: bool) -> &'static str {
    if names { " named" } else { "" }
}

/// Whether a run ends at the first line that is refused or faulty.
fn stops(stop: bool) -> &'static str {
    if stop { " to the first fault" } else { "" }
}

/// Whether all lines are read before any is run.
fn checks(check: bool) -> &'static str {
    if check { " once read" } else { "" }
}

/// Whether it is told why something isn't done.
fn explains(explain: bool) -> &'static str {
    if explain { " with reasons" } else { "" }
}

/// Whether requests get keys.
fn journals(journal: bool) -> &'static str {
    if journal { " with a journal" } else { "" }
}

/// What is told beside a file of records of a command.
fn told_beside(alloc: Global, sheet: &Sheet<'_>) -> Result<String, AllocError> {
    let (verb, document) = (sheet.form.verb, sheet.document.as_str());
    let day = sheet.day.text(alloc)?;
    let mut text = format!(in alloc; "{verb} {document} {day}")?;
    for (member, said) in &sheet.said {
        text.push_str(format!(in alloc; " {member}:{said:?}")?.as_str())?;
    }
    Ok(text)
}

/// How something is shown.
fn shown(csv: bool) -> &'static str {
    if csv { " for a spreadsheet" } else { "" }
}

/// What is asked of a run, on one line.
fn told_run(alloc: Global, file: Option<&str>, options: &RunWords) -> Result<String, AllocError> {
    let (named, stops) = (named(options.names), stops(options.stop));
    let (checks, explains) = (checks(options.check), explains(options.explain));
    let journals = journals(options.journal);
    match file {
        None => format!(in alloc; "run{named}{stops}{checks}{explains}{journals}"),
        Some(file) => format!(in alloc; "run{named}{stops}{checks}{explains}{journals} {file}"),
    }
}

/// What is looked at in a file, on one line.
fn told_look(alloc: Global, file: &str, look: &LookAt<'_>) -> Result<String, AllocError> {
    match look {
        LookAt::Report { name, of } => match of {
            ReportOf::Number(number) => format!(in alloc; "report {file} {name:?} {number}"),
            ReportOf::Word(word) => format!(in alloc; "report {file} {name:?} called {word}"),
        },
        LookAt::Export(table) => format!(in alloc; "export {file} {table:?}"),
        LookAt::Dump => format!(in alloc; "dump {file}"),
        LookAt::Show { list, csv } => {
            let how = shown(*csv);
            format!(in alloc; "show{how} {file} {list:?}")
        }
        LookAt::Low { levels, csv } => {
            let how = shown(*csv);
            format!(in alloc; "show low{how} {file} {levels}")
        }
    }
}

/// What is asked of an import, on one line.
fn told_rows(alloc: Global, file: &str, rows: &RowsFile<'_>) -> Result<String, AllocError> {
    let (kind, document, day) = (rows.kind, rows.document.as_str(), rows.day.text(alloc)?);
    let (named, explains, path) = (named(rows.names), explains(rows.explain), rows.path);
    let loosely = match rows.reading {
        FileReading::Strict => "",
        FileReading::Loose => " loosely",
        FileReading::Unchanged => " loosely unless changed",
    };
    format!(in alloc; "import{named}{loosely}{explains} {file} {kind:?} {document} {day} {path}")
}

/// What is asked of an import of a file of a command, on one line.
fn told_sheet(alloc: Global, file: &str, lines: &SheetFile<'_>) -> Result<String, AllocError> {
    let (told, path) = (told_beside(alloc, &lines.sheet)?, lines.path);
    let (stops, explains) = (stops(lines.stop), explains(lines.explain));
    format!(in alloc; "import{stops}{explains} {file} {told} {path}")
}

/// What is asked of a serving, on one line.
fn told_serving(
    alloc: Global,
    file: Option<&str>,
    options: &ServeWords<'_>,
) -> Result<String, AllocError> {
    let (named, journals) = (named(options.names), journals(options.journal));
    let paged = if options.page { " with a page" } else { "" };
    let (port, count, token) = (options.port, options.count, options.token);
    format!(in alloc; "serve{named}{journals}{paged} {file:?} {port} {count:?} {token:?}")
}

/// What is asked for, on one line.
fn told(alloc: Global, task: &Task<'_>) -> Result<String, AllocError> {
    match task {
        Task::Run { file, options } => told_run(alloc, *file, options),
        Task::Look { file, look } => told_look(alloc, file, look),
        Task::Migrate(file) => format!(in alloc; "migrate {file}"),
        Task::Import { file, rows } => told_rows(alloc, file, rows),
        Task::Sheet { file, lines } => told_sheet(alloc, file, lines),
        Task::Lines { sheet, path } => {
            let told = told_beside(alloc, sheet)?;
            format!(in alloc; "lines {told} {path}")
        }
        Task::Serve { file, options } => told_serving(alloc, *file, options),
        Task::Guide(topic) => format!(in alloc; "help on {topic}"),
        Task::At { port, token, asked } => format!(in alloc; "at {port} {token:?} {asked:?}"),
        Task::Help(text) | Task::Wrong(text) => {
            let text = format!(in alloc; "{text}")?;
            format!(in alloc; "{text:?}")
        }
        Task::Unreadable => format!(in alloc; "unreadable"),
        Task::Memory => format!(in alloc; "memory"),
    }
}

/// The status that the program ends with at once, where the words ask for no desk.
fn early_status(task: &Task<'_>) -> Option<u8> {
    match task {
        Task::Guide(_) | Task::Help(_) => Some(0),
        Task::Wrong(_) | Task::Unreadable => Some(2),
        Task::Memory => Some(4),
        _ => None,
    }
}

/// What the words of a line ask for, behind the status with which the program ends at once, where it does.
fn answer(alloc: Global, line: &str) -> Result<String, AllocError> {
    let mut words = Vec::new(alloc);
    for word in line.split('|') {
        words.push(word)?;
    }
    let task = read_words(alloc, words.as_slice());
    let told = told(alloc, &task)?;
    match early_status(&task) {
        None => Ok(told),
        Some(status) => format!(in alloc; "{status} {told}"),
    }
}

/// Reads each line of the file `words`: words with bars between them, and what they ask for.
pub fn play(rt: &HostRuntime) -> Result<(), Fail> {
    let alloc = rt.alloc();
    let text = fs::read_to_string(rt, "words")?;
    for line in text.lines() {
        let (words, want) = line.split_once(" => ").ok_or("a line tells no answer")?;
        let answer = answer(alloc, words)?;
        if answer.as_str() != want {
            // Where the standard error fails too, the fault alone tells.
            let _ = eprintln!(rt; "{words} => {answer}");
            return Err(Fail::from("words ask for something else"));
        }
    }
    Ok(())
}
