//! What is replied to lines that are sent, and to a file of a command: the answers of its lines, or its faults. Such a file
//! is made a text of lines with nothing said of its members, and these are looked at and run as those of an import are: rows
//! are said by what they are called. Other lines are taken as the service takes them.
ghost use Rattle.std.specs.Prelude.{◌≡◌, ◌==◌, [], None, true, IfErr, IfOk, count_by};
ghost use Rattle.std.specs.String.{string_bytes};
ghost use Rattle.sqlite.specs.Tree.{Trees};
ghost use Rattle.word_core.specs.Forms.{shown};
ghost use Rattle.desk_store.specs.StateTables.{TablesAre};
ghost use Rattle.desk_http.specs.Services.{reply_view, why_none};
ghost use Rattle.desk_http.specs.Targets.{is_document};
ghost use Rattle.desk_wire.specs.Sheets.{sheet_text};
ghost use Rattle.desk_wire.specs.SheetViews.{shown_sheet};
ghost use Rattle.desk_app.specs.Runs.{lines_of};
ghost use Rattle.desk_app.specs.Services.{import_sheet, lines_to_run, run_lines, sheet_lines};
ghost use Rattle.desk_app.specs.Services.{IfStoreFailed, IsFailed, IsFailedSheet, StaysOpenBy};
ghost use Rattle.desk_app.specs.SheetReplies.{by_lines, by_run, by_text, faults_reply};
ghost use Rattle.desk_app.specs.SheetReplies.{lines_to_run as those_to_run};
ghost use Rattle.desk_app.specs.SheetReplies.{said_run, text_lines, text_of, AreLeftByLines, RanFirst};
ghost use Rattle.desk_app.specs.SheetRuns.{sheet_options};

use crate::books::Books;
use crate::checked::faults_of_lines;
use crate::options::{LineOptions, RunOptions};
use crate::run::run_lines;
use crate::service::{document_named, faulty, open_shop};
use desk_core::RunEnd;
use desk_http::{Failure, LineWords, NoReply, Outcome, Reply};
use desk_wire::{Document, ReadError, Sheet, sheet_form, sheet_text};
use part_core::{Day, Form};
use std::alloc::Global;

/// How many lines a text ends.
fn count_ends(text: &[u8]) -> usize
    ensures { result ≡ count_by (λ b. b == 10) text.now }
{
    text.iter().filter(|b| **b == b'\n').count()
}

/// The faults of lines, of which one is told as that of any body is.
fn faulty_lines(faults: String) -> Reply
    ensures { reply_view result ≡ faults_reply (string_bytes faults) }
{
    let outcome = if count_ends(faults.as_bytes()) <= 1 {
        Outcome::Faulty
    } else {
        Outcome::FaultyLines
    };
    Reply {
        outcome,
        body: faults.into_bytes(),
    }
}

/// Runs the lines of a text, and replies their answers as a reply of this kind. With `stop` the first that is refused or
/// faulty is the last.
fn reply_to_lines<B: Books>(
    alloc: Global,
    books: &mut B,
    text: &[u8],
    options: RunOptions,
    kind: Outcome,
) -> Result<Reply, NoReply>
    requires { B.are_kept books.old }
    ensures kept { B.are_kept books.new }
    ensures ok { IfOk result (λ reply. (B.state_in books.new, reply_view reply)
        ≡ by_run options kind (B.state_in books.old) (lines_of text.now)) }
    ensures failed { IfErr result (λ why. IsFailed why
        × RanFirst options (lines_of text.now) (B.state_in books.old)
        (B.state_in books.new)) }
    ensures stays_open { StaysOpenBy (B.failure_of books.old) (B.failure_of books.new)
        (why_none result) }
    ensures left { B.failure_of books.old ≡ None → (trees : Trees)
        → B.may_leave books.new trees
        → IfStoreFailed (why_none result)
        (AreLeftByLines options.lines (lines_of text.now) (B.state_in books.old)
        (B.state_in books.new) trees)
        (TablesAre (B.state_in books.new) trees) }
{
    let mut answers = Vec::new(alloc);
    let mut reader = text;
    match run_lines(alloc, &mut reader, &mut answers, books, options) {
        RunEnd::Done(_) => Ok(Reply {
            outcome: kind,
            body: answers,
        }),
        RunEnd::ReadFailed => Err(NoReply::Failed(Failure::Memory)),
        RunEnd::WriteFailed => Err(NoReply::Failed(Failure::Memory)),
        RunEnd::Memory => Err(NoReply::Failed(Failure::Memory)),
        RunEnd::Store => Err(NoReply::Failed(Failure::Store)),
    }
}

/// Runs the lines of a text, where none has a fault that shows before, and replies their answers, or their faults.
fn reply_to_text<B: Books>(
    alloc: Global,
    books: &mut B,
    text: &[u8],
    options: RunOptions,
    kind: Outcome,
) -> Result<Reply, NoReply>
    requires { B.are_kept books.old }
    ensures kept { B.are_kept books.new }
    ensures ok { IfOk result (λ reply. (B.state_in books.new, reply_view reply)
        ≡ by_lines options kind (B.state_in books.old) (lines_of text.now)) }
    ensures failed { IfErr result (λ why. IsFailed why
        × RanFirst options (those_to_run options.lines (lines_of text.now))
        (B.state_in books.old) (B.state_in books.new)) }
    ensures stays_open { StaysOpenBy (B.failure_of books.old) (B.failure_of books.new)
        (why_none result) }
    ensures left { B.failure_of books.old ≡ None → (trees : Trees)
        → B.may_leave books.new trees
        → IfStoreFailed (why_none result)
        (AreLeftByLines options.lines (those_to_run options.lines (lines_of text.now))
        (B.state_in books.old) (B.state_in books.new) trees)
        (TablesAre (B.state_in books.new) trees) }
{
    if let Err(why) = open_shop(books) {
        return Err(why);
    }
    let Ok(told) = faults_of_lines(alloc, text, options.lines.names) else {
        return Err(NoReply::Failed(Failure::Memory));
    };
    if told.fine {
        reply_to_lines(alloc, books, text, options, kind)
    } else {
        Ok(faulty_lines(told.text))
    }
}

/// Runs a body as lines, and replies their answers; or, where they are looked at before, their faults.
#[tactic(auto, unfolding(crate::specs::Services::run_lines, crate::specs::Services::lines_to_run))]
pub(crate) fn reply_to_said<B: Books>(
    alloc: Global,
    books: &mut B,
    text: &[u8],
    options: LineOptions,
    said: LineWords,
) -> Result<Reply, NoReply>
    requires { B.are_kept books.old }
    ensures kept { B.are_kept books.new }
    ensures ok { IfOk result (λ reply. (B.state_in books.new, reply_view reply)
        ≡ run_lines options (B.state_in books.old) said text.now) }
    ensures failed { IfErr result (λ why. IsFailed why
        × RanFirst (said_run options said) (lines_to_run options said text.now)
        (B.state_in books.old) (B.state_in books.new)) }
    ensures stays_open { StaysOpenBy (B.failure_of books.old) (B.failure_of books.new)
        (why_none result) }
    ensures left { B.failure_of books.old ≡ None → (trees : Trees)
        → B.may_leave books.new trees
        → IfStoreFailed (why_none result)
        (AreLeftByLines options (lines_to_run options said text.now) (B.state_in books.old)
        (B.state_in books.new) trees)
        (TablesAre (B.state_in books.new) trees) }
{
    let kind = Outcome::AnsweredLines;
    let run = RunOptions {
        lines: options,
        stop: said.stop,
    };
    if said.check {
        reply_to_text(alloc, books, text, run, kind)
    } else {
        reply_to_lines(alloc, books, text, run, kind)
    }
}

/// Makes a file lines, by what is told beside it, and replies their answers, or its faults.
fn reply_to_sheet<B: Books>(
    alloc: Global,
    books: &mut B,
    sheet: &Sheet<'_>,
    file: &[u8],
) -> Result<Reply, NoReply>
    requires { B.are_kept books.old }
    ensures kept { B.are_kept books.new }
    ensures ok { IfOk result (λ reply. (B.state_in books.new, reply_view reply)
        ≡ by_text (B.state_in books.old) (sheet_text (shown_sheet sheet.now) file.now)) }
    ensures failed { IfErr result (λ why. IsFailedSheet why
        (text_lines (sheet_text (shown_sheet sheet.now) file.now))
        (B.state_in books.old) (B.state_in books.new)) }
    ensures stays_open { StaysOpenBy (B.failure_of books.old) (B.failure_of books.new)
        (why_none result) }
    ensures left { B.failure_of books.old ≡ None → (trees : Trees)
        → B.may_leave books.new trees
        → IfStoreFailed (why_none result)
        (AreLeftByLines sheet_options (text_lines (sheet_text (shown_sheet sheet.now) file.now))
        (B.state_in books.old) (B.state_in books.new) trees)
        (TablesAre (B.state_in books.new) trees) }
{
    match sheet_text(alloc, sheet, file) {
        Ok(text) => {
            let (options, kind) = (RunOptions::NAMED, Outcome::Reported);
            reply_to_text(alloc, books, text.as_bytes(), options, kind)
        }
        Err(ReadError::Wrong(fault)) => faulty(alloc, fault),
        Err(ReadError::Memory) => Err(NoReply::Untold),
    }
}

/// Runs a body as a file of the command of a form, and replies the answers of its lines, or its faults.
fn reply_to_form<B: Books>(
    alloc: Global,
    books: &mut B,
    form: &'static Form,
    document: Document,
    day: Day,
    file: &[u8],
) -> Result<Reply, NoReply>
    requires { B.are_kept books.old }
    ensures kept { B.are_kept books.new }
    ensures ok { IfOk result (λ reply. (B.state_in books.new, reply_view reply)
        ≡ by_text (B.state_in books.old) (text_of (shown form.now) document day file.now)) }
    ensures failed { IfErr result (λ why. IsFailedSheet why
        (text_lines (text_of (shown form.now) document day file.now))
        (B.state_in books.old) (B.state_in books.new)) }
    ensures stays_open { StaysOpenBy (B.failure_of books.old) (B.failure_of books.new)
        (why_none result) }
    ensures left { B.failure_of books.old ≡ None → (trees : Trees)
        → B.may_leave books.new trees
        → IfStoreFailed (why_none result)
        (AreLeftByLines sheet_options (text_lines (text_of (shown form.now) document day file.now))
        (B.state_in books.old) (B.state_in books.new) trees)
        (TablesAre (B.state_in books.new) trees) }
{
    let sheet = Sheet {
        form,
        said: Vec::new(alloc),
        document,
        day,
    };
    reply_to_sheet(alloc, books, &sheet, file)
}

/// Replies that there is no command of the name, or none of which a file may be.
fn unknown(alloc: Global) -> Reply
    ensures { reply_view result ≡ (Outcome.Unknown, []) }
{
    Reply {
        outcome: Outcome::Unknown,
        body: Vec::new(alloc),
    }
}

/// Runs a body as a file of the command of that name, as the document of that name, and replies the answers of its
/// lines, or its faults; or that there is no such command.
#[tactic(auto, unfolding(crate::specs::Services::import_sheet, crate::specs::Services::sheet_lines))]
pub(crate) fn reply_to_command<B: Books>(
    alloc: Global,
    books: &mut B,
    command: &str,
    document: &str,
    day: Day,
    file: &[u8],
) -> Result<Reply, NoReply>
    requires kept { B.are_kept books.old }
    requires document { is_document document.now ≡ true }
    ensures kept { B.are_kept books.new }
    ensures ok { IfOk result (λ reply. (B.state_in books.new, reply_view reply)
        ≡ import_sheet (B.state_in books.old) command.now document.now day file.now) }
    ensures failed { IfErr result (λ why. IsFailedSheet why
        (sheet_lines command.now document.now day file.now)
        (B.state_in books.old) (B.state_in books.new)) }
    ensures stays_open { StaysOpenBy (B.failure_of books.old) (B.failure_of books.new)
        (why_none result) }
    ensures left { B.failure_of books.old ≡ None → (trees : Trees)
        → B.may_leave books.new trees
        → IfStoreFailed (why_none result)
        (AreLeftByLines sheet_options (sheet_lines command.now document.now day file.now)
        (B.state_in books.old) (B.state_in books.new) trees)
        (TablesAre (B.state_in books.new) trees) }
{
    let Some(form) = sheet_form(command) else {
        return Ok(unknown(alloc));
    };
    match document_named(alloc, document) {
        Ok(Some(document)) => reply_to_form(alloc, books, form, document, day, file),
        Ok(None) => unreachable!(),
        Err(_) => Err(NoReply::Untold),
    }
}
