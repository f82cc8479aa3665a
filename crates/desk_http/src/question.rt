//! What a client asks of a service with a page, and the target that says it.
ghost use Rattle.std.specs.Prelude.{◌≡◌, ◌++◌, codes, IfOk, OnOk};
ghost use Rattle.std.specs.String.{string_bytes};
ghost use Rattle.desk_http.specs.Asking.{file_target, is_done, lines_target, list_target, low_mark};
ghost use Rattle.desk_http.specs.Asking.{low_part, method_part, report_target, said_of_file};
ghost use Rattle.desk_http.specs.Asking.{said_of_lines, said_of_list, target_of, word_part};

use crate::query::{LineWords, ListWords};
use percent_encoding::{NON_ALPHANUMERIC, utf8_percent_encode};
use std::alloc::{AllocError, Global};

/// What is asked of a service. What is run and taken in comes as the body.
#[derive(Clone, Copy, Debug)]
pub enum Question<'a> {
    /// Lines are run.
    Lines(LineWords),
    /// A file of this kind is taken in, as this document, of this day; where it is true it is read loosely.
    Import(bool, &'a str, &'a str, &'a str),
    /// A report of this name and number.
    Report(&'a str, u64),
    /// A table.
    Export(&'a str),
    /// A list, and the word that says what it is of.
    Show(&'a str, Option<&'a str>, ListWords),
    /// All tables as SQL.
    Dump,
    /// The service stops.
    Stop,
}

impl Question<'_> {
    /// Whether something is done, and not only read.
    pub fn is_done(self) -> bool
        ensures { result ≡ is_done self.entry }
    {
        match self {
            Question::Lines(_) | Question::Import(_, _, _, _) | Question::Stop => true,
            Question::Report(_, _) | Question::Export(_) => false,
            Question::Show(_, _, _) | Question::Dump => false,
        }
    }
}

/// The method, and a space.
pub fn method_part(is_done: bool) -> &'static str
    ensures { result.now ≡ method_part is_done }
{
    if is_done { "POST " } else { "GET " }
}

fn said_of_lines(stop: bool, check: bool) -> &'static str
    ensures { result.now ≡ said_of_lines stop check }
{
    match (stop, check) {
        (false, false) => "",
        (true, false) => "?stop",
        (false, true) => "?check",
        (true, true) => "?stop&check",
    }
}

fn said_of_file(loose: bool) -> &'static str
    ensures { result.now ≡ said_of_file loose }
{
    if loose { "?loose" } else { "" }
}

fn said_of_list(csv: bool, only_open: bool) -> &'static str
    ensures { result.now ≡ said_of_list csv only_open }
{
    match (csv, only_open) {
        (false, false) => "",
        (true, false) => "?csv",
        (false, true) => "?open",
        (true, true) => "?csv&open",
    }
}

fn low_mark(before: bool) -> &'static str
    ensures { result.now ≡ low_mark before }
{
    if before { "&low=" } else { "?low=" }
}

/// Adds the amount below which a part is low, if it is said.
fn push_low(target: &mut String, before: bool, low: Option<u64>) -> Result<(), AllocError>
    ensures { OnOk result (string_bytes target.new
        ≡ string_bytes target.old ++ low_part before low) }
{
    let Some(amount) = low else {
        return Ok(());
    };
    let mark = low_mark(before);
    write!(target, "{mark}{amount}")
}

/// Adds the word of a list, if there is one.
fn push_word(target: &mut String, word: Option<&str>) -> Result<(), AllocError>
    ensures { OnOk result (string_bytes target.new
        ≡ string_bytes target.old ++ word_part word.entry) }
{
    let Some(word) = word else {
        return Ok(());
    };
    target.push_str("/")?;
    utf8_percent_encode(word, NON_ALPHANUMERIC).append_to(target)
}

fn lines_target(alloc: Global, said: LineWords) -> Result<String, AllocError>
    ensures { IfOk result (λ text. string_bytes text ≡ lines_target said) }
{
    let mut target = String::from_str(alloc, "/lines")?;
    target.push_str(said_of_lines(said.stop, said.check))?;
    Ok(target)
}

fn file_target(
    alloc: Global,
    loose: bool,
    kind: &str,
    document: &str,
    day: &str,
) -> Result<String, AllocError>
    ensures { IfOk result (λ text.
        string_bytes text ≡ file_target loose kind.now document.now day.now) }
{
    let mut target = String::from_str(alloc, "/import/")?;
    target.push_str(kind)?;
    target.push_str("/")?;
    target.push_str(document)?;
    target.push_str("/")?;
    target.push_str(day)?;
    target.push_str(said_of_file(loose))?;
    Ok(target)
}

fn report_target(alloc: Global, name: &str, number: u64) -> Result<String, AllocError>
    ensures { IfOk result (λ text. string_bytes text ≡ report_target name.now number) }
{
    let mut target = String::from_str(alloc, "/report/")?;
    target.push_str(name)?;
    target.push_str("/")?;
    write!(target, "{number}")?;
    Ok(target)
}

fn table_target(alloc: Global, table: &str) -> Result<String, AllocError>
    ensures { IfOk result (λ text. string_bytes text ≡ codes "/export/" ++ table.now) }
{
    let mut target = String::from_str(alloc, "/export/")?;
    target.push_str(table)?;
    Ok(target)
}

fn list_target(
    alloc: Global,
    list: &str,
    word: Option<&str>,
    said: ListWords,
) -> Result<String, AllocError>
    ensures { IfOk result (λ text. string_bytes text ≡ list_target list.now word.entry said) }
{
    let mut target = String::from_str(alloc, "/show/")?;
    target.push_str(list)?;
    push_word(&mut target, word)?;
    target.push_str(said_of_list(said.csv, said.only_open))?;
    push_low(&mut target, said.csv || said.only_open, said.low)?;
    Ok(target)
}

/// The target of the request that asks so.
pub fn target_of(alloc: Global, question: Question<'_>) -> Result<String, AllocError>
    ensures { IfOk result (λ text. string_bytes text ≡ target_of question.entry) }
{
    match question {
        Question::Lines(said) => lines_target(alloc, said),
        Question::Import(loose, kind, document, day) => {
            file_target(alloc, loose, kind, document, day)
        }
        Question::Report(name, number) => report_target(alloc, name, number),
        Question::Export(table) => table_target(alloc, table),
        Question::Show(list, word, said) => list_target(alloc, list, word, said),
        Question::Dump => String::from_str(alloc, "/dump"),
        Question::Stop => String::from_str(alloc, "/stop"),
    }
}
