//! The import of a file of records of a command: it is made a text of lines, and these are run as a run does that looks at
//! all lines before the first is run. Rows are said by what they are called.
ghost use Rattle.std.specs.Prelude.{◌≡◌, ◌++◌, codes, decimal, false, IfOk, None};
ghost use Rattle.std.specs.String.{string_bytes};
ghost use Rattle.desk_core.specs.Books.{AreInOrder};
ghost use Rattle.report_core.specs.Escaped.{escaped};
ghost use Rattle.desk_wire.specs.Sheets.{sheet_text};
ghost use Rattle.desk_wire.specs.SheetViews.{shown_sheet};
ghost use Rattle.desk_wire.specs.Writing.{fault_text};
ghost use Rattle.desk_app.specs.Reasons.{fault_words, Begins};
ghost use Rattle.desk_app.specs.SheetRuns.{PrintsSheet, PrintsText, RunsSheet};

use crate::books::Books;
use crate::checked::{explain_lines, run_text};
use crate::options::{LineOptions, RunOptions};
use crate::reasons::{followed, meaning, told_fault};
use desk_core::RunEnd;
use desk_store::send;
use desk_wire::{ReadError, Sheet, What, WireFault, fault_text, may_lack, sheet_text};
use std::alloc::{AllocError, Global};
use std::io::Write;

/// Whether a file begins with the mark of the byte order of UTF-16.
fn looks_like_utf16(bytes: &[u8]) -> bool {
    bytes.starts_with(b"\xff\xfe") || bytes.starts_with(b"\xfe\xff")
}

/// The members that a file's first record has to name.
fn wanted(alloc: Global, sheet: &Sheet<'_>) -> Result<String, AllocError> {
    let mut text = String::from_str(
        alloc,
        ": each of these is wanted once, in a column or by --set:",
    )?;
    for (name, kind) in sheet.form.fields {
        if !may_lack(*kind) {
            text.push_str(" ")?;
            text.push_str(name)?;
        }
    }
    text.push_str(".\n")?;
    Ok(text)
}

/// What stands behind the fault of a file.
fn behind_fault(
    alloc: Global,
    sheet: &Sheet<'_>,
    bytes: &[u8],
    what: &What,
) -> Result<String, AllocError> {
    match what {
        What::Header => {
            if looks_like_utf16(bytes) {
                return String::from_str(alloc, ": it looks like UTF-16; save it as UTF-8\n");
            }
            wanted(alloc, sheet)
        }
        _ => meaning(alloc, what.name()),
    }
}

/// What is wrong with a file that can't be made lines.
fn why_no_lines(
    alloc: Global,
    sheet: &Sheet<'_>,
    bytes: &[u8],
    fault: &WireFault,
) -> Result<String, AllocError>
    ensures { IfOk result (λ text. Begins
        (escaped (fault_words (codes "record " ++ decimal fault.now.line) fault.now.what None))
        (string_bytes text)) }
{
    let number = fault.line;
    let place = format!(in alloc; "record {number}")?;
    let text = told_fault(alloc, place.as_str(), &fault.what, &None)?;
    let more = behind_fault(alloc, sheet, bytes, &fault.what)?;
    followed(text, more.as_str())
}

/// Tells a person, if one is told, why the file can't be made lines. What can't be written, or has no memory, is left out.
fn explain_file<T: Write + Drop>(
    alloc: Global,
    sheet: &Sheet<'_>,
    bytes: &[u8],
    fault: &WireFault,
    reasons: Option<T>,
) {
    if let Some(mut told) = reasons {
        if let Ok(text) = why_no_lines(alloc, sheet, bytes, fault) {
            let _ = told.write_all(text.as_bytes());
        }
    }
}

/// Prints a text, after which all is fine or not.
fn print_text<W: Write>(writer: &mut W, text: &[u8], fine: bool) -> RunEnd
    ensures { PrintsText fine text.now (W.contents writer.old) (W.contents writer.new) result }
{
    match send(writer, text) {
        Ok(()) => RunEnd::Done(fine),
        Err(_) => RunEnd::WriteFailed,
    }
}

/// Tells the fault of a file, of which nothing is done.
fn tell_fault<W: Write>(alloc: Global, fault: WireFault, writer: &mut W) -> RunEnd
    ensures { PrintsText false (fault_text fault) (W.contents writer.old) (W.contents writer.new) result }
{
    match fault_text(alloc, fault) {
        Ok(text) => print_text(writer, text.as_bytes(), false),
        Err(_) => RunEnd::Memory,
    }
}

/// Answers the lines that a file is, by what is told beside it, as `run_checked` does where rows may be named, however long
/// they are together. Of a file with a fault nothing is done, and the fault is told. It may be told why the file, or a
/// line, can't be read.
pub fn import_sheet<B: Books, W: Write, T: Write + Drop>(
    alloc: Global,
    sheet: &Sheet<'_>,
    bytes: &[u8],
    writer: &mut W,
    books: &mut B,
    stop: bool,
    reasons: Option<T>,
) -> RunEnd
    requires { B.are_kept books.old }
    ensures kept { B.are_kept books.new }
    ensures in_order { AreInOrder (B.state_in books.new) }
    ensures runs { RunsSheet stop (sheet_text (shown_sheet sheet.now) bytes.now)
        (W.contents writer.old) (W.contents writer.new) (B.failure_of books.old)
        (B.failure_of books.new) (B.may_leave books.new) (B.state_in books.old)
        (B.state_in books.new) result }
{
    match sheet_text(alloc, sheet, bytes) {
        Ok(text) => {
            let options = RunOptions {
                lines: LineOptions::NAMED,
                stop,
            };
            let end = run_text(alloc, text.as_bytes(), writer, books, options);
            if let Some(mut told) = reasons {
                explain_lines(alloc, text.as_bytes(), true, &mut told);
            }
            end
        }
        Err(ReadError::Wrong(fault)) => {
            explain_file(alloc, sheet, bytes, &fault, reasons);
            tell_fault(alloc, fault, writer)
        }
        Err(ReadError::Memory) => RunEnd::Memory,
    }
}

/// Prints the lines that a file is, by what is told beside it, or its fault. It may be told why the file can't be read.
pub fn print_sheet<W: Write, T: Write + Drop>(
    alloc: Global,
    sheet: &Sheet<'_>,
    bytes: &[u8],
    writer: &mut W,
    reasons: Option<T>,
) -> RunEnd
    ensures { PrintsSheet (sheet_text (shown_sheet sheet.now) bytes.now) (W.contents writer.old)
        (W.contents writer.new) result }
{
    match sheet_text(alloc, sheet, bytes) {
        Ok(text) => print_text(writer, text.as_bytes(), true),
        Err(ReadError::Wrong(fault)) => {
            explain_file(alloc, sheet, bytes, &fault, reasons);
            tell_fault(alloc, fault, writer)
        }
        Err(ReadError::Memory) => RunEnd::Memory,
    }
}
