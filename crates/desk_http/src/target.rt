//! What the target of a request names. It is looked at byte by byte: nothing is decoded, and what may be said behind a `?`
//! is read elsewhere.
ghost use Rattle.std.specs.Prelude.{◌≡◌, ◌<◌, IfSome, true, length};
ghost use Rattle.std.specs.List.{list_all};
ghost use Rattle.word_core.specs.Day.{day_of};
ghost use Rattle.desk_http.specs.Targets.{number_of, cut, kind_of, name_of, place_in, is_document_byte};
ghost use Rattle.desk_http.specs.Targets.{is_document, where_it, file_resource, import_resource};
ghost use Rattle.desk_http.specs.Targets.{report_resource, some_parts, some_resource, some_text, IsProper};
ghost use Rattle.desk_http.specs.Targets.{is_name, is_name_byte, export_resource, history_at, history_resource};
ghost use Rattle.desk_http.specs.Targets.{page_resource_of, part_at, reading_of};
ghost use Rattle.desk_http.specs.Targets.{asked_resource, first_of, sheet_at, sheet_of, sheet_resource};

use crate::asked::read_asked;
use crate::query::{LineWords, ListWords};
use word_core::Day;

/// What the rows of a file are.
#[derive(Clone, Copy, Debug)]
pub enum ImportKind {
    Receipts,
    Counts,
}

/// Which report is shown.
#[derive(Clone, Copy, Debug)]
pub enum ReportName {
    Ledger,
    Stock,
    Content,
    WhereUsed,
    Shortage,
    History,
}

/// What a target names.
#[derive(Clone, Copy)]
pub enum Target<'b> {
    Run,
    /// An import, of a document and on a day, which may be read loosely.
    Import(bool, ImportKind, &'b str, Day),
    /// A report, and the number of what it is of.
    Report(ReportName, u64),
    /// The table of that name, as it is exported.
    Export(&'b [u8]),
    /// The books whole.
    Books,
    /// The history, from that number on.
    HistoryFrom(u64),
    /// The import of a file of the command of that name, of a document and on a day.
    Sheet(&'b str, &'b str, Day),
    /// The list of that name, with the word that says what it is of, as it stands in the target.
    Show(&'b str, Option<&'b [u8]>, ListWords),
    /// The service that runs lines.
    RunAll(LineWords),
    /// The service that stops.
    Stop,
    /// All tables, as SQL.
    Dump,
}

/// A number of 1 to 19 digits.
pub fn read_number(bytes: &[u8]) -> Option<u64>
    ensures { result ≡ number_of bytes.now }
{
    if bytes.is_empty() || bytes.len() > 19 {
        return None;
    }
    let mut value = 0;
    for b in bytes {
        if !b.is_ascii_digit() {
            return None;
        }
        value = value * 10 + (*b - b'0') as u64;
    }
    Some(value)
}

#[tactic(auto, unfolding(crate::specs::Targets::place_in))]
fn find_slash(bytes: &[u8]) -> Option<usize>
    ensures at { result ≡ place_in 47 bytes.now }
    ensures within { IfSome result (λ i. i < length bytes.now) }
{
    for (i, b) in bytes.iter().enumerate() {
        if *b == b'/' {
            return Some(i);
        }
    }
    None
}

/// The bytes before the first slash, and those behind it.
#[tactic(auto, using(crate::proofs::Numbers::from_index))]
pub fn split(bytes: &[u8]) -> Option<(&[u8], &[u8])>
    ensures { some_parts result ≡ cut bytes.now }
{
    match find_slash(bytes) {
        Some(i) => Some((&bytes[..i], &bytes[i + 1..])),
        None => None,
    }
}

fn read_kind(bytes: &[u8]) -> Option<ImportKind>
    ensures { result ≡ kind_of bytes.now }
{
    if bytes == b"receipts".as_slice() {
        Some(ImportKind::Receipts)
    } else if bytes == b"counts".as_slice() {
        Some(ImportKind::Counts)
    } else {
        None
    }
}

fn read_name(bytes: &[u8]) -> Option<ReportName>
    ensures { result ≡ name_of bytes.now }
{
    if bytes == b"ledger".as_slice() {
        Some(ReportName::Ledger)
    } else if bytes == b"stock".as_slice() {
        Some(ReportName::Stock)
    } else if bytes == b"content".as_slice() {
        Some(ReportName::Content)
    } else if bytes == b"where_used".as_slice() {
        Some(ReportName::WhereUsed)
    } else if bytes == b"shortage".as_slice() {
        Some(ReportName::Shortage)
    } else if bytes == b"history".as_slice() {
        Some(ReportName::History)
    } else {
        None
    }
}

fn is_document_byte(b: u8) -> bool
    ensures { result ≡ is_document_byte b }
{
    b.is_ascii_alphanumeric() || b == b'.' || b == b'_' || b == b'-'
}

fn are_document(bytes: &[u8]) -> bool
    ensures { result ≡ list_all is_document_byte bytes.now }
{
    bytes.iter().all(|b| is_document_byte(*b))
}

fn is_document(bytes: &[u8]) -> bool
    ensures { result ≡ is_document bytes.now }
{
    0 < bytes.len() && bytes.len() <= 32 && are_document(bytes)
}

/// The name of a document, where the bytes are one.
fn read_document(bytes: &[u8]) -> Option<&str>
    ensures value { some_text result ≡ where_it is_document bytes.now }
    ensures proper { IfSome result (λ text. is_document text.now ≡ true) }
{
    if !is_document(bytes) {
        return None;
    }
    match str::from_utf8(bytes) {
        Ok(text) => Some(text),
        Err(_) => None,
    }
}

#[tactic(auto, using(crate::proofs::Days::no_text))]
fn read_day(bytes: &[u8]) -> Option<Day>
    ensures { result ≡ day_of bytes.now }
{
    match str::from_utf8(bytes) {
        Ok(text) => Day::parse(text),
        Err(_) => None,
    }
}

/// A document and a day, behind the kind of an import.
fn read_file(loose: bool, kind: ImportKind, bytes: &[u8]) -> Option<Target>
    ensures value { some_resource result ≡ file_resource loose kind bytes.now }
    ensures proper { IfSome result IsProper }
{
    let (document_part, day_part) = split(bytes)?;
    let document = read_document(document_part)?;
    let day = read_day(day_part)?;
    Some(Target::Import(loose, kind, document, day))
}

/// What stands behind `/import/`, which may be read loosely.
pub fn read_import(loose: bool, bytes: &[u8]) -> Option<Target>
    ensures value { some_resource result ≡ import_resource loose bytes.now }
    ensures proper { IfSome result IsProper }
{
    let (kind_part, rest) = split(bytes)?;
    let kind = read_kind(kind_part)?;
    read_file(loose, kind, rest)
}

/// What stands behind `/report/`.
pub fn read_report(bytes: &[u8]) -> Option<Target>
    ensures value { some_resource result ≡ report_resource bytes.now }
    ensures proper { IfSome result IsProper }
{
    let (name_part, rest) = split(bytes)?;
    let name = read_name(name_part)?;
    let number = read_number(rest)?;
    Some(Target::Report(name, number))
}

fn is_name_byte(b: u8) -> bool
    ensures { result ≡ is_name_byte b }
{
    b.is_ascii_lowercase() || b == b'_'
}

fn are_name(bytes: &[u8]) -> bool
    ensures { result ≡ list_all is_name_byte bytes.now }
{
    bytes.iter().all(|b| is_name_byte(*b))
}

/// Whether a table or a command may be called so.
fn is_name(bytes: &[u8]) -> bool
    ensures { result ≡ is_name bytes.now }
{
    0 < bytes.len() && are_name(bytes)
}

/// What stands behind `/export/`.
fn read_export(bytes: &[u8]) -> Option<Target>
    ensures value { some_resource result ≡ export_resource bytes.now }
    ensures proper { IfSome result IsProper }
{
    if is_name(bytes) {
        Some(Target::Export(bytes))
    } else {
        None
    }
}

/// What stands behind `/history/`.
fn read_history(bytes: &[u8]) -> Option<Target>
    ensures value { some_resource result ≡ history_resource bytes.now }
    ensures proper { IfSome result IsProper }
{
    let number = read_number(bytes)?;
    Some(Target::HistoryFrom(number))
}

/// What a whole target names that begins with `/history/`.
fn read_history_target(target: &[u8]) -> Option<Target>
    ensures value { some_resource result ≡ history_at target.now }
    ensures proper { IfSome result IsProper }
{
    match target.strip_prefix(b"/history/".as_slice()) {
        Some(number) => read_history(number),
        None => None,
    }
}

/// What a whole target names that begins with `/export/` or `/history/`.
fn read_part(target: &[u8]) -> Option<Target>
    ensures value { some_resource result ≡ part_at target.now }
    ensures proper { IfSome result IsProper }
{
    match target.strip_prefix(b"/export/".as_slice()) {
        Some(table) => read_export(table),
        None => read_history_target(target),
    }
}

/// What a whole target names that a page reads.
fn read_reading(target: &[u8]) -> Option<Target>
    ensures value { some_resource result ≡ reading_of target.now }
    ensures proper { IfSome result IsProper }
{
    if target == b"/books".as_slice() {
        Some(Target::Books)
    } else {
        read_part(target)
    }
}

/// The name of a command, where the bytes may be one.
fn read_command(bytes: &[u8]) -> Option<&str>
    ensures { some_text result ≡ where_it is_name bytes.now }
{
    if !is_name(bytes) {
        return None;
    }
    match str::from_utf8(bytes) {
        Ok(text) => Some(text),
        Err(_) => None,
    }
}

/// A document and a day, behind the name of a command.
fn read_sheet<'b>(command: &'b str, bytes: &'b [u8]) -> Option<Target<'b>>
    ensures value { some_resource result ≡ sheet_of command.now bytes.now }
    ensures proper { IfSome result IsProper }
{
    let (document_part, day_part) = split(bytes)?;
    let document = read_document(document_part)?;
    let day = read_day(day_part)?;
    Some(Target::Sheet(command, document, day))
}

/// What stands behind `/import/`, where that is the name of a command.
fn read_named_sheet(bytes: &[u8]) -> Option<Target>
    ensures value { some_resource result ≡ sheet_resource bytes.now }
    ensures proper { IfSome result IsProper }
{
    let (command_part, rest) = split(bytes)?;
    let command = read_command(command_part)?;
    read_sheet(command, rest)
}

/// What a whole target names that begins with `/import/` and the name of a command.
fn read_sheet_target(target: &[u8]) -> Option<Target>
    ensures value { some_resource result ≡ sheet_at target.now }
    ensures proper { IfSome result IsProper }
{
    match target.strip_prefix(b"/import/".as_slice()) {
        Some(sheet) => read_named_sheet(sheet),
        None => None,
    }
}

/// What a whole target names that is the import of a file of a command, or of which something may be said behind a `?`.
fn read_sent(target: &[u8]) -> Option<Target>
    ensures value { some_resource result
        ≡ first_of (sheet_at target.now) (asked_resource target.now) }
    ensures proper { IfSome result IsProper }
{
    match read_sheet_target(target) {
        Some(sheet) => Some(sheet),
        None => read_asked(target),
    }
}

/// What a whole target names that is there with a page alone.
pub fn read_page_target(target: &[u8]) -> Option<Target>
    ensures value { some_resource result ≡ page_resource_of target.now }
    ensures proper { IfSome result IsProper }
{
    match read_reading(target) {
        Some(reading) => Some(reading),
        None => read_sent(target),
    }
}
