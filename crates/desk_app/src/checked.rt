//! A run that looks at all lines before the first is run. Where one is faulty, all faults are told, and nothing is run.
//! Which row a name calls is looked up only as its line is run, since a line before it may make the row; so a name that
//! calls none isn't found before, and neither is a request that is refused.
ghost use Rattle.std.specs.Prelude.{◌≡◌, ◌≢◌, ◌⊎◌, ◌≤◌, ◌++◌, length, Bool, None, Some, true, false, is_none};
ghost use Rattle.std.specs.Prelude.{IfOk, OnOk, IfErr, IsSome, option_map};
ghost use Rattle.std.specs.String.{string_bytes};
ghost use Rattle.sqlite.specs.Tree.{Trees};
ghost use Rattle.desk_core.specs.Books.{AreInOrder};
ghost use Rattle.desk_store.specs.StateTables.{TablesAre};
ghost use Rattle.desk_core.specs.declared.end.Stop.{Stop};
ghost use Rattle.desk_app.specs.Answered.{AnsweredIsKept};
ghost use Rattle.desk_app.specs.Checked.{anything, are_readable, fault_of, faults_out, is_readable};
ghost use Rattle.desk_wire.specs.Writing.{fault_text};
ghost use Rattle.desk_wire.specs.declared.fault.What.TheVariants.{TooLong};
ghost use Rattle.desk_app.specs.Checked.{naming_ahead, text_faults, told_of, TellsFaults};
ghost use Rattle.desk_app.specs.Cuts.{first_of};
ghost use Rattle.desk_core.specs.Ends.{end_of};
ghost use Rattle.desk_app.specs.Runs.{lines_of, Finished, Stopped};

use crate::books::Books;
use crate::options::RunOptions;
use crate::pieces::end_of;
use crate::reasons::why_faulty_line;
use crate::run::{is_blank, run_lines};
use desk_core::{Key, Names, RunEnd, Stop};
use desk_store::send;
use desk_wire::{ReadError, Told, What, WireFault, fault_text, read_line};
use part_core::{Found, Id, Serial};
use std::alloc::{AllocError, Global};
use std::io::Write;

/// How many bytes a text may have whose lines are looked at.
const MOST_BYTES: usize = 16_777_216;

/// Names of which each is one of a row.
#[derive(Clone, Copy)]
struct AnyRow;

impl Names for AnyRow {
    ghost naming_of = { λ _. anything };

    fn part(&self, _name: &str) -> Result<Found, AllocError> {
        Ok(Found::One(1))
    }

    fn category(&self, _parent: Option<Id>, _name: &str) -> Result<Found, AllocError> {
        Ok(Found::One(1))
    }

    fn location(&self, _parent: Option<Id>, _name: &str) -> Result<Found, AllocError> {
        Ok(Found::One(1))
    }

    fn item(&self, _part: Id, _serial: &Serial) -> Result<Found, AllocError> {
        Ok(Found::One(1))
    }

    fn made(&self, _key: &Key) -> Found {
        Found::One(1)
    }
}

/// The names that lines may say before any is run: none where rows may not be named.
fn names_ahead(any: &AnyRow, names: bool) -> Option<&AnyRow>
    ensures { option_map (λ _. anything) result ≡ naming_ahead names }
{
    if names { Some(any) } else { None }
}

/// Adds the fault of the line of that number to the text, where it has one: true where it has none.
#[tactic(auto, unfolding(crate::specs::Checked::fault_of))]
fn look_at(
    alloc: Global,
    number: u64,
    line: &[u8],
    names: bool,
    text: &mut String,
) -> Result<bool, Stop>
    ensures readable { IfOk result (λ readable. readable ≡ is_none (fault_of names line.now)) }
    ensures text { OnOk result (string_bytes text.new
        ≡ string_bytes text.old ++ told_of number (fault_of names line.now)) }
    ensures memory { IfErr result (λ why. why ≡ Stop.Memory) }
{
    if is_blank(line) {
        return Ok(true);
    }
    let any = AnyRow;
    let named = names_ahead(&any, names);
    let told = match read_line(alloc, named, line, number) {
        Ok(_) => return Ok(true),
        Err(ReadError::Wrong(fault)) => fault_text(alloc, fault)?,
        Err(ReadError::Memory) => return Err(Stop::Memory),
    };
    text.push_str(told.as_str())?;
    Ok(false)
}

/// The first line of a text, without its LF.
#[tactic(auto, using(crate::proofs::Checking::first_short))]
pub(crate) fn first_line(text: &[u8]) -> &[u8]
    ensures first { result.now ≡ first_of text.now }
    ensures bound { length result.now ≤ length text.now }
{
    match end_of(text) {
        Some(n) => &text[..n],
        None => text,
    }
}

/// The faults of the lines of a text, and whether none has one.
pub(crate) fn faults_of_lines(alloc: Global, bytes: &[u8], names: bool) -> Result<Told, Stop>
    ensures text { IfOk result (λ told.
        string_bytes told.text ≡ faults_out names 1 (lines_of bytes.now)) }
    ensures fine { IfOk result (λ told. told.fine ≡ are_readable names (lines_of bytes.now)) }
    ensures memory { IfErr result (λ why. why ≡ Stop.Memory) }
{
    let mut text = String::new(alloc);
    let mut fine = true;
    let mut number: u64 = 0;
    let mut at = 0;
    while at < bytes.len() {
        number += 1;
        let line = first_line(&bytes[at..]);
        let readable = look_at(alloc, number, line, names, &mut text)?;
        fine = fine && readable;
        at += line.len() + 1;
    }
    Ok(Told { text, fine })
}

/// The fault of the line of that number, if it has one.
fn fault_of_line(
    alloc: Global,
    number: u64,
    line: &[u8],
    names: bool,
) -> Result<Option<WireFault>, AllocError> {
    if is_blank(line) {
        return Ok(None);
    }
    let any = AnyRow;
    let named = names_ahead(&any, names);
    let fault = match read_line(alloc, named, line, number) {
        Ok(_) => return Ok(None),
        Err(ReadError::Wrong(fault)) => fault,
        Err(ReadError::Memory) => return Err(AllocError),
    };
    Ok(Some(fault))
}

/// Why the line of that number can't be read, if it can't.
fn reason_of_line(
    alloc: Global,
    number: u64,
    line: &[u8],
    names: bool,
) -> Result<Option<String>, AllocError> {
    let Some(fault) = fault_of_line(alloc, number, line, names)? else {
        return Ok(None);
    };
    let any = AnyRow;
    let reason = why_faulty_line(alloc, names_ahead(&any, names), line, &fault)?;
    Ok(Some(reason))
}

/// Tells a person why each line of the text that can't be read can't be, as `run_text` looks at them. What can't be
/// written, or has no memory, is left out.
pub(crate) fn explain_lines<W: Write>(alloc: Global, bytes: &[u8], names: bool, writer: &mut W) {
    let mut number: u64 = 0;
    let mut at = 0;
    while at < bytes.len() {
        number += 1;
        let line = first_line(&bytes[at..]);
        if let Ok(Some(text)) = reason_of_line(alloc, number, line, names) {
            let _ = writer.write_all(text.as_bytes());
        }
        at += line.len() + 1;
    }
}

/// Tells a person why each line of the text that can't be read can't be, as `run_checked` looks at them. What can't be
/// written, or has no memory, is left out.
pub fn explain_faults<W: Write>(alloc: Global, bytes: &[u8], names: bool, writer: &mut W) {
    if bytes.len() > MOST_BYTES {
        let _ = writer.write_all(
            b"all lines: TooLong: they have more than 16777216 bytes together\n",
        );
        return;
    }
    explain_lines(alloc, bytes, names, writer);
}

/// Tells the faults.
fn tell_faults<W: Write>(writer: &mut W, faults: &[u8]) -> RunEnd
    ensures told { TellsFaults faults.now (W.contents writer.old) (W.contents writer.new) result }
    ensures only { (result ≡ RunEnd.Done false) ⊎ (result ≡ RunEnd.WriteFailed) }
{
    match send(writer, faults) {
        Ok(()) => RunEnd::Done(false),
        Err(_) => RunEnd::WriteFailed,
    }
}

/// Answers each line of the text as `run_lines` does, once all have been looked at. Where one is faulty, the faults of all
/// lines are told and nothing is run. With `names`, each name is taken to be one of a row until its line is run.
pub(crate) fn run_text<B: Books, W: Write>(
    alloc: Global,
    bytes: &[u8],
    writer: &mut W,
    books: &mut B,
    options: RunOptions,
) -> RunEnd
    requires { B.are_kept books.old }
    ensures untouched { are_readable options.lines.names (lines_of bytes.now) ≡ false
        → books.new ≡ books.old }
    ensures faults { are_readable options.lines.names (lines_of bytes.now) ≡ false
        → TellsFaults (faults_out options.lines.names 1 (lines_of bytes.now)) (W.contents writer.old)
        (W.contents writer.new) result }
    ensures done { are_readable options.lines.names (lines_of bytes.now) ≡ true → (all : Bool)
        → result ≡ RunEnd.Done all
        → Finished options (Some bytes.now) (W.contents writer.old)
        (W.contents writer.new) (B.state_in books.old) (B.state_in books.new) all }
    ensures stopped { are_readable options.lines.names (lines_of bytes.now) ≡ true → (why : Stop)
        → result ≡ end_of why
        → Stopped options why (Some bytes.now) (W.contents writer.old)
        (W.contents writer.new) (B.state_in books.old) (B.state_in books.new)
        (λ trees. (B.failure_of books.old ≡ None) × B.may_leave books.new trees) }
    ensures kept { B.are_kept books.new }
    ensures in_order { AreInOrder (B.state_in books.new) }
    ensures open { result ≢ RunEnd.Store
        → (B.failure_of books.old ≡ None) × (B.failure_of books.new ≡ None) }
    ensures closed { result ≡ RunEnd.Store → IsSome (B.failure_of books.new) }
    ensures left { result ≢ RunEnd.Store → (trees : Trees) → B.may_leave books.new trees
        → TablesAre (B.state_in books.new) trees }
    ensures answered { are_readable options.lines.names (lines_of bytes.now) ≡ true
        → AnsweredIsKept options (Some bytes.now) (W.contents writer.old)
        (W.contents writer.new) (B.state_in books.old)
        (λ trees. (B.failure_of books.old ≡ None) × B.may_leave books.new trees) }
{
    match books.shop() {
        Ok(_) => {}
        Err(_) => return RunEnd::Store,
    }
    let told = match faults_of_lines(alloc, bytes, options.lines.names) {
        Ok(told) => told,
        Err(_) => return RunEnd::Memory,
    };
    if !told.fine {
        return tell_faults(writer, told.text.as_bytes());
    }
    let mut reader = bytes;
    run_lines(alloc, &mut reader, writer, books, options)
}

/// Tells that a text is too long, unless the books are closed.
fn tell_too_long<B: Books, W: Write>(alloc: Global, writer: &mut W, books: &B) -> RunEnd
    requires { B.are_kept books.now }
    ensures told { TellsFaults (fault_text (record { line = 0; what = TooLong }))
        (W.contents writer.old) (W.contents writer.new) result }
    ensures open { result ≢ RunEnd.Store → B.failure_of books.now ≡ None }
    ensures closed { result ≡ RunEnd.Store → IsSome (B.failure_of books.now) }
{
    match books.shop() {
        Ok(_) => {}
        Err(_) => return RunEnd::Store,
    }
    let too_long = WireFault {
        line: 0,
        what: What::TooLong,
    };
    match fault_text(alloc, too_long) {
        Ok(told) => tell_faults(writer, told.as_bytes()),
        Err(_) => RunEnd::Memory,
    }
}

/// Answers each line of the text as `run_lines` does, once all have been looked at. Where one is faulty, the faults of all
/// lines are told and nothing is run; so it is of a text of more than 16,777,216 bytes, of which `TooLong` is told, with
/// the line 0. With `names`, each name is taken to be one of a row until its line is run.
#[tactic(auto, using(crate::proofs::Checking::too_long, crate::proofs::Checking::short_enough))]
pub fn run_checked<B: Books, W: Write>(
    alloc: Global,
    bytes: &[u8],
    writer: &mut W,
    books: &mut B,
    options: RunOptions,
) -> RunEnd
    requires { B.are_kept books.old }
    ensures untouched { is_readable options.lines.names bytes.now ≡ false → books.new ≡ books.old }
    ensures faults { is_readable options.lines.names bytes.now ≡ false
        → TellsFaults (text_faults options.lines.names bytes.now) (W.contents writer.old)
        (W.contents writer.new) result }
    ensures done { is_readable options.lines.names bytes.now ≡ true → (all : Bool)
        → result ≡ RunEnd.Done all
        → Finished options (Some bytes.now) (W.contents writer.old)
        (W.contents writer.new) (B.state_in books.old) (B.state_in books.new) all }
    ensures stopped { is_readable options.lines.names bytes.now ≡ true → (why : Stop)
        → result ≡ end_of why
        → Stopped options why (Some bytes.now) (W.contents writer.old)
        (W.contents writer.new) (B.state_in books.old) (B.state_in books.new)
        (λ trees. (B.failure_of books.old ≡ None) × B.may_leave books.new trees) }
    ensures kept { B.are_kept books.new }
    ensures in_order { AreInOrder (B.state_in books.new) }
    ensures open { result ≢ RunEnd.Store
        → (B.failure_of books.old ≡ None) × (B.failure_of books.new ≡ None) }
    ensures closed { result ≡ RunEnd.Store → IsSome (B.failure_of books.new) }
    ensures left { result ≢ RunEnd.Store → (trees : Trees) → B.may_leave books.new trees
        → TablesAre (B.state_in books.new) trees }
    ensures answered { is_readable options.lines.names bytes.now ≡ true
        → AnsweredIsKept options (Some bytes.now) (W.contents writer.old)
        (W.contents writer.new) (B.state_in books.old)
        (λ trees. (B.failure_of books.old ≡ None) × B.may_leave books.new trees) }
{
    if bytes.len() > MOST_BYTES {
        return tell_too_long(alloc, writer, books);
    }
    run_text(alloc, bytes, writer, books, options)
}
