//! The import of a file. Every row is read before the first is run. The rows are run in their order, in groups of up to a
//! thousand, and what a group changes is kept together. No row is run after a failure. The report is written once all have
//! been run and kept: where a row wasn't answered there is none, and the rows before it stay, but for those of a group in
//! which the database failed.
ghost use Rattle.std.specs.Prelude.{◌≡◌, ◌≢◌, ◌≤◌, ◌+◌, ◌⊎◌, [], Bool, None, IfOk, IfErr, IsSome, MatchResult, Ok};
ghost use Rattle.std.specs.Prelude.{OnErr, OnOk};
ghost use Rattle.std.specs.String.{string_bytes};
ghost use Rattle.sqlite.specs.Tree.{Trees};
ghost use Rattle.desk_core.specs.Books.{AreInOrder};
ghost use Rattle.desk_store.specs.StateTables.{TablesAre};
ghost use Rattle.desk_wire.specs.Imports.{import, import_unchanged, wrong_in_file, wrong_in_unchanged, Tells};
ghost use Rattle.desk_core.specs.declared.end.Stop.{Stop};
ghost use Rattle.desk_core.specs.Ends.{end_of};
ghost use Rattle.desk_app.specs.Reasons.{NotesFile};
ghost use Rattle.desk_app.specs.Runs.{EndsOpen, IsOfBooks, StaysOpen, naming};
ghost use Rattle.desk_app.specs.ImportRuns.{file_rows, file_wrong, import_told, rows_told, shown_import};
ghost use Rattle.desk_app.specs.ImportRuns.{AreLeftByRows, ImportStopped, ImportedWhole, IsLeftByImport};
ghost use Rattle.desk_app.specs.ImportRuns.{RanFront, RanSome};

use crate::books::Books;
use crate::options::ImportOf;
use crate::run::{named_shop, tell_outcome};
use crate::undone::{Place, Why};
use desk_core::{RunEnd, Stop};
use desk_store::send;
use desk_wire::{
    FileError, FileReading, ImportRow, Told, fault_text, import_rows, import_unchanged,
    push_report_line,
};
use std::alloc::Global;
use std::io::Write;

/// So many rows are kept together.
const GROUP: u64 = 1_000;

/// Counts a row more in the group, and ends the group before where it is full.
fn next_in_group<B: Books>(books: &mut B, waiting: u64) -> Result<u64, Stop>
    requires grouping { B.are_grouping books.old }
    requires count { waiting ≤ 1000 }
    ensures count { IfOk result (λ count. count ≤ 1000) }
    ensures one { IfOk result (λ count. (1 ≤ count) × (count ≤ waiting + 1)) }
    ensures store { IfErr result (λ stop. stop ≡ Stop.Store) }
    ensures grouping { B.are_grouping books.new }
    ensures same { B.state_in books.new ≡ B.state_in books.old }
    ensures stays_open { StaysOpen (B.failure_of books.old) (B.failure_of books.new) result }
    ensures was_open { B.failure_of books.new ≡ None → B.failure_of books.old ≡ None }
    ensures left { (trees : Trees) → B.may_leave books.new trees
        → B.may_leave books.old trees ⊎ TablesAre (B.state_in books.new) trees }
    ensures goes_on { IfOk result (λ count. (trees : Trees) → B.may_leave books.new trees
        → ((count ≡ waiting + 1) × B.may_leave books.old trees)
        ⊎ ((count ≡ 1) × TablesAre (B.state_in books.new) trees)) }
{
    if waiting < GROUP {
        return Ok(waiting + 1);
    }
    match books.commit() {
        Ok(()) => Ok(1),
        Err(_) => Err(Stop::Store),
    }
}

/// Runs the rows in their order, and tells their report. The last group isn't ended.
fn add_rows<B: Books>(
    alloc: Global,
    rows: &[ImportRow],
    books: &mut B,
    text: &mut String,
) -> Result<bool, Stop>
    requires kept { B.are_kept books.old }
    requires none { string_bytes text.old ≡ [] }
    ensures ok { IfOk result (λ fine. rows_told (B.state_in books.old) rows.now
        ≡ (B.state_in books.new, string_bytes text.new, fine)) }
    ensures cut { IfErr result (λ stop. IsOfBooks stop
        × RanFront rows.now (B.state_in books.old) (B.state_in books.new)) }
    ensures grouping { B.are_grouping books.new }
    ensures stays_open { StaysOpen (B.failure_of books.old) (B.failure_of books.new) result }
    ensures was_open { B.failure_of books.new ≡ None → B.failure_of books.old ≡ None }
    ensures left { B.failure_of books.old ≡ None → (trees : Trees)
        → B.may_leave books.new trees
        → AreLeftByRows rows.now (B.state_in books.old) (B.state_in books.new) trees }
{
    let mut waiting = 0;
    let mut fine = true;
    for row in rows {
        waiting = next_in_group(books, waiting)?;
        let request = row.request(alloc)?;
        let place = Place::Row(row.number());
        let told = tell_outcome(alloc, books, place, &request)?;
        push_report_line(text, row.number(), told.text.as_str())?;
        fine = fine && told.fine;
    }
    Ok(fine)
}

/// Runs the rows in their order, and tells their report.
pub(crate) fn tell_rows<B: Books>(
    alloc: Global,
    rows: &[ImportRow],
    books: &mut B,
) -> Result<Told, Stop>
    requires { B.are_kept books.old }
    ensures ok { IfOk result (λ told. rows_told (B.state_in books.old) rows.now
        ≡ (B.state_in books.new, string_bytes told.text, told.fine)) }
    ensures cut { IfErr result (λ stop. IsOfBooks stop
        × RanFront rows.now (B.state_in books.old) (B.state_in books.new)) }
    ensures kept { B.are_kept books.new }
    ensures stays_open { StaysOpen (B.failure_of books.old) (B.failure_of books.new) result }
    ensures ends_open { EndsOpen (B.failure_of books.old) (B.failure_of books.new) result }
    ensures left { B.failure_of books.old ≡ None → (trees : Trees)
        → B.may_leave books.new trees
        → AreLeftByRows rows.now (B.state_in books.old) (B.state_in books.new) trees }
{
    let mut text = String::new(alloc);
    let added = add_rows(alloc, rows, books, &mut text);
    match books.commit() {
        Ok(()) => {}
        Err(_) => return Err(Stop::Store),
    }
    let fine = added?;
    Ok(Told { text, fine })
}

/// The rows of a file, or why it isn't read.
type Rows = Result<Vec<ImportRow>, FileError>;

/// The rows of a file that is read strictly or loosely, or why it isn't.
fn plain_rows<B: Books>(
    alloc: Global,
    bytes: &[u8],
    loose: bool,
    asked: &ImportOf<'_>,
    books: &B,
) -> Result<Rows, Stop>
    requires { B.are_grouping books.now }
    ensures rows { let it = shown_import asked.now in
        let names = naming it.names (B.state_in books.now) in
        let file = import loose names it.kind it.document it.day bytes.now in
        let wrong = wrong_in_file loose names it.kind it.document it.day bytes.now in
        IfOk result (λ read. MatchResult read (λ rows. file ≡ Ok rows.items) (Tells file wrong)) }
    ensures store { IfErr result (λ stop. stop ≡ Stop.Store) }
    ensures closed { OnErr result (IsSome (B.failure_of books.now)) }
{
    let named = named_shop(books, asked.names)?;
    Ok(import_rows(
        alloc,
        loose,
        named,
        bytes,
        asked.kind,
        asked.document,
        asked.day,
    ))
}

/// The rows of a file that is read unless the books have changed, or why it isn't.
fn unchanged_rows<B: Books>(
    alloc: Global,
    bytes: &[u8],
    asked: &ImportOf<'_>,
    books: &B,
) -> Result<Rows, Stop>
    requires { B.are_grouping books.now }
    ensures rows { let it = shown_import asked.now in
        let s = B.state_in books.now in
        let file = import_unchanged s (naming it.names s) it.kind it.document it.day bytes.now in
        let wrong = wrong_in_unchanged s (naming it.names s) it.kind it.document it.day bytes.now in
        IfOk result (λ read. MatchResult read (λ rows. file ≡ Ok rows.items) (Tells file wrong)) }
    ensures store { IfErr result (λ stop. stop ≡ Stop.Store) }
    ensures closed { OnErr result (IsSome (B.failure_of books.now)) }
{
    let named = named_shop(books, asked.names)?;
    let Ok(shop) = books.shop() else {
        return Err(Stop::Store);
    };
    Ok(import_unchanged(
        alloc,
        shop,
        named,
        bytes,
        asked.kind,
        asked.document,
        asked.day,
    ))
}

/// The rows of a file, or why it isn't read.
pub(crate) fn rows_in<B: Books>(
    alloc: Global,
    bytes: &[u8],
    asked: &ImportOf<'_>,
    books: &B,
) -> Result<Rows, Stop>
    requires { B.are_grouping books.now }
    ensures rows { let file = file_rows (shown_import asked.now) (B.state_in books.now) bytes.now in
        let wrong = file_wrong (shown_import asked.now) (B.state_in books.now) bytes.now in
        IfOk result (λ read. MatchResult read (λ rows. file ≡ Ok rows.items) (Tells file wrong)) }
    ensures store { IfErr result (λ stop. stop ≡ Stop.Store) }
    ensures closed { OnErr result (IsSome (B.failure_of books.now)) }
{
    match asked.reading {
        FileReading::Strict => plain_rows(alloc, bytes, false, asked, books),
        FileReading::Loose => plain_rows(alloc, bytes, true, asked, books),
        FileReading::Unchanged => unchanged_rows(alloc, bytes, asked, books),
    }
}

/// Runs the rows of a file in their order, and tells their report. Of a faulty file it runs none, and
/// tells the fault.
fn tell_import<B: Books>(
    alloc: Global,
    bytes: &[u8],
    asked: &ImportOf<'_>,
    books: &mut B,
) -> Result<Told, Stop>
    requires { B.are_kept books.old }
    ensures ok { IfOk result (λ told. import_told (B.state_in books.old)
        (file_rows (shown_import asked.now) (B.state_in books.old) bytes.now)
        ≡ (B.state_in books.new, string_bytes told.text, told.fine)) }
    ensures cut { IfErr result (λ stop. IsOfBooks stop
        × RanSome (file_rows (shown_import asked.now) (B.state_in books.old) bytes.now)
        (B.state_in books.old) (B.state_in books.new)) }
    ensures kept { B.are_kept books.new }
    ensures stays_open { StaysOpen (B.failure_of books.old) (B.failure_of books.new) result }
    ensures left { B.failure_of books.old ≡ None → (trees : Trees)
        → B.may_leave books.new trees
        → IsLeftByImport (file_rows (shown_import asked.now) (B.state_in books.old) bytes.now)
        (B.state_in books.old) (B.state_in books.new) trees }
    ensures reasons { OnOk result (NotesFile
        (file_rows (shown_import asked.now) (B.state_in books.old) bytes.now)
        (file_wrong (shown_import asked.now) (B.state_in books.old) bytes.now)
        (B.reasons_in books.old) (B.reasons_in books.new)) }
{
    match rows_in(alloc, bytes, asked, books)? {
        Ok(rows) => tell_rows(alloc, &rows, books),
        Err(FileError::Wrong(fault, field)) => {
            let _ = books.explain(&Why::FaultyFile {
                kind: asked.kind,
                fault: &fault,
                field: &field,
            });
            Ok(Told {
                text: fault_text(alloc, fault)?,
                fine: false,
            })
        }
        Err(FileError::Memory) => Err(Stop::Memory),
    }
}

/// Runs the rows of a file, and then writes what is told of them.
fn import_all<B: Books, W: Write>(
    alloc: Global,
    bytes: &[u8],
    asked: &ImportOf<'_>,
    writer: &mut W,
    books: &mut B,
) -> Result<bool, Stop>
    requires { B.are_kept books.old }
    ensures done { IfOk result (λ all. ImportedWhole
        (file_rows (shown_import asked.now) (B.state_in books.old) bytes.now)
        (W.contents writer.old) (W.contents writer.new)
        (B.state_in books.old) (B.state_in books.new) all) }
    ensures stopped { IfErr result (λ stop. ImportStopped stop
        (file_rows (shown_import asked.now) (B.state_in books.old) bytes.now)
        (W.contents writer.old) (W.contents writer.new)
        (B.state_in books.old) (B.state_in books.new)) }
    ensures kept { B.are_kept books.new }
    ensures stays_open { StaysOpen (B.failure_of books.old) (B.failure_of books.new) result }
    ensures left { B.failure_of books.old ≡ None → (trees : Trees)
        → B.may_leave books.new trees
        → IsLeftByImport (file_rows (shown_import asked.now) (B.state_in books.old) bytes.now)
        (B.state_in books.old) (B.state_in books.new) trees }
{
    let told = tell_import(alloc, bytes, asked, books)?;
    send(writer, told.text.as_bytes())?;
    Ok(told.fine)
}

/// Runs the rows of a file of comma-separated values, and then writes their report; of a faulty file
/// it runs none, and writes the fault's line. The end is `Done(true)` where nothing was refused or faulty. With `names` a
/// field may say what a row is called in the place of its number: names are looked up before the first row is run, so
/// none calls a row that the file makes. Where the file is read loosely columns are taken by their names, a comma, a
/// semicolon or a tab stands between fields, and a record without a quantity is left out; where it is read unless the books
/// have changed, so too, and the file is `Changed` where they have another number than a record says they had.
pub fn import_file<B: Books, W: Write>(
    alloc: Global,
    bytes: &[u8],
    asked: &ImportOf<'_>,
    writer: &mut W,
    books: &mut B,
) -> RunEnd
    requires { B.are_kept books.old }
    ensures done { (all : Bool) → result ≡ RunEnd.Done all → ImportedWhole
        (file_rows (shown_import asked.now) (B.state_in books.old) bytes.now)
        (W.contents writer.old) (W.contents writer.new)
        (B.state_in books.old) (B.state_in books.new) all }
    ensures stopped { (stop : Stop) → result ≡ end_of stop → ImportStopped stop
        (file_rows (shown_import asked.now) (B.state_in books.old) bytes.now)
        (W.contents writer.old) (W.contents writer.new)
        (B.state_in books.old) (B.state_in books.new) }
    ensures never { result ≢ RunEnd.ReadFailed }
    ensures kept { B.are_kept books.new }
    ensures in_order { AreInOrder (B.state_in books.new) }
    ensures stays_open { B.failure_of books.old ≡ None → result ≢ RunEnd.Store
        → B.failure_of books.new ≡ None }
    ensures closed { result ≡ RunEnd.Store → IsSome (B.failure_of books.new) }
    ensures left { B.failure_of books.old ≡ None → result ≢ RunEnd.Store → (trees : Trees)
        → B.may_leave books.new trees → TablesAre (B.state_in books.new) trees }
    ensures left_by_groups { B.failure_of books.old ≡ None → (trees : Trees)
        → B.may_leave books.new trees
        → IsLeftByImport (file_rows (shown_import asked.now) (B.state_in books.old) bytes.now)
        (B.state_in books.old) (B.state_in books.new) trees }
{
    match import_all(alloc, bytes, asked, writer, books) {
        Ok(all) => RunEnd::Done(all),
        Err(stop) => stop.end(),
    }
}
