//! A file of comma-separated values, as the rows that it is.
ghost use Rattle.std.specs.Prelude.{◌≡◌, ◌+◌, ◌∷◌, IfOk, IsSome, MatchResult, None, Some, Ok, Err};
ghost use Rattle.std.specs.Prelude.{false, true, is_some, option_map};
ghost use Rattle.csv.specs.Reading.{records, strip_bom};
ghost use Rattle.desk_wire.specs.declared.fault.FileError.TheVariants.{Wrong};
ghost use Rattle.desk_wire.specs.declared.fault.What.TheVariants.{Header, TooLong};
ghost use Rattle.desk_wire.specs.declared.kind.ImportKind.TheVariants as kinds;
ghost use Rattle.desk_wire.specs.Records.{Fields, IsReading, config_by, left};
ghost use Rattle.desk_wire.specs.Quotes.{closed_of};
ghost use Rattle.desk_wire.specs.Layouts.{EndsAt, IsLast, ReadsRow, columns_in, reads_by, wrong_in};
ghost use Rattle.desk_wire.specs.Imports.{Imports, LooseReadsStrict, NamesChangeFilesLittle, Tells};
ghost use Rattle.desk_wire.specs.Imports.{asking, first_wrong, import, import_unchanged, layout_by, rows_by};
ghost use Rattle.desk_wire.specs.Imports.{rows_of_text, rows_under, separators, wrong_by, wrong_in_text};
ghost use Rattle.desk_wire.specs.Imports.{wrong_in_unchanged};
ghost use Rattle.desk_core.specs.ShopView.{state_of};

use crate::columns::{HeaderColumns, has_other_separator, layout_of};
use crate::document::Document;
use crate::fault::{FileError, Unread, What, WireFault};
use crate::kind::ImportKind;
use crate::layout::{Layout, bad_record, row_by};
use crate::quotes::open_record;
use crate::records::{next_record, records_of};
use crate::row::{ImportRow, is_header};
use csv::{Reader, StringRecord};
use desk_core::{Names, Shop};
use part_core::Day;
use std::alloc::Global;

/// How many bytes a file may have.
pub const MOST_BYTES: usize = 16_777_216;

/// The file has too many bytes.
pub fn too_long() -> FileError
    ensures { result ≡ Wrong (record { line = 0; what = TooLong }) None }
{
    FileError::Wrong(
        WireFault {
            line: 0,
            what: What::TooLong,
        },
        None,
    )
}

/// The file has no header.
pub fn no_header() -> FileError
    ensures { result ≡ Wrong (record { line = 1; what = Header }) None }
{
    FileError::Wrong(
        WireFault {
            line: 1,
            what: What::Header,
        },
        None,
    )
}

/// Reads the next record, of that number, where there is one: as a row, or as one that is left out.
fn next_row<N: Names>(
    alloc: Global,
    names: Option<&N>,
    layout: &Layout<'_>,
    reader: &mut Reader<&[u8]>,
    fields: &mut StringRecord,
    number: u64,
    kind: ImportKind,
    document: &Document,
    day: Day,
) -> Result<Option<Option<ImportRow>>, FileError>
    requires { IsReading reader.old }
    ensures row { let naming = option_map (λ n. N.naming_of n.now) names.entry in
        ReadsRow (reads_by naming kind document.now day layout.now)
        (wrong_in naming kind layout.now) number (left reader.old) (left reader.new) result }
    ensures reading { IfOk result (λ row. IsSome row → IsReading reader.new) }
{
    match next_record(reader, fields) {
        Ok(true) => {}
        Ok(false) => return Ok(None),
        Err(Unread::Memory) => return Err(FileError::Memory),
        Err(Unread::Wrong(what)) => {
            return Err(FileError::Wrong(WireFault { line: number, what }, None));
        }
    }
    let row = row_by(alloc, names, layout, number, kind, document, day, fields)?;
    Ok(Some(row))
}

/// Reads the next record, of that number, where there is one without an open quote: as a row, or as one that is left out.
/// In the last record of the file a quote is open, where `unclosed` is its number.
fn next_closed_row<N: Names>(
    alloc: Global,
    names: Option<&N>,
    layout: &Layout<'_>,
    reader: &mut Reader<&[u8]>,
    fields: &mut StringRecord,
    unclosed: Option<u64>,
    number: u64,
    kind: ImportKind,
    document: &Document,
    day: Day,
) -> Result<Option<Option<ImportRow>>, FileError>
    requires reading { IsReading reader.old }
    requires last { IsLast unclosed number (left reader.old) }
    ensures row { let naming = option_map (λ n. N.naming_of n.now) names.entry in
        ReadsRow (reads_by naming kind document.now day layout.now)
        (wrong_in naming kind layout.now) number (closed_of (is_some unclosed) (left reader.old))
        (closed_of (is_some unclosed) (left reader.new)) result }
    ensures reading { IfOk result (λ row. IsSome row → IsReading reader.new) }
    ensures last { IfOk result (λ row. IsSome row
        → IsLast unclosed (number + 1) (left reader.new)) }
    ensures end { IfOk result (λ row. row ≡ None → EndsAt unclosed number) }
{
    if unclosed == Some(number) {
        return Ok(None);
    }
    next_row(
        alloc, names, layout, reader, fields, number, kind, document, day,
    )
}

/// Reads the records that are left, the first of which is the second of the file, as rows. In that of the number `unclosed`
/// a quote is open.
fn rows<N: Names>(
    alloc: Global,
    names: Option<&N>,
    layout: &Layout<'_>,
    reader: &mut Reader<&[u8]>,
    unclosed: Option<u64>,
    kind: ImportKind,
    document: &Document,
    day: Day,
) -> Result<Vec<ImportRow>, FileError>
    requires reading { IsReading reader.old }
    requires last { IsLast unclosed 2 (left reader.old) }
    ensures { let naming = option_map (λ n. N.naming_of n.now) names.entry in
        let reads = reads_by naming kind document.now day layout.now in
        let reading = rows_under (is_some unclosed) reads (left reader.old) in
        MatchResult result (λ rows. reading ≡ Ok rows.items)
        (Tells reading (wrong_in naming kind layout.now
        (first_wrong reads (closed_of (is_some unclosed) (left reader.old))))) }
{
    let mut rows = Vec::new(alloc);
    let mut fields = StringRecord::new(alloc);
    for number in 2..u64::MAX {
        match next_closed_row(
            alloc,
            names,
            layout,
            reader,
            &mut fields,
            unclosed,
            number,
            kind,
            document,
            day,
        )? {
            Some(Some(row)) => rows.push(row)?,
            Some(None) => {}
            None if unclosed.is_some() => return Err(bad_record(number)),
            None => return Ok(rows),
        }
    }
    Err(FileError::Memory)
}

/// The rows of a file whose first record is the header.
fn strict_rows<N: Names>(
    alloc: Global,
    names: Option<&N>,
    bytes: &[u8],
    kind: ImportKind,
    document: &Document,
    day: Day,
) -> Result<Vec<ImportRow>, FileError>
    ensures { let naming = option_map (λ n. N.naming_of n.now) names.entry in
        let reading = rows_of_text false naming kind document.now day (strip_bom bytes.now) in
        MatchResult result (λ rows. reading ≡ Ok rows.items)
        (Tells reading (wrong_in_text false naming kind document.now day (strip_bom bytes.now))) }
{
    let mut reader = records_of(alloc, b',', bytes);
    let mut header = StringRecord::new(alloc);
    match next_record(&mut reader, &mut header) {
        Ok(true) => {}
        Ok(false) => return Err(no_header()),
        Err(Unread::Wrong(_)) => return Err(no_header()),
        Err(Unread::Memory) => return Err(FileError::Memory),
    }
    if !is_header(kind, &header) {
        return Err(no_header());
    }
    let layout = Layout::Strict;
    rows(
        alloc,
        names,
        &layout,
        &mut reader,
        None,
        kind,
        document,
        day,
    )
}

/// The rows of a file by the columns of its header, which was read.
fn rows_by<N: Names>(
    alloc: Global,
    names: Option<&N>,
    bytes: &[u8],
    separator: u8,
    columns: HeaderColumns<'_>,
    reader: &mut Reader<&[u8]>,
    kind: ImportKind,
    document: &Document,
    day: Day,
) -> Result<Vec<ImportRow>, FileError>
    requires reading { IsReading reader.old }
    requires header { (header : Fields)
        × (records (config_by separator) (strip_bom bytes.now) ≡ header ∷ left reader.old) }
    ensures { let naming = option_map (λ n. N.naming_of n.now) names.entry in
        let text = strip_bom bytes.now in
        let layout = Some (separator, columns_in columns.entry) in
        let reading = rows_by naming kind document.now day text layout in
        MatchResult result (λ rows. reading ≡ Ok rows.items)
        (Tells reading (wrong_by naming kind document.now day text layout)) }
{
    let unclosed = open_record(separator, bytes);
    if unclosed == Some(1) {
        return Err(bad_record(1));
    }
    let width = columns.width();
    let layout = Layout::Loose(columns);
    let rows = rows(alloc, names, &layout, reader, unclosed, kind, document, day)?;
    if rows.is_empty() && has_other_separator(alloc, separator, width, bytes)? {
        return Err(bad_record(2));
    }
    Ok(rows)
}

/// The rows of a file by the columns that its header names. Where books are asked, they are to have what the file says that
/// they had.
fn loose_rows<N: Names>(
    alloc: Global,
    books: Option<&Shop>,
    names: Option<&N>,
    bytes: &[u8],
    kind: ImportKind,
    document: &Document,
    day: Day,
) -> Result<Vec<ImportRow>, FileError>
    ensures { let naming = option_map (λ n. N.naming_of n.now) names.entry in
        let text = strip_bom bytes.now in
        let layout = asking (option_map (λ shop. state_of shop.now) books.entry)
        (layout_by kind text separators) in
        let reading = rows_by naming kind document.now day text layout in
        MatchResult result (λ rows. reading ≡ Ok rows.items)
        (Tells reading (wrong_by naming kind document.now day text layout)) }
{
    let Some((separator, columns)) = layout_of(alloc, kind, bytes)? else {
        return Err(no_header());
    };
    let columns = columns.asking(books);
    let mut reader = records_of(alloc, separator, bytes);
    let mut header = StringRecord::new(alloc);
    // By this record the columns were found.
    match next_record(&mut reader, &mut header) {
        Ok(true) => {}
        Ok(false) => return Err(no_header()),
        Err(Unread::Wrong(_)) => return Err(no_header()),
        Err(Unread::Memory) => return Err(FileError::Memory),
    }
    rows_by(
        alloc,
        names,
        bytes,
        separator,
        columns,
        &mut reader,
        kind,
        document,
        day,
    )
}

/// The rows of a file, each a request of the day with a key of its own, or the file's first fault
/// with the number of its record, where the header is 1: `TooLong`, with 0, of more than 16,777,216
/// bytes; `Header` where the first record isn't the header; then `Csv`, `WrongType`, `BadText` and
/// `BadSerials` of the rows, and those of a row's name. Beside a fault stands the field that can't
/// be read, where it is a field. Where the books are handed in, a field that is the number of a row
/// may have its name: the books as they are before the first row, so no name calls a row that the
/// file makes.
///
/// A file that is read loosely has a comma, a semicolon or a tab between two fields, and its
/// columns in any order, beside others. `batch` and `serials` may have no column. A record without
/// a quantity is left out, one may end before its last fields, and `Csv` is one of more fields than
/// the header, and the last one where a quote is open at the end of the file. `Header` is the fault
/// where no separator makes the first record name each column just once. A file without a row is
/// `Csv`, with 2, where another separator stands in the first record under the header.
pub fn import_rows<N: Names>(
    alloc: Global,
    loose: bool,
    names: Option<&N>,
    bytes: &[u8],
    kind: ImportKind,
    document: &Document,
    day: Day,
) -> Result<Vec<ImportRow>, FileError>
    ensures { let naming = option_map (λ n. N.naming_of n.now) names.entry in
        MatchResult result
        (λ rows. import loose naming kind document.now day bytes.now ≡ Ok rows.items)
        (λ error. Imports loose naming kind document.now day bytes.now (Err error)) }
{
    if bytes.len() > MOST_BYTES {
        return Err(too_long());
    }
    if loose {
        loose_rows(alloc, None, names, bytes, kind, document, day)
    } else {
        strict_rows(alloc, names, bytes, kind, document, day)
    }
}

/// The rows of a file that is read loosely, or its first fault: those of `import_rows`, and `Changed` of a record that says
/// what the books had, in a column `expected` of counts and `outstanding` of receipts, where they have another number now, or
/// it says no number. It isn't asked of a record that says nothing there, of one that was done before under its key, nor
/// where the item or the line isn't there.
pub fn import_unchanged<N: Names>(
    alloc: Global,
    books: &Shop,
    names: Option<&N>,
    bytes: &[u8],
    kind: ImportKind,
    document: &Document,
    day: Day,
) -> Result<Vec<ImportRow>, FileError>
    ensures { let naming = option_map (λ n. N.naming_of n.now) names.entry in
        let s = state_of books.now in
        let reading = import_unchanged s naming kind document.now day bytes.now in
        MatchResult result (λ rows. reading ≡ Ok rows.items)
        (Tells reading (wrong_in_unchanged s naming kind document.now day bytes.now)) }
{
    if bytes.len() > MOST_BYTES {
        return Err(too_long());
    }
    loose_rows(alloc, Some(books), names, bytes, kind, document, day)
}

/// The receipts of a document: `receive` with the keys `receipts/DOCUMENT/NUMBER`.
pub fn import_receipts<N: Names>(
    alloc: Global,
    names: Option<&N>,
    bytes: &[u8],
    document: &Document,
    day: Day,
) -> Result<Vec<ImportRow>, FileError>
    ensures { let naming = option_map (λ n. N.naming_of n.now) names.entry in
        MatchResult result
        (λ rows. import false naming kinds.Receipts document.now day bytes.now ≡ Ok rows.items)
        (λ error. Imports false naming kinds.Receipts document.now day bytes.now (Err error)) }
{
    import_rows(
        alloc,
        false,
        names,
        bytes,
        ImportKind::Receipts,
        document,
        day,
    )
}

/// The counts of a document: `count` with the keys `counts/DOCUMENT/NUMBER`.
pub fn import_counts<N: Names>(
    alloc: Global,
    names: Option<&N>,
    bytes: &[u8],
    document: &Document,
    day: Day,
) -> Result<Vec<ImportRow>, FileError>
    ensures { let naming = option_map (λ n. N.naming_of n.now) names.entry in
        MatchResult result
        (λ rows. import false naming kinds.Counts document.now day bytes.now ≡ Ok rows.items)
        (λ error. Imports false naming kinds.Counts document.now day bytes.now (Err error)) }
{
    import_rows(
        alloc,
        false,
        names,
        bytes,
        ImportKind::Counts,
        document,
        day,
    )
}

/// The law that with names a file is read as it is without, but for one with a value of a wrong type.
pub fn names_change_files_little()
    ensures { NamesChangeFilesLittle }
{}

/// The law that a file which is read strictly is read so loosely.
pub fn loose_reads_strict()
    ensures { LooseReadsStrict }
{}
