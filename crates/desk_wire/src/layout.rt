//! A record of a file, as a row or as one that is left out.
ghost use Rattle.std.specs.Prelude.{◌≡◌, true, Err, Ok, Some, None, Option, Result, option_copied, option_map};
ghost use Rattle.std.specs.Prelude.{if◌then◌else◌};
ghost use Rattle.desk_wire.specs.NumberedRequests.{NumberedRequest};
ghost use Rattle.desk_wire.specs.declared.fault.What.{What};
ghost use Rattle.csv.specs.Records.{fields_of};
ghost use Rattle.desk_wire.specs.declared.fault.FileError.TheVariants.{Wrong};
ghost use Rattle.desk_wire.specs.declared.fault.What.TheVariants.{Changed, Csv};
ghost use Rattle.desk_wire.specs.Imports.{loosely, strictly, unless_changed};
ghost use Rattle.desk_wire.specs.Imports.{wrong_in_row, wrong_loosely, wrong_strictly};
ghost use Rattle.desk_wire.specs.Layouts.{IsReadAs, columns_in, reads_by, wrong_in};
ghost use Rattle.desk_wire.specs.Records.{are_texts};

use crate::columns::HeaderColumns;
use crate::document::Document;
use crate::fault::{FileError, Unread, What, WireFault};
use crate::kind::ImportKind;
use crate::row::{ImportRow, field, header, quantity_at, row};
use crate::row_faults::wrong_field;
use csv::StringRecord;
use desk_core::Names;
use part_core::Day;
use std::alloc::Global;

/// How the records of a file are read.
#[derive(Drop)]
pub enum Layout<'a> {
    /// Each record is a row, with its fields in their order.
    Strict,
    /// Each record with a quantity is a row, by the columns that the header names.
    Loose(HeaderColumns<'a>),
}

/// The row that these fields are. A fault tells the first field that can't be read.
fn told_row<N: Names>(
    alloc: Global,
    names: Option<&N>,
    number: u64,
    kind: ImportKind,
    document: &Document,
    day: Day,
    fields: &StringRecord,
) -> Result<Option<ImportRow>, FileError>
    requires { are_texts (fields_of fields.now) ≡ true }
    ensures { let naming = option_map (λ n. N.naming_of n.now) names.entry in
        IsReadAs (strictly naming kind document.now day (fields_of fields.now))
        (wrong_in_row naming kind (fields_of fields.now)) number result }
{
    match row(alloc, names, kind, document, day, fields) {
        Ok(row) => Ok(Some(row)),
        Err(Unread::Memory) => Err(FileError::Memory),
        Err(Unread::Wrong(what)) => {
            let field = wrong_field(alloc, names, kind, fields)?;
            Err(FileError::Wrong(WireFault { line: number, what }, field))
        }
    }
}

/// The record is `Csv`, and no field of it.
pub fn bad_record(number: u64) -> FileError
    ensures { result ≡ Wrong (record { line = number; what = Csv }) None }
{
    FileError::Wrong(
        WireFault {
            line: number,
            what: What::Csv,
        },
        None,
    )
}

/// The row that a record is.
fn strict_row<N: Names>(
    alloc: Global,
    names: Option<&N>,
    number: u64,
    kind: ImportKind,
    document: &Document,
    day: Day,
    fields: &StringRecord,
) -> Result<Option<ImportRow>, FileError>
    requires { are_texts (fields_of fields.now) ≡ true }
    ensures { let naming = option_map (λ n. N.naming_of n.now) names.entry in
        IsReadAs (strictly naming kind document.now day (fields_of fields.now))
        (wrong_strictly naming kind (Some (fields_of fields.now))) number result }
{
    if fields.len() != header(kind).len() {
        return Err(bad_record(number));
    }
    told_row(alloc, names, number, kind, document, day, fields)
}

/// Whether the books that the columns ask have what the record of a row says they had, where it is one.
fn is_unchanged(columns: &HeaderColumns<'_>, fields: &StringRecord, row: Option<&ImportRow>) -> bool
    ensures { unless_changed (columns_in columns.now) (fields_of fields.now)
        (Ok (option_copied row.entry))
        ≡ (if result then Ok (option_copied row.entry) else Err Changed) }
{
    match row {
        Some(row) => columns.is_unchanged(fields, row),
        None => true,
    }
}

/// What was read of a record whose row has these fields, unless the books that the columns ask have another number than the
/// record says they had: then `Changed`.
fn unless_changed<N: Names>(
    alloc: Global,
    names: Option<&N>,
    columns: &HeaderColumns<'_>,
    number: u64,
    kind: ImportKind,
    fields: &StringRecord,
    arranged: &StringRecord,
    read: Result<Option<ImportRow>, FileError>,
) -> Result<Option<ImportRow>, FileError>
    ensures { let naming = option_map (λ n. N.naming_of n.now) names.entry in
        let wrong = wrong_in_row naming kind (fields_of arranged.now) in
        (reading : Result (Option NumberedRequest) What) → IsReadAs reading wrong number read
        → IsReadAs (unless_changed (columns_in columns.now) (fields_of fields.now) reading) wrong
        number result }
{
    match read {
        Err(error) => Err(error),
        Ok(row) => {
            if is_unchanged(columns, fields, row.as_ref()) {
                return Ok(row);
            }
            let field = wrong_field(alloc, names, kind, arranged)?;
            Err(FileError::Wrong(
                WireFault {
                    line: number,
                    what: What::Changed,
                },
                field,
            ))
        }
    }
}

/// The row that a record is by these columns: none where it has no quantity. `Changed` where the columns ask books that have
/// another number than the record says they had.
fn loose_row<N: Names>(
    alloc: Global,
    names: Option<&N>,
    columns: &HeaderColumns<'_>,
    number: u64,
    kind: ImportKind,
    document: &Document,
    day: Day,
    fields: &StringRecord,
) -> Result<Option<ImportRow>, FileError>
    requires { are_texts (fields_of fields.now) ≡ true }
    ensures { let naming = option_map (λ n. N.naming_of n.now) names.entry in
        let header = columns_in columns.now in
        IsReadAs (loosely naming kind document.now day header (fields_of fields.now))
        (wrong_loosely naming kind header (Some (fields_of fields.now))) number result }
{
    if fields.len() > columns.width() {
        return Err(bad_record(number));
    }
    let arranged = columns.arranged(alloc, fields)?;
    if field(&arranged, quantity_at(kind)).is_empty() {
        return Ok(None);
    }
    let read = told_row(alloc, names, number, kind, document, day, &arranged);
    unless_changed(alloc, names, columns, number, kind, fields, &arranged, read)
}

/// The row that a record of texts is, if it is one, or its fault, with the number of the record.
pub fn row_by<N: Names>(
    alloc: Global,
    names: Option<&N>,
    layout: &Layout<'_>,
    number: u64,
    kind: ImportKind,
    document: &Document,
    day: Day,
    fields: &StringRecord,
) -> Result<Option<ImportRow>, FileError>
    requires { are_texts (fields_of fields.now) ≡ true }
    ensures { let naming = option_map (λ n. N.naming_of n.now) names.entry in
        IsReadAs (reads_by naming kind document.now day layout.now (fields_of fields.now))
        (wrong_in naming kind layout.now (Some (fields_of fields.now))) number result }
{
    match layout {
        Layout::Strict => strict_row(alloc, names, number, kind, document, day, fields),
        Layout::Loose(columns) => loose_row(
            alloc, names, columns, number, kind, document, day, fields,
        ),
    }
}
