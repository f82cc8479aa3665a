//! A file of levels: of each record a part, and how much of it there is to be at least. It is read as a file of rows is that
//! is read loosely.
ghost use Rattle.std.specs.Prelude.{◌≡◌, [], true, codes, Ok, Some, option_map, IfOk, IsSome, MatchResult};
ghost use Rattle.csv.specs.Reading.{records, strip_bom};
ghost use Rattle.csv.specs.Records.{fields_of};
ghost use Rattle.word_core.specs.declared.field.RowKind.TheVariants as table;
ghost use Rattle.desk_wire.specs.Faults.{shown_field};
ghost use Rattle.desk_wire.specs.Imports.{separators};
ghost use Rattle.desk_wire.specs.Levels.{FailsAs, ReadsAs, ReadsNext, first_columns, layout_by};
ghost use Rattle.desk_wire.specs.Levels.{level_columns, file_levels, level_of, level_row, levels_from, of_field};
ghost use Rattle.desk_wire.specs.Levels.{maybe_level, one_column};
ghost use Rattle.desk_wire.specs.Records.{IsReading, are_texts, config_by, left};
ghost use Rattle.desk_wire.specs.RowWords.{number_of, row_at_word};

use crate::columns::{SEPARATORS, has_other_separator};
use crate::fault::{FileError, Unread, What, WireFault, WrongField};
use crate::import::{MOST_BYTES, no_header, too_long};
use crate::layout::bad_record;
use crate::number::number_in;
use crate::quotes::open_record;
use crate::records::{next_record, records_of};
use crate::row::field;
use crate::row_words::row_at_word;
use crate::sheet::is_closed;
use crate::sheet_columns::column_headed;
use csv::{Reader, StringRecord};
use desk_core::Names;
use part_core::{Id, RowKind};
use std::alloc::{AllocError, Global};

/// What a record says: how much of a part there is to be at least.
#[derive(Clone, Copy, Debug)]
pub struct LevelRow {
    pub part: Id,
    pub amount: u64,
}

/// Where the part and its level stand in a record, and how many fields it may have.
#[derive(Clone, Copy)]
struct LevelColumns {
    part: usize,
    level: usize,
    width: usize,
}

/// The column of a name that just one has.
fn one_column(name: &str, header: &StringRecord) -> Option<usize>
    ensures { result ≡ one_column name.now (fields_of header.now) }
{
    column_headed(name, header)?
}

/// The columns that a file's first record names, whatever else it names.
fn level_columns(header: &StringRecord) -> Option<LevelColumns>
    requires { are_texts (fields_of header.now) ≡ true }
    ensures { result ≡ level_columns (fields_of header.now) }
{
    let part = one_column("part", header)?;
    let level = one_column("level", header)?;
    Some(LevelColumns {
        part,
        level,
        width: header.len(),
    })
}

/// The columns that the first record names, where that separator stands between two fields.
fn columns_by(
    alloc: Global,
    separator: u8,
    bytes: &[u8],
) -> Result<Option<LevelColumns>, AllocError>
    ensures { IfOk result (λ columns. columns
        ≡ first_columns (records (config_by separator) (strip_bom bytes.now))) }
{
    let mut reader = records_of(alloc, separator, bytes);
    let mut first = StringRecord::new(alloc);
    match next_record(&mut reader, &mut first) {
        Ok(true) => Ok(level_columns(&first)),
        Ok(false) => Ok(None),
        Err(Unread::Wrong(_)) => Ok(None),
        Err(Unread::Memory) => Err(AllocError),
    }
}

/// The first separator by which the first record names the columns, with the columns.
fn layout_of(alloc: Global, bytes: &[u8]) -> Result<Option<(u8, LevelColumns)>, AllocError>
    ensures { IfOk result (λ layout. layout ≡ layout_by (strip_bom bytes.now) separators) }
{
    for separator in SEPARATORS {
        if let Some(columns) = columns_by(alloc, separator, bytes)? {
            return Ok(Some((separator, columns)));
        }
    }
    Ok(None)
}

/// The field of that name, in which the text stands.
fn told_field(alloc: Global, name: &str, text: &str) -> Result<WrongField, AllocError>
    ensures { IfOk result (λ field. shown_field field ≡ (name.now, Some text.now)) }
{
    let name = String::from_str(alloc, name)?;
    let text = String::from_str(alloc, text)?;
    Ok(WrongField {
        name,
        text: Some(text),
    })
}

/// The part that a field says.
fn part_at<N: Names>(alloc: Global, names: &N, number: u64, text: &str) -> Result<Id, FileError>
    ensures { ReadsAs (of_field number (codes "part") text.now
        (row_at_word (Some (N.naming_of names.now)) table.Part (codes "part") text.now)) result }
{
    match row_at_word(alloc, Some(names), RowKind::Part, "part", text) {
        Ok(part) => Ok(part),
        Err(Unread::Wrong(what)) => {
            let field = told_field(alloc, "part", text)?;
            Err(FileError::Wrong(WireFault { line: number, what }, Some(field)))
        }
        Err(Unread::Memory) => Err(FileError::Memory),
    }
}

/// The amount that a field says: 1 to 19 digits.
fn amount_at(alloc: Global, number: u64, text: &str) -> Result<u64, FileError>
    ensures { ReadsAs (of_field number (codes "level") text.now (number_of text.now)) result }
{
    match number_in(text) {
        Some(amount) => Ok(amount),
        None => {
            let field = told_field(alloc, "level", text)?;
            Err(FileError::Wrong(
                WireFault {
                    line: number,
                    what: What::WrongType,
                },
                Some(field),
            ))
        }
    }
}

/// A part with its level, as two fields of the record of that number say them.
fn level_row<N: Names>(
    alloc: Global,
    names: &N,
    number: u64,
    part: &str,
    level: &str,
) -> Result<LevelRow, FileError>
    ensures { ReadsAs (level_row (N.naming_of names.now) number part.now level.now) result }
{
    let part = part_at(alloc, names, number, part)?;
    let amount = amount_at(alloc, number, level)?;
    Ok(LevelRow { part, amount })
}

/// A part with its level, as two fields of the record of that number say them: nothing where the second is empty.
#[tactic(auto, using(crate::proofs::LevelReads::fails_so))]
fn maybe_level<N: Names>(
    alloc: Global,
    names: &N,
    number: u64,
    part: &str,
    level: &str,
) -> Result<Option<LevelRow>, FileError>
    ensures { ReadsAs (maybe_level (N.naming_of names.now) number part.now level.now) result }
{
    if level.is_empty() {
        return Ok(None);
    }
    match level_row(alloc, names, number, part, level) {
        Ok(row) => Ok(Some(row)),
        Err(error) => Err(error),
    }
}

/// What the record of texts says that has that number: nothing where it has no level. In one record a quote may be open where
/// the file ends.
fn level_of<N: Names>(
    alloc: Global,
    names: &N,
    columns: LevelColumns,
    unclosed: Option<u64>,
    number: u64,
    fields: &StringRecord,
) -> Result<Option<LevelRow>, FileError>
    requires { are_texts (fields_of fields.now) ≡ true }
    ensures { ReadsAs
        (level_of (N.naming_of names.now) columns unclosed number (fields_of fields.now)) result }
{
    if !is_closed(unclosed, number) || fields.len() > columns.width {
        return Err(bad_record(number));
    }
    let part = field(fields, columns.part);
    let level = field(fields, columns.level);
    maybe_level(alloc, names, number, part, level)
}

/// Reads the next record, of that number, where there is one: as a level, or as one that is left out.
fn next_level<N: Names>(
    alloc: Global,
    names: &N,
    columns: LevelColumns,
    unclosed: Option<u64>,
    reader: &mut Reader<&[u8]>,
    fields: &mut StringRecord,
    number: u64,
) -> Result<Option<Option<LevelRow>>, FileError>
    requires { IsReading reader.old }
    ensures level { ReadsNext (level_of (N.naming_of names.now) columns unclosed) number
        (left reader.old) (left reader.new) result }
    ensures reading { IfOk result (λ level. IsSome level → IsReading reader.new) }
{
    match next_record(reader, fields) {
        Ok(true) => {}
        Ok(false) => return Ok(None),
        Err(Unread::Memory) => return Err(FileError::Memory),
        Err(Unread::Wrong(what)) => {
            return Err(FileError::Wrong(WireFault { line: number, what }, None));
        }
    }
    let level = level_of(alloc, names, columns, unclosed, number, fields)?;
    Ok(Some(level))
}

/// The levels of the records that are left, the first of which is the second of the file.
fn levels_left<N: Names>(
    alloc: Global,
    names: &N,
    columns: LevelColumns,
    unclosed: Option<u64>,
    reader: &mut Reader<&[u8]>,
) -> Result<Vec<LevelRow>, FileError>
    requires { IsReading reader.old }
    ensures { let reading = levels_from (level_of (N.naming_of names.now) columns unclosed) 2 []
        (left reader.old) in
        MatchResult result (λ levels. reading ≡ Ok levels.items) (FailsAs reading) }
{
    let mut levels = Vec::new(alloc);
    let mut fields = StringRecord::new(alloc);
    for number in 2..u64::MAX {
        match next_level(alloc, names, columns, unclosed, reader, &mut fields, number)? {
            Some(Some(level)) => levels.push(level)?,
            Some(None) => {}
            None => return Ok(levels),
        }
    }
    Err(FileError::Memory)
}

/// The levels that a file says, in its order, or its first fault: `TooLong`, with 0, of more than 16,777,216 bytes; `Header`,
/// with 1, where by no separator the first record names the columns `part` and `level` just once; then of each record `Csv`,
/// and the faults of its part, and `WrongType` of its level. A record without a level is left out. A file that says none is
/// `Csv`, with 2, where another separator stands in the first record under the header.
pub fn read_levels<N: Names>(
    alloc: Global,
    names: &N,
    bytes: &[u8],
) -> Result<Vec<LevelRow>, FileError>
    ensures { let reading = file_levels (N.naming_of names.now) bytes.now in
        MatchResult result (λ levels. reading ≡ Ok levels.items) (FailsAs reading) }
{
    if bytes.len() > MOST_BYTES {
        return Err(too_long());
    }
    let Some((separator, columns)) = layout_of(alloc, bytes)? else {
        return Err(no_header());
    };
    let mut reader = records_of(alloc, separator, bytes);
    let mut header = StringRecord::new(alloc);
    // By this record the columns were found.
    match next_record(&mut reader, &mut header) {
        Ok(true) => {}
        Ok(false) => return Err(no_header()),
        Err(Unread::Wrong(_)) => return Err(no_header()),
        Err(Unread::Memory) => return Err(FileError::Memory),
    }
    let unclosed = open_record(separator, bytes);
    if !is_closed(unclosed, 1) {
        return Err(bad_record(1));
    }
    let levels = levels_left(alloc, names, columns, unclosed, &mut reader)?;
    if levels.is_empty() && has_other_separator(alloc, separator, columns.width, bytes)? {
        return Err(bad_record(2));
    }
    Ok(levels)
}
