//! A file of comma-separated values of any command, as a text of lines. Record n of the file is line n of the text.
ghost use Rattle.std.specs.Prelude.{◌≡◌, [], ◌∷◌, ◌++◌, IfOk, IsSome, OnOk, MatchResult, Some, Ok, true};
ghost use Rattle.std.specs.String.{string_bytes};
ghost use Rattle.csv.specs.Records.{fields_of};
ghost use Rattle.serde_json.specs.Data.{object};
ghost use Rattle.serde_json.specs.View.{members_view};
ghost use Rattle.serde_json.specs.Written.{compact_text};
ghost use Rattle.word_core.specs.Day.{day_text};
ghost use Rattle.desk_wire.specs.declared.fault.ReadError.TheVariants.{Wrong};
ghost use Rattle.desk_wire.specs.declared.fault.What.TheVariants.{Csv, Header, TooLong};
ghost use Rattle.desk_wire.specs.Records.{IsReading, are_texts, left};
ghost use Rattle.desk_wire.specs.Sheets.{key_of, line_data, line_of, or_else, sheet_text, text_from};
ghost use Rattle.desk_wire.specs.Sheets.{cell, is_closed, number_told, text_below, with_cells};
ghost use Rattle.desk_wire.specs.SheetLaws.{KeysTellRecords, LinesAskUnderKeys, RecordsHaveKeys};
ghost use Rattle.desk_wire.specs.SheetLaws.{SheetsAreLines, SheetsAskUnderKeys};
ghost use Rattle.desk_wire.specs.SheetViews.{ReadsLine, shown_columns, shown_fields, shown_sheet};
ghost use Rattle.desk_wire.specs.Steps.{Fails, FailsIn};

use crate::document::Document;
use crate::fault::{ReadError, Unread, What, WireFault};
use crate::import::MOST_BYTES;
use crate::quotes::open_record;
use crate::records::{next_record, records_of};
use crate::sheet_columns::{FieldPlace, HeaderPlaces, Said, cell, layout_of};
use crate::sheet_values::given_value;
use csv::{Reader, StringRecord};
use part_core::{Day, Form};
use serde_json::{Map, Value, put};
use std::alloc::{AllocError, Global};

/// What is told beside a file.
#[derive(Drop)]
pub struct Sheet<'a> {
    /// Its records are of the command of this form.
    pub form: &'static Form,
    /// What is said of members of its lines, beside their names.
    pub said: Vec<(&'a str, Said<'a>)>,
    /// The document that it is.
    pub document: Document,
    /// The day of each record that tells none.
    pub day: Day,
}

/// A text, or another where it is empty.
fn or_else(alloc: Global, text: &str, other: &str) -> Result<String, AllocError>
    ensures { IfOk result (λ chosen. string_bytes chosen ≡ or_else text.now other.now) }
{
    if text.is_empty() {
        String::from_str(alloc, other)
    } else {
        String::from_str(alloc, text)
    }
}

/// What numbers the record at that place in its key.
fn number_told(
    alloc: Global,
    columns: &HeaderPlaces<'_>,
    place: u64,
    fields: &StringRecord,
) -> Result<String, AllocError>
    ensures { IfOk result (λ number. string_bytes number
        ≡ number_told (shown_columns columns.now) place (fields_of fields.now)) }
{
    let counted = format!(in alloc; "@{place}")?;
    or_else(alloc, cell(columns.number, fields), counted.as_str())
}

/// The key of the record at that place.
fn key(
    alloc: Global,
    verb: &str,
    document: &Document,
    columns: &HeaderPlaces<'_>,
    place: u64,
    fields: &StringRecord,
) -> Result<String, AllocError>
    ensures { IfOk result (λ key. string_bytes key
        ≡ key_of verb.now document.now (shown_columns columns.now) place (fields_of fields.now)) }
{
    let number = number_told(alloc, columns, place, fields)?;
    let mut text = String::from_str(alloc, verb)?;
    text.push_str("/")?;
    text.push_str(document.as_str())?;
    text.push_str("/")?;
    text.push_str(number.as_str())?;
    or_else(alloc, cell(columns.key, fields), text.as_str())
}

/// Puts the fields of a record among the members.
fn put_cells(
    alloc: Global,
    members: &mut Map<String, Value>,
    places: &[FieldPlace<'_>],
    fields: &StringRecord,
) -> Result<(), AllocError>
    ensures { OnOk result (members_view members.new.entries
        ≡ with_cells (shown_fields places.now) (fields_of fields.now)
        (members_view members.old.entries)) }
{
    for f in places {
        if let Some(value) = given_value(alloc, f.kind, cell(f.place, fields))? {
            put(members, alloc, f.name, value)?;
        }
    }
    Ok(())
}

/// The request that the record at that place is, as JSON.
#[tactic(auto, unfolding(crate::specs::Sheets::line_data))]
fn line_value(
    alloc: Global,
    verb: &str,
    document: &Document,
    told: &str,
    columns: &HeaderPlaces<'_>,
    place: u64,
    fields: &StringRecord,
) -> Result<Map<String, Value>, AllocError>
    ensures { IfOk result (λ members. object (members_view members.entries)
        ≡ line_data verb.now document.now told.now (shown_columns columns.now) place
        (fields_of fields.now)) }
{
    let day = or_else(alloc, cell(columns.day, fields), told)?;
    let key = key(alloc, verb, document, columns, place, fields)?;
    let mut members = Map::new(alloc);
    put(&mut members, alloc, "do", Value::try_from_str(alloc, verb)?)?;
    put(&mut members, alloc, "day", Value::from(day))?;
    put(&mut members, alloc, "key", Value::from(key))?;
    put_cells(alloc, &mut members, &columns.fields, fields)?;
    Ok(members)
}

/// The same as a text. It has no float.
#[tactic(auto, using(crate::proofs::SheetLines::line_is_whole))]
fn line_text(
    alloc: Global,
    verb: &str,
    document: &Document,
    told: &str,
    columns: &HeaderPlaces<'_>,
    place: u64,
    fields: &StringRecord,
) -> Result<String, AllocError>
    ensures { IfOk result (λ text. string_bytes text ≡ compact_text (line_data verb.now document.now
        told.now (shown_columns columns.now) place (fields_of fields.now))) }
{
    let members = line_value(alloc, verb, document, told, columns, place, fields)?;
    Value::from(members).to_string(alloc)
}

/// Whether no quote in the record at that place is open where the file ends: the one in which one is may be told.
pub fn is_closed(unclosed: Option<u64>, place: u64) -> bool
    ensures { result ≡ is_closed unclosed place }
{
    match unclosed {
        Some(record) => record != place,
        None => true,
    }
}

/// The line that a record of texts is: an empty one where nothing is filled in.
fn line_of(
    alloc: Global,
    verb: &str,
    document: &Document,
    told: &str,
    columns: &HeaderPlaces<'_>,
    unclosed: Option<u64>,
    place: u64,
    fields: &StringRecord,
) -> Result<String, Unread>
    requires { are_texts (fields_of fields.now) ≡ true }
    ensures { let reading = line_of verb.now document.now told.now (shown_columns columns.now) unclosed place
        (fields_of fields.now) in
        MatchResult result (λ text. reading ≡ Ok (string_bytes text)) (λ unread. Fails unread reading) }
{
    if !is_closed(unclosed, place) {
        return Err(Unread::Wrong(What::Csv));
    }
    if fields.len() > columns.width {
        return Err(Unread::Wrong(What::Csv));
    }
    if columns.leaves_out(fields) {
        return Ok(String::new(alloc));
    }
    let text = line_text(alloc, verb, document, told, columns, place, fields)?;
    Ok(text)
}

/// Reads the next record, at that place, where there is one, as a line.
fn next_line(
    alloc: Global,
    verb: &str,
    document: &Document,
    told: &str,
    columns: &HeaderPlaces<'_>,
    unclosed: Option<u64>,
    reader: &mut Reader<&[u8]>,
    fields: &mut StringRecord,
    place: u64,
) -> Result<Option<String>, ReadError>
    requires { IsReading reader.old }
    ensures line { ReadsLine (line_of verb.now document.now told.now (shown_columns columns.now) unclosed)
        place (left reader.old) (left reader.new) result }
    ensures reading { IfOk result (λ line. IsSome line → IsReading reader.new) }
{
    match next_record(reader, fields) {
        Ok(true) => {}
        Ok(false) => return Ok(None),
        Err(Unread::Memory) => return Err(ReadError::Memory),
        Err(Unread::Wrong(what)) => {
            return Err(ReadError::Wrong(WireFault { line: place, what }));
        }
    }
    match line_of(
        alloc, verb, document, told, columns, unclosed, place, fields,
    ) {
        Ok(line) => Ok(Some(line)),
        Err(Unread::Memory) => Err(ReadError::Memory),
        Err(Unread::Wrong(what)) => Err(ReadError::Wrong(WireFault { line: place, what })),
    }
}

/// Adds a line to a text.
fn push_line(text: &mut String, line: &str) -> Result<(), AllocError>
    ensures { OnOk result (string_bytes text.new ≡ string_bytes text.old ++ line.now ++ 10 ∷ []) }
{
    text.push_str(line)?;
    text.push_str("\n")
}

/// The lines of the records that are left, the first of which is the second of the file, behind an empty one.
fn lines(
    alloc: Global,
    verb: &str,
    document: &Document,
    told: &str,
    columns: &HeaderPlaces<'_>,
    unclosed: Option<u64>,
    reader: &mut Reader<&[u8]>,
) -> Result<String, ReadError>
    requires { IsReading reader.old }
    ensures { let reading = text_from
        (line_of verb.now document.now told.now (shown_columns columns.now) unclosed) 2 (10 ∷ [])
        (left reader.old) in
        MatchResult result (λ text. reading ≡ Ok (string_bytes text)) (λ error. FailsIn error reading) }
{
    let mut text = String::from_str(alloc, "\n")?;
    let mut fields = StringRecord::new(alloc);
    for number in 2..u64::MAX {
        let next = next_line(
            alloc,
            verb,
            document,
            told,
            columns,
            unclosed,
            reader,
            &mut fields,
            number,
        )?;
        let Some(line) = next else {
            return Ok(text);
        };
        push_line(&mut text, line.as_str())?;
    }
    Err(ReadError::Memory)
}

/// The file's first record names no columns.
fn no_header() -> ReadError
    ensures { result ≡ Wrong (record { line = 1; what = Header }) }
{
    ReadError::Wrong(WireFault {
        line: 1,
        what: What::Header,
    })
}

/// The fault of a record at that place that doesn't end.
fn faulty_record(place: u64) -> ReadError
    ensures { result ≡ Wrong (record { line = place; what = Csv }) }
{
    ReadError::Wrong(WireFault {
        line: place,
        what: What::Csv,
    })
}

/// The text of lines that a file is, by what is told beside it. The first of these faults is told, with the number of its
/// record: `TooLong`, with 0, of more than 16,777,216 bytes; `Header`, with 1, where by no separator the first record names
/// the columns; `Csv` of a record that isn't text, has more fields than the header, or ends in quotes that are open where
/// the file ends.
pub fn sheet_text(alloc: Global, sheet: &Sheet<'_>, bytes: &[u8]) -> Result<String, ReadError>
    ensures { let reading = sheet_text (shown_sheet sheet.now) bytes.now in
        MatchResult result (λ text. reading ≡ Ok (string_bytes text)) (λ error. FailsIn error reading) }
{
    if bytes.len() > MOST_BYTES {
        return Err(ReadError::Wrong(WireFault {
            line: 0,
            what: What::TooLong,
        }));
    }
    let told = sheet.day.text(alloc)?;
    let Some((separator, columns)) = layout_of(alloc, sheet.form, &sheet.said, bytes)? else {
        return Err(no_header());
    };
    let mut reader = records_of(alloc, separator, bytes);
    let mut header = StringRecord::new(alloc);
    // By this record the columns were found.
    match next_record(&mut reader, &mut header) {
        Ok(true) => {}
        Ok(false) => return Err(no_header()),
        Err(Unread::Wrong(_)) => return Err(no_header()),
        Err(Unread::Memory) => return Err(ReadError::Memory),
    }
    let unclosed = open_record(separator, bytes);
    if !is_closed(unclosed, 1) {
        return Err(faulty_record(1));
    }
    lines(
        alloc,
        sheet.form.verb,
        &sheet.document,
        told.as_str(),
        &columns,
        unclosed,
        &mut reader,
    )
}

/// The law that a record is a request under its key.
pub fn records_have_keys()
    ensures { RecordsHaveKeys }
{}

/// The law that records of a file have keys of their own, where they tell none: two with one key have one number in the
/// column of it, or are one record. A place is taken for no number; but for one that begins with `@`, which is none.
pub fn keys_tell_records()
    ensures { KeysTellRecords }
{}

/// The law that a record asks for something under its key: whatever its line is read as is a request under that key, and no
/// report. So it is of each line of a file of a command, but for the empty ones.
pub fn lines_ask_under_keys()
    ensures line { LinesAskUnderKeys }
    ensures all { SheetsAskUnderKeys }
{}

/// The law that line n of a text is record n of its file: there is an empty line for the header and one line for each record
/// below it, in their order, and no line has a line end in it.
pub fn sheets_are_lines()
    ensures { SheetsAreLines }
{}
