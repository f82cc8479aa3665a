//! Records as comma-separated values, and so the lines of a report.
ghost use Rattle.std.specs.Prelude.{◌≡◌, ◌++◌, [], ℕ, List, map, IfOk, OnOk};
ghost use Rattle.std.specs.String.{string_bytes};
ghost use Rattle.csv.specs.Records.{fields_of};
ghost use Rattle.csv.specs.Writing.{default_writer, row_text};
ghost use Rattle.report_core.specs.Records.{HasLines, records_text};

use crate::lines::Report;
use csv::{ByteRecord, Writer};
use std::alloc::{AllocError, Global};

/// Writes the line of a record, the first that is written.
fn write_fields(writer: &mut Writer<Vec<u8>>, fields: &ByteRecord) -> Result<(), AllocError>
    requires { HasLines [] writer.old }
    ensures { OnOk result (HasLines (row_text default_writer (fields_of fields.now)) writer.new) }
{
    match writer.write_byte_record(fields) {
        Ok(()) => Ok(()),
        Err(_) => Err(AllocError),
    }
}

/// A writer that has written nothing.
fn begun(alloc: Global) -> Writer<Vec<u8>>
    ensures { HasLines [] result }
{
    Writer::from_writer(Vec::new(alloc))
}

/// The text that was written.
fn ended(writer: Writer<Vec<u8>>) -> Result<Vec<u8>, AllocError>
    ensures { IfOk result (λ bytes. (text : List ℕ) → HasLines text writer → bytes.items ≡ text) }
{
    match writer.into_inner() {
        Ok(text) => Ok(text),
        Err(_) => Err(AllocError),
    }
}

/// The line of a record.
pub fn record_line(alloc: Global, fields: &ByteRecord) -> Result<Vec<u8>, AllocError>
    ensures { IfOk result (λ line. line.items ≡ row_text default_writer (fields_of fields.now)) }
{
    let mut writer = begun(alloc);
    write_fields(&mut writer, fields)?;
    ended(writer)
}

fn record_of(alloc: Global, fields: &[String]) -> Result<ByteRecord, AllocError>
    ensures { IfOk result (λ row. fields_of row ≡ map string_bytes fields.now) }
{
    let mut record = ByteRecord::new(alloc);
    for field in fields {
        record.push_field(field.as_bytes())?;
    }
    Ok(record)
}

/// Adds the line of these fields. A writer takes no line of another length than its first, so each line has a writer.
fn push_record(alloc: Global, text: &mut Vec<u8>, fields: &[String]) -> Result<(), AllocError>
    ensures { OnOk result (text.new.items
        ≡ text.old.items ++ row_text default_writer (map string_bytes fields.now)) }
{
    let record = record_of(alloc, fields)?;
    let line = record_line(alloc, &record)?;
    text.extend_from_slice(line.as_slice())
}

/// The lines of a report as comma-separated values.
pub fn records_text(alloc: Global, report: &Report) -> Result<Vec<u8>, AllocError>
    ensures { IfOk result (λ text. text.items ≡ records_text report.now) }
{
    let mut text = Vec::new(alloc);
    for line in report.lines() {
        push_record(alloc, &mut text, line.as_slice())?;
    }
    Ok(text)
}
