//! What a row says as columns of a file: batches, serials, statuses and days.
ghost use Rattle.std.specs.Prelude.{◌≡◌, IfOk, Some};
ghost use Rattle.sheet_core.specs.declared.column.Column.{Column};
ghost use Rattle.sheet_core.specs.Columns.{Finds};
ghost use Rattle.word_core.specs.Day.{day_text};
ghost use Rattle.forest.specs.WordColumns.{day_as_written, day_at, row_text_or_none_at};
ghost use Rattle.forest.specs.WordColumns.{serial_or_none_at, status_at};

use sheet_core::column::{number_at, text_at, text_or_none_at};
use sheet_core::{Column, ColumnFault};
use std::alloc::{AllocError, Global};
use word_core::{Day, Serial, Status, Text};

/// The text in the column, where it may stand in a row, or none where it is absent.
pub(crate) fn row_text_or_none_at(
    alloc: Global,
    columns: &[Column],
    at: usize,
) -> Result<Option<Text>, ColumnFault>
    ensures { Finds result (row_text_or_none_at at columns.now) }
{
    let Some(text) = text_or_none_at(columns, at)? else {
        return Ok(None);
    };
    let text = Text::new(String::from_str(alloc, text)?).ok_or(ColumnFault::NoRow)?;
    Ok(Some(text))
}

/// The serial number in the column, or none where it is absent.
pub(crate) fn serial_or_none_at(
    alloc: Global,
    columns: &[Column],
    at: usize,
) -> Result<Option<Serial>, ColumnFault>
    ensures { Finds result (serial_or_none_at at columns.now) }
{
    let Some(text) = text_or_none_at(columns, at)? else {
        return Ok(None);
    };
    let serial = Serial::new(String::from_str(alloc, text)?).ok_or(ColumnFault::NoRow)?;
    Ok(Some(serial))
}

/// The status in the column.
pub(crate) fn status_at(columns: &[Column], at: usize) -> Result<Status, ColumnFault>
    ensures { Finds result (status_at at columns.now) }
{
    let code = number_at(columns, at)?;
    Status::from_code(code).ok_or(ColumnFault::NoRow)
}

/// The day in the column, where it is as days are written.
pub(crate) fn day_at(alloc: Global, columns: &[Column], at: usize) -> Result<Day, ColumnFault>
    ensures { Finds result (day_at at columns.now) }
{
    let text = text_at(columns, at)?;
    let day = Day::parse(text).ok_or(ColumnFault::NoRow)?;
    if day.text(alloc)?.as_str() == text {
        Ok(day)
    } else {
        Err(ColumnFault::NoRow)
    }
}

/// The day's text as a column of a file, from which it is read.
#[tactic(auto, using(crate::proofs::WordColumns::day_written))]
pub(crate) fn day_column(alloc: Global, day: &Day) -> Result<Column, AllocError>
    ensures column { IfOk result (λ column. column ≡ Column.Text (day_text day.now)) }
    ensures read { day_as_written (day_text day.now) ≡ Some day.now }
{
    day.is_read_from_its_text();
    let text = day.text(alloc)?;
    Column::text(alloc, text.as_str())
}
