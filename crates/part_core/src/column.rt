//! What a row says as columns of a file: numbers, tests and texts.
ghost use Rattle.sheet_core.specs.Columns.{Finds};
ghost use Rattle.part_core.specs.TextColumns.{row_text_at};

pub use sheet_core::column::{has, is_bit, number_at, number_or_none_at, text_at, yes_at};
use sheet_core::{Column, ColumnFault};
use std::alloc::Global;
use word_core::Text;

/// The text in the column, where it may stand in a row.
pub fn row_text_at(alloc: Global, columns: &[Column], at: usize) -> Result<Text, ColumnFault>
    ensures { Finds result (row_text_at at columns.now) }
{
    let text = String::from_str(alloc, text_at(columns, at)?)?;
    Text::new(text).ok_or(ColumnFault::NoRow)
}
