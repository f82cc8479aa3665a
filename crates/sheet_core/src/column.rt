//! What a row is in a table of a file: its columns, written and read one by one.
ghost use Rattle.std.specs.Prelude.{◌≡◌, ◌<◌, IfOk, MatchResult, List, Option, Some, None, option_copied};
ghost use Rattle.std.specs.String.{string_bytes};
ghost use Rattle.sheet_core.specs.declared.column.Column.{Column};
ghost use Rattle.sheet_core.specs.Columns.{Finds, is_bit, number_at, number_or_none_at, text_at, text_or_none_at};
ghost use Rattle.sheet_core.specs.Columns.{has, yes_at, yes_number, number_or_absent};

use crate::row::Row;
use std::alloc::{AllocError, Global};
use std::marker::Model;

/// A text as a column has it, of any length. A clause sees its bytes.
#[derive(Drop)]
pub struct Words {
    text: String,
}

impl Model for Words {
    ghost use Rattle.std.specs.Prelude.{ℕ, List};
    ghost use Rattle.std.specs.String.{string_bytes};

    ghost Value = { List ℕ };

    ghost view = { λ w. string_bytes w.text };
}

impl Words {
    pub fn new(text: String) -> Self
        ensures { result ≡ string_bytes text }
    {
        Words { text }
    }

    pub fn as_str(&self) -> &str
        ensures { result.now ≡ self.now }
    {
        self.text.as_str()
    }
}

/// What stands in a column of a row.
#[derive(Drop)]
pub enum Column {
    /// A whole number. A file takes those below 2 to the 63.
    Whole(u64),
    Text(Words),
    /// Nothing, which is NULL in a file.
    Absent,
}

/// Why columns gave no row.
#[derive(Clone, Copy, Debug, PartialEq, Eq)]
pub enum ColumnFault {
    /// There was no memory for the row's texts.
    Memory,
    /// They are the columns of no row.
    NoRow,
}

impl From<AllocError> for ColumnFault {
    ghost use Rattle.std.specs.Prelude.{◌≡◌};
    ghost use Rattle.sheet_core.specs.declared.column.ColumnFault.TheVariants.{Memory};

    ghost from_gives = { λ _ fault. fault ≡ Memory };

    fn from(_: AllocError) -> Self {
        ColumnFault::Memory
    }
}

/// A row that a table of a file has, as a list of columns.
pub trait Stored: Row {
    /// What the row is in a table of a file, the key first.
    ghost columns_of: { Self → List Column };

    /// The row that the columns are, or none.
    ghost row_from: { List Column → Option Self };

    /// The row's columns, which are read as the row.
    fn columns(&self, alloc: Global) -> Result<Vec<Column>, AllocError>
        ensures columns { IfOk result (λ columns. columns.items ≡ columns_of self.now) }
        ensures read { IfOk result (λ columns. row_from columns.items ≡ Some self.now) };

    /// The row that these columns are. `NoRow` where they are those of none.
    fn from_columns(alloc: Global, columns: &[Column]) -> Result<Self, ColumnFault>
        ensures found { Finds result (row_from columns.now) }
        ensures told { IfOk result (λ row. columns_of row ≡ columns.now) };
}

impl Column {
    /// The column of a text.
    pub fn text(alloc: Global, text: &str) -> Result<Column, AllocError>
        ensures { IfOk result (λ column. column ≡ Column.Text text.now) }
    {
        let text = String::from_str(alloc, text)?;
        Ok(Column::Text(Words::new(text)))
    }

    /// The column of a number that may be absent.
    pub fn number_or_absent(number: Option<u64>) -> Column
        ensures { result ≡ number_or_absent number }
    {
        match number {
            Some(number) => Column::Whole(number),
            None => Column::Absent,
        }
    }

    /// The column of a test: 1 where it holds.
    pub fn yes(holds: bool) -> Column
        ensures { result ≡ Column.Whole (yes_number holds) }
    {
        Column::Whole(holds as u64)
    }
}

/// That there are so many columns.
pub fn has(columns: &[Column], count: usize) -> Result<(), ColumnFault>
    ensures { Finds result (has count columns.now) }
{
    if columns.len() == count {
        Ok(())
    } else {
        Err(ColumnFault::NoRow)
    }
}

/// The whole number in the column.
pub fn number_at(columns: &[Column], at: usize) -> Result<u64, ColumnFault>
    ensures { Finds result (number_at at columns.now) }
{
    match columns.get(at) {
        Some(Column::Whole(number)) => Ok(*number),
        _ => Err(ColumnFault::NoRow),
    }
}

/// The whole number in the column, or none where it is absent.
pub fn number_or_none_at(columns: &[Column], at: usize) -> Result<Option<u64>, ColumnFault>
    ensures { Finds result (number_or_none_at at columns.now) }
{
    match columns.get(at) {
        Some(Column::Whole(number)) => Ok(Some(*number)),
        Some(Column::Absent) => Ok(None),
        _ => Err(ColumnFault::NoRow),
    }
}

/// Whether the number has the bit of that weight.
pub fn is_bit(weight: u64, number: u64) -> bool
    requires { 0 < weight }
    ensures { result ≡ is_bit weight number }
{
    number / weight % 2 == 1
}

/// The test in the column: 0 or 1.
pub fn yes_at(columns: &[Column], at: usize) -> Result<bool, ColumnFault>
    ensures { Finds result (yes_at at columns.now) }
{
    match number_at(columns, at)? {
        0 => Ok(false),
        1 => Ok(true),
        _ => Err(ColumnFault::NoRow),
    }
}

/// The text in the column.
pub fn text_at(columns: &[Column], at: usize) -> Result<&str, ColumnFault>
    ensures { MatchResult result (λ text. text_at at columns.now ≡ Some text.now)
        (λ fault. (fault ≡ ColumnFault.NoRow) × (text_at at columns.now ≡ None)) }
{
    match columns.get(at) {
        Some(Column::Text(text)) => Ok(text.as_str()),
        _ => Err(ColumnFault::NoRow),
    }
}

/// The text in the column, or none where it is absent.
pub fn text_or_none_at(columns: &[Column], at: usize) -> Result<Option<&str>, ColumnFault>
    ensures { MatchResult result
        (λ text. text_or_none_at at columns.now ≡ Some (option_copied text))
        (λ fault. (fault ≡ ColumnFault.NoRow) × (text_or_none_at at columns.now ≡ None)) }
{
    match columns.get(at) {
        Some(Column::Text(text)) => Ok(Some(text.as_str())),
        Some(Column::Absent) => Ok(None),
        _ => Err(ColumnFault::NoRow),
    }
}
