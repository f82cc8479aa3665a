//! Answers that are kept under their keys.
ghost use Rattle.std.specs.Prelude.{◌≡◌, ◌↔◌, IsTrue, IfOk};
ghost use Rattle.std.specs.Str.{bytes_eq};
ghost use Rattle.std.specs.String.{string_bytes};
ghost use Rattle.sheet_core.specs.Columns.{Finds};
ghost use Rattle.desk_core.specs.KeptColumns.{answer_at, kept_columns, kept_from, key_at};

use crate::answers::{answer_line, are_fit, read_answer};
use crate::key::Key;
use part_core::column::{has, text_at};
use part_core::{Answer, Column, ColumnFault, Row, Stored, Words};
use std::alloc::{AllocError, Global};
use std::marker::Model;

/// A command's text, as `command_text` gives it. A clause sees its bytes.
#[derive(Drop)]
pub struct CommandText {
    text: String,
}

impl Model for CommandText {
    ghost use Rattle.std.specs.Prelude.{ℕ, List};
    ghost use Rattle.std.specs.String.{string_bytes};

    ghost Value = { List ℕ };

    ghost view = { λ t. string_bytes t.text };
}

impl CommandText {
    /// It takes no more room than its bytes: it may be kept for good.
    pub fn new(mut text: String) -> Self
        ensures { result ≡ string_bytes text }
    {
        text.shrink_to_fit();
        CommandText { text }
    }

    pub fn as_str(&self) -> &str
        ensures { result.now ≡ self.now }
    {
        self.text.as_str()
    }

    /// An equal text.
    pub fn copy(&self, alloc: Global) -> Result<Self, AllocError>
        ensures { IfOk result (λ text. text ≡ self.now) }
    {
        let text = String::from_str(alloc, self.text.as_str())?;
        Ok(CommandText { text })
    }

    /// Whether the texts are equal.
    pub fn equals(&self, other: &CommandText) -> bool
        ensures value { result ≡ bytes_eq self.now other.now }
        ensures same { IsTrue result ↔ (self.now ≡ other.now) }
    {
        self.text.as_str() == other.text.as_str()
    }
}

/// What an accepted request with a key leaves: its command and its answer, for good.
#[derive(Drop)]
pub struct Kept {
    /// The request's key.
    pub word: Key,
    pub command: CommandText,
    pub answer: Answer,
}

impl Row for Kept {
    type Key = String;

    ghost key_of = { λ row. row.word };

    fn key(&self, alloc: Global) -> Result<String, AllocError> {
        String::from_str(alloc, self.word.as_str())
    }

    fn equals(&self, other: &Self) -> bool {
        if !self.word.equals(&other.word) {
            return false;
        }
        if !self.command.equals(&other.command) {
            return false;
        }
        self.answer.equals(&other.answer)
    }

    fn copy(&self, alloc: Global) -> Result<Self, AllocError> {
        let word = self.word.copy(alloc)?;
        let command = self.command.copy(alloc)?;
        let answer = self.answer.copy(alloc)?;
        Ok(Kept {
            word,
            command,
            answer,
        })
    }
}

/// The key in the column.
fn key_at(alloc: Global, columns: &[Column], at: usize) -> Result<Key, ColumnFault>
    ensures { Finds result (key_at at columns.now) }
{
    let text = String::from_str(alloc, text_at(columns, at)?)?;
    Key::new(text).ok_or(ColumnFault::NoRow)
}

/// The answer whose line stands in the column.
fn answer_at(alloc: Global, columns: &[Column], at: usize) -> Result<Answer, ColumnFault>
    ensures { Finds result (answer_at at columns.now) }
{
    let text = text_at(columns, at)?;
    read_answer(alloc, text)
}

impl Stored for Kept {
    ghost columns_of = { kept_columns };

    ghost row_from = { kept_from };

    fn columns(&self, alloc: Global) -> Result<Vec<Column>, AllocError> {
        are_fit(self.answer.entries, self.answer.ids.as_slice());
        let word = Column::text(alloc, self.word.as_str())?;
        let command = Column::text(alloc, self.command.as_str())?;
        let answer = answer_line(alloc, &self.answer)?;
        Ok(vec![in alloc; word, command, Column::Text(Words::new(answer))]?)
    }

    fn from_columns(alloc: Global, columns: &[Column]) -> Result<Self, ColumnFault> {
        has(columns, 3)?;
        let word = key_at(alloc, columns, 0)?;
        let text = text_at(columns, 1)?;
        let command = String::from_str(alloc, text)?;
        let answer = answer_at(alloc, columns, 2)?;
        Ok(Kept {
            word,
            command: CommandText::new(command),
            answer,
        })
    }
}
