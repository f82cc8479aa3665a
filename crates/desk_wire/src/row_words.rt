//! A word that says a row: an argument of a command, or a field of a file. 1 to 19 digits are the row's number. Where
//! names are allowed, a word that begins with `[` or `{` is JSON, as a field of a line has it, and any other word is
//! the name that such a field has as a text. So a name that is a number, or that begins with `[` or `{`, stands in an
//! array. JSON that isn't read, or is longer than 65,536 bytes, is `WrongType`.
ghost use Rattle.std.specs.Prelude.{◌≡◌, Ok, MatchResult, option_map};
ghost use Rattle.serde_json.specs.View.{view};
ghost use Rattle.desk_wire.specs.Steps.{Gives, Fails};
ghost use Rattle.desk_wire.specs.RowWords.{WordsAreNumbers, is_json, json_of, by_word, row_at_word};

use crate::fault::{Unread, What};
use crate::number::number_in;
use crate::row_names::{by_name, by_text, one_row};
use crate::values::parsed;
use desk_core::Names;
use part_core::{Found, Id, RowKind};
use serde_json::Value;
use std::alloc::Global;

/// Whether a word is to be JSON.
pub fn is_json(word: &str) -> bool
    ensures { result ≡ is_json word.now }
{
    let bytes = word.as_bytes();
    bytes.starts_with(b"[") || bytes.starts_with(b"{")
}

/// The value that such a word is.
pub fn json(alloc: Global, word: &str) -> Result<Value, Unread>
    ensures { MatchResult result (λ value. json_of word.now ≡ Ok (view value))
        (λ unread. Fails unread (json_of word.now)) }
{
    if word.len() > 65_536 {
        return Err(Unread::Wrong(What::WrongType));
    }
    parsed(alloc, word.as_bytes(), What::WrongType)
}

/// What a word that is no number is found to call.
fn by_word<N: Names>(alloc: Global, names: &N, table: RowKind, word: &str) -> Result<Found, Unread>
    ensures { Gives result (by_word (N.naming_of names.now) table word.now) }
{
    if is_json(word) {
        let value = json(alloc, word)?;
        by_name(alloc, names, table, &value)
    } else {
        by_text(names, table, word)
    }
}

/// The row of that table, as the word says it in the field of that name: by its number or, where names are allowed, by
/// its name. `NoName` and `Ambiguous` tell the field, and the other faults are those of a field of a line.
pub fn row_at_word<N: Names>(
    alloc: Global,
    names: Option<&N>,
    table: RowKind,
    field: &'static str,
    word: &str,
) -> Result<Id, Unread>
    ensures { Gives result (row_at_word (option_map (λ n. N.naming_of n.now) names.entry) table
        field.now word.now) }
{
    if let Some(number) = number_in(word) {
        return Ok(number);
    }
    match names {
        None => Err(Unread::Wrong(What::WrongType)),
        Some(names) => {
            let found = by_word(alloc, names, table, word)?;
            Ok(one_row(field, found)?)
        }
    }
}

/// The law that without names a word is a number alone.
pub fn words_are_numbers()
    ensures { WordsAreNumbers }
{}
