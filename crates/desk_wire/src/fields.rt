//! The fields of an object, each by its kind, in the order of a form. A field that must be there is
//! `NoField` where it is missing. Null is a value of another type but for fields that may be missing or
//! null.
ghost use Rattle.std.specs.Prelude.{◌≡◌, [], MatchResult, Ok, Err, option_map};
ghost use Rattle.serde_json.specs.View.{view, items_view};
ghost use Rattle.word_core.specs.Flags.{no_flags};
ghost use Rattle.word_core.specs.Forms.{shown_fields};
ghost use Rattle.desk_wire.specs.Steps.{Gives, Fails};
ghost use Rattle.desk_wire.specs.Fields.{number_in, row_in, maybe_row_in, row_text_in};
ghost use Rattle.desk_wire.specs.Fields.{maybe_row_text_in, yes_in, key_in, day_in, serials_in};
ghost use Rattle.desk_wire.specs.Fields.{maybe_serials_in, status_in, side_in, with_rows, rows_in};
ghost use Rattle.desk_wire.specs.Fields.{with_words, flags_in, field_in, fields_from};

use crate::fault::{Unread, What};
use crate::row_names::row_of;
use crate::values::{
    are_texts, given, key_of, member, number_of, row_text_of, serials_of, text, text_of,
};
use desk_core::{Key, Names};
use part_core::{
    Day, Field, FieldKind, Flags, Id, Ids, NO_FLAGS, RowKind, Serials, Side, Status, Text, named,
};
use serde_json::Value;
use std::alloc::{AllocError, Global};

/// A number without sign, fraction and exponent.
pub fn number(object: &Value, name: &str) -> Result<u64, What>
    ensures { result ≡ number_in name.now (view object.now) }
{
    let value = member(object, name)?;
    number_of(value)
}

/// The number of a row of that table.
pub fn row<N: Names>(
    alloc: Global,
    names: Option<&N>,
    table: RowKind,
    object: &Value,
    name: &'static str,
) -> Result<Id, Unread>
    ensures { Gives result (row_in (option_map (λ n. N.naming_of n.now) names.entry) table name.now
        (view object.now)) }
{
    let value = member(object, name)?;
    row_of(alloc, names, table, name, value)
}

/// Such a number, or none where it is missing or null.
fn maybe_row<N: Names>(
    alloc: Global,
    names: Option<&N>,
    table: RowKind,
    object: &Value,
    name: &'static str,
) -> Result<Option<Id>, Unread>
    ensures { Gives result (maybe_row_in (option_map (λ n. N.naming_of n.now) names.entry) table
        name.now (view object.now)) }
{
    match given(object, name) {
        None => Ok(None),
        Some(value) => Ok(Some(row_of(alloc, names, table, name, value)?)),
    }
}

/// A text that may stand in a row.
fn row_text(alloc: Global, object: &Value, name: &str) -> Result<Text, Unread>
    ensures { Gives result (row_text_in name.now (view object.now)) }
{
    let value = member(object, name)?;
    row_text_of(alloc, value)
}

/// Such a text, or none where it is missing or null.
fn maybe_row_text(alloc: Global, object: &Value, name: &str) -> Result<Option<Text>, Unread>
    ensures { Gives result (maybe_row_text_in name.now (view object.now)) }
{
    match given(object, name) {
        None => Ok(None),
        Some(value) => Ok(Some(row_text_of(alloc, value)?)),
    }
}

/// True or false, and false where it is missing.
fn yes(object: &Value, name: &str) -> Result<bool, What>
    ensures { result ≡ yes_in name.now (view object.now) }
{
    match object.get(name) {
        None => Ok(false),
        Some(value) => value.as_bool().ok_or(What::WrongType),
    }
}

/// The key that the request is called by, or none where it is missing.
pub fn key(alloc: Global, object: &Value) -> Result<Option<Key>, Unread>
    ensures { Gives result (key_in (view object.now)) }
{
    match object.get("key") {
        None => Ok(None),
        Some(value) => Ok(Some(key_of(alloc, value)?)),
    }
}

/// The day of the request: else `BadDay`.
pub fn day(object: &Value) -> Result<Day, What>
    ensures { result ≡ day_in (view object.now) }
{
    let text = text(object, "day")?;
    Day::parse(text).ok_or(What::BadDay)
}

/// Serials as a text lists them.
fn serials(alloc: Global, object: &Value, name: &str) -> Result<Serials, Unread>
    ensures { Gives result (serials_in name.now (view object.now)) }
{
    let value = member(object, name)?;
    serials_of(alloc, value)
}

/// Such serials, or none where they are missing or null.
fn maybe_serials(alloc: Global, object: &Value, name: &str) -> Result<Option<Serials>, Unread>
    ensures { Gives result (maybe_serials_in name.now (view object.now)) }
{
    match given(object, name) {
        None => Ok(None),
        Some(value) => Ok(Some(serials_of(alloc, value)?)),
    }
}

/// The status of that name: else `BadWord`.
fn status(object: &Value, name: &str) -> Result<Status, What>
    ensures { result ≡ status_in name.now (view object.now) }
{
    let text = text(object, name)?;
    named::<Status>(text).ok_or(What::BadWord)
}

/// The side of that name: else `BadWord`.
fn side(object: &Value, name: &str) -> Result<Side, What>
    ensures { result ≡ side_in name.now (view object.now) }
{
    let text = text(object, name)?;
    named::<Side>(text).ok_or(What::BadWord)
}

fn with_rows<N: Names>(
    alloc: Global,
    names: Option<&N>,
    table: RowKind,
    name: &'static str,
    values: &[Value],
) -> Result<Vec<Id>, Unread>
    ensures { MatchResult result
        (λ numbers. with_rows (option_map (λ n. N.naming_of n.now) names.entry) table name.now []
        (items_view values.now) ≡ Ok numbers.items)
        (λ unread. Fails unread (with_rows (option_map (λ n. N.naming_of n.now) names.entry) table
        name.now [] (items_view values.now))) }
{
    let mut numbers = Vec::new(alloc);
    for value in values {
        let number = row_of(alloc, names, table, name, value)?;
        numbers.push(number).map_err(AllocError::from)?;
    }
    Ok(numbers)
}

/// An array of rows of that table, in its order.
fn rows<N: Names>(
    alloc: Global,
    names: Option<&N>,
    table: RowKind,
    object: &Value,
    name: &'static str,
) -> Result<Ids, Unread>
    ensures { Gives result (rows_in (option_map (λ n. N.naming_of n.now) names.entry) table name.now
        (view object.now)) }
{
    let value = member(object, name)?;
    let values = value.as_array().ok_or(What::WrongType)?;
    let numbers = with_rows(alloc, names, table, name, values)?;
    Ok(Ids::new(numbers))
}

fn with_words(values: &[Value]) -> Result<Flags, What>
    ensures { result ≡ with_words no_flags (items_view values.now) }
{
    let mut flags = NO_FLAGS;
    for value in values {
        let word = text_of(value)?;
        flags = flags.with_word(word).ok_or(What::BadWord)?;
    }
    Ok(flags)
}

/// An array of words, each of which sets one flag: `BadWord` where one is no flag's or comes twice.
fn flags(object: &Value, name: &str) -> Result<Flags, What>
    ensures { result ≡ flags_in name.now (view object.now) }
{
    let value = member(object, name)?;
    let values = value.as_array().ok_or(What::WrongType)?;
    if !are_texts(values) {
        return Err(What::WrongType);
    }
    with_words(values)
}

/// The field of that kind.
pub fn field<N: Names>(
    alloc: Global,
    names: Option<&N>,
    object: &Value,
    name: &'static str,
    kind: FieldKind,
) -> Result<Field, Unread>
    ensures { Gives result (field_in (option_map (λ n. N.naming_of n.now) names.entry) name.now kind
        (view object.now)) }
{
    match kind {
        FieldKind::Number => Ok(Field::Number(number(object, name)?)),
        FieldKind::Row(table) => Ok(Field::Number(row(alloc, names, table, object, name)?)),
        FieldKind::MaybeRow(table) => {
            let number = maybe_row(alloc, names, table, object, name)?;
            Ok(Field::MaybeNumber(number))
        }
        FieldKind::Text => Ok(Field::Text(row_text(alloc, object, name)?)),
        FieldKind::MaybeText => Ok(Field::MaybeText(maybe_row_text(alloc, object, name)?)),
        FieldKind::Yes => Ok(Field::Yes(yes(object, name)?)),
        FieldKind::Flags => Ok(Field::Flags(flags(object, name)?)),
        FieldKind::Status => Ok(Field::Status(status(object, name)?)),
        FieldKind::Side => Ok(Field::Side(side(object, name)?)),
        FieldKind::Serials => Ok(Field::Serials(serials(alloc, object, name)?)),
        FieldKind::MaybeSerials => Ok(Field::MaybeSerials(maybe_serials(alloc, object, name)?)),
        FieldKind::Rows(table) => Ok(Field::Numbers(rows(alloc, names, table, object, name)?)),
    }
}

/// The fields of a form, in its order, or the first fault.
pub fn fields<N: Names>(
    alloc: Global,
    names: Option<&N>,
    object: &Value,
    blanks: &[(&'static str, FieldKind)],
) -> Result<Vec<Field>, Unread>
    ensures { MatchResult result
        (λ fields. fields_from (option_map (λ n. N.naming_of n.now) names.entry) []
        (shown_fields blanks.now) (view object.now) ≡ Ok fields.items)
        (λ unread. Fails unread (fields_from (option_map (λ n. N.naming_of n.now) names.entry) []
        (shown_fields blanks.now) (view object.now))) }
{
    let mut fields = Vec::with_capacity(alloc, blanks.len())?;
    for (name, kind) in blanks {
        let field = field(alloc, names, object, name, *kind)?;
        fields.push(field).map_err(AllocError::from)?;
    }
    Ok(fields)
}
