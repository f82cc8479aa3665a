//! Cells of a file, as values of JSON. Whatever is wrong with one is the fault of the line that it stands in.
ghost use Rattle.std.specs.Prelude.{◌≡◌, ◌++◌, IfOk, OnOk, Some, None, if◌then◌else◌, map, option_map};
ghost use Rattle.std.specs.Str.{bytes_eq};
ghost use Rattle.serde_json.specs.Data.{string};
ghost use Rattle.serde_json.specs.View.{items_view, members_view, view};
ghost use Rattle.serde_json.specs.Written.{has_float, items_have_float, members_have_float};
ghost use Rattle.desk_wire.specs.Sheets.{is_between_words, is_given, json_or_text, number_or_text};
ghost use Rattle.desk_wire.specs.Sheets.{row_or_text, value_of, word_list, words_of, yes_or_text};

use crate::fault::Unread;
use crate::number::number_in;
use crate::row_words::{is_json, json};
use part_core::FieldKind;
use serde_json::{Map, Value};
use std::alloc::{AllocError, Global};

/// Whether a number in it has a fraction or an exponent, or is too large.
#[cycle(floats)]
fn has_float(value: &Value) -> bool
    ensures { result ≡ has_float (view value.now) }
{
    match value {
        Value::Null => false,
        Value::Bool(_) => false,
        Value::Number(number) => number.is_f64(),
        Value::String(_) => false,
        Value::Array(items) => items_have_float(items),
        Value::Object(members) => members_have_float(members),
    }
}

#[cycle(floats)]
fn items_have_float(items: &Vec<Value>) -> bool
    ensures { result ≡ items_have_float (items_view items.now.items) }
{
    for item in items {
        if has_float(item) {
            return true;
        }
    }
    false
}

#[cycle(floats)]
fn members_have_float(members: &Map<String, Value>) -> bool
    ensures { result ≡ members_have_float (members_view members.now.entries) }
{
    for (_, member) in members.iter() {
        if has_float(member) {
            return true;
        }
    }
    false
}

fn number_or_text(alloc: Global, text: &str) -> Result<Value, AllocError>
    ensures { IfOk result (λ value. view value ≡ number_or_text text.now) }
{
    match number_in(text) {
        Some(number) => Ok(Value::from(number)),
        None => Value::try_from_str(alloc, text),
    }
}

/// An array or an object without a float, or a text.
fn json_or_text(alloc: Global, text: &str) -> Result<Value, AllocError>
    ensures { IfOk result (λ value. view value ≡ json_or_text text.now) }
{
    if !is_json(text) {
        return Value::try_from_str(alloc, text);
    }
    match json(alloc, text) {
        Ok(value) => {
            if has_float(&value) {
                return Value::try_from_str(alloc, text);
            }
            Ok(value)
        }
        Err(Unread::Wrong(_)) => Value::try_from_str(alloc, text),
        Err(Unread::Memory) => Err(AllocError),
    }
}

fn row_or_text(alloc: Global, text: &str) -> Result<Value, AllocError>
    ensures { IfOk result (λ value. view value ≡ row_or_text text.now) }
{
    match number_in(text) {
        Some(number) => Ok(Value::from(number)),
        None => json_or_text(alloc, text),
    }
}

fn yes_or_text(alloc: Global, text: &str) -> Result<Value, AllocError>
    ensures { IfOk result (λ value. view value ≡ yes_or_text text.now) }
{
    match text {
        "yes" => Ok(Value::from(true)),
        "true" => Ok(Value::from(true)),
        "no" => Ok(Value::from(false)),
        "false" => Ok(Value::from(false)),
        _ => Value::try_from_str(alloc, text),
    }
}

fn is_between_words(b: u8) -> bool
    ensures { result ≡ is_between_words b }
{
    b == b' ' || b == b',' || b == b';'
}

/// Adds the word, if it is one.
fn push_word(words: &mut Vec<Value>, word: Vec<u8>) -> Result<(), AllocError>
    ensures { OnOk result (map view words.new.items
        ≡ map view words.old.items ++ map string (word_list word.items)) }
{
    if word.is_empty() {
        return Ok(());
    }
    match String::from_utf8(word) {
        Ok(text) => {
            words.push(Value::from(text))?;
            Ok(())
        }
        // It isn't reached: what stands between bytes of ASCII in a text is one.
        Err(_) => Err(AllocError),
    }
}

/// The words of a text, between which spaces, commas and semicolons stand.
fn words_of(alloc: Global, text: &str) -> Result<Value, AllocError>
    ensures { IfOk result (λ value. view value ≡ words_of text.now) }
{
    let mut words = Vec::new(alloc);
    let mut word = Vec::new(alloc);
    for b in text.as_bytes() {
        if is_between_words(*b) {
            push_word(&mut words, word)?;
            word = Vec::new(alloc);
        } else {
            word.push(*b)?;
        }
    }
    push_word(&mut words, word)?;
    Ok(Value::from(words))
}

/// The value of a field of that kind in whose cell this stands.
fn value_of(alloc: Global, kind: FieldKind, text: &str) -> Result<Value, AllocError>
    ensures { IfOk result (λ value. view value ≡ value_of kind text.now) }
{
    match kind {
        FieldKind::Number => number_or_text(alloc, text),
        FieldKind::Row(_) => row_or_text(alloc, text),
        FieldKind::MaybeRow(_) => row_or_text(alloc, text),
        FieldKind::Rows(_) => json_or_text(alloc, text),
        FieldKind::Yes => yes_or_text(alloc, text),
        FieldKind::Flags => words_of(alloc, text),
        _ => Value::try_from_str(alloc, text),
    }
}

fn is_given(kind: FieldKind, text: &str) -> bool
    ensures { result ≡ is_given kind text.now }
{
    match kind {
        FieldKind::Flags => true,
        _ => !text.is_empty(),
    }
}

/// The value of a field, if its line has it: one whose cell is empty is left out, and flags are none then.
pub fn given_value(alloc: Global, kind: FieldKind, text: &str) -> Result<Option<Value>, AllocError>
    ensures { IfOk result (λ value. option_map view value
        ≡ (if is_given kind text.now then Some (value_of kind text.now) else None)) }
{
    if is_given(kind, text) {
        Ok(Some(value_of(alloc, kind, text)?))
    } else {
        Ok(None)
    }
}
