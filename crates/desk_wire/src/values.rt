//! Values of JSON, and the members of an object.
ghost use Rattle.std.specs.Prelude.{◌≡◌, MatchResult, Ok, Err, Some, option_map};
ghost use Rattle.serde_json.specs.View.{view, items_view};
ghost use Rattle.desk_wire.specs.Steps.{Gives, Fails, or_fault};
ghost use Rattle.desk_wire.specs.Values.{number_of, text_of, row_text_of, serials_of, key_of, given};
ghost use Rattle.desk_wire.specs.Values.{parsed, member_in, text_in, are_texts};

use crate::fault::{Unread, What};
use crate::texts::{listed, row_text_from};
use desk_core::Key;
use part_core::{Serials, Text};
use serde_json::Value;
use std::alloc::Global;

/// The value of JSON in UTF-8: else this fault.
#[tactic(auto, using(crate::proofs::Parsed::parsed_ok, crate::proofs::Parsed::parsed_none))]
pub fn parsed(alloc: Global, bytes: &[u8], fault: What) -> Result<Value, Unread>
    ensures { MatchResult result (λ value. parsed bytes.now ≡ Some (view value))
        (λ unread. Fails unread (or_fault fault (parsed bytes.now))) }
{
    match Value::from_slice(alloc, bytes) {
        Ok(value) => Ok(value),
        Err(e) => {
            if e.is_memory() {
                Err(Unread::Memory)
            } else {
                Err(Unread::Wrong(fault))
            }
        }
    }
}

/// `WrongType` but for a number without sign, fraction and exponent.
pub fn number_of(value: &Value) -> Result<u64, What>
    ensures { result ≡ number_of (view value.now) }
{
    value.as_u64().ok_or(What::WrongType)
}

/// `WrongType` but for a text.
pub fn text_of(value: &Value) -> Result<&str, What>
    ensures { MatchResult result (λ text. text_of (view value.now) ≡ Ok text.now)
        (λ what. text_of (view value.now) ≡ Err what) }
{
    value.as_str().ok_or(What::WrongType)
}

/// A text that may stand in a row: else `BadText`.
pub fn row_text_of(alloc: Global, value: &Value) -> Result<Text, Unread>
    ensures { Gives result (row_text_of (view value.now)) }
{
    let text = text_of(value)?;
    row_text_from(alloc, text)
}

/// A text that lists serials: else `BadSerials`.
pub fn serials_of(alloc: Global, value: &Value) -> Result<Serials, Unread>
    ensures { Gives result (serials_of (view value.now)) }
{
    let text = text_of(value)?;
    listed(alloc, text)
}

/// A text that is a key: else `BadKey`.
pub fn key_of(alloc: Global, value: &Value) -> Result<Key, Unread>
    ensures { Gives result (key_of (view value.now)) }
{
    let text = text_of(value)?;
    let key = Key::new(String::from_str(alloc, text)?).ok_or(What::BadKey)?;
    Ok(key)
}

/// A member that may be missing or null.
pub fn given<'a>(object: &'a Value, name: &str) -> Option<&'a Value>
    ensures { option_map (λ value. view value.now) result ≡ given name.now (view object.now) }
{
    let value = object.get(name)?;
    if value.is_null() { None } else { Some(value) }
}

/// A member that has to be there: else `NoField`.
pub fn member<'a>(object: &'a Value, name: &str) -> Result<&'a Value, What>
    ensures { MatchResult result
        (λ value. member_in name.now (view object.now) ≡ Ok (view value.now))
        (λ what. member_in name.now (view object.now) ≡ Err what) }
{
    object.get(name).ok_or(What::NoField)
}

/// Any text.
pub fn text<'a>(object: &'a Value, name: &str) -> Result<&'a str, What>
    ensures { MatchResult result (λ text. text_in name.now (view object.now) ≡ Ok text.now)
        (λ what. text_in name.now (view object.now) ≡ Err what) }
{
    let value = member(object, name)?;
    text_of(value)
}

/// Whether each of the values is a text.
pub fn are_texts(values: &[Value]) -> bool
    ensures { result ≡ are_texts (items_view values.now) }
{
    for value in values {
        if !value.is_string() {
            return false;
        }
    }
    true
}
