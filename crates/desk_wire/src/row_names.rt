//! The number of a row, as a field says it: the number itself or, where names are allowed, what a clerk calls the row.
//!
//! - A text is the name of a part, or of a category or a location at the top; where none at the top is called so, it is a
//!   way to a category or a location, with ` / ` between two names, as lists show it.
//! - An array of texts is the way from the top to a category or a location.
//! - An object with `key` is the one row that the request of that key made.
//! - An object with `part` and `serial` is the newest item of that part with that serial, and one that is gone only
//!   where none is left. The part is a number or a name.
//!
//! What no row is called is `NoName`, and what several are called is `Ambiguous`; both tell the field. Any other value
//! is `WrongType`, as a way without names is. In an object come first `UnknownField`, and then the faults of its
//! members in that order: `NoField`, `WrongType`, and `BadKey` or `BadSerials`. The texts of a way are all looked at
//! before the first is looked up.
ghost use Rattle.std.specs.Prelude.{◌≡◌, None, option_map};
ghost use Rattle.serde_json.specs.View.{view, items_view};
ghost use Rattle.desk_wire.specs.Steps.{Gives};
ghost use Rattle.desk_wire.specs.RowNames.{by_number, by_text, down, by_path, by_key, part_of, serial_in, item_of};
ghost use Rattle.desk_wire.specs.RowNames.{by_serial, by_object, by_name, one_row, row_of};

use crate::fault::{Unread, What};
use crate::field_name::FieldName;
use crate::members::knows_all;
use crate::text_ways::{category_by_text, location_by_text};
use crate::values::{are_texts, key_of, member, number_of, text, text_of};
use desk_core::Names;
use part_core::{Found, Id, RowKind, Serial};
use serde_json::Value;
use std::alloc::Global;

/// The row of that number, whether or not there is one.
fn by_number(value: &Value) -> Result<Found, What>
    ensures { result ≡ by_number (view value.now) }
{
    let number = number_of(value)?;
    Ok(Found::One(number))
}

pub fn by_text<N: Names>(names: &N, table: RowKind, text: &str) -> Result<Found, Unread>
    ensures { Gives result (by_text (N.naming_of names.now) table text.now) }
{
    match table {
        RowKind::Part => Ok(names.part(text)?),
        RowKind::Category => category_by_text(names, text),
        RowKind::Location => location_by_text(names, text),
        _ => Err(Unread::Wrong(What::WrongType)),
    }
}

/// The category at the end of the way.
fn down_categories<N: Names>(names: &N, values: &[Value]) -> Result<Found, Unread>
    ensures { Gives result (down (N.naming_of names.now).category None (items_view values.now)) }
{
    let mut parent = None;
    for value in values {
        let name = text_of(value)?;
        match names.category(parent, name)? {
            Found::Nothing => return Ok(Found::Nothing),
            Found::One(number) => parent = Some(number),
            Found::Several => return Ok(Found::Several),
        }
    }
    let number = parent.ok_or(What::WrongType)?;
    Ok(Found::One(number))
}

/// The location at the end of the way.
fn down_locations<N: Names>(names: &N, values: &[Value]) -> Result<Found, Unread>
    ensures { Gives result (down (N.naming_of names.now).location None (items_view values.now)) }
{
    let mut parent = None;
    for value in values {
        let name = text_of(value)?;
        match names.location(parent, name)? {
            Found::Nothing => return Ok(Found::Nothing),
            Found::One(number) => parent = Some(number),
            Found::Several => return Ok(Found::Several),
        }
    }
    let number = parent.ok_or(What::WrongType)?;
    Ok(Found::One(number))
}

fn by_path<N: Names>(names: &N, table: RowKind, values: &[Value]) -> Result<Found, Unread>
    ensures { Gives result (by_path (N.naming_of names.now) table (items_view values.now)) }
{
    match table {
        RowKind::Category => {
            if !are_texts(values) {
                return Err(Unread::Wrong(What::WrongType));
            }
            down_categories(names, values)
        }
        RowKind::Location => {
            if !are_texts(values) {
                return Err(Unread::Wrong(What::WrongType));
            }
            down_locations(names, values)
        }
        _ => Err(Unread::Wrong(What::WrongType)),
    }
}

/// The one row that the request of the key made.
fn by_key<N: Names>(alloc: Global, names: &N, object: &Value) -> Result<Found, Unread>
    ensures { Gives result (by_key (N.naming_of names.now) (view object.now)) }
{
    if !knows_all(&["key"], &[], object) {
        return Err(Unread::Wrong(What::UnknownField));
    }
    let value = member(object, "key")?;
    let key = key_of(alloc, value)?;
    Ok(names.made(&key))
}

/// A part by its number or its name.
fn part_of<N: Names>(names: &N, value: &Value) -> Result<Found, Unread>
    ensures { Gives result (part_of (N.naming_of names.now) (view value.now)) }
{
    match value.as_str() {
        None => Ok(by_number(value)?),
        Some(text) => Ok(names.part(text)?),
    }
}

fn serial(alloc: Global, object: &Value) -> Result<Serial, Unread>
    ensures { Gives result (serial_in (view object.now)) }
{
    let text = text(object, "serial")?;
    let serial = Serial::new(String::from_str(alloc, text)?).ok_or(What::BadSerials)?;
    Ok(serial)
}

/// The newest item of that part with the serial, of those that are left where there is one.
fn item_of<N: Names>(alloc: Global, names: &N, object: &Value, part: Id) -> Result<Found, Unread>
    ensures { Gives result (item_of (N.naming_of names.now) (view object.now) part) }
{
    let serial = serial(alloc, object)?;
    Ok(names.item(part, &serial)?)
}

fn by_serial<N: Names>(alloc: Global, names: &N, object: &Value) -> Result<Found, Unread>
    ensures { Gives result (by_serial (N.naming_of names.now) (view object.now)) }
{
    if !knows_all(&["part", "serial"], &[], object) {
        return Err(Unread::Wrong(What::UnknownField));
    }
    let value = member(object, "part")?;
    match part_of(names, value)? {
        Found::Nothing => Ok(Found::Nothing),
        Found::One(part) => item_of(alloc, names, object, part),
        Found::Several => Ok(Found::Several),
    }
}

fn by_object<N: Names>(
    alloc: Global,
    names: &N,
    table: RowKind,
    object: &Value,
) -> Result<Found, Unread>
    ensures { Gives result (by_object (N.naming_of names.now) table (view object.now)) }
{
    if object.get("key").is_some() {
        return by_key(alloc, names, object);
    }
    match table {
        RowKind::Item => by_serial(alloc, names, object),
        _ => Err(Unread::Wrong(What::WrongType)),
    }
}

/// What a value is found to call.
pub fn by_name<N: Names>(
    alloc: Global,
    names: &N,
    table: RowKind,
    value: &Value,
) -> Result<Found, Unread>
    ensures { Gives result (by_name (N.naming_of names.now) table (view value.now)) }
{
    if let Some(text) = value.as_str() {
        return by_text(names, table, text);
    }
    if let Some(values) = value.as_array() {
        return by_path(names, table, values);
    }
    if value.is_object() {
        return by_object(alloc, names, table, value);
    }
    Ok(by_number(value)?)
}

/// The one row that was found for the field of that name.
pub fn one_row(field: &'static str, found: Found) -> Result<Id, What>
    ensures { result ≡ one_row field.now found }
{
    match found {
        Found::Nothing => Err(What::NoName(FieldName::new(field))),
        Found::One(number) => Ok(number),
        Found::Several => Err(What::Ambiguous(FieldName::new(field))),
    }
}

/// The row of that table, as the field of that name says it: by its number or, where names are allowed, by its name.
pub fn row_of<N: Names>(
    alloc: Global,
    names: Option<&N>,
    table: RowKind,
    field: &'static str,
    value: &Value,
) -> Result<Id, Unread>
    ensures { Gives result (row_of (option_map (λ n. N.naming_of n.now) names.entry) table field.now
        (view value.now)) }
{
    match names {
        None => Ok(number_of(value)?),
        Some(names) => {
            let found = by_name(alloc, names, table, value)?;
            Ok(one_row(field, found)?)
        }
    }
}
