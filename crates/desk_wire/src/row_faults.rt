//! The field of a row that can't be read.
ghost use Rattle.std.specs.Prelude.{◌≡◌, IfOk, Some, is_err, option_map};
ghost use Rattle.csv.specs.Records.{fields_of};
ghost use Rattle.desk_wire.specs.declared.kind.ImportKind.TheVariants as kinds;
ghost use Rattle.desk_wire.specs.Faults.{shown_field};
ghost use Rattle.desk_wire.specs.Imports.{batch_of, serials_of, wrong_in_row};
ghost use Rattle.desk_wire.specs.Layouts.{placed};
ghost use Rattle.desk_wire.specs.RowWords.{row_at_word};

use crate::fault::{Unread, WrongField};
use crate::kind::ImportKind;
use crate::number::{number_in, row_number_in};
use crate::row::{batch, field};
use crate::row_words::row_at_word;
use crate::serial_count::lists_serials;
use csv::StringRecord;
use desk_core::Names;
use part_core::RowKind;
use std::alloc::{AllocError, Global};

/// A field of a row: its name, and which of the row's fields it is.
#[derive(Clone, Copy)]
struct WrongPlace {
    name: &'static str,
    index: usize,
}

/// The field of that name.
fn wrong_at(name: &'static str, index: usize) -> Option<WrongPlace>
    ensures { result ≡ Some (record { name = name.entry; index = index }) }
{
    Some(WrongPlace { name, index })
}

/// Whether the word says no row of that table.
fn says_no_row<N: Names>(
    alloc: Global,
    names: Option<&N>,
    table: RowKind,
    name: &'static str,
    word: &str,
) -> Result<bool, AllocError>
    ensures { IfOk result (λ wrong. wrong ≡ is_err (row_at_word
        (option_map (λ n. N.naming_of n.now) names.entry) table name.now word.now)) }
{
    match row_at_word(alloc, names, table, name, word) {
        Ok(_) => Ok(false),
        Err(Unread::Wrong(_)) => Ok(true),
        Err(Unread::Memory) => Err(AllocError),
    }
}

fn is_no_batch(alloc: Global, text: &str) -> Result<bool, AllocError>
    ensures { IfOk result (λ wrong. wrong ≡ is_err (batch_of text.now)) }
{
    match batch(alloc, text) {
        Ok(_) => Ok(false),
        Err(Unread::Wrong(_)) => Ok(true),
        Err(Unread::Memory) => Err(AllocError),
    }
}

fn are_no_serials(text: &str) -> bool
    ensures { result ≡ is_err (serials_of text.now) }
{
    !text.is_empty() && !lists_serials(text)
}

/// The first field of a receipt that can't be read.
#[tactic(auto, using(crate::proofs::RowFaults::first_faults))]
fn wrong_in_receipt<N: Names>(
    alloc: Global,
    names: Option<&N>,
    row: &StringRecord,
) -> Result<Option<WrongPlace>, AllocError>
    ensures { IfOk result (λ place. option_map (placed (fields_of row.now)) place ≡ wrong_in_row
        (option_map (λ n. N.naming_of n.now) names.entry) kinds.Receipts (fields_of row.now)) }
{
    if row_number_in(field(row, 0)).is_none() {
        return Ok(wrong_at("number", 0));
    }
    if says_no_row(alloc, names, RowKind::OrderLine, "line", field(row, 1))? {
        return Ok(wrong_at("line", 1));
    }
    if says_no_row(alloc, names, RowKind::Location, "location", field(row, 2))? {
        return Ok(wrong_at("location", 2));
    }
    if number_in(field(row, 3)).is_none() {
        return Ok(wrong_at("quantity", 3));
    }
    if is_no_batch(alloc, field(row, 4))? {
        return Ok(wrong_at("batch", 4));
    }
    if are_no_serials(field(row, 5)) {
        return Ok(wrong_at("serials", 5));
    }
    Ok(None)
}

/// The first field of a count that can't be read.
#[tactic(auto, using(crate::proofs::RowFaults::first_faults))]
fn wrong_in_count<N: Names>(
    alloc: Global,
    names: Option<&N>,
    row: &StringRecord,
) -> Result<Option<WrongPlace>, AllocError>
    ensures { IfOk result (λ place. option_map (placed (fields_of row.now)) place ≡ wrong_in_row
        (option_map (λ n. N.naming_of n.now) names.entry) kinds.Counts (fields_of row.now)) }
{
    if row_number_in(field(row, 0)).is_none() {
        return Ok(wrong_at("number", 0));
    }
    if says_no_row(alloc, names, RowKind::Item, "item", field(row, 1))? {
        return Ok(wrong_at("item", 1));
    }
    if number_in(field(row, 2)).is_none() {
        return Ok(wrong_at("quantity", 2));
    }
    Ok(None)
}

fn wrong_place<N: Names>(
    alloc: Global,
    names: Option<&N>,
    kind: ImportKind,
    row: &StringRecord,
) -> Result<Option<WrongPlace>, AllocError>
    ensures { IfOk result (λ place. option_map (placed (fields_of row.now)) place ≡ wrong_in_row
        (option_map (λ n. N.naming_of n.now) names.entry) kind (fields_of row.now)) }
{
    match kind {
        ImportKind::Receipts => wrong_in_receipt(alloc, names, row),
        ImportKind::Counts => wrong_in_count(alloc, names, row),
    }
}

/// The first field of a row that can't be read, and what stands in it.
pub fn wrong_field<N: Names>(
    alloc: Global,
    names: Option<&N>,
    kind: ImportKind,
    row: &StringRecord,
) -> Result<Option<WrongField>, AllocError>
    ensures { IfOk result (λ wrong. option_map shown_field wrong ≡ wrong_in_row
        (option_map (λ n. N.naming_of n.now) names.entry) kind (fields_of row.now)) }
{
    let Some(place) = wrong_place(alloc, names, kind, row)? else {
        return Ok(None);
    };
    let name = String::from_str(alloc, place.name)?;
    let text = String::from_str(alloc, field(row, place.index))?;
    Ok(Some(WrongField {
        name,
        text: Some(text),
    }))
}
