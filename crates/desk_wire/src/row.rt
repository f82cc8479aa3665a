//! A record, as a row.
ghost use Rattle.std.specs.Prelude.{◌≡◌, true, map, IfOk, option_map};
ghost use Rattle.std.specs.Cmp.Lexicographic.{pointwise};
ghost use Rattle.std.specs.Str.{bytes_eq};
ghost use Rattle.std.specs.Str.Parse.{digits_value};
ghost use Rattle.csv.specs.Records.{fields_of};
ghost use Rattle.desk_wire.specs.declared.kind.ImportKind.TheVariants as kinds;
ghost use Rattle.desk_wire.specs.Numbers.{is_row_number};
ghost use Rattle.desk_wire.specs.Records.{are_texts};
ghost use Rattle.desk_wire.specs.Steps.{Gives, GivesBy};
ghost use Rattle.desk_wire.specs.RowCommands.{command_by};
ghost use Rattle.desk_wire.specs.Imports.{names_of, field, batch_of, serials_of, command_of, key_of, row_of};
ghost use Rattle.desk_wire.specs.Imports.{quantity_at, still_booked};
ghost use Rattle.desk_core.specs.ShopView.{state_of};
ghost use Rattle.desk_wire.specs.RowWords.{number_of};

use crate::document::Document;
use crate::fault::{Unread, What};
use crate::kind::ImportKind;
use crate::number::{number_in, row_number_in};
use crate::row_command::RowCommand;
use crate::row_words::row_at_word;
use crate::serial_list::SerialList;
use crate::texts::row_text_from;
use csv::StringRecord;
use desk_core::{Key, Names, Request, Shop};
use part_core::{Batch, Day, RowKind};
use std::alloc::{AllocError, Global};
use std::marker::Model;

/// A row of a file: its number, which is 1 to 999,999,999, and the request that it is. Its serials are kept as they were
/// written, so that many rows take little more room than their file. A clause sees the number and the request.
#[derive(Drop)]
pub struct ImportRow {
    number: u64,
    key: Key,
    day: Day,
    command: RowCommand,
}

impl Model for ImportRow {
    ghost use Rattle.desk_wire.specs.NumberedRequests.{NumberedRequest};

    ghost Value = { NumberedRequest };

    ghost use Rattle.desk_wire.specs.ImportRows.{row_kept};

    ghost view = { row_kept };
}

impl ImportRow {
    /// The row's number.
    pub fn number(&self) -> u64
        ensures { result ≡ self.now.number }
    {
        self.number
    }

    /// What the books have now of the item or the line that the row is of: of a row that was done before, and of what isn't
    /// there, nothing is told.
    pub fn still_booked(&self, shop: &Shop) -> Option<u64>
        ensures { result ≡ still_booked (state_of shop.now) self.now.request }
    {
        if shop.answers().get(self.key.text()).is_some() {
            return None;
        }
        self.command.booked(shop)
    }

    /// The request that the row is, with its serials made out.
    pub fn request(&self, alloc: Global) -> Result<Request, AllocError>
        ensures { IfOk result (λ request. request ≡ self.now.request) }
    {
        let key = self.key.copy(alloc)?;
        let command = self.command.command(alloc)?;
        Ok(Request {
            key: Some(key),
            day: self.day,
            command,
        })
    }
}

/// The header of a file.
pub fn header(kind: ImportKind) -> &'static [&'static str]
    ensures { map (λ name. name.now) result.now ≡ names_of kind }
{
    match kind {
        ImportKind::Receipts => &["number", "line", "location", "quantity", "batch", "serials"],
        ImportKind::Counts => &["number", "item", "quantity"],
    }
}

/// Which of a row's fields is the quantity.
pub fn quantity_at(kind: ImportKind) -> usize
    ensures { result ≡ quantity_at kind }
{
    match kind {
        ImportKind::Receipts => 3,
        ImportKind::Counts => 2,
    }
}

/// The field at that place: empty where the record ends before it.
pub fn field(fields: &StringRecord, index: usize) -> &str
    ensures { result.now ≡ field index (fields_of fields.now) }
{
    fields.get(index).unwrap_or("")
}

/// Whether the fields are these names, in this order.
fn are_names(names: &[&str], fields: &StringRecord) -> bool
    ensures { result ≡ pointwise bytes_eq (map (λ name. name.now) names.now)
        (fields_of fields.now) }
{
    if names.len() != fields.len() {
        return false;
    }
    for (index, name) in names.iter().enumerate() {
        if *name != field(fields, index) {
            return false;
        }
    }
    true
}

/// Whether a record is the header of a file.
pub fn is_header(kind: ImportKind, fields: &StringRecord) -> bool
    ensures { result ≡ pointwise bytes_eq (names_of kind) (fields_of fields.now) }
{
    are_names(header(kind), fields)
}

/// 1 to 19 digits: else `WrongType`.
fn number(fields: &StringRecord, index: usize) -> Result<u64, What>
    ensures { result ≡ number_of (field index (fields_of fields.now)) }
{
    let text = field(fields, index);
    number_in(text).ok_or(What::WrongType)
}

/// A batch, or none where the field is empty.
pub fn batch(alloc: Global, text: &str) -> Result<Option<Batch>, Unread>
    ensures { Gives result (batch_of text.now) }
{
    if text.is_empty() {
        return Ok(None);
    }
    let batch = row_text_from(alloc, text)?;
    Ok(Some(batch))
}

/// Serials, or none where the field is empty.
fn serials(alloc: Global, text: &str) -> Result<Option<SerialList>, Unread>
    ensures { Gives result (serials_of text.now) }
{
    if text.is_empty() {
        return Ok(None);
    }
    let serials = SerialList::new(alloc, text)?;
    Ok(Some(serials))
}

fn receive<N: Names>(
    alloc: Global,
    names: Option<&N>,
    fields: &StringRecord,
) -> Result<RowCommand, Unread>
    ensures { GivesBy command_by result (command_of (option_map (λ n. N.naming_of n.now) names.entry)
        kinds.Receipts (fields_of fields.now)) }
{
    let line = row_at_word(alloc, names, RowKind::OrderLine, "line", field(fields, 1))?;
    let location = row_at_word(
        alloc,
        names,
        RowKind::Location,
        "location",
        field(fields, 2),
    )?;
    let quantity = number(fields, 3)?;
    let batch = batch(alloc, field(fields, 4))?;
    let serials = serials(alloc, field(fields, 5))?;
    Ok(RowCommand::Receive {
        line,
        location,
        quantity,
        batch,
        serials,
    })
}

fn count<N: Names>(
    alloc: Global,
    names: Option<&N>,
    fields: &StringRecord,
) -> Result<RowCommand, Unread>
    ensures { GivesBy command_by result (command_of (option_map (λ n. N.naming_of n.now) names.entry)
        kinds.Counts (fields_of fields.now)) }
{
    let item = row_at_word(alloc, names, RowKind::Item, "item", field(fields, 1))?;
    let quantity = number(fields, 2)?;
    Ok(RowCommand::Count { item, quantity })
}

/// The command of a row, or the first fault of its fields after the number.
fn command<N: Names>(
    alloc: Global,
    names: Option<&N>,
    kind: ImportKind,
    fields: &StringRecord,
) -> Result<RowCommand, Unread>
    ensures { GivesBy command_by result (command_of (option_map (λ n. N.naming_of n.now) names.entry)
        kind (fields_of fields.now)) }
{
    match kind {
        ImportKind::Receipts => receive(alloc, names, fields),
        ImportKind::Counts => count(alloc, names, fields),
    }
}

/// The key of the row of that number, as it is written.
fn row_key(
    alloc: Global,
    kind: ImportKind,
    document: &Document,
    number: &str,
) -> Result<Key, AllocError>
    requires { is_row_number number.now ≡ true }
    ensures { IfOk result (λ key. key ≡ key_of kind document.now (digits_value 10 number.now)) }
{
    let mut text = String::from_str(alloc, kind.name())?;
    text.push_str("/")?;
    text.push_str(document.as_str())?;
    text.push_str("/")?;
    text.push_str(number)?;
    Ok(Key::new(text).unwrap())
}

/// The row that a record of texts is: `Csv` where it has another number of fields than the header, else
/// the first fault of its fields, from left to right.
#[tactic(auto, unfolding(crate::specs::Imports::row_of))]
pub fn row<N: Names>(
    alloc: Global,
    names: Option<&N>,
    kind: ImportKind,
    document: &Document,
    day: Day,
    fields: &StringRecord,
) -> Result<ImportRow, Unread>
    requires { are_texts (fields_of fields.now) ≡ true }
    ensures { Gives result (row_of (option_map (λ n. N.naming_of n.now) names.entry) kind document.now
        day (fields_of fields.now)) }
{
    if fields.len() != header(kind).len() {
        return Err(Unread::Wrong(What::Csv));
    }
    let text = field(fields, 0);
    let number = row_number_in(text).ok_or(What::WrongType)?;
    let key = row_key(alloc, kind, document, text)?;
    let command = command(alloc, names, kind, fields)?;
    Ok(ImportRow {
        number,
        key,
        day,
        command,
    })
}
