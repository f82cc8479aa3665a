//! The fields of a command, taken one after another.
ghost use Rattle.std.specs.Prelude.{◌≡◌};
ghost use Rattle.word_core.specs.Fields.{end, first, rest};
ghost use Rattle.word_core.specs.declared.field.FieldKind.{FieldKind};

use crate::field::{Field, RowKind};
use crate::{Flags, Ids, Serials, Side, Status, Text};
use std::marker::Model;
use std::vec::IntoIter;

/// What is left of a command's fields. A call for a kind takes the next field, whatever it is, and gives what
/// stands in it: none where it is of another kind, or no field is left.
#[derive(Drop)]
pub struct Fields {
    rest: IntoIter<Field>,
}

impl Model for Fields {
    ghost use Rattle.std.specs.Prelude.{List};
    ghost use Rattle.std.specs.Vec.Iter.{into_iter_items};
    ghost use Rattle.word_core.specs.declared.field.Field.{Field};

    ghost Value = { List Field };

    ghost view = { λ a. into_iter_items a.rest };
}

impl Fields {
    pub fn new(fields: Vec<Field>) -> Self
        ensures { result ≡ fields.items }
    {
        Fields {
            rest: fields.into_iter(),
        }
    }

    pub fn number(&mut self) -> Option<u64>
        ensures value { result ≡ first FieldKind.Number self.old }
        ensures rest { self.new ≡ rest self.old }
    {
        match self.rest.next() {
            Some(Field::Number(number)) => Some(number),
            _ => None,
        }
    }

    /// The number of a row of that table.
    pub fn row(&mut self, table: RowKind) -> Option<u64>
        ensures value { result ≡ first (FieldKind.Row table) self.old }
        ensures rest { self.new ≡ rest self.old }
    {
        match self.rest.next() {
            Some(Field::Number(number)) => Some(number),
            _ => None,
        }
    }

    pub fn maybe_row(&mut self, table: RowKind) -> Option<Option<u64>>
        ensures value { result ≡ first (FieldKind.MaybeRow table) self.old }
        ensures rest { self.new ≡ rest self.old }
    {
        match self.rest.next() {
            Some(Field::MaybeNumber(number)) => Some(number),
            _ => None,
        }
    }

    pub fn text(&mut self) -> Option<Text>
        ensures value { result ≡ first FieldKind.Text self.old }
        ensures rest { self.new ≡ rest self.old }
    {
        match self.rest.next() {
            Some(Field::Text(text)) => Some(text),
            _ => None,
        }
    }

    pub fn maybe_text(&mut self) -> Option<Option<Text>>
        ensures value { result ≡ first FieldKind.MaybeText self.old }
        ensures rest { self.new ≡ rest self.old }
    {
        match self.rest.next() {
            Some(Field::MaybeText(text)) => Some(text),
            _ => None,
        }
    }

    pub fn yes(&mut self) -> Option<bool>
        ensures value { result ≡ first FieldKind.Yes self.old }
        ensures rest { self.new ≡ rest self.old }
    {
        match self.rest.next() {
            Some(Field::Yes(yes)) => Some(yes),
            _ => None,
        }
    }

    pub fn flags(&mut self) -> Option<Flags>
        ensures value { result ≡ first FieldKind.Flags self.old }
        ensures rest { self.new ≡ rest self.old }
    {
        match self.rest.next() {
            Some(Field::Flags(flags)) => Some(flags),
            _ => None,
        }
    }

    pub fn status(&mut self) -> Option<Status>
        ensures value { result ≡ first FieldKind.Status self.old }
        ensures rest { self.new ≡ rest self.old }
    {
        match self.rest.next() {
            Some(Field::Status(status)) => Some(status),
            _ => None,
        }
    }

    pub fn side(&mut self) -> Option<Side>
        ensures value { result ≡ first FieldKind.Side self.old }
        ensures rest { self.new ≡ rest self.old }
    {
        match self.rest.next() {
            Some(Field::Side(side)) => Some(side),
            _ => None,
        }
    }

    pub fn serials(&mut self) -> Option<Serials>
        ensures value { result ≡ first FieldKind.Serials self.old }
        ensures rest { self.new ≡ rest self.old }
    {
        match self.rest.next() {
            Some(Field::Serials(serials)) => Some(serials),
            _ => None,
        }
    }

    pub fn maybe_serials(&mut self) -> Option<Option<Serials>>
        ensures value { result ≡ first FieldKind.MaybeSerials self.old }
        ensures rest { self.new ≡ rest self.old }
    {
        match self.rest.next() {
            Some(Field::MaybeSerials(serials)) => Some(serials),
            _ => None,
        }
    }

    pub fn rows(&mut self, table: RowKind) -> Option<Ids>
        ensures value { result ≡ first (FieldKind.Rows table) self.old }
        ensures rest { self.new ≡ rest self.old }
    {
        match self.rest.next() {
            Some(Field::Numbers(numbers)) => Some(numbers),
            _ => None,
        }
    }

    /// That no field is left: none where one is.
    pub fn end(mut self) -> Option<()>
        ensures { result ≡ end self }
    {
        match self.rest.next() {
            None => Some(()),
            Some(_) => None,
        }
    }
}
