//! The history of the stock.
ghost use Rattle.std.specs.Prelude.{◌≡◌, ◌↔◌, ◌∷◌, [], IsTrue, Some};
ghost use Rattle.forest.specs.EntryColumns.{entry_columns, entry_from, note_at};
ghost use Rattle.forest.specs.Forest.{kind_code};
ghost use Rattle.forest.specs.PlaceColumns.{kind_at, kind_of};
ghost use Rattle.sheet_core.specs.Columns.{Finds};

use crate::column::{day_at, day_column};
use crate::place::{Place, place_at};
use sheet_core::column::{has, number_at};
use sheet_core::{Column, ColumnFault, Row, Stored};
use std::alloc::{AllocError, Global};
use word_core::{Day, Id, Quantity};

/// What an entry records.
#[derive(Clone, Copy, Debug, PartialEq, Eq)]
pub enum Kind {
    Received,
    Found,
    Built,
    Consumed,
    Shipped,
    Returned,
    Written,
    Moved,
    Cut,
    Poured,
    Installed,
    TakenOut,
    Marked,
}

/// What an entry says, without its number and its day.
#[derive(Clone, Copy, Debug)]
pub struct Note {
    pub kind: Kind,
    pub item: Id,
    pub part: Id,
    pub quantity: Quantity,
    pub place: Place,
}

/// An entry of the history. Entries are numbered from 1 without gaps, and none is changed.
#[derive(Clone, Copy, Debug)]
pub struct Entry {
    pub number: u64,
    pub day: Day,
    pub note: Note,
}

impl Kind {
    /// The kind's number.
    pub fn code(self) -> u64
        ensures { result ≡ kind_code self }
    {
        match self {
            Kind::Received => 0,
            Kind::Found => 1,
            Kind::Built => 2,
            Kind::Consumed => 3,
            Kind::Shipped => 4,
            Kind::Returned => 5,
            Kind::Written => 6,
            Kind::Moved => 7,
            Kind::Cut => 8,
            Kind::Poured => 9,
            Kind::Installed => 10,
            Kind::TakenOut => 11,
            Kind::Marked => 12,
        }
    }

    /// The kind of that number, none where there is none.
    pub fn from_code(code: u64) -> Option<Kind>
        ensures { result ≡ kind_of code }
    {
        match code {
            0 => Some(Kind::Received),
            1 => Some(Kind::Found),
            2 => Some(Kind::Built),
            3 => Some(Kind::Consumed),
            4 => Some(Kind::Shipped),
            5 => Some(Kind::Returned),
            6 => Some(Kind::Written),
            7 => Some(Kind::Moved),
            8 => Some(Kind::Cut),
            9 => Some(Kind::Poured),
            10 => Some(Kind::Installed),
            11 => Some(Kind::TakenOut),
            12 => Some(Kind::Marked),
            _ => None,
        }
    }

    /// Whether the kinds are the same.
    pub fn equals(self, other: Kind) -> bool
        ensures { IsTrue result ↔ (self ≡ other) }
    {
        self == other
    }
}

impl Note {
    /// Whether the notes are equal.
    pub fn equals(&self, other: &Note) -> bool
        ensures { IsTrue result ↔ (self.now ≡ other.now) }
    {
        if !self.kind.equals(other.kind) {
            return false;
        }
        if self.item != other.item {
            return false;
        }
        if self.part != other.part {
            return false;
        }
        if self.quantity != other.quantity {
            return false;
        }
        self.place.equals(&other.place)
    }
}

/// The kind in the column.
fn kind_at(columns: &[Column], at: usize) -> Result<Kind, ColumnFault>
    ensures { Finds result (kind_at at columns.now) }
{
    let code = number_at(columns, at)?;
    Kind::from_code(code).ok_or(ColumnFault::NoRow)
}

/// What an entry's columns say behind its number and its day.
fn note_at(columns: &[Column]) -> Result<Note, ColumnFault>
    ensures { Finds result (note_at columns.now) }
{
    let kind = kind_at(columns, 2)?;
    let item = number_at(columns, 3)?;
    let part = number_at(columns, 4)?;
    let quantity = number_at(columns, 5)?;
    let place = place_at(columns, 6)?;
    Ok(Note {
        kind,
        item,
        part,
        quantity,
        place,
    })
}

impl Row for Entry {
    type Key = u64;

    ghost key_of = { λ row. row.number ∷ [] };

    fn key(&self, _alloc: Global) -> Result<u64, AllocError> {
        Ok(self.number)
    }

    fn equals(&self, other: &Self) -> bool {
        if self.number != other.number {
            return false;
        }
        if !self.day.equals(&other.day) {
            return false;
        }
        self.note.equals(&other.note)
    }

    fn copy(&self, _alloc: Global) -> Result<Self, AllocError> {
        Ok(*self)
    }
}

impl Stored for Entry {
    ghost columns_of = { entry_columns };

    ghost row_from = { entry_from };

    #[tactic(auto, using(crate::proofs::RowColumns::entry_read))]
    fn columns(&self, alloc: Global) -> Result<Vec<Column>, AllocError> {
        let day = day_column(alloc, &self.day)?;
        let note = self.note;
        Ok(vec![in alloc;
            Column::Whole(self.number),
            day,
            Column::Whole(note.kind.code()),
            Column::Whole(note.item),
            Column::Whole(note.part),
            Column::Whole(note.quantity),
            Column::Whole(note.place.code()),
            Column::Whole(note.place.reference()),
        ]?)
    }

    fn from_columns(alloc: Global, columns: &[Column]) -> Result<Self, ColumnFault> {
        has(columns, 8)?;
        let number = number_at(columns, 0)?;
        let day = day_at(alloc, columns, 1)?;
        let note = note_at(columns)?;
        Ok(Entry { number, day, note })
    }
}
