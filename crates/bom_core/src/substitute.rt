//! Substitutes on lines of bills.
ghost use Rattle.std.specs.Prelude.{◌≡◌, ◌∷◌, []};
ghost use Rattle.sheet_core.specs.Indexed.{index_key_of};
ghost use Rattle.bom_core.specs.BillColumns.{substitute_columns, substitute_from};
ghost use Rattle.bom_core.specs.BillKeys.{of_part_key, on_line_key, substitute_keys};

use part_core::column::{has, number_at};
use part_core::{Column, ColumnFault, Id, Indexed, Row, Seed, Stored};
use std::alloc::{AllocError, Global};
use std::hash::Hash;

/// A part that may go in for a line's component.
#[derive(Drop, Debug)]
pub struct Substitute {
    pub number: Id,
    pub line: Id,
    pub part: Id,
}

/// What a substitute is looked up by, besides its number.
#[derive(Clone, Copy, Debug, PartialEq, Eq, Hash)]
pub enum SubstituteLookup {
    /// The line that it is on.
    Line(Id),
    Part(Id),
}

impl Row for Substitute {
    type Key = u64;

    ghost key_of = { λ row. row.number ∷ [] };

    fn key(&self, _alloc: Global) -> Result<u64, AllocError> {
        Ok(self.number)
    }

    fn equals(&self, other: &Self) -> bool {
        if self.number != other.number {
            return false;
        }
        if self.line != other.line {
            return false;
        }
        self.part == other.part
    }

    fn copy(&self, _alloc: Global) -> Result<Self, AllocError> {
        Ok(Substitute {
            number: self.number,
            line: self.line,
            part: self.part,
        })
    }
}

/// The look-up of the substitutes on that line.
pub fn on_line_key(number: Id) -> SubstituteLookup
    ensures { index_key_of (⟦<SubstituteLookup as Hash>⟧.hash_input result) ≡ on_line_key number }
{
    SubstituteLookup::Line(number)
}

/// The look-up of the substitutes that are that part.
pub fn of_part_key(number: Id) -> SubstituteLookup
    ensures { index_key_of (⟦<SubstituteLookup as Hash>⟧.hash_input result) ≡ of_part_key number }
{
    SubstituteLookup::Part(number)
}

impl Indexed for Substitute {
    ghost index_keys = { substitute_keys };

    fn index_key(&self, seed: &Seed, place: usize) -> Option<u64> {
        match place {
            0 => Some(seed.hash_of(on_line_key(self.line))),
            1 => Some(seed.hash_of(of_part_key(self.part))),
            _ => None,
        }
    }
}

impl Stored for Substitute {
    ghost columns_of = { substitute_columns };

    ghost row_from = { substitute_from };

    fn columns(&self, alloc: Global) -> Result<Vec<Column>, AllocError> {
        Ok(vec![in alloc;
            Column::Whole(self.number),
            Column::Whole(self.line),
            Column::Whole(self.part),
        ]?)
    }

    #[tactic(auto, using(crate::proofs::BillColumns::substitute_told))]
    fn from_columns(_alloc: Global, columns: &[Column]) -> Result<Self, ColumnFault> {
        has(columns, 3)?;
        let number = number_at(columns, 0)?;
        let line = number_at(columns, 1)?;
        let part = number_at(columns, 2)?;
        Ok(Substitute { number, line, part })
    }
}
