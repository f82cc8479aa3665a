//! The rows of builds.
ghost use Rattle.std.specs.Prelude.{◌≡◌, ◌∷◌, []};
ghost use Rattle.sheet_core.specs.Indexed.{index_key_of};
ghost use Rattle.sheet_core.specs.Columns.{Finds};
ghost use Rattle.build_core.specs.BuildColumns.{build_columns, build_from, state_at};
ghost use Rattle.build_core.specs.BuildKeys.{build_keys, open_key};

use crate::state::BuildState;
use part_core::column::{has, number_at};
use part_core::{Column, ColumnFault, Id, Indexed, Quantity, Row, Seed, Stored};
use std::alloc::{AllocError, Global};
use std::hash::Hash;

/// So many of an assembly that are to be built.
#[derive(Drop, Debug)]
pub struct Build {
    pub number: Id,
    /// The assembly.
    pub part: Id,
    /// 1 to 1,000,000,000.
    pub quantity: Quantity,
    pub state: BuildState,
    /// How many are built: at most the quantity.
    pub done: Quantity,
}

/// What the open builds are looked up by, besides their numbers. One that isn't open is found by its number alone.
#[derive(Clone, Copy, Debug, PartialEq, Eq, Hash)]
pub struct OpenBuilds;

/// The look-up of the open builds.
pub fn open_key() -> OpenBuilds
    ensures { index_key_of (⟦<OpenBuilds as Hash>⟧.hash_input result) ≡ open_key }
{
    OpenBuilds
}

/// The state in the column.
fn state_at(columns: &[Column], at: usize) -> Result<BuildState, ColumnFault>
    ensures { Finds result (state_at at columns.now) }
{
    let code = number_at(columns, at)?;
    BuildState::from_code(code).ok_or(ColumnFault::NoRow)
}

impl Row for Build {
    type Key = u64;

    ghost key_of = { λ row. row.number ∷ [] };

    fn key(&self, _alloc: Global) -> Result<u64, AllocError> {
        Ok(self.number)
    }

    fn equals(&self, other: &Self) -> bool {
        if self.number != other.number {
            return false;
        }
        if self.part != other.part {
            return false;
        }
        if self.quantity != other.quantity {
            return false;
        }
        if !self.state.equals(other.state) {
            return false;
        }
        self.done == other.done
    }

    fn copy(&self, _alloc: Global) -> Result<Self, AllocError> {
        Ok(Build {
            number: self.number,
            part: self.part,
            quantity: self.quantity,
            state: self.state,
            done: self.done,
        })
    }
}

impl Indexed for Build {
    ghost index_keys = { build_keys };

    fn index_key(&self, seed: &Seed, place: usize) -> Option<u64> {
        if !self.state.is_open() {
            return None;
        }
        match place {
            0 => Some(seed.hash_of(open_key())),
            _ => None,
        }
    }
}

impl Stored for Build {
    ghost columns_of = { build_columns };

    ghost row_from = { build_from };

    #[tactic(auto, using(crate::proofs::BuildColumns::build_read))]
    fn columns(&self, alloc: Global) -> Result<Vec<Column>, AllocError> {
        Ok(vec![in alloc;
            Column::Whole(self.number),
            Column::Whole(self.part),
            Column::Whole(self.quantity),
            Column::Whole(self.state.code()),
            Column::Whole(self.done),
        ]?)
    }

    fn from_columns(_alloc: Global, columns: &[Column]) -> Result<Self, ColumnFault> {
        has(columns, 5)?;
        let number = number_at(columns, 0)?;
        let part = number_at(columns, 1)?;
        let quantity = number_at(columns, 2)?;
        let state = state_at(columns, 3)?;
        let done = number_at(columns, 4)?;
        Ok(Build {
            number,
            part,
            quantity,
            state,
            done,
        })
    }
}
