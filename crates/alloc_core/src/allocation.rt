//! The rows of allocations.
ghost use Rattle.std.specs.Prelude.{◌≡◌, ◌∷◌, []};
ghost use Rattle.sheet_core.specs.Indexed.{index_key_of};
ghost use Rattle.alloc_core.specs.AllocationColumns.{allocation_columns, allocation_from};
ghost use Rattle.alloc_core.specs.AllocationKeys.{allocation_keys, item_key};

use crate::purpose::{AllocationLookup, Purpose, purpose_at};
use part_core::column::{has, number_at};
use part_core::{Column, ColumnFault, Id, Indexed, Quantity, Row, Seed, Stored};
use std::alloc::{AllocError, Global};
use std::hash::Hash;

/// An amount of an item that is meant for an order or a build.
#[derive(Drop, Debug)]
pub struct Allocation {
    pub number: Id,
    pub item: Id,
    /// 1 to 1,000,000,000.
    pub quantity: Quantity,
    pub purpose: Purpose,
}

impl Row for Allocation {
    type Key = u64;

    ghost key_of = { λ row. row.number ∷ [] };

    fn key(&self, _alloc: Global) -> Result<u64, AllocError> {
        Ok(self.number)
    }

    fn equals(&self, other: &Self) -> bool {
        if self.number != other.number {
            return false;
        }
        if self.item != other.item {
            return false;
        }
        if self.quantity != other.quantity {
            return false;
        }
        self.purpose.equals(&other.purpose)
    }

    fn copy(&self, _alloc: Global) -> Result<Self, AllocError> {
        Ok(Allocation {
            number: self.number,
            item: self.item,
            quantity: self.quantity,
            purpose: self.purpose.copy(),
        })
    }
}

/// The look-up of the item's allocations.
pub fn item_key(number: Id) -> AllocationLookup
    ensures { index_key_of (⟦<AllocationLookup as Hash>⟧.hash_input result) ≡ item_key number }
{
    AllocationLookup::Item(number)
}

impl Indexed for Allocation {
    ghost index_keys = { allocation_keys };

    fn index_key(&self, seed: &Seed, place: usize) -> Option<u64> {
        if place == 0 {
            return Some(seed.hash_of(item_key(self.item)));
        }
        self.purpose.index_key(seed, place - 1)
    }
}

impl Stored for Allocation {
    ghost columns_of = { allocation_columns };

    ghost row_from = { allocation_from };

    #[tactic(auto, using(crate::proofs::RowColumns::allocation_read))]
    fn columns(&self, alloc: Global) -> Result<Vec<Column>, AllocError> {
        Ok(vec![in alloc;
            Column::Whole(self.number),
            Column::Whole(self.item),
            Column::Whole(self.quantity),
            Column::Whole(self.purpose.side()),
            Column::Whole(self.purpose.owner()),
            Column::Whole(self.purpose.line()),
            Column::Whole(self.purpose.output()),
        ]?)
    }

    fn from_columns(_alloc: Global, columns: &[Column]) -> Result<Self, ColumnFault> {
        has(columns, 7)?;
        let number = number_at(columns, 0)?;
        let item = number_at(columns, 1)?;
        let quantity = number_at(columns, 2)?;
        let purpose = purpose_at(columns)?;
        Ok(Allocation {
            number,
            item,
            quantity,
            purpose,
        })
    }
}
