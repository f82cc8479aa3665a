//! Lines of orders.
ghost use Rattle.std.specs.Prelude.{◌≡◌, ◌∷◌, []};
ghost use Rattle.sheet_core.specs.Indexed.{index_key_of};
ghost use Rattle.order_core.specs.OrderColumns.{line_columns, line_from};
ghost use Rattle.order_core.specs.OrderKeys.{line_keys, of_order_key};

use part_core::column::{has, number_at};
use part_core::{Column, ColumnFault, Id, Indexed, Quantity, Row, Seed, Stored};
use std::alloc::{AllocError, Global};
use std::hash::Hash;

/// A line of an order: so many of a part. `done` is what was received or shipped of it.
#[derive(Drop, Debug)]
pub struct OrderLine {
    pub number: Id,
    pub order: Id,
    pub part: Id,
    /// 1 to 1,000,000,000.
    pub quantity: Quantity,
    /// At most the quantity.
    pub done: Quantity,
}

/// What a line is looked up by, besides its number.
#[derive(Clone, Copy, Debug, PartialEq, Eq, Hash)]
pub enum LineLookup {
    Order(Id),
}

/// The look-up of the order's lines.
pub fn of_order_key(number: Id) -> LineLookup
    ensures { index_key_of (⟦<LineLookup as Hash>⟧.hash_input result) ≡ of_order_key number }
{
    LineLookup::Order(number)
}

impl Row for OrderLine {
    type Key = u64;

    ghost key_of = { λ row. row.number ∷ [] };

    fn key(&self, _alloc: Global) -> Result<u64, AllocError> {
        Ok(self.number)
    }

    fn equals(&self, other: &Self) -> bool {
        if self.number != other.number {
            return false;
        }
        if self.order != other.order {
            return false;
        }
        if self.part != other.part {
            return false;
        }
        if self.quantity != other.quantity {
            return false;
        }
        self.done == other.done
    }

    fn copy(&self, _alloc: Global) -> Result<Self, AllocError> {
        Ok(OrderLine {
            number: self.number,
            order: self.order,
            part: self.part,
            quantity: self.quantity,
            done: self.done,
        })
    }
}

impl Indexed for OrderLine {
    ghost index_keys = { line_keys };

    fn index_key(&self, seed: &Seed, place: usize) -> Option<u64> {
        match place {
            0 => Some(seed.hash_of(of_order_key(self.order))),
            _ => None,
        }
    }
}

impl Stored for OrderLine {
    ghost columns_of = { line_columns };

    ghost row_from = { line_from };

    fn columns(&self, alloc: Global) -> Result<Vec<Column>, AllocError> {
        Ok(vec![in alloc;
            Column::Whole(self.number),
            Column::Whole(self.order),
            Column::Whole(self.part),
            Column::Whole(self.quantity),
            Column::Whole(self.done),
        ]?)
    }

    fn from_columns(_alloc: Global, columns: &[Column]) -> Result<Self, ColumnFault> {
        has(columns, 5)?;
        let number = number_at(columns, 0)?;
        let order = number_at(columns, 1)?;
        let part = number_at(columns, 2)?;
        let quantity = number_at(columns, 3)?;
        let done = number_at(columns, 4)?;
        Ok(OrderLine {
            number,
            order,
            part,
            quantity,
            done,
        })
    }
}
