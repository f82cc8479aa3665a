//! Orders.
ghost use Rattle.std.specs.Prelude.{◌∷◌, []};
ghost use Rattle.order_core.specs.OrderColumns.{order_columns, order_from, side_at, state_at};
ghost use Rattle.sheet_core.specs.Columns.{Finds};

use crate::state::OrderState;
use part_core::column::{has, number_at, row_text_at};
use part_core::{Column, ColumnFault, Id, Row, Side, Stored, Text};
use std::alloc::{AllocError, Global};

/// The name of whom an order is with.
pub type Partner = Text;

/// An order from a supplier or of a customer.
#[derive(Drop)]
pub struct Order {
    pub number: Id,
    pub side: Side,
    pub partner: Partner,
    pub state: OrderState,
}

/// The side in the column.
fn side_at(columns: &[Column], at: usize) -> Result<Side, ColumnFault>
    ensures { Finds result (side_at at columns.now) }
{
    let code = number_at(columns, at)?;
    Side::from_code(code).ok_or(ColumnFault::NoRow)
}

/// The state in the column.
fn state_at(columns: &[Column], at: usize) -> Result<OrderState, ColumnFault>
    ensures { Finds result (state_at at columns.now) }
{
    let code = number_at(columns, at)?;
    OrderState::from_code(code).ok_or(ColumnFault::NoRow)
}

impl Row for Order {
    type Key = u64;

    ghost key_of = { λ row. row.number ∷ [] };

    fn key(&self, _alloc: Global) -> Result<u64, AllocError> {
        Ok(self.number)
    }

    fn equals(&self, other: &Self) -> bool {
        if self.number != other.number {
            return false;
        }
        if !self.side.equals(other.side) {
            return false;
        }
        if !self.state.equals(other.state) {
            return false;
        }
        self.partner.equals(&other.partner)
    }

    fn copy(&self, alloc: Global) -> Result<Self, AllocError> {
        let partner = self.partner.copy(alloc)?;
        Ok(Order {
            number: self.number,
            side: self.side,
            partner,
            state: self.state,
        })
    }
}

impl Stored for Order {
    ghost columns_of = { order_columns };

    ghost row_from = { order_from };

    #[tactic(auto, using(crate::proofs::OrderColumns::order_read))]
    fn columns(&self, alloc: Global) -> Result<Vec<Column>, AllocError> {
        let partner = Column::text(alloc, self.partner.as_str())?;
        Ok(vec![in alloc;
            Column::Whole(self.number),
            Column::Whole(self.side.code()),
            partner,
            Column::Whole(self.state.code()),
        ]?)
    }

    fn from_columns(alloc: Global, columns: &[Column]) -> Result<Self, ColumnFault> {
        has(columns, 4)?;
        let number = number_at(columns, 0)?;
        let side = side_at(columns, 1)?;
        let partner = row_text_at(alloc, columns, 2)?;
        let state = state_at(columns, 3)?;
        Ok(Order {
            number,
            side,
            partner,
            state,
        })
    }
}
