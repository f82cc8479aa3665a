//! What a row asks for.
ghost use Rattle.std.specs.Prelude.{◌≡◌, IfOk, Option};
ghost use Rattle.desk_core.specs.ShopView.{state_of};
ghost use Rattle.desk_wire.specs.Imports.{booked};
ghost use Rattle.desk_wire.specs.RowCommands.{command_by};

use crate::serial_list::SerialList;
use desk_core::{Command, Shop};
use order_core::OrderCommand;
use part_core::{Batch, Serials};
use std::alloc::{AllocError, Global};
use stock_core::{NewStock, StockCommand};

/// What a row asks for, with its serials as they were written.
#[derive(Drop)]
pub enum RowCommand {
    Receive {
        line: u64,
        location: u64,
        quantity: u64,
        batch: Option<Batch>,
        serials: Option<SerialList>,
    },
    Count {
        item: u64,
        quantity: u64,
    },
}

/// An equal batch, where there is one.
fn copy_of(alloc: Global, batch: &Option<Batch>) -> Result<Option<Batch>, AllocError>
    ensures { IfOk result (λ copy. copy ≡ batch.now) }
{
    match batch {
        Some(batch) => Ok(Some(batch.copy(alloc)?)),
        None => Ok(None),
    }
}

/// The serials of the list, where there is one.
fn made_out(alloc: Global, list: &Option<SerialList>) -> Result<Option<Serials>, AllocError>
    ensures { IfOk result (λ serials. serials ≡ list.now) }
{
    match list {
        Some(list) => Ok(Some(list.serials(alloc)?)),
        None => Ok(None),
    }
}

impl RowCommand {
    /// What the books have now of the item or the line that the row is of, where it is there.
    pub fn booked(&self, shop: &Shop) -> Option<u64>
        ensures { result ≡ booked (state_of shop.now) (command_by self.now) }
    {
        match self {
            RowCommand::Receive { line, .. } => match shop.orders().line(*line) {
                Some(line) => Some(line.quantity.saturating_sub(line.done)),
                None => None,
            },
            RowCommand::Count { item, .. } => match shop.yard().item(*item) {
                Some(item) => Some(item.quantity),
                None => None,
            },
        }
    }

    /// The command that the row asks for.
    pub fn command(&self, alloc: Global) -> Result<Command, AllocError>
        ensures { IfOk result (λ command. command ≡ command_by self.now) }
    {
        match self {
            RowCommand::Receive {
                line,
                location,
                quantity,
                batch,
                serials,
            } => Ok(Command::Order(OrderCommand::Receive {
                line: *line,
                location: *location,
                new: NewStock {
                    quantity: *quantity,
                    batch: copy_of(alloc, batch)?,
                    serials: made_out(alloc, serials)?,
                },
            })),
            RowCommand::Count { item, quantity } => {
                Ok(Command::Stock(StockCommand::Count {
                    item: *item,
                    quantity: *quantity,
                }))
            }
        }
    }
}
