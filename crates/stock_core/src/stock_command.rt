//! The commands on stock, as a machine: one call that does any of them, and its laws. A command comes from the shop
//! (`desk_core` `src/shop.rt`) and goes to its own file in `src/commands`, which makes its checks and then the moves of
//! `yard_core` `src/yard/moves.rt`.
ghost use Rattle.std.specs.Prelude.{◌≡◌};
ghost use Rattle.part_core.specs.Catalogue.{no_parts};
ghost use Rattle.part_core.specs.CatalogueView.{parts_of};
ghost use Rattle.word_core.specs.Counter.{start};
ghost use Rattle.word_core.specs.declared.limits.Limits.{Limits};
ghost use Rattle.bom_core.specs.BomsView.{bills_of};
ghost use Rattle.yard_core.specs.StockBooks.{Does};
ghost use Rattle.yard_core.specs.BooksView.{books_before, books_now};
ghost use Rattle.yard_core.specs.Stock.{empty_stock};
ghost use Rattle.alloc_core.specs.AllocationsView.{allocations_now};
ghost use Rattle.stock_core.specs.Sound.{IsSoundStock, IsSoundStockSomehow, Owners};
ghost use Rattle.stock_core.specs.StockMachine.{ChecksAreInOrder, EffectsAreSound, RowsStay, checks, effect};

use crate::arrivals::NewStock;
use crate::{
    add, count, disassemble, found, install, merge, reinstate, remove, serialise, set_status,
    split, transfer, uninstall,
};
use alloc_core::Allocations;
use bom_core::Boms;
use part_core::{Answer, Catalogue, CoreFault, Day, Id, Ids, Quantity, Serials, Status};
use yard_core::YardBooks;

/// What a clerk may ask of stock. Row numbers and quantities are any numbers: whether they name rows and
/// are in their ranges is part of the command's checks.
#[derive(Drop)]
pub enum StockCommand {
    /// Stock that was found: new items at a location.
    Found {
        part: Id,
        location: Id,
        new: NewStock,
    },
    /// An amount that was found is added to an item.
    Add {
        item: Id,
        quantity: Quantity,
    },
    /// Stock that is taken out of an item and written off.
    Remove {
        item: Id,
        quantity: Quantity,
    },
    /// What a count of an item found.
    Count {
        item: Id,
        quantity: Quantity,
    },
    /// An amount of an item goes to a location.
    Transfer {
        item: Id,
        location: Id,
        quantity: Quantity,
    },
    /// An amount of an item becomes an item of its own.
    Split {
        item: Id,
        quantity: Quantity,
    },
    /// Items are poured into another, in the order of the list.
    Merge {
        into: Id,
        items: Ids,
    },
    /// Pieces of an item get serials.
    Serialise {
        item: Id,
        quantity: Quantity,
        serials: Serials,
    },
    /// An item gets another status.
    SetStatus {
        item: Id,
        status: Status,
    },
    /// An amount of an item is installed in another item.
    Install {
        item: Id,
        parent: Id,
        quantity: Quantity,
    },
    /// An item comes out of the item that it lies in.
    Uninstall {
        item: Id,
        location: Id,
    },
    /// An item is taken apart.
    Disassemble {
        item: Id,
        location: Id,
    },
    /// What was written off comes back.
    Reinstate {
        item: Id,
        location: Id,
    },
}

/// Does the command, or is refused by the first check that applies. The docstrings of the calls that stand
/// for the commands say when each refusal comes.
pub fn act(
    catalogue: &Catalogue,
    boms: &Boms,
    allocations: &Allocations,
    books: &mut YardBooks,
    day: Day,
    command: &StockCommand,
) -> Result<Answer, CoreFault>
    requires nothing_pending { books_before books.old ≡ books_now books.old }
    requires sound { IsSoundStockSomehow (parts_of catalogue.now)
        (books_now books.old) }
    ensures does { let b = books_now books.old in
        Does (checks command.now day (parts_of catalogue.now) (bills_of boms.now)
        (allocations_now allocations.now) b)
        (effect command.now day b) b result
        (books_now books.new) }
    ensures before { books_before books.new ≡ books_before books.old }
{
    match command {
        StockCommand::Found {
            part,
            location,
            new,
        } => found(catalogue, books, day, *part, *location, new),
        StockCommand::Add { item, quantity } => add(books, day, *item, *quantity),
        StockCommand::Remove { item, quantity } => {
            remove(allocations, books, day, *item, *quantity)
        }
        StockCommand::Count { item, quantity } => {
            count(allocations, books, day, *item, *quantity)
        }
        StockCommand::Transfer {
            item,
            location,
            quantity,
        } => transfer(allocations, books, day, *item, *location, *quantity),
        StockCommand::Split { item, quantity } => {
            split(allocations, books, day, *item, *quantity)
        }
        StockCommand::Merge { into, items } => {
            merge(allocations, books, day, *into, items.as_slice())
        }
        StockCommand::Serialise {
            item,
            quantity,
            serials,
        } => serialise(
            catalogue,
            allocations,
            books,
            day,
            *item,
            *quantity,
            serials.as_slice(),
        ),
        StockCommand::SetStatus { item, status } => {
            set_status(allocations, books, day, *item, *status)
        }
        StockCommand::Install {
            item,
            parent,
            quantity,
        } => install(
            catalogue,
            boms,
            allocations,
            books,
            day,
            *item,
            *parent,
            *quantity,
        ),
        StockCommand::Uninstall { item, location } => { uninstall(books, day, *item, *location) }
        StockCommand::Disassemble { item, location } => {
            disassemble(allocations, books, day, *item, *location)
        }
        StockCommand::Reinstate { item, location } => { reinstate(books, day, *item, *location) }
    }
}

/// The law that the refusals of each command are checked in the one order of checks.
pub fn checks_are_in_order()
    ensures { ChecksAreInOrder }
{}

/// The law that what passes its checks leaves sound stock and sound allocations sound, only adds to numbers
/// and history, and leaves the outputs of builds alone.
pub fn effects_are_sound()
    ensures { EffectsAreSound }
{}

/// The law that no command on stock takes a row away: what is off the books keeps its row.
pub fn rows_stay()
    ensures { RowsStay }
{}

/// Where there is nothing yet, the stock is sound, whatever orders and builds there are.
pub fn no_stock_is_sound()
    ensures { (owners : Owners) (limits : Limits)
        → IsSoundStock owners no_parts (record { stock = empty_stock; counter = start limits }) }
{}
