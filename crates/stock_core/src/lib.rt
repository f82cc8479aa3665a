//! Commands on stock. Each is refused by the first check that applies, or changes the yard and the counter as the
//! machine's row of it says, and answers what it drew and wrote.
//!
//! A command has a room of its own: `specs/Transfer.antt` says what it does and why it is refused,
//! `src/commands/transfer.rt` does it, and `proofs/TransferSound.antt` shows that what is sound stays so. Its moves are
//! made in place and taken back where memory runs out, by `stock_books::conclude`; `stock_command` puts all commands
//! together.
//!
//! - `stock_command::act`: any command on stock (`does`: `yard_core` `StockBooks.Does`). It asks for sound stock
//!   (`sound`) and that nothing is pending (`nothing_pending`). Some commands alone ask for sound items
//!   (`Sound.AreSoundItems`), those that look at the catalogue for sound stock (`Sound.IsSoundStock`).
//! - `take_away`: what is allocated leaves the stock, piece by piece (`ok`). It is Full only where the whole would pass
//!   the limits (`full`); nothing is drawn then or where memory runs out (`undrawn`).
//! - `conclude`, `finish`: what a command of a crate above has done beside the stock is told (`told`) or taken back
//!   with it (`back`), as `Endings.Ends` says.
//! - `is_sound_stock`: whether stock is sound; it asks whoever knows orders and builds (`KnowsOwners`).
//! - `effects_are_sound`: the law that what passes its checks leaves sound stock and allocations sound. Numbers and
//!   history only grow, no item becomes one of another part, and outputs are left alone
//!   (`StockMachine.EffectsAreSound`).
#![tactic(auto)]

mod arrivals;
mod away;
mod commands;
mod ending;
mod floor;
mod halt;
mod item_tests;
mod opening;
mod owners;
mod pieces;
mod serials;
mod stock_books;
pub mod stock_command;
mod stock_forms;

pub use arrivals::{
    Arrival, NewStock, copy_serials, count_of, make_new, names_many, names_needless,
    names_other_count, names_taken,
};
pub use away::take_away;
pub use commands::add::add;
pub use commands::count::count;
pub use commands::disassemble::disassemble;
pub use commands::found::found;
pub use commands::install::install;
pub use commands::merge::merge;
pub use commands::reinstate::reinstate;
pub use commands::remove::remove;
pub use commands::serialise::serialise;
pub use commands::set_status::set_status;
pub use commands::split::split;
pub use commands::transfer::transfer;
pub use commands::uninstall::uninstall;
pub use ending::{BesideFloor, conclude, finish};
pub use floor::Floor;
pub use halt::Halt;
pub use item_tests::{
    has_more, is_available, is_loose, is_no_item, is_no_location, part_at, quantity_at,
};
pub use opening::is_sound_stock;
pub use owners::KnowsOwners;
pub use pieces::take;
pub use stock_books::lacks_room;
pub use stock_command::StockCommand;
