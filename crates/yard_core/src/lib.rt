//! The yard: locations, items and their history, and the moves on them.
//!
//! - `Yard::make`, `Yard::shrink`, `Yard::grow`, `Yard::mark`, `Yard::lift`, `Yard::cut`, `Yard::pour`, `Yard::graft`,
//!   `Yard::prune`: ask for a sound stock (`sound`), conditions of their own (`can`) and room in the history (`room`),
//!   and where they are Ok leave exactly the stock of their definition (`ok`), which is sound and the move on the
//!   forest (`moved`).
//! - `Yard::serial_free`, `Yard::is_within`, `Yard::depth`, `Yard::content`: exactly their definitions, those that
//!   follow a tree of a sound stock.
//! - `Yard::assemble`: the yard of any rows, put in their order, where the entries are numbered in that order
//!   (`numbered`). `Yard::is_sound`: whether its stock is sound.
//! - `YardBooks::keep`, `YardBooks::back`: the yard and its counter, kept or taken back together (`now`, `before`).
//! - `yard_command::act`: any command on locations, by its checks, its effect and its answer (`does`:
//!   `StockBooks.Does`).
#![tactic(auto)]

mod change;
mod line;
mod opening;
mod sums;
mod walks;
mod yard;
mod yard_books;
pub mod yard_command;
mod yard_forms;

pub use forest::{Entry, Item, Kind, Lot, Note, Place, Reason, copy_batch, is_same_batch};
pub use line::{entry_line, place_text};
pub use opening::rows_in_order;
pub use sums::Sums;
pub use walks::{Inside, Tree};
pub use yard::Yard;
pub use yard_books::YardBooks;
pub use yard_command::YardCommand;

/// A place where stock lies. Locations are a tree, fixed when they are made.
pub type Location = part_core::NamedRow;
