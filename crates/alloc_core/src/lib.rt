//! Allocations: what of an item is meant for an order or a build, before it goes there.
//!
//! An allocation is a row that names an item, an amount and what it is for. What is free of an item is what no
//! allocation names. The crate knows items and bills, but neither orders nor builds: their commands stand in crates
//! above.
//!
//! - `Allocations::allocated`, `Allocations::free`, `Allocations::allocated_for_line`: exactly what the rows add up to.
//!   Sums are kept, and are so unless memory ran out amid a change (`ShareSums.AreKept`).
//! - `Allocations::allocate`, `Allocations::release`: this allocation is there, or gone, and no other has changed
//!   (`ok`).
//! - `Allocations::allot`: allocates what lines lack from what is free (`ok`). It is Full only where the whole would
//!   pass the limits (`full`), and draws nothing then or where memory runs out (`undrawn`).
//! - `Allocations::assemble`, `Allocations::is_sound`: the allocations of any rows, put in their order (`now`), and
//!   whether they are sound.
//! - `alloc_command::act`: any command on allocations, by its checks, its effect and its answer (`acts`: `word_core`
//!   `Acts.Acts`).
#![tactic(auto)]

pub mod alloc_command;
mod alloc_forms;
mod allocation;
mod allocation_rows;
mod allocations;
mod allotting;
mod candidates;
mod drawing;
mod opening;
mod purpose;
mod share;
mod share_sums;

pub use alloc_command::AllocCommand;
pub use allocation::Allocation;
pub use allocations::Allocations;
pub use allotting::AllotFault;
pub use candidates::candidate_numbers;
pub use drawing::draw_up_to;
pub use purpose::{OutputNumber, Owner, Purpose};
