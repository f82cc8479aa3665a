//! The desk: a shop whose state is kept in a database, one transaction for each request or for a group of them.
//! `Desks.IsDesk` is what each call asks and leaves; within a group it is `Groups.IsGrouping`, where the row of the
//! counter is behind. Of a list of requests `Outcomes.Closes` says where Store and Closed stand, and `Outcomes.AreLeft`
//! what a crash leaves.
//!
//! - `Desk::run`: one request is one step of the machine (`tells`), and a crash leaves the tables before it or after it
//!   (`crash`).
//! - `Desk::run_grouped`, `Desk::commit`: the same of a group, all of whose tables are committed at once (`tells`,
//!   `crash`). After Store the desk is closed and the group undone, or, where the commit failed, maybe kept (`store`,
//!   `stops`).
//! - `Desk::create`: a desk with no rows (`new`); it is `Foreign` exactly where the database has something (`foreign`,
//!   `other`).
//! - `Desk::open`, `Desk::migrate`: the one sound state that the tables hold (`found`, `one`), or why there is none
//!   (`why`: `Opening.WhyNot`, `Migrating.WhyNotMigrated`), and then the database as it was (`kept`). A crash leaves
//!   what it would have left before, or, of tables that are brought along, the new ones (`crash`).
//! - `Desk::export`, `Desk::history`, `Desk::dump`: write exactly their definition's text (`whole`), after a fault a
//!   front of it (`front`: `Exports.AppendsFront`), and after `Closed` and `NoSuch` nothing (`nothing`).
//! - `send`: writes a text whole (`whole`), after a fault a front of it (`front`).
#![tactic(auto)]

mod add;
mod create;
mod desk;
mod dump;
mod export;
mod fault;
mod group;
mod history;
mod insert;
mod laws;
mod load;
mod meta;
mod migrate;
mod old;
mod open;
mod save;
mod sending;
mod shown;

pub use desk::Desk;
pub use dump::write_dump;
pub use export::{ExportFault, table_text};
pub use fault::{Fault, OpenFault};
pub use laws::{cut_dumps_commit_nothing, rows_are_read};
pub use meta::MetaRow;
pub use sending::{WriteFailed, send};
pub use shown::{books_text, history_text};
