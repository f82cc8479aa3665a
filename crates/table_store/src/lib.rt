//! The tables of the desk's file: they are made, and changed within transactions. Calls are generic over what keeps the
//! database, and speak of tables where the disk is clean (`HasCleanDisk`). A table of rows of the machine is
//! `Written.IsTableOf`.
//!
//! - `begin`, `commit`, `rollback`: nothing but `commit` changes what a crash leaves (`crash`).
//! - `write_row`, `write_pending`, `write_log`, `write_kept`: ask for the rows from before (`before`) and leave those
//!   of now (`written`, of a single row `put`), and no other table changes (`set`). Rows are dropped of four tables
//!   alone (`Values.AreDropped`). After `Store` the transaction is as it was, or undone (`failed`:
//!   `Transactions.MayUndo`).
//! - `load_sheet`, `load_kept`: exactly the rows of the table (`rows`). A bad row is told only of the table of no rows
//!   at all (`none`), and nothing changes (`same`).
//! - `each_row`: hands rows to a `Visitor`, each once, after Ok all (`whole`: `Walked.TakesAll`), after a fault a front
//!   of them (`front`).
//! - `create_tables`: makes the tables, with no rows (`made`), in a database that has none (`bare`).
//! - `open_tables`: a connection at rest over the same tables (`rest`, `same`), which are those of this version or of
//!   version 1 (`tables`), or why there is none (`failed`).
#![tactic(auto)]

mod create;
mod fault;
mod kept;
mod name;
mod open;
mod read;
mod rows;
mod shape;
mod table_word;
mod transaction;
mod walk;
mod write;

pub use create::{add_spent, create_tables};
pub use fault::{Failed, TableFault};
pub use kept::write_kept;
pub use name::TableName;
pub use open::{has_old_tables, has_tables, is_bare, open_tables};
pub use read::{has_no_row, load_kept, load_sheet};
pub use rows::{drop_row, load_rows, put_row};
pub use table_word::table_named;
pub use transaction::{begin, commit, rollback};
pub use walk::{Visitor, each_row};
pub use write::{write_log, write_pending, write_row};
