//! Rows in sheets and logs, as they are now and as they were before a request: looked up by an index, and written as
//! columns. What a row says is known in the crates above.
//!
//! What the calls promise, with the clauses that say it:
//!
//! - `Sheet::put`, `Sheet::remove`, `Log::put`: this row is there, or gone, and no other has changed (`ok`). After an
//!   error of memory nothing has changed (`err`), and the rows from before stay (`before`).
//! - `Sheet::keep`, `Sheet::back`: the rows now become those from before, or go back to them (`rows`, `before`).
//!   Neither takes memory.
//! - `Sheet::pending`: each key where the rows now and before differ, once and no other (`once`, `exact`), with the row
//!   that stands there now (`rows`).
//! - `Log::pending`: the rows that were put behind those from before (`behind`).
//! - `IndexedSheet::get`: as of a `Sheet`, whose maps it shows (`value`).
//! - `IndexedSheet::any_under`, `IndexedSheet::sum_under`, `IndexedSheet::select_under`: exactly what a look at all
//!   rows gives, of a test or a measure that nothing passes without the index key of what is looked up. That is a
//!   number that no other look-up has (`Indexed.index_key_of`, by `proofs/IndexKeys.antt`), and the hash is worked out
//!   from it (`Indexed.hash_of`): no clause rests on the seed. That `keep` and `back` leave exactly the keys of the
//!   rows filed is said of the private `Index` alone, as `exact` of `keep`: without it all answers would be the same,
//!   in more time.
//! - `Stored`, the trait of rows in a file: a row's columns are read as that row, and no others are.
#![tactic(auto)]

pub mod column;
mod index;
mod indexed;
mod log;
mod row;
mod seed;
mod sheet;
mod slots;

pub use column::{Column, ColumnFault, Stored, Words};
pub use indexed::{Indexed, IndexedSheet};
pub use log::Log;
pub use row::{Row, RowKey};
pub use seed::Seed;
pub use sheet::{Pending, Sheet};
