//! The command line: the words that the program is called with, the desk in its file, what is printed of it, and the status
//! that the program ends with.
//!
//! - `read_words`: the task that the words ask for (`answers`: `Words.Answers`).
//! - `look_into`: what a file has, by its first bytes (`Looks.content_of`).
//! - `connect`: opens a file. What it finds where it can't no clause says, but that it is none of the faults of an open
//!   one (`why`: `FileFaults.IsOfOpening`).
//! - `take_desk`, `migrate_desk`: the desk of a database, by what that holds (`FileFaults.IsBare`): the one sound state
//!   of its tables (`found`, `one`), or why there is none (`why`), and the database as it was (`kept`). A crash leaves
//!   what it would have left before, or the new tables of one that was bare or is brought along (`crash`).
//! - `print_export`, `print_dump`, `print_report`, `print_list`: what the desk's own calls write, whole (`whole`) or a
//!   front of it (`front`).
//! - `status_of`: the exit status of an end.
#![tactic(auto)]

mod at_words;
mod database;
mod file;
mod look;
mod low_levels;
mod low_list;
mod sheet_words;
mod show;
mod status;
mod subject;
mod task;
mod words;

pub use at_words::{Asked, AskedLines, AskedList};
pub use database::{FaultyFile, FileFault, connect};
pub use file::{migrate_desk, print_dump, print_export, print_migrated, print_report, take_desk};
pub use look::{Content, acting_user, has_log, look_into, remove_log};
pub use low_list::{NoLevels, levels_of, print_fault};
pub use show::{ListLayout, listing_of, print_list, says_item_too};
pub use status::{DEVICE, MEMORY, NOT_ALL, WRONG_WORDS, status_of, status_of_fault};
pub use subject::{NoRow, no_row_text, row_of_report, several_called};
pub use task::{LookAt, ReportOf, RowsFile, RunWords, ServeWords, SheetFile, Task};
pub use words::read_words;
