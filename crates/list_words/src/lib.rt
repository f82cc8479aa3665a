//! Lists as words ask for them: by the list's name and by what its row is called, as fields of lines have it; and how a
//! list is shown. It joins the lists of `list_core` with the words of `desk_wire`, of which neither knows the other, so that
//! they are proved side by side.
//!
//! - `list_called`: the list that a name and what is said with it ask for (`Lists.list_by`).
//! - `row_at`, `subject_at`: the row that a word says (`WordRows.row_at`, `WordRows.subject_at`), or the fault of a field
//!   of a line that is written so.
//! - `listing_in`: the list, its row looked up in this state (`Lists.listing_by`).
//! - `show_listing`, `told_list`: its text, for a program and for a person, and whether there is one
//!   (`Lists.shown_list`, `Lists.told_list`).
#![tactic(auto)]

mod list_of;
mod shown_list;
mod word_rows;

pub use list_of::{ListOf, list_called};
pub use shown_list::{ShownList, listing_in, show_listing, told_list};
pub use word_rows::{row_at, subject_at};
