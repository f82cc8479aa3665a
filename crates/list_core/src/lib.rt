//! Lists of what a shop has, each a report whose first line names its columns; and what the tables say of the rows that a
//! request names, of its key and of its serials, and of a name that is near a new one.
//!
//! - `listed`: exactly the list of its definition. It asks for a sound state, since one tells where a part is used;
//!   single lists mostly ask for nothing.
//! - `request_facts`: what the tables say of the rows that a request names.
//! - `forward_lists_are_complete`, `back_lists_are_complete`: laws, that no item is left out of where a batch or an
//!   item went, or of where it came from, as far as kept texts name it: of what no kept text names they say nothing
//!   (`TraceLaws.IsForwardComplete`, `TraceLaws.IsBackComplete`). A walk of 2 to the 64 steps would be called a want of
//!   memory.
#![tactic(auto)]

mod amounts;
mod build_list;
mod coming;
mod command_facts;
mod count_sheet;
mod find_list;
mod folds;
mod free_amounts;
mod history_list;
mod item_list;
mod laws;
mod lies;
mod listing;
mod lists;
mod lives;
mod low_list;
mod near_names;
mod order_list;
mod origins;
mod part_list;
mod past;
mod place_list;
mod receipt_sheet;
mod report_form;
mod requests;
mod rows;
mod serial_words;
mod shortage_list;
mod shown;
mod stock_list;
mod trace_list;
mod trace_tables;
mod used;
mod walk;
mod ways;

pub use command_facts::row_fact;
pub use history_list::Days;
pub use laws::{back_lists_are_complete, forward_lists_are_complete};
pub use listing::Listing;
pub use lists::listed;
pub use low_list::Level;
pub use near_names::NearNames;
pub use requests::request_facts;
pub use serial_words::{called_text, serial_found};
pub use trace_list::{has_batch, is_item};
