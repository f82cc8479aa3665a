//! What commands say and are answered: numbers, quantities, texts, lists of serials, days, flags and so on, each within
//! its limits; refusals and the order of checks; the forms of commands; and the counter. Beside them stand the names of
//! reports and of the kinds of imports, which files, lines and requests say alike, and whole writes.
//!
//! What the calls promise, with the clauses that say it:
//!
//! - `Counter::draw`: the next number (`number`), which is never drawn again (`now`). It asks that the limit leaves
//!   one.
//! - `Formed`, the trait of commands: a command's fields fill its form (`fills`) and make it again (`back`), whatever
//!   fills a form is a command (`made`), and no member stands twice (`distinct`).
//! - `write_whole`, `send`: write a text whole (`whole`), after a fault a front of it (`front`: `Sending.AppendsFront`).
#![tactic(auto)]

mod answer;
mod counter;
mod day;
mod field;
mod fields;
mod flags;
mod form;
mod formed;
mod kinds;
mod limits;
mod number;
mod pattern;
mod quantity;
mod refusal;
mod sending;
mod serial;
mod serials;
mod side;
mod status;
mod text;
mod worded;

pub use answer::{Answer, Ids};
pub use counter::Counter;
pub use day::Day;
pub use field::{Field, FieldKind, RowKind};
pub use fields::Fields;
pub use flags::{Flag, Flags, NO_FLAGS};
pub use form::{Form, form_in};
pub use formed::Formed;
pub use kinds::{ImportKind, ReportName, import_kind_named, report_named};
pub use limits::{Limits, MOST};
pub use number::{is_drawn, is_same_number};
pub use quantity::{LARGEST, Quantity, is_bad_quantity};
pub use refusal::{CoreFault, Refusal};
pub use sending::{WriteFailed, flush, send, write_whole};
pub use serial::{Serial, Serials, are_serial};
pub use serials::{SerialFault, read_serials, serial_range};
pub use side::Side;
pub use status::Status;
pub use text::{Text, is_text};
pub use worded::{Worded, named};

/// A row number, drawn from the counter: 1 to 10,000,000,000.
pub type Id = u64;

/// The name of a part, a category or a location.
pub type Name = Text;

/// The batch that an item came with.
pub type Batch = Text;
