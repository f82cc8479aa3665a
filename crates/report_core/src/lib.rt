//! Reports: what a shop shows of a part, an item or a build, as lines of fields; and such lines as text, as JSON, as
//! comma-separated values and in columns, escaped and cut for a person's terminal.
//!
//! - `report`: exactly the lines of its definition. It asks for a sound state, since one tells where a part is used;
//!   `content`, `history`, `stock` and `shortage` alone ask for nothing.
#![tactic(auto)]

mod columns;
pub mod content;
mod cut;
mod escape;
pub mod fields;
pub mod history;
pub mod ledger;
mod lines;
mod name;
mod records;
mod reports;
pub mod shortage;
pub mod stock;
pub mod where_used;

pub use cut::{cut_lines, cut_report};
pub use escape::{escaped, escaped_report, told_line};
pub use lines::{Report, line_text};
pub use name::{ReportName, report_named};
pub use records::{record_line, records_text};
pub use reports::report;
pub use where_used::uses_tells_walks;
