//! Bills of materials: which parts an assembly is built from, with substitutes, and walks down the bills. What reads
//! bills asks nothing of them; what adds a row asks for sound ones and for the parts of open builds.
//!
//! - `bom_command::act`: any command on bills, by its checks, its effect and its answer (`acts`: `word_core`
//!   `Acts.Acts`).
//! - `Boms::effective`, `Boms::fits`, `Boms::reaches`, `Boms::where_used`: exactly their definitions: the lines that
//!   hold for a part, whether a part fits a line, whether a walk leads from one part to another, and the parts from
//!   which a walk leads to one.
//! - `Boms::assemble`, `Boms::is_sound`: the bills of any rows, put in their order (`now`), and whether they are sound.
//! - `walks_are_short`, `a_new_part_makes_no_cycle`: laws, that no walk need take more steps than there are parts
//!   (`walks`), and that a new variant closes no walk (`acyclic`).
#![tactic(auto)]

pub mod bom_command;
mod bom_forms;
mod boms;
mod checks;
mod laws;
mod line;
mod merge;
mod ranking;
mod ranks;
mod search;
mod substitute;

pub use bom_command::BomCommand;
pub use boms::Boms;
pub use laws::{a_new_part_makes_no_cycle, no_bills_are_sound, walks_are_short};
pub use line::{Line, LineFlags, NewLine};
pub use substitute::Substitute;
