//! The machine: its commands, one step, and the shop that it works on; and how a run of requests ends.
//!
//! - `Shop::accept`: one step of the machine, of a sound state, which stays sound (`sound`): a repeat is told its kept
//!   answer, else the first check that holds refuses it, else its command is done (`accepts`: `Machine.Accepts`). What
//!   is pending behind it is exactly what the request changed (`before`), and nothing behind an error (`pending`).
//!   `Shop::decide`: the same, without the telling.
//! - `Shop::assemble`: takes any tables. Where it is Ok they are those of a sound state (`state`, `sound`:
//!   `Assembled.AreSoundTables`), and where it says Unsound they are those of none (`unsound`).
//! - `command_text`: the text of a command beside its kept answer; equal texts are of equal commands (law
//!   `texts_tell_commands`).
//! - `steps_stay_sound`, `checks_are_in_order`, `refusals_change_nothing`, `names_stay`, `rows_stay`, `rows_are_small`,
//!   `sound_books_are_in_order`, `left_items_are_named`: laws of steps, of one (`step`) and of many (`run`).
//! - `later_repeats_change_nothing`, `repeats_can_be_left_out`, `kept_keys_change_nothing`, `sending_again_ends_alike`:
//!   laws of keys and of what is sent again.
#![tactic(auto)]

mod accepted;
mod answers;
mod check_order;
mod command;
mod end;
mod kept;
mod key;
mod laws;
mod names;
mod repeats;
mod shop;
mod texts;

pub use accepted::Accepted;
pub use answers::{answer_line, read_answer};
pub use check_order::checks_are_in_order;
pub use command::{Command, Request};
pub use end::{RunEnd, Stop};
pub use kept::{CommandText, Kept};
pub use key::{Key, is_key};
pub use laws::{
    left_items_are_named, names_stay, refusals_change_nothing, rows_are_small, rows_stay,
    sound_books_are_in_order, steps_stay_sound,
};
pub use names::Names;
pub use repeats::{
    kept_keys_change_nothing, later_repeats_change_nothing, repeats_can_be_left_out,
    repeats_change_nothing, sending_again_ends_alike,
};
pub use shop::{AssembleFault, Shop, Tables};
pub use texts::{command_text, texts_tell_commands};
