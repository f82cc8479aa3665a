//! The commands, one to a file.
pub mod add;
pub mod count;
pub mod disassemble;
pub mod found;
pub mod install;
pub mod merge;
pub mod reinstate;
pub mod remove;
pub mod serialise;
pub mod set_status;
pub mod split;
pub mod transfer;
pub mod uninstall;
