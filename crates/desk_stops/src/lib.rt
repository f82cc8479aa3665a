//! A disk that stops at each of its calls, amid lines and imports.
#![tactic(auto)]

pub mod stops;
