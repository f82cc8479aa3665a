//! Tests of the tables of a file, over a database in memory.
#![tactic(auto)]

#[cfg(test)]
mod opening;
#[cfg(test)]
mod sheets;
#[cfg(test)]
mod tables;
