//! Tests of imports: which rows a file of comma-separated values has or what is wrong with it, and the
//! report of their run.
#![tactic(auto)]

#[cfg(test)]
mod called;
#[cfg(test)]
mod faults;
#[cfg(test)]
mod levels;
#[cfg(test)]
mod loose;
#[cfg(test)]
mod names;
#[cfg(test)]
mod reports;
#[cfg(test)]
mod rows;
#[cfg(test)]
mod shown;
