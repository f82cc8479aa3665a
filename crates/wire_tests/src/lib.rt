//! Tests of lines of JSON: what they ask, what is wrong with them, and the lines that are answered.
#![tactic(auto)]

#[cfg(test)]
mod faults;
#[cfg(test)]
mod lines;
#[cfg(test)]
mod names;
#[cfg(test)]
mod shown;
