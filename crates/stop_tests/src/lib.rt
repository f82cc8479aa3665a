//! Stops of a disk, amid lines in groups and alone, and amid deliveries; and what groups are.
#![tactic(auto)]

#[cfg(test)]
mod deliveries;
#[cfg(test)]
mod groups;
#[cfg(test)]
mod stops;
