//! Runs that stop at what is wrong, runs that look at all lines first, runs with a journal, why lines and rows aren't done,
//! and the statuses that the program ends with.
#![tactic(auto)]

#[cfg(test)]
mod checks;
#[cfg(test)]
mod first_wrong;
#[cfg(test)]
mod journal;
#[cfg(test)]
mod reasons;
#[cfg(test)]
mod statuses;
