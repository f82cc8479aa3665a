//! Tests of a shop: its runs, reports, rows and what is pending in it.
#![tactic(auto)]

#[cfg(test)]
mod builds;
#[cfg(test)]
mod facts;
#[cfg(test)]
mod lists;
#[cfg(test)]
mod outcomes;
#[cfg(test)]
mod pasts;
#[cfg(test)]
mod reports;
#[cfg(test)]
mod requests;
#[cfg(test)]
mod rows;
#[cfg(test)]
mod sheets;
#[cfg(test)]
mod texts;
#[cfg(test)]
mod traces;
