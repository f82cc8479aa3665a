//! Tests of yards and stock that rows make.
#![tactic(auto)]

#[cfg(test)]
mod serials;
#[cfg(test)]
mod stock;
#[cfg(test)]
mod yards;
