//! Tests of commands on a desk beside a shop: each accepted, and refused for each of its refusals, and requests that are
//! made up. Both tell the same of each, and have the same tables in the end.
#![tactic(auto)]

#[cfg(test)]
mod alike;
#[cfg(test)]
mod commands;
#[cfg(test)]
mod each_command;
#[cfg(test)]
mod made_up;
#[cfg(test)]
mod maker;
#[cfg(test)]
mod requests;
