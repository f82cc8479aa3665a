//! Tests of requests of HTTP, over a service that counts bytes: what is answered, and how a connection ends; and
//! of a client that asks.
#![tactic(auto)]

#[cfg(test)]
mod access;
#[cfg(test)]
mod asked;
#[cfg(test)]
mod asking;
mod counting;
#[cfg(test)]
mod devices;
#[cfg(test)]
mod ends;
#[cfg(test)]
mod loopback;
#[cfg(test)]
mod pages;
#[cfg(test)]
mod play;
#[cfg(test)]
mod proving;
#[cfg(test)]
mod requests;

pub use counting::Counting;
