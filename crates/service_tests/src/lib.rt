//! Deliveries and stocktakes, imported from a file or sent by HTTP, other requests of HTTP, what a page reads, lists, lines,
//! files of commands, and rows that are said by what they are called, on a shop and on a desk.
#![tactic(auto)]

#[cfg(test)]
mod displaced;
#[cfg(test)]
mod ends;
#[cfg(test)]
mod imports;
#[cfg(test)]
mod journal;
#[cfg(test)]
mod lists;
#[cfg(test)]
mod loopback;
#[cfg(test)]
mod many_lines;
#[cfg(test)]
mod names;
#[cfg(test)]
mod readings;
#[cfg(test)]
mod requests;
#[cfg(test)]
mod sheets;
