//! Tests of the whole desk: lines through readers, writers and disks that fail, files that are damaged or taken away, shops
//! of rows that were read, and tables as text.
#![tactic(auto)]

#[cfg(test)]
mod assembled;
#[cfg(test)]
mod damaged;
#[cfg(test)]
mod displaced;
#[cfg(test)]
mod dumps;
#[cfg(test)]
mod exports;
#[cfg(test)]
mod flushes;
#[cfg(test)]
mod lines;
#[cfg(test)]
mod seeds;
#[cfg(test)]
mod shown;
