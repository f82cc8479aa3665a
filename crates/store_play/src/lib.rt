//! What tests of a desk share that don't need the program's library: desks with nothing in them, files of disks that stop,
//! also at each of their calls amid requests that are run alone, readers and writers that are slow or fail, all tables as a
//! text, a delivery, and what a test fails by.
#![tactic(auto)]

pub mod delivery;
pub mod devices;
pub mod each_stop;
pub mod files;
pub mod outcomes;
pub mod tables;
