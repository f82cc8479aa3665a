//! Small limits at each point of what a command draws and writes, and requests on a thousand rows.
#![tactic(auto)]

#[cfg(test)]
mod limits;
#[cfg(test)]
mod many_allocations;
#[cfg(test)]
mod many_lines;
#[cfg(test)]
mod many_nested;
#[cfg(test)]
mod many_outputs;
