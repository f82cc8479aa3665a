//! Tests of rows in sheets and logs, serial lists, catalogues and bills.
#![tactic(auto)]

#[cfg(test)]
mod bills;
#[cfg(test)]
mod calls;
#[cfg(test)]
mod catalogues;
#[cfg(test)]
mod indexed;
#[cfg(test)]
mod logs;
#[cfg(test)]
mod serials;
#[cfg(test)]
mod sheets;
