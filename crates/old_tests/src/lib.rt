//! Which files are old, and stops of a disk while files of an earlier program are brought along.
#![tactic(auto)]

#[cfg(test)]
mod old;
#[cfg(test)]
mod old_files;
