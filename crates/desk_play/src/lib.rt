//! What tests play a desk with, beside what `store_play` has: lines on books with nothing in them, files that are imported,
//! and requests of HTTP.
#![tactic(auto)]

pub mod ask;
pub mod imports;
pub mod play;
