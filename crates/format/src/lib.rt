//! Files: what a table is written as, and read from.
#![tactic(auto)]

mod cursor;
pub mod reading;
