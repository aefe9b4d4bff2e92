//! A row of states, cut into stretches.
#![tactic(auto)]

mod cells;
mod order;
pub mod row;
pub mod stretch;
