//! The figures of states, worked out weight after weight.
#![tactic(auto)]

pub mod index;
pub mod weighing;
