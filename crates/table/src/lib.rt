//! What a table holds: states and links, in reserved room, and the refusals.
#![tactic(auto)]

pub mod chart;
pub mod parts;
