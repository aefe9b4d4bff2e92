//! Settling: the coarsest fair grouping of a table, over any weigher.
#![tactic(auto)]

pub mod refinement;
