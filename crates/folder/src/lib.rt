//! The folder: one table over one pile, with every call that its users make.
#![tactic(auto)]

pub mod tables;
