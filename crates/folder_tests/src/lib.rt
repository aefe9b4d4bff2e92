//! The worked tables, built, settled and asked.
#![tactic(auto)]

#[cfg(test)]
mod filling;
#[cfg(test)]
mod worked;
