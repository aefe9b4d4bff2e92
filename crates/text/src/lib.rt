//! Texts, written into a lent buffer without further memory.
#![tactic(auto, using(crate::proofs::Laid::laying), unfolding(crate::specs::Buffer::laid))]

pub mod buffer;
pub mod report;
