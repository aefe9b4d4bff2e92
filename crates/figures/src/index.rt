//! The links of each source and label.
use room::Room;
use table::parts::PerLink;

pub mod calls;

/// For each source and label its first link, and for each link the next of its source and label.
// Lists threaded through two arrays: a `Vec` for each source and label would want memory whenever a table is settled, and links sorted by
// source and label would take a counting sort, which is longer than this walk.
#[derive(Drop)]
pub struct Index {
    firsts: Room<Option<u16>, 65536>,
    nexts: PerLink<Option<u16>>,
}
