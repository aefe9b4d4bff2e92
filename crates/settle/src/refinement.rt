//! What settling works on, and what it leaves: the groups and the record of splits.
use figures::index::Index;
use partition::row::Row;
use table::parts::{Node, PerNode, PerState};

pub mod settling;
mod subject;

/// All the room that settling takes, whatever the table.
// The row's stretches and the record's nodes have the same numbers and are two lists: the row knows nothing of labels, markers and figures.
#[derive(Drop)]
pub struct Refinement {
    row: Row,
    nodes: PerNode<Node>,
    index: Index,
    figures: PerState<i64>,
    numbers: PerNode<Option<u16>>,
    groups: PerState<u16>,
}
