//! A row of states and its nodes, in room that is reserved once.
ghost use Rattle.partition.specs.Stretches.{Whole};

use crate::cells::Cells;

pub mod calls;

/// The states in the order of their places, the place and the block of each state, and the nodes: a state's block is the node, not split, that it is in.
#[derive(Drop)]
pub struct Row {
    cells: Cells,
    ghost whole: { Whole cells.order.states cells.order.places cells.block cells.stretches },
}
