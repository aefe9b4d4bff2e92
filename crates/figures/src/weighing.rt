//! What figures are worked out from.
ghost use Rattle.std.specs.Prelude.{◌≡◌, ◌<◌};
ghost use Rattle.table.specs.System.{size};
ghost use Rattle.partition.specs.View.{size_of, count_of};
ghost use Rattle.figures.specs.Index.{IndexOf};

use crate::index::Index;
use partition::row::Row;
use table::chart::Chart;
use weigher::Weigher;

pub mod calls;

/// The states and links of a table, a row of these states, and a node of it: the marker, into which links are followed.
#[derive(Drop)]
pub struct Aim<'a> {
    pub chart: &'a Chart,
    pub row: &'a Row,
    pub marker: u16,
    ghost sized: { size_of row.now ≡ size chart.now },
    ghost known: { marker < count_of row.now },
}

/// The same with a pile, which weighs the links, and an index of them.
#[derive(Drop)]
pub struct Weighing<'a, W: Weigher> {
    pub pile: &'a W,
    pub index: &'a Index,
    pub aim: Aim<'a>,
    ghost indexed: { IndexOf aim.chart.now index.now },
}
