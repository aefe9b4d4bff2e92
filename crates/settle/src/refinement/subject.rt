//! What is settled, and by what it is split.
ghost use Rattle.std.specs.Prelude.{◌≡◌};
ghost use Rattle.table.specs.Shape.{Kept};
ghost use Rattle.table.specs.declared.parts.Node.TheVariants.{Part};

use table::chart::Chart;
use table::parts::{Node, Origin};
use weigher::Weigher;

/// A table, under a pile.
#[derive(Drop)]
pub struct Subject<'a, W: Weigher> {
    pub pile: &'a W,
    pub chart: &'a Chart,
    ghost kept: { Kept chart.now },
}

/// A split: the node that is split, and the label and the marker by which it is.
#[derive(Clone, Copy)]
pub struct Split {
    pub parent: u16,
    pub label: u8,
    pub marker: u16,
}

impl Split {
    /// The node of the states with this figure.
    pub fn part(self, figure: i64) -> Node
        ensures { result ≡ Part (record { parent = self.parent; label = self.label; marker = self.marker; figure = figure }) }
    {
        Node::Part(Origin {
            parent: self.parent,
            label: self.label,
            marker: self.marker,
            figure,
        })
    }
}
