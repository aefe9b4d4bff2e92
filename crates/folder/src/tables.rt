//! The table itself.
use settle::refinement::Refinement;
use std::marker::Model;
use table::chart::Chart;
use weigher::Weigher;

pub mod changes;
pub mod questions;

/// A table over a pile. It is open while it has no number of groups, and settled once it has one.
pub struct Table<W: Weigher> {
    pile: W,
    chart: Chart,
    // where a file is read before it takes the chart's place
    spare: Chart,
    refinement: Refinement,
    groups: Option<u16>,
    refusals: u32,
}

// Clauses see a table as its users know it. What it holds is always sound.
impl<W: Weigher> Model for Table<W> {
    ghost use Rattle.folder.specs.View.{View, settlement_of, Sound};

    ghost Value = { View W };

    ghost view = { λ t. record { pile = t.pile; system = t.chart; settlement = settlement_of t.groups t.refinement; refusals = t.refusals } };

    ghost invariant = { λ t. Sound (W.figure t.pile) t.chart (settlement_of t.groups t.refinement) };
}

// Written out, so that whoever lets a table go has one step to prove. With a derive it has one for each list in it, and the proof of
// the tests did not come to an end in ten minutes.
impl<W: Weigher + Drop> Drop for Table<W> {
    fn drop(self) {
        let Self {
            pile: _,
            chart: _,
            spare: _,
            refinement: _,
            groups: _,
            refusals: _,
        } = self;
    }
}
