//! Settling: from the states by sort and output to the coarsest fair grouping.
ghost use Rattle.std.specs.Prelude.{◌≡◌, ℕ, ◌<◌, ◌≤◌, true, false, [], length, IfOk};
ghost use Rattle.weigher.specs.Figure.{Figure};
ghost use Rattle.table.specs.System.{size};
ghost use Rattle.table.specs.Shape.{Kept};
ghost use Rattle.theory.specs.Record.{start_nodes};
ghost use Rattle.figures.specs.Index.{IndexOf};
ghost use Rattle.partition.specs.View.{size_of, count_of, is_split};
ghost use Rattle.settle.specs.Progress.{Shown, Evened, EvenAt, Same, Idle, Even, Onward};
ghost use Rattle.settle.specs.Starts.{KindsOf};
ghost use Rattle.settle.specs.Parts.{Listed};
ghost use Rattle.settle.specs.Ready.{Ready};
ghost use Rattle.settle.specs.Grouped.{Grouped};

use super::Refinement;
use super::subject::{Split, Subject};
use figures::index::Index;
use figures::weighing::{Aim, Weighing};
use numbering::{find_kinds, number_groups};
use partition::row::Row;
use room::Room;
use std::alloc::{AllocError, Global};
use table::chart::Chart;
use table::parts::{Node, PerNode};
use weigher::Weigher;

// `Ready` stands in the contracts of what refines, and is no ghost field: such a field has to be a proposition, and a valid record is
// none, since two histories of splits may make the same nodes. A node's number stays a number, with the premise that there is such a node.
impl Refinement {
    /// All the room that settling takes.
    pub fn reserve(heap: Global) -> Result<Refinement, AllocError>
        ensures { IfOk result (λ f. (f.nodes ≡ []) × (f.groups ≡ [])) }
    {
        let row = Row::reserve(heap)?;
        let nodes = Room::reserve(heap)?;
        let index = Index::reserve(heap)?;
        let figures = Room::reserve(heap)?;
        let numbers = Room::reserve(heap)?;
        let groups = Room::reserve(heap)?;
        Ok(Refinement {
            row,
            nodes,
            index,
            figures,
            numbers,
            groups,
        })
    }

    // Lays out the states by sort and output, a starting node for each.
    fn begin(&mut self, chart: &Chart)
        ensures kept { Kept chart.now }
        ensures shown { (fig : Figure) → Shown fig chart.now self.new.nodes self.new.row }
        ensures index { IndexOf chart.now self.new.index }
        ensures figures { length self.new.figures ≡ size chart.now }
    {
        find_kinds(chart.states(), &mut self.figures);
        self.row.begin(&self.figures);
        self.index.build(chart);
        list_starts(chart, &self.figures, &mut self.nodes);
    }

    // Splits a leaf by the figures of its states, and says whether they differ.
    fn split_by<W: Weigher>(&mut self, subject: &Subject<W>, split: Split) -> bool
        requires ready { Ready (W.figure subject.now.pile.now) subject.now.chart.now self.old }
        requires leaf { split.parent < length self.old.nodes }
        requires open { is_split self.old.row split.parent ≡ false }
        requires label { split.label < 64 }
        requires marker { split.marker < length self.old.nodes }
        ensures ready { Ready (W.figure subject.now.pile.now) subject.now.chart.now self.new }
        ensures evened { result ≡ true → Evened (W.figure subject.now.pile.now) subject.now.chart.now self.old.nodes self.old.row split.parent split.marker self.new.nodes self.new.row }
        ensures same { result ≡ false → Same self.old.row self.new.row × (self.new.nodes ≡ self.old.nodes) }
        ensures even { result ≡ false → EvenAt (W.figure subject.now.pile.now) subject.now.chart.now self.old.nodes self.old.row split.parent split.marker split.label }
    {
        let weighing = Weighing {
            pile: subject.pile,
            index: &self.index,
            aim: Aim {
                chart: subject.chart,
                row: &self.row,
                marker: split.marker,
            },
        };
        weighing.weigh_node(&mut self.figures, split.parent, split.label);
        if !self.row.split(&self.figures, split.parent) {
            return false;
        }
        list_parts(&mut self.nodes, &self.row, &self.figures, split);
        true
    }

    // Splits a node by the first label for which its states' figures into the marker differ, if there is one.
    fn even_out<W: Weigher>(
        &mut self,
        subject: &Subject<W>,
        used: &[bool; 64],
        node: u16,
        marker: u16,
    )
        requires ready { Ready (W.figure subject.now.pile.now) subject.now.chart.now self.old }
        requires node { node < length self.old.nodes }
        requires marker { marker < length self.old.nodes }
        requires idle { Idle (W.figure subject.now.pile.now) subject.now.chart.now self.old.nodes marker used.now }
        ensures ready { Ready (W.figure subject.now.pile.now) subject.now.chart.now self.new }
        ensures evened { Evened (W.figure subject.now.pile.now) subject.now.chart.now self.old.nodes self.old.row node marker self.new.nodes self.new.row }
    {
        if self.row.is_split(node) {
            return;
        }
        if self.row.states(node).len() < 2 {
            return;
        }
        for (label, used) in used.iter().enumerate() {
            let split = Split {
                parent: node,
                label: label as u8,
                marker,
            };
            if *used && self.split_by(subject, split) {
                return;
            }
        }
    }

    // Makes every node even for a marker.
    fn refine_by<W: Weigher>(&mut self, subject: &Subject<W>, marker: u16)
        requires ready { Ready (W.figure subject.now.pile.now) subject.now.chart.now self.old }
        requires marker { marker < length self.old.nodes }
        ensures ready { Ready (W.figure subject.now.pile.now) subject.now.chart.now self.new }
        ensures onward { Onward (W.figure subject.now.pile.now) subject.now.chart.now self.old.nodes self.old.row self.new.nodes self.new.row }
        ensures even { (b : ℕ) → Even (W.figure subject.now.pile.now) subject.now.chart.now self.new.nodes self.new.row b marker }
    {
        let aim = Aim {
            chart: subject.chart,
            row: &self.row,
            marker,
        };
        let used = aim.labels_into();
        let mut node = 0;
        // no `for`, since the list grows on the way: new nodes come last, so that they have their turn too
        while node < self.nodes.len() {
            self.even_out(subject, &used, node as u16, marker);
            node += 1;
        }
    }

    // Makes every node even for each node of the record, which is a marker in its turn, the new ones too.
    fn refine<W: Weigher>(&mut self, subject: &Subject<W>)
        requires { Ready (W.figure subject.now.pile.now) subject.now.chart.now self.old }
        ensures ready { Ready (W.figure subject.now.pile.now) subject.now.chart.now self.new }
        ensures even { (m : ℕ) → m < length self.new.nodes → (b : ℕ) → Even (W.figure subject.now.pile.now) subject.now.chart.now self.new.nodes self.new.row b m }
    {
        let mut marker = 0;
        // no `for`, since the list grows on the way
        while marker < self.nodes.len() {
            self.refine_by(subject, marker as u16);
            marker += 1;
        }
    }

    /// Finds the groups of a table's states, and answers how many there are.
    pub fn settle<W: Weigher>(&mut self, pile: &W, chart: &Chart) -> u16
        ensures { Grouped (W.figure pile.now) chart.now self.new.groups result self.new.nodes }
    {
        self.begin(chart);
        self.refine(&Subject { pile, chart });
        number_groups(self.row.blocks(), &mut self.numbers, &mut self.groups)
    }

    /// The numbers of the states' groups, by the last settling.
    pub fn groups(&self) -> &[u16]
        ensures { result.now ≡ self.now.groups }
    {
        &self.groups
    }

    /// The record of splits, by the last settling.
    pub fn nodes(&self) -> &[Node]
        ensures { result.now ≡ self.now.nodes }
    {
        &self.nodes
    }
}

// A starting node for the smallest state of each kind.
fn list_starts(chart: &Chart, kinds: &[i64], nodes: &mut PerNode<Node>)
    requires { KindsOf chart.now kinds.now }
    ensures { nodes.new ≡ start_nodes chart.now }
{
    nodes.clear();
    for (x, state) in chart.states().iter().enumerate() {
        // with `zip` the loop is no longer known by index, and its proof does not close
        if kinds[x] == x as i64 {
            nodes.push(Node::Start(*state));
        }
    }
}

// The new nodes of a row, each with the figure of its first state.
fn list_parts(nodes: &mut PerNode<Node>, row: &Row, figures: &[i64], split: Split)
    requires few { count_of row.now ≤ 2048 }
    requires older { length nodes.old ≤ count_of row.now }
    requires figured { size_of row.now ≤ length figures.now }
    ensures { Listed nodes.old row.now figures.now split.parent split.label split.marker nodes.new (count_of row.now) }
{
    // by number, since a row tells of its nodes by their numbers
    for b in nodes.len()..row.count() {
        let first = row.states(b as u16)[0];
        nodes.push(split.part(figures[first as usize]));
    }
}
