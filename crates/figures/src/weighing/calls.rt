//! The figures of states for a label.
ghost use Rattle.std.specs.Prelude.{◌≡◌, ℕ, ◌<◌, ◌≤◌, true, length};
ghost use Rattle.table.specs.System.{size, figure_of};
ghost use Rattle.partition.specs.Perm.{fig};
ghost use Rattle.partition.specs.View.{size_of, count_of, in_node};
ghost use Rattle.figures.specs.Labels.{LabelsInto};

use super::{Aim, Weighing};
use table::parts::Link;
use weigher::Weigher;

impl Aim<'_> {
    // Whether a link leads into the marker.
    fn leads_into(&self, link: Link) -> bool
        requires { link.target < size_of self.now.row.now }
        ensures { result ≡ in_node self.now.row.now self.now.marker link.target }
    {
        self.row.holds(self.marker, link.target)
    }

    /// Which labels have a link into the marker.
    pub fn labels_into(&self) -> [bool; 64]
        ensures { LabelsInto self.now.chart.now.links (in_node self.now.row.now self.now.marker) (length self.now.chart.now.links) result }
    {
        let mut used = [false; 64];
        for link in self.chart.links() {
            if self.leads_into(*link) {
                used[link.label as usize] = true;
            }
        }
        used
    }
}

impl<W: Weigher> Weighing<'_, W> {
    /// The figure of a state for a label: each weight of the state's links with that label into the marker is fed
    /// into the load.
    pub fn figure_of(&self, state: u16, label: u8) -> i64
        requires state { state < size self.now.aim.chart.now }
        requires label { label < 64 }
        ensures { result ≡ figure_of (W.figure self.now.pile.now) self.now.aim.chart.now state label (in_node self.now.aim.row.now self.now.aim.marker) }
    {
        let sort = self.aim.chart.states()[state as usize].sort;
        let links = self.aim.chart.links();
        let mut load = self.pile.empty(sort, label);
        let mut next = self.index.first(state, label);
        while let Some(i) = next {
            let link = links[i as usize];
            if self.aim.leads_into(link) {
                load = self.pile.add(sort, label, load, link.weight);
            }
            next = self.index.next(i);
        }
        self.pile.weigh(sort, label, load)
    }

    /// Works out the figures of a node's states for a label.
    pub fn weigh_node(&self, figures: &mut [i64], node: u16, label: u8)
        requires node { node < count_of self.now.aim.row.now }
        requires label { label < 64 }
        requires figures { size self.now.aim.chart.now ≤ length figures.old }
        ensures { (x : ℕ) → x < size self.now.aim.chart.now → in_node self.now.aim.row.now node x ≡ true → fig figures.new x ≡ figure_of (W.figure self.now.pile.now) self.now.aim.chart.now x label (in_node self.now.aim.row.now self.now.aim.marker) }
    {
        for state in self.aim.row.states(node) {
            figures[*state as usize] = self.figure_of(*state, label);
        }
    }
}
