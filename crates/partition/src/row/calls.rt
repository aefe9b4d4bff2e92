//! What makes, cuts and tells of a row.
ghost use Rattle.std.specs.Prelude.{◌≡◌, ℕ, ◌<◌, ◌≤◌, true, false, length, IfOk};
ghost use Rattle.partition.specs.Perm.{at};
ghost use Rattle.partition.specs.View.{size_of, count_of, is_split, in_node, Kinds, Begun, Divided, Unchanged};

use super::Row;
use crate::cells::Cells;
use std::alloc::{AllocError, Global};

// A node's number stays a number, with the premise that there is such a node: no type could tie it to a row that changes.
impl Row {
    /// A row without states, with all the room that it will ever take.
    pub fn reserve(heap: Global) -> Result<Row, AllocError>
        ensures { IfOk result (λ w. (size_of w ≡ 0) × (count_of w ≡ 0)) }
    {
        let cells = Cells::reserve(heap)?;
        Ok(Row { cells })
    }

    /// Lays out the row anew, one node for each kind: `kinds` has the smallest state of each state's kind.
    pub fn begin(&mut self, kinds: &[i64])
        requires small { length kinds.now ≤ 1024 }
        requires kinds { Kinds kinds.now }
        ensures { Begun kinds.now self.new }
    {
        self.cells.lay_out(kinds.len() as u16);
        self.cells.cut_by_kind(kinds);
    }

    /// Cuts a node that is not split by the figures of its states, each run of equal figure a new node, and says whether there was more than one: if not, nothing changes.
    pub fn split(&mut self, figures: &[i64], leaf: u16) -> bool
        requires figured { size_of self.old ≤ length figures.now }
        requires known { leaf < count_of self.old }
        requires open { is_split self.old leaf ≡ false }
        ensures divided { result ≡ true → Divided self.old self.new figures.now leaf }
        ensures unchanged { result ≡ false → Unchanged self.old self.new figures.now leaf }
    {
        self.cells.refine(figures, leaf)
    }

    /// How many nodes there are.
    pub fn count(&self) -> usize
        ensures { result ≡ count_of self.now }
    {
        self.cells.stretches.len()
    }

    /// Whether a node was split into others.
    pub fn is_split(&self, b: u16) -> bool
        requires { b < count_of self.now }
        ensures { result ≡ is_split self.now b }
    {
        self.cells.stretches[b as usize].split
    }

    /// Whether a node holds a state.
    pub fn holds(&self, b: u16, x: u16) -> bool
        requires node { b < count_of self.now }
        requires state { x < size_of self.now }
        ensures { result ≡ in_node self.now b x }
    {
        let stretch = self.cells.stretches[b as usize];
        let place = self.cells.order.places[x as usize];
        stretch.start <= place && place < stretch.end
    }

    /// The nodes, not split, that the states are in, in order of the states.
    pub fn blocks(&self) -> &[u16]
        ensures { result.now ≡ self.now.cells.block }
    {
        &self.cells.block
    }

    /// The states of a node.
    pub fn states(&self, b: u16) -> &[u16]
        requires { b < count_of self.now }
        ensures known { (i : ℕ) → i < length result.now → at result.now i < size_of self.now }
        ensures held { (i : ℕ) → i < length result.now → in_node self.now b (at result.now i) ≡ true }
        ensures found { (x : ℕ) → x < size_of self.now → in_node self.now b x ≡ true → (i : ℕ) × (i < length result.now) × (at result.now i ≡ x) }
    {
        let stretch = self.cells.stretches[b as usize];
        &self.cells.order.states[stretch.start as usize..stretch.end as usize]
    }
}
