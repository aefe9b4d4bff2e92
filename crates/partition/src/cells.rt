//! A row while it is cut, and the cuts of a stretch into runs of equal figure.
ghost use Rattle.std.specs.Prelude.{◌≡◌, ℕ, ◌+◌, ◌<◌, ◌≤◌, true, false, [], ◌∷◌, ◌++◌, length, IfOk};
ghost use Rattle.partition.specs.Perm.{Low};
ghost use Rattle.partition.specs.Stretches.{stretch_at};
ghost use Rattle.partition.specs.Cuts.{Apart, Labelled, Level, mark_at, run};

use crate::order::Order;
use crate::stretch::Stretch;
use room::Room;
use std::alloc::{AllocError, Global};
use table::parts::{PerNode, PerState};

/// The states in order, the block of each state, and the nodes so far: a row while it is cut.
// Places and blocks are two lists by state: exchanges write the one, cuts the other, and the blocks are lent as they are.
#[derive(Drop)]
pub struct Cells {
    pub(crate) order: Order,
    pub(crate) block: PerState<u16>,
    pub(crate) stretches: PerNode<Stretch>,
    ghost blocks: { length block ≡ length order.states },
}

impl Cells {
    ghost use Rattle.partition.specs.View.{Kinds};
    ghost use Rattle.partition.specs.Cells.{TakesRun, Cuts, SortsByKind, WholeCells, SameCells};

    /// No states and no nodes, with all the room that a row will ever take.
    pub(crate) fn reserve(heap: Global) -> Result<Cells, AllocError>
        ensures { IfOk result (λ c. (c.order.states ≡ []) × (c.stretches ≡ [])) }
    {
        let order = Order::reserve(heap)?;
        let block = Room::reserve(heap)?;
        let stretches = Room::reserve(heap)?;
        Ok(Cells {
            order,
            block,
            stretches,
        })
    }

    /// The states below n in order, and no nodes.
    pub(crate) fn lay_out(&mut self, n: u16)
        requires { n ≤ 1024 }
        ensures states { length self.new.order.states ≡ n }
        ensures none { self.new.stretches ≡ [] }
    {
        self.order.lay_out(n);
        self.block.fill(n as usize, 0);
        self.stretches.clear();
    }

    // A new node from..to, which gets the states there.
    fn add_run(&mut self, from: usize, to: usize)
        requires from_within { from ≤ to }
        requires to_within { to ≤ length self.old.order.states }
        requires number { length self.old.stretches < 2048 }
        ensures states { self.new.order.states ≡ self.old.order.states }
        ensures places { self.new.order.places ≡ self.old.order.places }
        ensures labelled { Labelled self.old.order.states self.old.block self.new.block from to (length self.old.stretches) }
        ensures nodes { self.new.stretches ≡ self.old.stretches ++ run from to ∷ [] }
    {
        let number = self.stretches.len();
        self.stretches.push(Stretch {
            start: from as u16,
            end: to as u16,
            split: false,
        });
        label(&self.order.states, &mut self.block, from, to, number as u16);
    }

    // Gathers the states of start..end whose figure is `figure`, makes them the next node, and says where it ends.
    fn take_run(&mut self, figures: &[i64], start: usize, end: usize, figure: i64) -> usize
        requires figured { length self.old.order.states ≤ length figures.now }
        requires start_within { start ≤ end }
        requires end_within { end ≤ length self.old.order.states }
        requires number { length self.old.stretches < 2048 }
        ensures { TakesRun self.old figures.now start end figure self.new result }
    {
        let next = self.order.gather(figures, start, end, figure);
        self.add_run(start, next);
        next
    }

    // Cuts start..end into runs of equal figure, each a new node.
    fn cut_runs(&mut self, figures: &[i64], start: usize, end: usize)
        requires figured { length self.old.order.states ≤ length figures.now }
        requires start_within { start ≤ end }
        requires end_within { end ≤ length self.old.order.states }
        requires number { length self.old.stretches + end ≤ 2048 + start }
        ensures { Cuts self.old self.old.stretches figures.now start end self.new }
    {
        let mut m = start;
        // a run begins where the one before it ends
        while m < end {
            let figure = figures[self.order.states[m] as usize];
            m = self.take_run(figures, m, end, figure);
        }
    }

    /// Cuts a leaf into runs of equal figure, each a new node, and says whether there was more than one: if not, nothing changes.
    pub(crate) fn refine(&mut self, figures: &[i64], leaf: u16) -> bool
        requires whole { WholeCells self.old }
        requires figured { length self.old.order.states ≤ length figures.now }
        requires known { leaf < length self.old.stretches }
        requires open { (stretch_at self.old.stretches leaf).split ≡ false }
        ensures whole { WholeCells self.new }
        ensures cut { result ≡ true → Cuts self.old (mark_at self.old.stretches leaf) figures.now (stretch_at self.old.stretches leaf).start (stretch_at self.old.stretches leaf).end self.new }
        ensures two { result ≡ true → length self.old.stretches + 2 ≤ length self.new.stretches }
        ensures level { result ≡ false → Level self.old.order.states figures.now (stretch_at self.old.stretches leaf).start (stretch_at self.old.stretches leaf).end }
        ensures same { result ≡ false → SameCells self.old self.new }
    {
        let old = self.stretches[leaf as usize];
        let start = old.start as usize;
        let end = old.end as usize;
        if self.order.alike(figures, start, end) {
            return false;
        }
        self.stretches[leaf as usize].split = true;
        self.cut_runs(figures, start, end);
        true
    }

    /// Cuts a row without nodes by kind: `kinds` has the smallest state of each state's kind, and the nodes come in the order of these.
    pub(crate) fn cut_by_kind(&mut self, kinds: &[i64])
        requires small { length kinds.now ≤ 1024 }
        requires kinds { Kinds kinds.now }
        requires sized { length self.old.order.states ≡ length kinds.now }
        requires empty { self.old.stretches ≡ [] }
        ensures { SortsByKind self.old kinds.now self.new (length kinds.now) (length kinds.now) }
    {
        let mut m = 0;
        for (x, kind) in kinds.iter().enumerate() {
            if *kind == x as i64 {
                m = self.take_run(kinds, m, kinds.len(), *kind);
            }
        }
    }
}

// Gives the states at from..to the block b.
fn label(order: &[u16], block: &mut [u16], from: usize, to: usize, b: u16)
    requires apart { Apart order.now }
    requires low { Low (length block.old) order.now }
    requires from_within { from ≤ to }
    requires to_within { to ≤ length order.now }
    ensures { Labelled order.now block.old block.new from to b }
{
    for state in &order[from..to] {
        block[*state as usize] = b;
    }
}
