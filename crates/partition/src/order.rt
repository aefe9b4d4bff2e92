//! The states of a row in the order of their places.
ghost use Rattle.std.specs.Prelude.{◌≡◌, ℕ, ◌<◌, ◌≤◌, true, false, [], length, IfOk, MatchBool, ◌≢◌};
ghost use Rattle.partition.specs.Perm.{Perm, at, fig, Outside, Swapped};
ghost use Rattle.partition.specs.Cuts.{Level};

use room::Room;
use std::alloc::{AllocError, Global};
use table::parts::PerState;

/// Each state stands at one place, and knows it.
#[derive(Drop)]
pub struct Order {
    pub(crate) states: PerState<u16>,
    pub(crate) places: PerState<u16>,
    ghost small: { length states ≤ 1024 },
    ghost perm: { Perm states places },
}

impl Order {
    /// No states, with room for every table's.
    pub(crate) fn reserve(heap: Global) -> Result<Order, AllocError>
        ensures { IfOk result (λ o. o.states ≡ []) }
    {
        let states = Room::reserve(heap)?;
        let places = Room::reserve(heap)?;
        Ok(Order { states, places })
    }

    /// The states below n, each at the place of its own number.
    pub(crate) fn lay_out(&mut self, n: u16)
        requires { n ≤ 1024 }
        ensures { length self.new.states ≡ n }
    {
        self.states.clear();
        self.places.clear();
        // the states are numbers
        for x in 0..n {
            self.states.push(x);
            self.places.push(x);
        }
    }

    // Exchanges the states at i and j.
    fn exchange(&mut self, i: usize, j: usize)
        requires i_within { i < length self.old.states }
        requires j_within { j < length self.old.states }
        ensures { Swapped self.old.states self.new.states i j }
    {
        exchange_in(&mut self.states, &mut self.places, i, j);
    }

    // `start` and `end` are no range in what cuts: the start moves on from run to run, and the end stays. And that there are figures enough
    // ties two values, of which neither owns the other.

    /// Moves the states of `start..end` whose figure is `figure` to the front of that stretch, and says where the others begin.
    pub(crate) fn gather(&mut self, figures: &[i64], start: usize, end: usize, figure: i64) -> usize
        requires figured { length self.old.states ≤ length figures.now }
        requires start_within { start ≤ end }
        requires end_within { end ≤ length self.old.states }
        ensures outside { Outside self.old.states self.new.states start end }
        ensures low { start ≤ result }
        ensures high { result ≤ end }
        ensures front { (k : ℕ) → start ≤ k → k < result → fig figures.now (at self.new.states k) ≡ figure }
        ensures rest { (k : ℕ) → result ≤ k → k < end → fig figures.now (at self.new.states k) ≢ figure }
    {
        let mut mid = start;
        // by index, since the states change places on the way; `mid` is where the next one goes
        for i in start..end {
            if shows(figures, self.states[i] as usize, figure) {
                if mid != i {
                    self.exchange(mid, i);
                }
                mid += 1;
            }
        }
        mid
    }

    /// Whether the states at `start..end` have one figure.
    pub(crate) fn alike(&self, figures: &[i64], start: usize, end: usize) -> bool
        requires figured { length self.now.states ≤ length figures.now }
        requires start_within { start < end }
        requires end_within { end ≤ length self.now.states }
        ensures same { result ≡ true → Level self.now.states figures.now start end }
        ensures other { result ≡ false → (i : ℕ) × (start ≤ i) × (i < end) × (fig figures.now (at self.now.states i) ≢ fig figures.now (at self.now.states start)) }
    {
        let first = figures[self.states[start] as usize];
        // with `all`, three goals stay open that this loop does not have
        for state in &self.states[start..end] {
            if figures[*state as usize] != first {
                return false;
            }
        }
        true
    }
}

// Exchanges the states at i and j, and their places.
fn exchange_in(states: &mut [u16], places: &mut [u16], i: usize, j: usize)
    requires few { length states.old ≤ 1024 }
    requires perm { Perm states.old places.old }
    requires i_within { i < length states.old }
    requires j_within { j < length states.old }
    ensures perm { Perm states.new places.new }
    ensures swapped { Swapped states.old states.new i j }
{
    let x = states[i];
    let y = states[j];
    states.swap(i, j);
    places.swap(x as usize, y as usize);
}

// Whether a state has a figure.
fn shows(figures: &[i64], x: usize, figure: i64) -> bool
    requires { x < length figures.now }
    ensures { MatchBool result (fig figures.now x ≡ figure) (fig figures.now x ≢ figure) }
{
    figures[x] == figure
}
