//! Weighers: what a list of weights amounts to, at a sort and a label.
#![tactic(auto)]

ghost use Rattle.std.specs.Prelude.{◌≡◌, ℕ, List, [], ◌∷◌, ◌++◌, ℤ};
ghost use Rattle.weigher.specs.Figure.{Figure, Order, Joining};

pub mod layers;
pub mod piles;
pub mod plain;

/// A weigher has a figure for each sort, label and list of weights, and is asked for it weight after weight.
/// (In the field: a commutative monoid with a congruence, as the functor of a coalgebra.)
// A sort and a label stay two numbers: nothing ties them, and the layers change one and pass the other on.
pub trait Weigher {
    type Load: Copy;

    // what the weigher means: the figure of a list of weights, at a sort and a label
    ghost figure: { Self → Figure };

    // the loads that stand for a list of weights, at a sort and a label
    ghost carries: { Self → ℕ → ℕ → List ℤ → Self.Load → Type 0 };

    /// The load of the empty list.
    fn empty(&self, sort: u8, label: u8) -> Self::Load
        ensures { carries self.now sort label [] result };

    /// A load with one weight more.
    fn add(&self, sort: u8, label: u8, load: Self::Load, weight: i32) -> Self::Load
        ensures { (ws : List ℤ) → carries self.now sort label ws load → carries self.now sort label (ws ++ (weight ∷ [])) result };

    /// The figure of a load.
    fn weigh(&self, sort: u8, label: u8, load: Self::Load) -> i64
        ensures { (ws : List ℤ) → carries self.now sort label ws load → result ≡ figure self.now sort label ws };

    ghost order: { (w : Self) → Order (figure w) };

    ghost joining: { (w : Self) → Joining (figure w) };
}

/// The figure of a list of weights, worked out weight after weight.
pub fn weigh_list<W: Weigher>(pile: &W, sort: u8, label: u8, weights: &[i32]) -> i64
    ensures { result ≡ W.figure pile.now sort label weights.now }
{
    let mut load = pile.empty(sort, label);
    for weight in weights {
        load = pile.add(sort, label, load, *weight);
    }
    pile.weigh(sort, label, load)
}
