//! The piles that are shipped.
ghost use Rattle.std.specs.Prelude.{◌≡◌, ℕ, List, ℤ};
ghost use Rattle.weigher.specs.Figure.{Figure};
ghost use Rattle.weigher.specs.Weighers.{buttons, timed, lots};
ghost use Rattle.weigher.specs.declared.piles.TheConstants.{TIMED_PILE, LOTS_PILE};
ghost use Rattle.std.proofs.Common.{rules};

use crate::layers::{ByLabel, BySort, LabelBelow, SortZero};
use crate::plain::{Greatest, Reach, Sum};
use crate::{Weigher, weigh_list};

/// Buttons: whether a press leads there at all.
pub type Buttons = Reach;

/// Timed: labels below 48 by reach, the clocks by the greatest weight.
pub type Timed = ByLabel<Reach, Greatest>;

/// Lots: sort 0 by reach, the other sorts by the sum.
pub type Lots = BySort<Reach, Sum>;

/// The pile `timed`.
pub const TIMED_PILE: Timed = ByLabel {
    choice: LabelBelow { cut: 48 },
    first: Reach,
    second: Greatest,
};

/// The pile `lots`.
pub const LOTS_PILE: Lots = BySort {
    choice: SortZero,
    first: Reach,
    second: Sum,
};

/// A weigher of which one value is shipped, the pile, and the figure that it has.
pub trait Pile: Weigher + Drop {
    const PILE: Self;

    // the constant, as a law can name it
    ghost PILE: { Self };

    // what the pile means: the figure of a list of weights, at a sort and a label
    ghost meaning: { Figure };

    ghost means: { (s l : ℕ) (ws : List ℤ) → Self.figure PILE s l ws ≡ meaning s l ws };
}

impl Pile for Buttons {
    const PILE: Self = Reach;

    ghost PILE = { record {} };

    ghost meaning = { buttons };

    ghost means = { Prim.search rules };
}

impl Pile for Timed {
    const PILE: Self = TIMED_PILE;

    ghost PILE = { TIMED_PILE };

    ghost meaning = { timed };

    ghost means = { Prim.search rules };
}

impl Pile for Lots {
    const PILE: Self = LOTS_PILE;

    ghost PILE = { LOTS_PILE };

    ghost meaning = { lots };

    ghost means = { Prim.search rules };
}

/// The figure of a list under a shipped pile.
pub fn pile_figure<P: Pile>(sort: u8, label: u8, weights: &[i32]) -> i64
    ensures { result ≡ P.meaning sort label weights.now }
{
    weigh_list(&P::PILE, sort, label, weights)
}

/// The figure of a list under buttons.
pub fn buttons_figure(sort: u8, label: u8, weights: &[i32]) -> i64
    ensures { result ≡ buttons sort label weights.now }
{
    pile_figure::<Buttons>(sort, label, weights)
}

/// The figure of a list under timed.
pub fn timed_figure(sort: u8, label: u8, weights: &[i32]) -> i64
    ensures { result ≡ timed sort label weights.now }
{
    pile_figure::<Timed>(sort, label, weights)
}

/// The figure of a list under lots.
pub fn lots_figure(sort: u8, label: u8, weights: &[i32]) -> i64
    ensures { result ≡ lots sort label weights.now }
{
    pile_figure::<Lots>(sort, label, weights)
}
