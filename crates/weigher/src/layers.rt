//! The layers: two weighers, with one in charge.
ghost use Rattle.std.specs.Prelude.{◌≡◌, ℕ, ◌-◌, ◌<◌, ◌==◌, Bool, cond, nat_lt, List, ℤ};
ghost use Rattle.weigher.specs.Figure.{Figure};
ghost use Rattle.weigher.specs.Weighers.{by_label, by_sort};
ghost use Rattle.weigher.specs.Loads.{Charged};
ghost use Rattle.std.proofs.Common.{rules};

use crate::Weigher;

/// How a layer chooses between its two parts.
pub trait Choice {
    // the figure of a layer, from those of its parts
    ghost layered: { Self → Figure → Figure → Figure };

    // whether the first part is in charge, at a sort and a label; else the second is
    ghost takes_first: { Self → ℕ → ℕ → Bool };

    // the sort that the second part is asked for
    ghost rest_sort: { Self → ℕ → ℕ };

    // the label that the second part is asked for
    ghost rest_label: { Self → ℕ → ℕ };

    /// Whether the first part is in charge.
    fn is_first(&self, sort: u8, label: u8) -> bool
        ensures { result ≡ takes_first self.now sort label };

    /// The sort and the label that the second part is asked for.
    fn rest(&self, sort: u8, label: u8) -> (u8, u8)
        ensures sort { result.0 ≡ rest_sort self.now sort }
        ensures label { result.1 ≡ rest_label self.now label };

    // the figure is that of the part in charge
    ghost chosen: { (c : Self) (f g : Figure) (s l : ℕ) (ws : List ℤ) → layered c f g s l ws ≡ cond (takes_first c s l) (f s l ws) (g (rest_sort c s) (rest_label c l) ws) };

    // a sort below 4 stays below 4, and a label below 64 below 64
    ghost in_range: { (c : Self) (s l : ℕ) → s < 4 → l < 64 → (rest_sort c s < 4) × (rest_label c l < 64) };
}

/// A label below the cut goes to the first part, any other to the second, at the label less the cut.
#[derive(Clone, Copy)]
pub struct LabelBelow {
    pub cut: u8,
}

/// Sort 0 goes to the first part, any other to the second, at the sort less one.
#[derive(Clone, Copy)]
pub struct SortZero;

impl Choice for LabelBelow {
    ghost layered = { λ c. by_label c.cut };

    ghost takes_first = { λ c s l. nat_lt l c.cut };

    ghost rest_sort = { λ c s. s };

    ghost rest_label = { λ c l. l - c.cut };

    ghost chosen = { Prim.search rules };

    ghost in_range = { Prim.search rules };

    fn is_first(&self, _sort: u8, label: u8) -> bool {
        label < self.cut
    }

    fn rest(&self, sort: u8, label: u8) -> (u8, u8) {
        (sort, label.saturating_sub(self.cut))
    }
}

impl Choice for SortZero {
    ghost layered = { λ c. by_sort };

    ghost takes_first = { λ c s l. s == 0 };

    ghost rest_sort = { λ c s. s - 1 };

    ghost rest_label = { λ c l. l };

    ghost chosen = { Prim.search rules };

    ghost in_range = { Prim.search rules };

    fn is_first(&self, sort: u8, _label: u8) -> bool {
        sort == 0
    }

    fn rest(&self, sort: u8, label: u8) -> (u8, u8) {
        (sort.saturating_sub(1), label)
    }
}

/// Two weighers; at each sort and label the choice puts one in charge.
#[derive(Clone, Copy)]
pub struct Layer<C, A, B> {
    pub choice: C,
    pub first: A,
    pub second: B,
}

/// By label: a label below the cut is weighed by the first, any other by the second at the label less the cut.
pub type ByLabel<A, B> = Layer<LabelBelow, A, B>;

/// By sort: sort 0 is weighed by the first, any other by the second at the sort less one.
pub type BySort<A, B> = Layer<SortZero, A, B>;

/// A layer's load: that of the part in charge. Neither an `Option` nor a `Result`, for no load is missing and none is a failure.
#[derive(Clone, Copy)]
pub enum Charge<A, B> {
    First(A),
    Second(B),
}

impl<C: Choice, A: Weigher, B: Weigher> Weigher for Layer<C, A, B> {
    type Load = Charge<A::Load, B::Load>;

    ghost figure = { λ w. C.Choice.layered w.choice (A.Weigher.figure w.first) (B.Weigher.figure w.second) };

    ghost carries = { λ w s l ws load.
        Charged (C.Choice.takes_first w.choice s l) (A.Weigher.carries w.first s l ws)
        (B.Weigher.carries w.second (C.Choice.rest_sort w.choice s) (C.Choice.rest_label w.choice l) ws) load };

    ghost order = { Prim.search rules };

    ghost joining = { Prim.search rules };

    fn empty(&self, sort: u8, label: u8) -> Charge<A::Load, B::Load> {
        if self.choice.is_first(sort, label) {
            Charge::First(self.first.empty(sort, label))
        } else {
            let (sort, label) = self.choice.rest(sort, label);
            Charge::Second(self.second.empty(sort, label))
        }
    }

    fn add(
        &self,
        sort: u8,
        label: u8,
        load: Charge<A::Load, B::Load>,
        weight: i32,
    ) -> Charge<A::Load, B::Load> {
        match load {
            Charge::First(a) => Charge::First(self.first.add(sort, label, a, weight)),
            Charge::Second(b) => {
                let (sort, label) = self.choice.rest(sort, label);
                Charge::Second(self.second.add(sort, label, b, weight))
            }
        }
    }

    fn weigh(&self, sort: u8, label: u8, load: Charge<A::Load, B::Load>) -> i64 {
        match load {
            Charge::First(a) => self.first.weigh(sort, label, a),
            Charge::Second(b) => {
                let (sort, label) = self.choice.rest(sort, label);
                self.second.weigh(sort, label, b)
            }
        }
    }
}
