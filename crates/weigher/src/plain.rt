//! The weighers that stand alone.
ghost use Rattle.std.specs.Prelude.{◌≡◌};
ghost use Rattle.weigher.specs.Weighers.{reach, sum, greatest, blind, most};
ghost use Rattle.weigher.specs.Loads.{some};
ghost use Rattle.weigher.specs.Laws.{reach_order, reach_joining, sum_order, sum_joining, greatest_order, greatest_joining};
ghost use Rattle.std.proofs.Common.{rules};

use crate::Weigher;

/// Whether there is a link at all: 0 for the empty list, else 1. A weight of 0 is a weight.
#[derive(Clone, Copy)]
pub struct Reach;

/// The sum of the weights, modulo 2^64.
#[derive(Clone, Copy)]
pub struct Sum;

/// The greatest weight; 2147483648 for the empty list.
#[derive(Clone, Copy)]
pub struct Greatest;

/// Always 0.
#[derive(Clone, Copy)]
pub struct Blind;

impl Weigher for Reach {
    type Load = bool;

    ghost figure = { λ _. reach };

    ghost carries = { λ _ _ _ ws load. load ≡ some ws };

    ghost order = { λ w. reach_order };

    ghost joining = { λ w. reach_joining };

    fn empty(&self, _sort: u8, _label: u8) -> bool {
        false
    }

    fn add(&self, _sort: u8, _label: u8, _load: bool, _weight: i32) -> bool {
        true
    }

    fn weigh(&self, _sort: u8, _label: u8, load: bool) -> i64 {
        i64::from(load)
    }
}

impl Weigher for Sum {
    type Load = i64;

    ghost figure = { λ _. sum };

    ghost carries = { λ _ s l ws load. load ≡ sum s l ws };

    ghost order = { λ w. sum_order };

    ghost joining = { λ w. sum_joining };

    fn empty(&self, _sort: u8, _label: u8) -> i64 {
        0
    }

    #[tactic(auto, using(crate::specs::Laws::sum_push, std::proofs::lemmas::Int::wraps))]
    fn add(&self, _sort: u8, _label: u8, load: i64, weight: i32) -> i64 {
        load.wrapping_add(i64::from(weight))
    }

    fn weigh(&self, _sort: u8, _label: u8, load: i64) -> i64 {
        load
    }
}

impl Weigher for Greatest {
    type Load = Option<i32>;

    ghost figure = { λ _. greatest };

    ghost carries = { λ _ _ _ ws load. load ≡ most ws };

    ghost order = { λ w. greatest_order };

    ghost joining = { λ w. greatest_joining };

    fn empty(&self, _sort: u8, _label: u8) -> Option<i32> {
        None
    }

    #[tactic(auto, using(crate::specs::Laws::most_push))]
    fn add(&self, _sort: u8, _label: u8, load: Option<i32>, weight: i32) -> Option<i32> {
        match load {
            Some(top) => Some(top.max(weight)),
            None => Some(weight),
        }
    }

    fn weigh(&self, _sort: u8, _label: u8, load: Option<i32>) -> i64 {
        match load {
            Some(top) => i64::from(top),
            None => 2_147_483_648,
        }
    }
}

impl Weigher for Blind {
    type Load = ();

    ghost figure = { λ _. blind };

    ghost carries = { λ _ _ _ _ _. Unit {0} };

    ghost order = { Prim.search rules };

    ghost joining = { Prim.search rules };

    fn empty(&self, _sort: u8, _label: u8) {}

    fn add(&self, _sort: u8, _label: u8, _load: (), _weight: i32) {}

    fn weigh(&self, _sort: u8, _label: u8, _load: ()) -> i64 {
        0
    }
}
