//! The states and links of a table, in room that is reserved once.
use crate::parts::{Link, PerLink, PerState, State};
use std::marker::Model;

pub mod calls;

/// The states and the links of a table.
#[derive(Drop)]
pub struct Chart {
    states: PerState<State>,
    links: PerLink<Link>,
}

// Clauses see the states and the links.
impl Model for Chart {
    ghost use Rattle.table.specs.System.{System};

    ghost Value = { System };

    ghost use Rattle.table.specs.Shape.{Kept};

    ghost view = { λ c. record { states = c.states; links = c.links } };

    ghost invariant = { λ c. Kept (record { states = c.states; links = c.links }) };
}
