//! What makes, changes and tells of a chart.
ghost use Rattle.std.specs.Prelude.{◌≡◌, IfOk};
ghost use Rattle.table.specs.Shape.{Kept};
ghost use Rattle.table.specs.Charts.{no_system, with_state, with_link, state_answer, link_answer, afterwards};

use super::Chart;
use crate::parts::{Link, MAX_LINKS, MAX_STATES, Refusal, State};
use room::Room;
use std::alloc::{AllocError, Global};

impl Chart {
    /// No states and no links, with room for all that a table may hold.
    pub fn reserve(heap: Global) -> Result<Chart, AllocError>
        ensures { IfOk result (λ c. c ≡ no_system) }
    {
        let states = Room::reserve(heap)?;
        let links = Room::reserve(heap)?;
        Ok(Chart { states, links })
    }

    /// The states, in the order of their numbers.
    pub fn states(&self) -> &[State]
        ensures states { result.now ≡ self.now.states }
        ensures kept { Kept self.now }
    {
        &self.states
    }

    /// The links, in the order of their numbers.
    pub fn links(&self) -> &[Link]
        ensures links { result.now ≡ self.now.links }
        ensures kept { Kept self.now }
    {
        &self.links
    }

    /// Forgets all states and links, and keeps the room.
    pub fn clear(&mut self)
        ensures { self.new ≡ no_system }
    {
        self.links.clear();
        self.states.clear();
    }

    // A state and a link are added by two functions of one shape, since they check different things, in orders of their own.

    /// A new state, whose number is the answer.
    pub fn add_state(&mut self, state: State) -> Result<u16, Refusal>
        ensures answer { result ≡ state_answer self.old state }
        ensures after { self.new ≡ afterwards result self.old (with_state self.old state) }
        ensures kept { Kept self.new }
    {
        let number = self.states.len();
        if number >= MAX_STATES as usize {
            return Err(Refusal::Full);
        }
        if state.sort > 3 {
            return Err(Refusal::BadSort);
        }
        self.states.push(state);
        Ok(number as u16)
    }

    /// A new link, whose number is the answer.
    pub fn add_link(&mut self, link: Link) -> Result<u16, Refusal>
        ensures answer { result ≡ link_answer self.old link }
        ensures after { self.new ≡ afterwards result self.old (with_link self.old link) }
        ensures kept { Kept self.new }
    {
        let size = self.states.len();
        let number = self.links.len();
        if number >= MAX_LINKS as usize {
            return Err(Refusal::Full);
        }
        if link.source as usize >= size {
            return Err(Refusal::NoSuchNumber);
        }
        if link.label > 63 {
            return Err(Refusal::BadLabel);
        }
        if link.target as usize >= size {
            return Err(Refusal::NoSuchNumber);
        }
        self.links.push(link);
        Ok(number as u16)
    }
}
