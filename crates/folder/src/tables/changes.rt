//! The calls that change a table.
ghost use Rattle.std.specs.Prelude.{◌≡◌, IfOk, Err};
ghost use Rattle.format.specs.Answers.{answer_of};
ghost use Rattle.format.specs.Walk.{decode};
ghost use Rattle.table.specs.Charts.{with_state, with_link};
ghost use Rattle.folder.specs.Calls.{fresh, opened, refused, after, add_answer, linking_answer, read_view, Finds, Settles, reopen_answer};

use super::Table;
use fault::TableFault;
use format::reading::read;
use settle::refinement::Refinement;
use std::alloc::{AllocError, Global};
use std::mem;
use table::chart::Chart;
use table::parts::{Link, Refusal, State};
use weigher::Weigher;

// Adding, linking and settling each ask for themselves whether the table is open: one function for the three would take the rest as a
// closure, and its contract would be longer than the `match`.
impl<W: Weigher> Table<W> {
    /// An open table with no states, no links and no refusals, and all the memory that any later call uses.
    pub fn start(heap: Global, pile: W) -> Result<Table<W>, AllocError>
    where
        W: Drop,
        ensures { IfOk result (λ t. t ≡ fresh pile) }
    {
        let chart = Chart::reserve(heap)?;
        let spare = Chart::reserve(heap)?;
        let refinement = Refinement::reserve(heap)?;
        Ok(Table {
            pile,
            chart,
            spare,
            refinement,
            groups: None,
            refusals: 0,
        })
    }

    // Hands an answer on, and counts it if it is a refusal.
    fn counted<T, E>(&mut self, answer: Result<T, E>) -> Result<T, E>
        ensures same { result ≡ answer }
        ensures view { self.new ≡ after answer self.old self.old }
    {
        if answer.is_err() {
            self.refusals = self.refusals.saturating_add(1);
        }
        answer
    }

    /// A new state, whose number is the answer.
    pub fn add(&mut self, sort: u8, output: u16) -> Result<u16, Refusal>
        ensures answer { result ≡ add_answer self.old (record { sort = sort; output = output }) }
        ensures view { self.new ≡ after result self.old (opened self.old (with_state self.old.system (record { sort = sort; output = output }))) }
    {
        let answer = match self.groups {
            Some(_) => Err(Refusal::AlreadySettled),
            None => self.chart.add_state(State { sort, output }),
        };
        self.counted(answer)
    }

    /// A new link, whose number is the answer.
    pub fn link(&mut self, source: u16, label: u8, weight: i32, target: u16) -> Result<u16, Refusal>
        ensures answer { result ≡ linking_answer self.old (record { source = source; label = label; weight = weight; target = target }) }
        ensures view { self.new ≡ after result self.old (opened self.old (with_link self.old.system (record { source = source; label = label; weight = weight; target = target }))) }
    {
        let link = Link {
            source,
            label,
            weight,
            target,
        };
        let answer = match self.groups {
            Some(_) => Err(Refusal::AlreadySettled),
            None => self.chart.add_link(link),
        };
        self.counted(answer)
    }

    /// Takes the states and links of a file in place of its own, and is then open. A file with a fault changes nothing.
    pub fn read(&mut self, bytes: &[u8]) -> Result<(), TableFault>
        ensures answer { result ≡ answer_of (decode bytes.now) }
        ensures view { self.new ≡ read_view self.old (decode bytes.now) }
    {
        let outcome = read(bytes, &mut self.spare);
        if outcome.is_ok() {
            mem::swap(&mut self.chart, &mut self.spare);
            self.groups = None;
        }
        self.counted(outcome)
    }

    // Finds the groups of the states.
    fn find_groups(&mut self) -> u16
        ensures { Finds (W.figure self.old.pile) self.old result self.new }
    {
        let count = self.refinement.settle(&self.pile, &self.chart);
        self.groups = Some(count);
        count
    }

    /// Finds the groups, which makes the table settled, and answers how many there are.
    pub fn settle(&mut self) -> Result<u16, Refusal>
        ensures { Settles (W.figure self.old.pile) self.old result self.new self.old.settlement }
    {
        let answer = match self.groups {
            Some(_) => Err(Refusal::AlreadySettled),
            None => Ok(self.find_groups()),
        };
        self.counted(answer)
    }

    /// Makes a settled table open. Its states and links stay; its groups and its record of splits are gone.
    pub fn reopen(&mut self) -> Result<(), Refusal>
        ensures answer { result ≡ reopen_answer self.old }
        ensures view { self.new ≡ after result self.old (opened self.old self.old.system) }
    {
        let answer = match self.groups.take() {
            Some(_) => Ok(()),
            None => Err(Refusal::NotSettled),
        };
        self.counted(answer)
    }
}
