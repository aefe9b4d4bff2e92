//! The questions, which change nothing.
ghost use Rattle.std.specs.Prelude.{◌≡◌, ◌≢◌, ◌<◌, ◌≤◌, length, None, Err, MatchResult, slice_index_or};
ghost use Rattle.table.specs.declared.parts.Refusal.TheVariants.{NotSettled, NoSuchNumber};
ghost use Rattle.table.specs.System.{Small};
ghost use Rattle.table.specs.Shape.{Kept};
ghost use Rattle.folder.specs.View.{Sound};
ghost use Rattle.folder.specs.Calls.{Tally, CountMeans, group_answer, GroupMeans, node_answer, report_answer, report_buffer};

use super::Table;
use table::parts::{Origin, Refusal};
use text::report::Report;
use weigher::Weigher;

impl<W: Weigher> Table<W> {
    // The four numbers of `count`: what they mean is proved apart from how they are found.
    fn tally(&self) -> (usize, usize, Option<u16>, u32)
        ensures answer { Tally self.now result.0 result.1 result.2 result.3 }
        ensures sound { Sound (W.figure self.now.pile) self.now.system self.now.settlement }
        ensures kept { Kept self.now.system }
    {
        (
            self.chart.states().len(),
            self.chart.links().len(),
            self.groups,
            self.refusals,
        )
    }

    /// How many states and links there are, how many groups, which an open table has not, and how many calls were refused.
    pub fn count(&self) -> (usize, usize, Option<u16>, u32)
        ensures answer { Tally self.now result.0 result.1 result.2 result.3 }
        ensures meaning { CountMeans (W.figure self.now.pile) self.now.system result.2 }
        ensures sound { Sound (W.figure self.now.pile) self.now.system self.now.settlement }
        ensures kept { Kept self.now.system }
    {
        self.tally()
    }

    /// The number of a state's group.
    pub fn group(&self, state: u16) -> Result<u16, Refusal>
        ensures answer { result ≡ group_answer self.now state }
        ensures meaning { GroupMeans (W.figure self.now.pile) self.now.system state result }
    {
        self.entry(self.refinement.groups(), state).copied()
    }

    // What stands at a number in a list of a settled table.
    fn entry<'a, T>(&self, list: &'a [T], number: u16) -> Result<&'a T, Refusal>
        ensures open { self.now.settlement ≡ None → result ≡ Err NotSettled }
        ensures settled { self.now.settlement ≢ None → MatchResult result (λ r. (number < length list.now) × ((d : T) → slice_index_or list.now number d ≡ r.now)) (λ e. (length list.now ≤ number) × (e ≡ NoSuchNumber)) }
    {
        if self.groups.is_none() {
            return Err(Refusal::NotSettled);
        }
        list.get(number as usize).ok_or(Refusal::NoSuchNumber)
    }

    /// Where a node of the record of splits comes from: a starting node comes from none.
    pub fn node(&self, node: u16) -> Result<Option<Origin>, Refusal>
        ensures { result ≡ node_answer self.now node }
    {
        self.entry(self.refinement.nodes(), node)
            .map(|asked| asked.origin())
    }

    /// Writes the report into a buffer, and answers its length. A report longer than the buffer is refused, and the buffer is left
    /// alone.
    pub fn report(&self, buffer: &mut [u8]) -> Result<usize, Refusal>
        ensures answer { result ≡ report_answer self.now buffer.old }
        ensures buffer { buffer.new ≡ report_buffer self.now buffer.old self.now.settlement }
        ensures small { Small self.now.system }
    {
        let links = self.chart.links().len();
        let groups = self.refinement.groups();
        match self.groups {
            Some(count) => Report {
                links,
                groups,
                count,
            }
            .write_to(buffer),
            None => Err(Refusal::NotSettled),
        }
    }
}
