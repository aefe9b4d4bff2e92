//! What makes and tells of an index.
ghost use Rattle.std.specs.Prelude.{◌≡◌, ◌*◌, ◌<◌, ◌≤◌, length, replicate, None, IfOk, []};
ghost use Rattle.std.specs.List.{AllWithin};
ghost use Rattle.figures.specs.Index.{IndexOf, Indexed, link_in, cell};

use super::Index;
use room::Room;
use std::alloc::{AllocError, Global};
use table::chart::Chart;
use table::parts::Link;

impl Index {
    /// An empty index, with room for every table.
    pub fn reserve(heap: Global) -> Result<Index, AllocError>
        ensures { IfOk result (λ i. (i.firsts ≡ []) × (i.nexts ≡ [])) }
    {
        let firsts = Room::reserve(heap)?;
        let nexts = Room::reserve(heap)?;
        Ok(Index { firsts, nexts })
    }

    /// Indexes the links of a chart.
    pub fn build(&mut self, chart: &Chart)
        ensures { IndexOf chart.now self.new }
    {
        let states = chart.states().len();
        let links = chart.links();
        self.firsts.fill(states * 64, None);
        self.nexts.fill(links.len(), None);
        chain(&mut self.firsts, &mut self.nexts, states, links);
    }

    /// The first link of a source and label.
    pub fn first(&self, source: u16, label: u8) -> Option<u16>
        requires { cell source label < length self.now.firsts }
        ensures { result ≡ link_in self.now.firsts (cell source label) }
    {
        self.firsts[cell(source, label)]
    }

    /// The link after this one of the same source and label.
    pub fn next(&self, link: u16) -> Option<u16>
        requires { link < length self.now.nexts }
        ensures { result ≡ link_in self.now.nexts link }
    {
        self.nexts[link as usize]
    }
}

// Where the first link of a source and label is kept.
fn cell(source: u16, label: u8) -> usize
    ensures { result ≡ cell source label }
{
    source as usize * 64 + label as usize
}

// From the last link to the first: what was first of its source and label comes next after it.
fn chain(firsts: &mut [Option<u16>], nexts: &mut [Option<u16>], states: usize, links: &[Link])
    requires few { length links.now ≤ 4096 }
    requires sources { AllWithin (λ k. k.source < states) links.now 0 (length links.now) }
    requires labels { AllWithin (λ k. k.label < 64) links.now 0 (length links.now) }
    requires firsts { firsts.old ≡ replicate (states * 64) None }
    requires nexts { length nexts.old ≡ length links.now }
    ensures { Indexed states links.now firsts.new nexts.new 0 }
{
    // by index, since a link's number is what is kept; with `enumerate().rev()` the step's proof does not close
    for i in (0..links.len()).rev() {
        let link = links[i];
        let cell = cell(link.source, link.label);
        nexts[i] = firsts[cell];
        firsts[cell] = Some(i as u16);
    }
}
