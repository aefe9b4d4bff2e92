//! Tables that are built call by call, and their groups.
use folder::tables::Table;
use std::test::Fail;
use table::parts::{Link, State};
use weigher::Weigher;

pub const DARK: State = State { sort: 0, output: 0 };

pub const LIT: State = State { sort: 0, output: 1 };

// Three dark states, of which two lead to the lit one; the third and the lit one lead to themselves.
pub const PRESSED: [State; 4] = [DARK, DARK, DARK, LIT];

// A link with label 0.
pub fn weighted(source: u16, weight: i32, target: u16) -> Link {
    Link {
        source,
        label: 0,
        weight,
        target,
    }
}

// A link with label 0 and weight 1.
pub fn plain(source: u16, target: u16) -> Link {
    weighted(source, 1, target)
}

// The links of the pressed states.
pub fn presses() -> [Link; 4] {
    [plain(0, 3), plain(1, 3), plain(2, 2), plain(3, 3)]
}

// These states and links, into an open table.
pub fn fill<W: Weigher>(
    table: &mut Table<W>,
    states: &[State],
    links: &[Link],
) -> Result<(), Fail> {
    for state in states {
        table.add(state.sort, state.output)?;
    }
    for link in links {
        table.link(link.source, link.label, link.weight, link.target)?;
    }
    Ok(())
}
