//! Small tables with the groups that they settle to.
use crate::filling::{DARK, LIT, PRESSED, fill, plain, presses, weighted};
use folder::tables::Table;
use std::alloc::Global;
use std::process::Abort;
use std::test::Fail;
use table::parts::{Link, State};
use weigher::Weigher;
use weigher::piles::TIMED_PILE;
use weigher::plain::{Blind, Greatest, Reach, Sum};

const THREE: [State; 3] = [DARK, DARK, LIT];

// That an open table settles to these groups, one for each state.
fn check<W: Weigher>(rt: &impl Abort, table: &mut Table<W>, groups: &[u16]) -> Result<(), Fail> {
    let count = table.settle()?;
    let mut expected = 0;
    for (state, group) in (0..u16::MAX).zip(groups) {
        assert_eq!(rt; table.group(state)?, *group);
        expected = group.saturating_add(1).max(expected);
    }
    assert_eq!(rt; count, expected);
    assert_eq!(rt; table.count().0, groups.len());
    Ok(())
}

// The same for a table of these states and links.
fn settles_to<W: Weigher>(
    rt: &impl Abort,
    heap: Global,
    pile: W,
    states: &[State],
    links: &[Link],
    groups: &[u16],
) -> Result<(), Fail>
where
    W: Drop,
{
    let mut table = Table::start(heap, pile)?;
    fill(&mut table, states, links)?;
    check(rt, &mut table, groups)
}

#[test]
fn no_state_and_one_state(rt: HostRuntime) -> Result<(), Fail> {
    settles_to(&rt, rt.alloc(), Reach, &[], &[], &[])?;
    settles_to(&rt, rt.alloc(), Reach, &[DARK], &[], &[0])
}

#[test]
fn one_press_to_the_lit_state(rt: HostRuntime) -> Result<(), Fail> {
    settles_to(&rt, rt.alloc(), Reach, &PRESSED, &presses(), &[0, 0, 1, 2])?;
    settles_to(&rt, rt.alloc(), Blind, &PRESSED, &presses(), &[0, 0, 0, 1])
}

#[test]
fn a_ring_of_two(rt: HostRuntime) -> Result<(), Fail> {
    let ring = [plain(0, 1), plain(1, 0)];
    settles_to(&rt, rt.alloc(), Reach, &[DARK, DARK], &ring, &[0, 0])
}

#[test]
fn a_link_that_stands_twice(rt: HostRuntime) -> Result<(), Fail> {
    let twice = [plain(0, 2), plain(0, 2), plain(1, 2)];
    settles_to(&rt, rt.alloc(), Reach, &THREE, &twice, &[0, 0, 1])?;
    settles_to(&rt, rt.alloc(), Greatest, &THREE, &twice, &[0, 0, 1])?;
    settles_to(&rt, rt.alloc(), Sum, &THREE, &twice, &[0, 1, 2])
}

#[test]
fn weights_that_cancel(rt: HostRuntime) -> Result<(), Fail> {
    let cancelling = [weighted(0, 5, 2), weighted(0, -5, 2)];
    settles_to(&rt, rt.alloc(), Sum, &THREE, &cancelling, &[0, 0, 1])?;
    settles_to(&rt, rt.alloc(), Reach, &THREE, &cancelling, &[0, 1, 2])?;
    settles_to(&rt, rt.alloc(), Greatest, &THREE, &cancelling, &[0, 1, 2])
}

#[test]
fn a_weight_of_zero(rt: HostRuntime) -> Result<(), Fail> {
    let weightless = [weighted(0, 0, 2)];
    settles_to(&rt, rt.alloc(), Reach, &THREE, &weightless, &[0, 1, 2])?;
    settles_to(&rt, rt.alloc(), Sum, &THREE, &weightless, &[0, 0, 1])
}

#[test]
fn a_weight_shared_out(rt: HostRuntime) -> Result<(), Fail> {
    let states = [DARK, DARK, LIT, LIT];
    let shared = [plain(0, 2), plain(0, 3), weighted(1, 2, 2)];
    settles_to(&rt, rt.alloc(), Sum, &states, &shared, &[0, 0, 1, 1])
}

// Two states that wait for the lit one by this label, 3 and 4 long.
fn waits(label: u8) -> [Link; 2] {
    let mut short = weighted(0, 3, 2);
    let mut long = weighted(1, 4, 2);
    short.label = label;
    long.label = label;
    [short, long]
}

#[test]
fn clocks_and_sensors(rt: HostRuntime) -> Result<(), Fail> {
    settles_to(&rt, rt.alloc(), TIMED_PILE, &THREE, &waits(48), &[0, 1, 2])?;
    settles_to(&rt, rt.alloc(), TIMED_PILE, &THREE, &waits(47), &[0, 0, 1])
}

#[test]
fn two_sorts(rt: HostRuntime) -> Result<(), Fail> {
    let states = [DARK, State { sort: 1, output: 0 }];
    settles_to(&rt, rt.alloc(), Blind, &states, &[], &[0, 1])
}
