//! Reads a table from standard input, settles it over the pile `timed`, and prints the report.
#![tactic(auto)]

use std::process::ExitCode;
use weigher::piles::{Pile, Timed};

// a program for each pile; what they do is `console::run`
fn main(rt: HostRuntime) -> anyhow::Result<ExitCode> {
    console::run(&rt, Timed::PILE)
}
