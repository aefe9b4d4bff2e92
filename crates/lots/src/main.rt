//! Reads a table from standard input, settles it over the pile `lots`, and prints the report.
#![tactic(auto)]

use std::process::ExitCode;
use weigher::piles::{Lots, Pile};

// a program for each pile; what they do is `console::run`
fn main(rt: HostRuntime) -> anyhow::Result<ExitCode> {
    console::run(&rt, Lots::PILE)
}
