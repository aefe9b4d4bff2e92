//! Reads a table from standard input, settles it over the pile `buttons`, and prints the report.
#![tactic(auto)]

use std::process::ExitCode;
use weigher::piles::{Buttons, Pile};

// a program for each pile; what they do is `console::run`
fn main(rt: HostRuntime) -> anyhow::Result<ExitCode> {
    console::run(&rt, Buttons::PILE)
}
