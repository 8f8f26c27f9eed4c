//! Runs the book through its refusals and limits, and prints the answers.

#![tactic(auto)]

mod answers;
mod branches;
mod drafts;
mod nesting;
mod places;

use std::io;

fn main(rt: HostRuntime) -> io::Result<()> {
    drafts::print(&rt)?;
    branches::print(&rt)?;
    nesting::print(&rt)?;
    places::print_small(&rt)?;
    places::print_most(&rt)?;
    places::print_values(&rt)
}
