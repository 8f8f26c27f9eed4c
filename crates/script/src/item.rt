//! Numbered commands.

use crate::command::Command;
use crate::fault::Fault;

/// A line that has words.
#[derive(Clone, Copy)]
pub struct Item<'a> {
    /// Its number, counted from 1.
    pub line: usize,
    /// Its command, or why it is an error of the script.
    pub command: Result<Command<'a>, Fault>,
}
