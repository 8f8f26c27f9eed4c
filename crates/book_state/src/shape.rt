//! What an operation refers to inside its book.

use op::operation::Data;

/// What an operation refers to inside its book.
#[derive(Clone, Copy)]
pub enum Shape {
    /// Nothing.
    Plain,
    /// Data.
    Holding(Data),
    /// Another operation of its expression, or none yet.
    Branching(Option<usize>),
    /// A sealed expression.
    Nesting(usize),
}
