//! A sealed expression, as a book keeps it.

/// Where an expression's operations lie, and what was measured when it was sealed.
#[derive(Clone, Copy, Default)]
pub struct Expression {
    /// The number of its first operation in the book.
    pub start: usize,
    /// The number of its operations.
    pub count: usize,
    /// 0 without an entry value, else one more than the deepest nested expression.
    pub depth: usize,
    /// A bound of the bytes that its encoding takes.
    pub weight: usize,
    /// Whether an entry value holds it.
    pub nested: bool,
}
