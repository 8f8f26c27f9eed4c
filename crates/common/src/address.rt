//! Addresses.

/// An address in the target program.
#[derive(Clone, Copy)]
pub enum Address {
    /// A fixed address.
    Constant(u64),
    /// An address relative to a symbol.
    Symbol {
        /// The symbol's number.
        symbol: usize,
        /// What is added to the symbol's address.
        addend: i64,
    },
}
