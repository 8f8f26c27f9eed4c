//! The tables of a book.

ghost use Rattle.std.specs.Prelude.{◌≤◌, ◌<◌, min, length, IfSome};
ghost use Rattle.std.proofs.Props.{props};

use book_state::expression::Expression;
use op::operation::Operation;

/// Where a draft begins.
#[derive(Clone, Copy)]
pub struct DraftStart {
    /// The place of its first operation.
    pub start: usize,
    /// The place of its first byte of data.
    pub byte_start: usize,
}

/// A book's tables, and how many elements of each are in use.
#[derive(Drop)]
pub struct Tables<'a> {
    /// Operations of sealed expressions, and behind them those of the draft.
    pub operations: &'a mut [Operation],
    /// Data of the operations, in their order.
    pub bytes: &'a mut [u8],
    /// Sealed expressions.
    pub expressions: [Expression; 1024],
    /// How many operations are in use.
    pub op_count: usize,
    /// How many bytes of data are in use.
    pub byte_count: usize,
    /// How many expressions are sealed.
    pub sealed_count: usize,
    /// The open draft.
    pub draft: Option<DraftStart>,
    ghost ops_within: { op_count ≤ min (length operations.now) 4096 },
    ghost bytes_within: { byte_count ≤ min (length bytes.now) 65535 },
    ghost sealed_within: { sealed_count ≤ 1024 },
    ghost drafted: { IfSome draft (λ d. (d.start ≤ op_count) × (d.byte_start ≤ byte_count) × (sealed_count < 1024)) } by { Prim.hlevel props },
}
