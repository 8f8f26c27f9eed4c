//! Where the operations of an expression end.

#![tactic(auto)]

ghost use Rattle.std.specs.Prelude.{◌≡◌, ℕ, ◌+◌, ◌<◌, ◌≤◌, length, slice_index, IfOk, OnOk};
ghost use Rattle.common.specs.declared.encoding.Encoding.{Encoding};
ghost use Rattle.book_state.specs.Operations.{shape};
ghost use Rattle.book_state.specs.State.{expression_at, weight_by};
ghost use Rattle.book_state.specs.Whole.{Ordered, Whole};
ghost use Rattle.book_tables.specs.View.{view};
ghost use Rattle.book_tree.specs.Store.{InBook, size_in, tree_in};
ghost use Rattle.positions.specs.Ends.{Keeps, Filled, FilledBy, Own};
ghost use Rattle.rules.specs.Encode.{starts};
ghost use Rattle.rules.specs.Scope.{Scope};
ghost use Rattle.rules.specs.Sizes.{size_tree};
ghost use Rattle.unit.specs.Offsets.{scope_of};

use book_tables::tables::Tables;
use book_tree::reading::{expression, operations};
use common::error::Error;
use leb128::uleb128_size;
use op::operation::Operation;
use size::operation_size;
use unit::Context;

pub mod branch;

/// Room for where operations end: a place for each operation that a book can have.
#[derive(Drop)]
pub struct Ends<'e> {
    /// The places.
    pub places: &'e mut [usize],
    ghost wide: { 4096 ≤ length places.now },
}

/// The size of a sealed expression. `ends` gets where each of its operations ends, from the expression's start, at the
/// operation's place in the book; and so for nested expressions.
#[cycle(measure_expression_measure_operation)]
pub fn measure_expression(
    tables: &Tables<'_>,
    number: usize,
    context: Context<'_>,
    ends: &mut Ends<'_>,
) -> Result<usize, Error>
    requires whole { Whole (view tables.now) }
    requires ordered { Ordered (view tables.now) }
    requires there { number < tables.now.sealed_count }
    ensures value { result ≡ size_tree context.entry.encoding (scope_of context.entry.unit_offsets) (tree_in (view tables.now) number) }
    ensures light { IfOk result (λ n. n ≤ (expression_at (view tables.now) number).weight) }
    ensures keeps { Keeps context.entry.encoding (scope_of context.entry.unit_offsets) (view tables.now) ends.old.places.now ends.new.places.now }
    ensures filled { OnOk result (Filled context.entry.encoding (scope_of context.entry.unit_offsets) (view tables.now) ends.new.places.now number) }
    ensures long { length ends.new.places.now ≡ length ends.old.places.now }
    ensures lender { ends.new.places.ghost_name ≡ ends.old.places.ghost_name }
{
    let start = expression(tables, number).start;
    let mut size = 0;
    for (i, op) in operations(tables, number).iter().enumerate() {
        size += measure_operation(tables, *op, context, ends)?;
        ends.places[start + i] = size;
    }
    Ok(size)
}

/// The size of an operation. `ends` gets where the operations of a nested expression end.
#[cycle(measure_expression_measure_operation)]
fn measure_operation(
    tables: &Tables<'_>,
    op: Operation,
    context: Context<'_>,
    ends: &mut Ends<'_>,
) -> Result<usize, Error>
    requires whole { Whole (view tables.now) }
    requires ordered { Ordered (view tables.now) }
    requires inside { InBook (view tables.now) (shape op) }
    ensures value { result ≡ size_in context.entry.encoding (scope_of context.entry.unit_offsets) (view tables.now) op }
    ensures light { IfOk result (λ n. n ≤ weight_by tables.now.expressions (shape op)) }
    ensures keeps { Keeps context.entry.encoding (scope_of context.entry.unit_offsets) (view tables.now) ends.old.places.now ends.new.places.now }
    ensures filled { OnOk result (FilledBy context.entry.encoding (scope_of context.entry.unit_offsets) (view tables.now) ends.new.places.now op) }
    ensures long { length ends.new.places.now ≡ length ends.old.places.now }
    ensures lender { ends.new.places.ghost_name ≡ ends.old.places.ghost_name }
{
    if let Operation::EntryValue(number) = op {
        let length = measure_expression(tables, number, context, ends)?;
        return Ok(1 + uleb128_size(length as u64) + length);
    }
    operation_size(tables, op, context)
}

/// Where the first `count` operations of an expression end, from the expression's start.
pub fn end_of(tables: &Tables<'_>, number: usize, count: usize, ends: &[usize]) -> usize
    requires whole { Whole (view tables.now) }
    requires there { number < tables.now.sealed_count }
    requires wide { 4096 ≤ length ends.now }
    requires inside { count ≤ (expression_at (view tables.now) number).count }
    ensures value { (e : Encoding) (s : Scope) → Own e s (view tables.now) ends.now number → result ≡ slice_index (starts e s 0 (tree_in (view tables.now) number)) count }
    ensures small { (most : ℕ) → ((i : ℕ) → i < (expression_at (view tables.now) number).count → slice_index ends.now ((expression_at (view tables.now) number).start + i) ≤ most) → result ≤ most }
{
    if count == 0 {
        return 0;
    }
    ends[expression(tables, number).start + count - 1]
}
