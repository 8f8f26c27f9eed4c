//! What the operations of a draft ask for.

ghost use Rattle.std.specs.Prelude.{◌≡◌, ◌≤◌, ℕ, length};
ghost use Rattle.book_state.specs.Calls.{freed_by};
ghost use Rattle.book_state.specs.Operations.{shape as shape_of, any_unset};
ghost use Rattle.book_state.specs.State.{expression_of, depth_by, depth_of, weight_by, weight_of};
ghost use Rattle.book_state.specs.Whole.{heaviest};

use crate::operation::{is_unset, shape};
use book_state::expression::Expression;
use book_state::shape::Shape;
use op::operation::Operation;

/// Whether a branch among the operations has no target.
pub(crate) fn any_unset(operations: &[Operation]) -> bool
    ensures { result ≡ any_unset operations.now }
{
    operations.iter().any(|op| is_unset(*op))
}

/// The expression of a number; past the table it is empty.
fn expression_of(expressions: &[Expression], number: usize) -> Expression
    ensures { result ≡ expression_of expressions.now number }
{
    expressions.get(number).copied().unwrap_or_default()
}

/// The depth that an operation asks for.
fn depth_by(expressions: &[Expression], op: Operation) -> usize
    requires { (k : ℕ) → (expression_of expressions.now k).depth ≤ 16 }
    ensures { result ≡ depth_by expressions.now (shape_of op) }
{
    match shape(op) {
        Shape::Nesting(number) => expression_of(expressions, number).depth + 1,
        _ => 0,
    }
}

/// The depth of an expression of these operations.
pub(crate) fn depth_of(expressions: &[Expression], operations: &[Operation]) -> usize
    requires { (k : ℕ) → (expression_of expressions.now k).depth ≤ 16 }
    ensures { result ≡ depth_of expressions.now operations.now }
{
    let depths = operations.iter().map(|op| depth_by(expressions, *op));
    depths.max().unwrap_or(0)
}

/// A bound of the bytes that an operation's encoding takes.
fn weight_by(expressions: &[Expression], op: Operation) -> usize
    requires { (k : ℕ) → (expression_of expressions.now k).weight ≤ heaviest }
    ensures value { result ≡ weight_by expressions.now (shape_of op) }
    ensures bound { result ≤ 1155337 }
{
    match shape(op) {
        Shape::Nesting(number) => 266 + expression_of(expressions, number).weight,
        Shape::Holding(data) => 266 + usize::from(data.len),
        _ => 266,
    }
}

/// The weight of an expression of these operations.
pub(crate) fn weight_of(expressions: &[Expression], operations: &[Operation]) -> usize
    requires light { (k : ℕ) → (expression_of expressions.now k).weight ≤ heaviest }
    requires few { length operations.now ≤ 4096 }
    ensures { result ≡ weight_of expressions.now operations.now }
{
    operations
        .iter()
        .map(|op| weight_by(expressions, *op))
        .sum()
}

/// Frees the expression that an operation nests.
pub(crate) fn free(expressions: &mut [Expression], op: Operation)
    ensures { expressions.new ≡ freed_by (shape_of op) expressions.old }
{
    if let Shape::Nesting(number) = shape(op) {
        if number < expressions.len() {
            expressions[number].nested = false;
        }
    }
}
