//! A book's sealed expressions, to be read.

ghost use Rattle.std.specs.Prelude.{◌≡◌, ◌+◌, ◌<◌, ◌≤◌, length};
ghost use Rattle.book_state.specs.State.{expression_at, operations_of};
ghost use Rattle.book_state.specs.Whole.{Whole};
ghost use Rattle.book_tables.specs.View.{view};

use book_state::expression::Expression;
use book_tables::tables::Tables;
use op::operation::Operation;

/// A sealed expression.
pub fn expression(tables: &Tables<'_>, number: usize) -> Expression
    requires whole { Whole (view tables.now) }
    requires there { number < tables.now.sealed_count }
    ensures value { result ≡ expression_at (view tables.now) number }
    ensures within { result.start + result.count ≤ 4096 }
{
    tables.expressions[number]
}

/// The operations of a sealed expression.
pub fn operations<'b>(tables: &'b Tables<'_>, number: usize) -> &'b [Operation]
    requires whole { Whole (view tables.now) }
    requires there { number < tables.now.sealed_count }
    ensures value { result.now ≡ operations_of (view tables.now) number }
    ensures count { length result.now ≡ (expression_at (view tables.now) number).count }
{
    let expression = expression(tables, number);
    &tables.operations[expression.start..expression.start + expression.count]
}
