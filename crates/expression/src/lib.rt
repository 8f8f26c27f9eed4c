//! Questions about the expressions of a book.

#![tactic(auto)]

ghost use Rattle.std.specs.Prelude.{◌≡◌};
ghost use Rattle.book.specs.Holds.{holds};
ghost use Rattle.unit.specs.Offsets.{scope_of};
ghost use Rattle.expression.specs.Sealed.{tree_at, size_at};

use book::book::Book;
use common::error::Error;
use size::expression_size;
use unit::Context;

/// How many bytes an expression of a book takes.
pub fn size_of(book: &Book<'_>, number: usize, context: Context<'_>) -> Result<usize, Error>
    ensures { result ≡ size_at context.entry.encoding (scope_of context.entry.unit_offsets) (tree_at (holds book.now) number) }
{
    let tables = book.tables();
    if number >= tables.sealed_count {
        return Err(Error::NoExpression);
    }
    expression_size(tables, number, context)
}
