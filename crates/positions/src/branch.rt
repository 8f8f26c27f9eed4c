//! Displacements of branches, read off the table of ends.

ghost use Rattle.std.specs.Prelude.{◌≡◌, ℕ, ◌+◌, ◌<◌, ◌≤◌, length, slice_index};
ghost use Rattle.common.specs.declared.encoding.Encoding.{Encoding};
ghost use Rattle.book_state.specs.State.{expression_at};
ghost use Rattle.book_state.specs.Whole.{Whole, heaviest};
ghost use Rattle.book_tables.specs.View.{view};
ghost use Rattle.book_tree.specs.Store.{tree_in};
ghost use Rattle.positions.specs.Ends.{Own};
ghost use Rattle.rules.specs.Encode.{starts};
ghost use Rattle.rules.specs.Operands.{displaced, displacement_from};
ghost use Rattle.rules.specs.Scope.{Scope};

use crate::end_of;
use book_tables::tables::Tables;
use book_tree::reading::expression;
use common::error::Error;

/// The displacement from one place to another, in two signed bytes.
fn distance(from: usize, to: usize) -> Result<i16, Error>
    requires near { from ≤ heaviest }
    requires far { to ≤ heaviest }
    ensures { result ≡ displacement_from from to }
{
    Ok(i16::try_from(to as i64 - from as i64)?)
}

/// The displacement of a branch, operation `index` of an expression: from its end to where its target begins.
pub fn displacement(
    tables: &Tables<'_>,
    number: usize,
    index: usize,
    target: Option<usize>,
    ends: &[usize],
) -> Result<i16, Error>
    requires whole { Whole (view tables.now) }
    requires there { number < tables.now.sealed_count }
    requires inside { index < (expression_at (view tables.now) number).count }
    requires wide { 4096 ≤ length ends.now }
    requires small { (i : ℕ) → i < (expression_at (view tables.now) number).count → slice_index ends.now ((expression_at (view tables.now) number).start + i) ≤ heaviest }
    ensures { (e : Encoding) (s : Scope) → Own e s (view tables.now) ends.now number → result ≡ displaced (starts e s 0 (tree_in (view tables.now) number)) (slice_index (starts e s 0 (tree_in (view tables.now) number)) (index + 1)) target }
{
    let target = target.ok_or(Error::BranchOpen)?;
    if target > expression(tables, number).count {
        return Err(Error::BadTarget);
    }
    let from = end_of(tables, number, index + 1, ends);
    let to = end_of(tables, number, target, ends);
    distance(from, to)
}
