//! The book.

ghost use Rattle.book_state.specs.Props.{ordered_prop, whole_prop};
ghost use Rattle.book_state.specs.Whole.{Ordered, Whole};
ghost use Rattle.book_tables.specs.View.{view};

use book_tables::tables::Tables;

/// Expressions, in two lent tables: one of operations and one of their data.
///
/// In every sealed expression each branch has a target of at most the operation count, each nested expression was sealed earlier
/// and is nested once, and all data lie inside the book. Sealed expressions lie one behind the other.
#[derive(Drop)]
pub struct Book<'a> {
    pub(crate) tables: Tables<'a>,
    ghost whole: { Whole (view tables) } by { whole_prop (view tables) },
    ghost ordered: { Ordered (view tables) } by { ordered_prop (view tables) },
}
