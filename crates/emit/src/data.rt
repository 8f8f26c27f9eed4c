//! The data of an operation.

ghost use Rattle.std.specs.Prelude.{◌≡◌};
ghost use Rattle.book_state.specs.Operations.{shape as shape_of};
ghost use Rattle.book_tables.specs.View.{view};
ghost use Rattle.book_tree.specs.Store.{InBook};
ghost use Rattle.emit.specs.Held.{data_at};

use book_state::shape::Shape;
use book_tables::operation::shape;
use book_tables::tables::Tables;
use op::operation::Operation;

/// The data of an operation, none where it holds none.
pub fn data_of<'b>(tables: &'b Tables<'_>, op: Operation) -> &'b [u8]
    requires { InBook (view tables.now) (shape_of op) }
    ensures { result.now ≡ data_at (view tables.now) (shape_of op) }
{
    match shape(op) {
        Shape::Holding(data) => {
            let start = usize::from(data.start);
            &tables.bytes[start..start + usize::from(data.len)]
        }
        _ => &[],
    }
}
