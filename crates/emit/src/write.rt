//! Writing a book's expression, once all of it is known to fit.

ghost use Rattle.std.specs.Prelude.{◌≡◌, ◌≤◌, length, take};
ghost use Rattle.book.specs.Holds.{holds};
ghost use Rattle.expression.specs.Sealed.{tree_at};
ghost use Rattle.unit.specs.Offsets.{scope_of};
ghost use Rattle.writer.specs.Meaning.{Keeps};
ghost use Rattle.emit.specs.Written.{written, Wrote};

use crate::walk::emit;
use book::book::Book;
use checking::check_expression;
use common::error::Error;
use common::fixup::DebugInfoFixup;
use positions::{Ends, measure_expression};
use unit::Context;
use writer::writer::Writer;

/// Writes an expression of a book, and answers how many bytes it takes. First all sizes are taken, then every operation is checked:
/// nothing is written unless all of it will be. `ends` is room for where operations end; behind the first `count` of `rows` come the
/// references that are set down.
pub fn write_expression<W: Writer>(
    w: &mut W,
    book: &Book<'_>,
    number: usize,
    context: Context<'_>,
    ends: &mut [usize],
    rows: &mut [DebugInfoFixup],
    count: &mut usize,
) -> Result<usize, Error>
    requires wide { 4096 ≤ length ends.old }
    requires table { length rows.old ≡ 512 }
    requires used { count.old ≤ 512 }
    ensures wrote { Wrote (written (W.Writer.means w.old) count.old context.entry.encoding (scope_of context.entry.unit_offsets) (tree_at (holds book.now) number)) (W.Writer.means w.old) (W.Writer.means w.new) (take count.old rows.old) (take count.new rows.new) result }
    ensures used { count.new ≤ 512 }
    ensures memory { Keeps (W.Writer.memory w.old) (W.Writer.memory w.new) (length (W.Writer.means w.new).content) }
{
    let tables = book.tables();
    if number >= tables.sealed_count {
        return Err(Error::NoExpression);
    }
    let mut ends = Ends { places: ends };
    let size = measure_expression(tables, number, context, &mut ends)?;
    let Ends { places } = ends;
    let references = check_expression(tables, number, context, places)?;
    if *count + references > 512 {
        return Err(Error::TooManyReferences);
    }
    if size > w.room() {
        return Err(Error::NoRoom);
    }
    emit(w, tables, number, context, places, rows, count)?;
    Ok(size)
}
