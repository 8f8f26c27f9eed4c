//! Writing an expression operation by operation, with a list of those that it is nested in.

ghost use Rattle.std.specs.Prelude.{◌≡◌, ◌≤◌, length, take, Ok};
ghost use Rattle.book_state.specs.Whole.{Whole};
ghost use Rattle.book_tables.specs.View.{view};
ghost use Rattle.unit.specs.Offsets.{scope_of};
ghost use Rattle.writer.specs.Meaning.{Keeps};
ghost use Rattle.emit.specs.Walk.{begin, come, left, Walking};

use crate::cursor::Cursor;
use crate::step::step;
use book_tables::tables::Tables;
use book_tree::reading::expression;
use common::error::Error;
use common::fixup::DebugInfoFixup;
use unit::Context;
use writer::writer::Writer;

/// Writes an expression that was checked and that fits.
pub fn emit<W: Writer>(
    w: &mut W,
    tables: &Tables<'_>,
    number: usize,
    context: Context<'_>,
    ends: &[usize],
    rows: &mut [DebugInfoFixup],
    count: &mut usize,
) -> Result<(), Error>
    requires whole { Whole (view tables.now) }
    requires wide { 4096 ≤ length ends.now }
    requires walking { Walking context.encoding (scope_of context.unit_offsets) (view tables.now) ends.now (W.Writer.means w.old) rows.old count.old (begin number) }
    ensures answer { result ≡ Ok tt }
    ensures came { (W.Writer.means w.new, take count.new rows.new) ≡ come (W.Writer.means w.old) (take count.old rows.old) (left context.entry.encoding (scope_of context.entry.unit_offsets) (view tables.now) (begin number)) }
    ensures used { count.new ≤ length rows.new }
    ensures long { length rows.new ≡ length rows.old }
    ensures memory { Keeps (W.Writer.memory w.old) (W.Writer.memory w.new) (length (W.Writer.means w.new).content) }
{
    let mut cursor = Cursor::begin(number);
    'walk: loop {
        let top = cursor.top;
        if top.next < expression(tables, top.number).count {
            step(w, tables, &mut cursor, context, ends, rows, count)?;
        } else if cursor.level > 0 {
            cursor.leave();
        } else {
            return Ok(());
        }
    }
}
