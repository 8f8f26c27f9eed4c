//! One step of the writing.

ghost use Rattle.std.specs.Prelude.{◌≡◌, ℕ, ◌+◌, ◌<◌, ◌≤◌, ◌∷◌, ◌++◌, length, take, Ok, ◌≢◌, slice_index};
ghost use Rattle.common.specs.declared.encoding.Encoding.{Encoding as UnitEncoding};
ghost use Rattle.dwarf.specs.Bytes.{bytes_of, size_of};
ghost use Rattle.dwarf.specs.References.{references};
ghost use Rattle.op.specs.declared.operation.Operation.TheVariants.{EntryValue as entry_value};
ghost use Rattle.book_state.specs.State.{op_at, expression_at};
ghost use Rattle.book_state.specs.Whole.{Whole, heaviest};
ghost use Rattle.book_tables.specs.View.{view};
ghost use Rattle.positions.specs.Ends.{Own, Filled};
ghost use Rattle.rules.specs.Scope.{Scope};
ghost use Rattle.unit.specs.Offsets.{scope_of};
ghost use Rattle.writer.specs.Meaning.{Keeps};
ghost use Rattle.emit.specs.Room.{Room};
ghost use Rattle.emit.specs.Walk.{grown, starts_of, leads_to, check_at, tokens_at, Walking, Moved};

use crate::cursor::{Cursor, Open};
use crate::data::data_of;
use crate::put::{put_nested, put_operation, put_row};
use book_tables::tables::Tables;
use book_tree::reading::{expression, operations};
use common::error::Error;
use common::fixup::DebugInfoFixup;
use op::operation::Operation;
use operation::reference::reference_of;
use positions::branch::displacement;
use positions::end_of;
use unit::Context;
use writer::writer::Writer;

/// The displacement of an operation that is a branch, and 0 for any other.
fn displacement_of(
    tables: &Tables<'_>,
    at: Open,
    op: Operation,
    ends: &[usize],
) -> Result<i16, Error>
    requires whole { Whole (view tables.now) }
    requires there { at.number < tables.now.sealed_count }
    requires more { at.next < (expression_at (view tables.now) at.number).count }
    requires here { op ≡ op_at (view tables.now) ((expression_at (view tables.now) at.number).start + at.next) }
    requires wide { 4096 ≤ length ends.now }
    requires small { (i : ℕ) → i < (expression_at (view tables.now) at.number).count → slice_index ends.now ((expression_at (view tables.now) at.number).start + i) ≤ heaviest }
    ensures { (e : UnitEncoding) (s : Scope) → Own e s (view tables.now) ends.now at.number → leads_to e s (view tables.now) at result }
{
    match op {
        Operation::Skip(target) | Operation::Branch(target) => {
            displacement(tables, at.number, at.next, target, ends)
        }
        _ => Ok(0),
    }
}

/// Writes an operation that nests nothing, and notes its reference.
fn write_plain<W: Writer>(
    w: &mut W,
    tables: &Tables<'_>,
    at: Open,
    op: Operation,
    context: Context<'_>,
    ends: &[usize],
    rows: &mut [DebugInfoFixup],
    count: &mut usize,
) -> Result<(), Error>
    requires whole { Whole (view tables.now) }
    requires there { at.number < tables.now.sealed_count }
    requires more { at.next < (expression_at (view tables.now) at.number).count }
    requires here { op ≡ op_at (view tables.now) ((expression_at (view tables.now) at.number).start + at.next) }
    requires plain { (m : ℕ) → op ≢ entry_value m }
    requires wide { 4096 ≤ length ends.now }
    requires filled { Filled context.encoding (scope_of context.unit_offsets) (view tables.now) ends.now at.number }
    requires checked { check_at context.encoding (scope_of context.unit_offsets) (view tables.now) at ≡ Ok tt }
    requires room { Room (W.Writer.means w.old) (size_of (tokens_at context.encoding (scope_of context.unit_offsets) (view tables.now) at)) }
    requires free { count.old + length (references (length (W.Writer.means w.old).content) (tokens_at context.encoding (scope_of context.unit_offsets) (view tables.now) at)) ≤ length rows.old }
    ensures answer { result ≡ Ok tt }
    ensures after { W.Writer.means w.new ≡ grown (W.Writer.means w.old) (bytes_of (W.Writer.means w.old).big (tokens_at context.entry.encoding (scope_of context.entry.unit_offsets) (view tables.now) at)) }
    ensures rows { take count.new rows.new ≡ take count.old rows.old ++ references (length (W.Writer.means w.old).content) (tokens_at context.entry.encoding (scope_of context.entry.unit_offsets) (view tables.now) at) }
    ensures count { count.new ≡ count.old + length (references (length (W.Writer.means w.old).content) (tokens_at context.entry.encoding (scope_of context.entry.unit_offsets) (view tables.now) at)) }
    ensures long { length rows.new ≡ length rows.old }
    ensures memory { Keeps (W.Writer.memory w.old) (W.Writer.memory w.new) (length (W.Writer.means w.new).content) }
{
    let displacement = displacement_of(tables, at, op, ends)?;
    let offset = w.len();
    put_operation(w, op, data_of(tables, op), context, displacement)?;
    *count = put_row(rows, *count, reference_of(op, context.encoding, offset));
    Ok(())
}

/// Writes the next operation. Of an entry value its code and length are written, and the expression that it nests comes next.
pub(crate) fn step<W: Writer>(
    w: &mut W,
    tables: &Tables<'_>,
    cursor: &mut Cursor,
    context: Context<'_>,
    ends: &[usize],
    rows: &mut [DebugInfoFixup],
    count: &mut usize,
) -> Result<(), Error>
    requires whole { Whole (view tables.now) }
    requires wide { 4096 ≤ length ends.now }
    requires walking { Walking context.encoding (scope_of context.unit_offsets) (view tables.now) ends.now (W.Writer.means w.old) rows.old count.old cursor.old }
    requires more { cursor.old.top.next < (expression_at (view tables.now) cursor.old.top.number).count }
    ensures answer { result ≡ Ok tt }
    ensures moved { Moved context.entry.encoding (scope_of context.entry.unit_offsets) (view tables.now) ends.now (W.Writer.means w.old) (W.Writer.means w.new) rows.old rows.new count.old count.new cursor.old cursor.new }
    ensures memory { Keeps (W.Writer.memory w.old) (W.Writer.memory w.new) (length (W.Writer.means w.new).content) }
{
    let top = cursor.top;
    match operations(tables, top.number)[top.next] {
        Operation::EntryValue(number) => {
            let size = end_of(tables, number, expression(tables, number).count, ends);
            put_nested(w, context.encoding, size as u64)?;
            cursor.enter(number);
        }
        op => {
            write_plain(w, tables, top, op, context, ends, rows, count)?;
            cursor.top.next = top.next + 1;
        }
    }
    Ok(())
}
