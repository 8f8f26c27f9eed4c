//! Bytes and rows for which there is room.

ghost use Rattle.std.specs.Prelude.{◌≡◌, ℕ, ◌+◌, ◌≤◌, true, List, ◌∷◌, ◌++◌, length, take, Ok};
ghost use Rattle.std.specs.Option.{option_to_list};
ghost use Rattle.dwarf.specs.Bytes.{bytes_of};
ghost use Rattle.dwarf.specs.Leb.{uleb};
ghost use Rattle.emit.specs.Walk.{grown};
ghost use Rattle.emit.specs.Room.{Room, Encoded, op_tokens};
ghost use Rattle.operation.specs.Fronts.{data_in};
ghost use Rattle.rules.specs.Operands.{by_version};
ghost use Rattle.unit.specs.Offsets.{scope_of};
ghost use Rattle.writer.specs.Meaning.{Keeps};

use common::encoding::Encoding;
use common::error::Error;
use common::fixup::DebugInfoFixup;
use op::operation::Operation;
use operation::encode::{encode_nested, encode_operation};
use unit::Context;
use writer::writer::Writer;

/// Adds bytes that fit.
pub fn put<W: Writer>(w: &mut W, bytes: &[u8]) -> Result<(), Error>
    requires { Room (W.Writer.means w.old) (length bytes.now) }
    ensures answer { result ≡ Ok tt }
    ensures after { W.Writer.means w.new ≡ grown (W.Writer.means w.old) bytes.now }
    ensures memory { Keeps (W.Writer.memory w.old) (W.Writer.memory w.new) (length (W.Writer.means w.new).content) }
{
    w.write(bytes)
}

/// Adds a row, if there is one, behind those in use, and answers how many are in use then.
pub fn put_row(rows: &mut [DebugInfoFixup], count: usize, row: Option<DebugInfoFixup>) -> usize
    requires { count + length (option_to_list row) ≤ length rows.old }
    ensures value { result ≡ count + length (option_to_list row) }
    ensures after { take result rows.new ≡ take count rows.old ++ option_to_list row }
    ensures long { length rows.new ≡ length rows.old }
{
    match row {
        Some(row) => {
            rows[count] = row;
            count + 1
        }
        None => count,
    }
}

/// Writes an operation that nests nothing: its code and operands, then its data.
pub fn put_operation<W: Writer>(
    w: &mut W,
    op: Operation,
    data: &[u8],
    context: Context<'_>,
    displacement: i16,
) -> Result<(), Error>
    requires known { Encoded context.encoding (scope_of context.unit_offsets) displacement op «data».now }
    requires held { data_in op «data».now ≡ «data».now }
    requires room { Room (W.Writer.means w.old) (length (bytes_of (W.Writer.means w.old).big (op_tokens context.encoding (scope_of context.unit_offsets) displacement op «data».now))) }
    ensures answer { result ≡ Ok tt }
    ensures after { W.Writer.means w.new ≡ grown (W.Writer.means w.old) (bytes_of (W.Writer.means w.old).big (op_tokens context.entry.encoding (scope_of context.entry.unit_offsets) displacement op «data».now)) }
    ensures memory { Keeps (W.Writer.memory w.old) (W.Writer.memory w.new) (length (W.Writer.means w.new).content) }
{
    let head = encode_operation(op, data, context, w.endian(), displacement)?;
    put(w, head.bytes())?;
    put(w, data)?;
    Ok(())
}

/// Writes the code and the length of an entry value whose expression takes so many bytes.
pub fn put_nested<W: Writer>(w: &mut W, encoding: Encoding, size: u64) -> Result<(), Error>
    requires { Room (W.Writer.means w.old) (1 + length (uleb size)) }
    ensures answer { result ≡ Ok tt }
    ensures after { W.Writer.means w.new ≡ grown (W.Writer.means w.old) (by_version encoding 0xa3 0xf3 ∷ uleb size) }
    ensures memory { Keeps (W.Writer.memory w.old) (W.Writer.memory w.new) (length (W.Writer.means w.new).content) }
{
    put(w, encode_nested(encoding, size).bytes())
}
