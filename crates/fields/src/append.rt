//! Fields that are added at the end of a sink.

ghost use Rattle.std.specs.Prelude.{◌≡◌, length, Ok, Err};
ghost use Rattle.common.specs.declared.error.Error.TheVariants.{InvalidReference};
ghost use Rattle.dwarf.specs.Fixed.{udata};
ghost use Rattle.dwarf.specs.Leb.{uleb, sleb};
ghost use Rattle.writer.specs.Meaning.{Appends, Keeps, appended};
ghost use Rattle.fields.specs.Fields.{address_data, sdata, no_length, length_answer};
ghost use Rattle.fields.specs.Offsets.{offset_of};

use common::address::Address;
use common::encoding::{Format, SectionId};
use common::error::Error;
use leb128::Leb128;
use writer::fixed::{in_width, low_bytes, write_u8, write_u16, write_u32, write_u64};
use writer::writer::Writer;

/// Write an address. A symbol is refused with `InvalidAddress`.
pub fn write_address<W: Writer>(w: &mut W, address: Address, size: u8) -> Result<(), Error>
    ensures { Appends (address_data (W.Writer.means w.old).big address size) (W.Writer.means w.old) (W.Writer.memory w.old) result (W.Writer.means w.new) (W.Writer.memory w.new) }
{
    match address {
        Address::Constant(val) => write_udata(w, val, size),
        Address::Symbol {
            symbol: _,
            addend: _,
        } => Err(Error::InvalidAddress),
    }
}

/// Write an offset that is relative to the start of a section.
pub fn write_offset<W: Writer>(
    w: &mut W,
    val: usize,
    _section: SectionId,
    size: u8,
) -> Result<(), Error>
    ensures { Appends (udata (W.Writer.means w.old).big val size) (W.Writer.means w.old) (W.Writer.memory w.old) result (W.Writer.means w.new) (W.Writer.memory w.new) }
{
    write_udata(w, val as u64, size)
}

/// Write a reference to a symbol, which is always refused.
pub fn write_reference<W: Writer>(_w: &mut W, _symbol: usize, _size: u8) -> Result<(), Error>
    ensures { Appends (Err InvalidReference) (W.Writer.means _w.old) (W.Writer.memory _w.old) result (W.Writer.means _w.new) (W.Writer.memory _w.new) }
{
    Err(Error::InvalidReference)
}

/// Write unsigned data of 1, 2, 3, 4 or 8 bytes.
pub fn write_udata<W: Writer>(w: &mut W, val: u64, size: u8) -> Result<(), Error>
    ensures { Appends (udata (W.Writer.means w.old).big val size) (W.Writer.means w.old) (W.Writer.memory w.old) result (W.Writer.means w.new) (W.Writer.memory w.new) }
{
    let val = in_width(val, size)?;
    w.write(low_bytes(w.endian(), val, size).as_slice())
}

/// Write signed data of 1, 2, 4 or 8 bytes.
pub fn write_sdata<W: Writer>(w: &mut W, val: i64, size: u8) -> Result<(), Error>
    ensures { Appends (sdata (W.Writer.means w.old).big val size) (W.Writer.means w.old) (W.Writer.memory w.old) result (W.Writer.means w.new) (W.Writer.memory w.new) }
{
    match size {
        1 => write_u8(w, i8::try_from(val)?.cast_unsigned()),
        2 => write_u16(w, i16::try_from(val)?.cast_unsigned()),
        4 => write_u32(w, i32::try_from(val)?.cast_unsigned()),
        8 => write_u64(w, val.cast_unsigned()),
        otherwise => Err(Error::UnsupportedWordSize(otherwise)),
    }
}

/// Write an unsigned LEB128 number.
pub fn write_uleb128<W: Writer>(w: &mut W, val: u64) -> Result<(), Error>
    ensures { Appends (Ok (uleb val)) (W.Writer.means w.old) (W.Writer.memory w.old) result (W.Writer.means w.new) (W.Writer.memory w.new) }
{
    w.write(Leb128::unsigned(val).bytes())
}

/// Write a signed LEB128 number.
pub fn write_sleb128<W: Writer>(w: &mut W, val: i64) -> Result<(), Error>
    ensures { Appends (Ok (sleb val)) (W.Writer.means w.old) (W.Writer.memory w.old) result (W.Writer.means w.new) (W.Writer.memory w.new) }
{
    w.write(Leb128::signed(val).bytes())
}

/// Where an initial length stands that is to be written once it is known.
#[derive(Clone, Copy)]
pub struct InitialLengthOffset(pub(crate) usize);

/// Write an initial length of 0 in a DWARF format, to be replaced by `write_initial_length_at`.
///
/// All of it goes to the sink in one write, so nothing is written where not all of it fits.
pub fn write_initial_length<W: Writer>(
    w: &mut W,
    format: Format,
) -> Result<InitialLengthOffset, Error>
    ensures answer { offset_of result ≡ length_answer (W.Writer.means w.old) format }
    ensures after { W.Writer.means w.new ≡ appended (W.Writer.means w.old) (Ok (no_length (W.Writer.means w.old).big format)) }
    ensures memory { Keeps (W.Writer.memory w.old) (W.Writer.memory w.new) (length (W.Writer.means w.new).content) }
{
    let len = w.len();
    match format {
        Format::Dwarf32 => {
            w.write(&[0, 0, 0, 0])?;
            Ok(InitialLengthOffset(len))
        }
        Format::Dwarf64 => {
            w.write(&[0xff, 0xff, 0xff, 0xff, 0, 0, 0, 0, 0, 0, 0, 0])?;
            Ok(InitialLengthOffset(len + 4))
        }
    }
}
