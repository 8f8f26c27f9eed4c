//! Fields that replace bytes written before.

ghost use Rattle.std.specs.Prelude.{◌≡◌, ℕ};
ghost use Rattle.dwarf.specs.Fixed.{udata};
ghost use Rattle.writer.specs.Meaning.{Patches};
ghost use Rattle.fields.specs.Fields.{length_data};

use crate::append::InitialLengthOffset;
use common::encoding::{Format, SectionId};
use common::error::Error;
use writer::fixed::{in_width, low_bytes};
use writer::writer::Writer;

/// Write an offset that is relative to the start of a section, at an offset.
pub fn write_offset_at<W: Writer>(
    w: &mut W,
    offset: usize,
    val: usize,
    _section: SectionId,
    size: u8,
) -> Result<(), Error>
    ensures { Patches offset (udata (W.Writer.means w.old).big val size) (W.Writer.means w.old) (W.Writer.memory w.old) result (W.Writer.means w.new) (W.Writer.memory w.new) }
{
    write_udata_at(w, offset, val as u64, size)
}

/// Write unsigned data of 1, 2, 3, 4 or 8 bytes at an offset.
pub fn write_udata_at<W: Writer>(w: &mut W, offset: usize, val: u64, size: u8) -> Result<(), Error>
    ensures { Patches offset (udata (W.Writer.means w.old).big val size) (W.Writer.means w.old) (W.Writer.memory w.old) result (W.Writer.means w.new) (W.Writer.memory w.new) }
{
    let val = in_width(val, size)?;
    w.write_at(offset, low_bytes(w.endian(), val, size).as_slice())
}

/// Write an initial length where `write_initial_length` left its place.
///
/// In 32-bit DWARF the lengths from 0xfffffff0 on are reserved and refused with `ValueTooLarge`.
pub fn write_initial_length_at<W: Writer>(
    w: &mut W,
    offset: InitialLengthOffset,
    length: u64,
    format: Format,
) -> Result<(), Error>
    ensures { Patches offset.0 (length_data (W.Writer.means w.old).big format length) (W.Writer.means w.old) (W.Writer.memory w.old) result (W.Writer.means w.new) (W.Writer.memory w.new) }
{
    match format {
        Format::Dwarf32 if length >= 0xffff_fff0 => Err(Error::ValueTooLarge),
        _ => write_udata_at(w, offset.0, length, format.word_size()),
    }
}
