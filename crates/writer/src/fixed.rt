//! Numbers of a fixed width, in the byte order of the sink.

ghost use Rattle.std.specs.Prelude.{◌≡◌, ℕ, ◌≤◌, [], ◌∷◌, Ok, OnOk};
ghost use Rattle.std.proofs.Common.{lit≤};
ghost use Rattle.common.specs.Held.{held};
ghost use Rattle.dwarf.specs.Fixed.{fixed_bytes, in_width};
ghost use Rattle.writer.specs.Meaning.{Appends, Patches};

use crate::writer::Writer;
use common::bytes::Bytes;
use common::endianity::Endianity;
use common::error::Error;

/// An unsigned number of `N` bytes.
pub trait Fixed<const N: usize>: Copy {
    /// The number.
    ghost value: { Self → ℕ };

    /// Its bytes in a byte order.
    fn bytes<E: Endianity>(self, endian: E) -> [u8; N]
        ensures { result ≡ fixed_bytes (E.Endianity.big endian) N (value self) };

    /// There are at most 16.
    ghost narrow: { N ≤ 16 };
}

impl Fixed<1> for u8 {
    ghost value = { λ n. n };

    ghost narrow = { lit≤ tt };

    fn bytes<E: Endianity>(self, _endian: E) -> [u8; 1] {
        [self]
    }
}

impl Fixed<2> for u16 {
    ghost value = { λ n. n };

    ghost narrow = { lit≤ tt };

    fn bytes<E: Endianity>(self, endian: E) -> [u8; 2] {
        if endian.is_big_endian() {
            self.to_be_bytes()
        } else {
            self.to_le_bytes()
        }
    }
}

impl Fixed<4> for u32 {
    ghost value = { λ n. n };

    ghost narrow = { lit≤ tt };

    fn bytes<E: Endianity>(self, endian: E) -> [u8; 4] {
        if endian.is_big_endian() {
            self.to_be_bytes()
        } else {
            self.to_le_bytes()
        }
    }
}

impl Fixed<8> for u64 {
    ghost value = { λ n. n };

    ghost narrow = { lit≤ tt };

    fn bytes<E: Endianity>(self, endian: E) -> [u8; 8] {
        if endian.is_big_endian() {
            self.to_be_bytes()
        } else {
            self.to_le_bytes()
        }
    }
}

impl Fixed<16> for u128 {
    ghost value = { λ n. n };

    ghost narrow = { lit≤ tt };

    fn bytes<E: Endianity>(self, endian: E) -> [u8; 16] {
        if endian.is_big_endian() {
            self.to_be_bytes()
        } else {
            self.to_le_bytes()
        }
    }
}

/// A number that a width of 1, 2, 3, 4 or 8 bytes holds.
pub fn in_width(val: u64, width: u8) -> Result<u64, Error>
    ensures value { result ≡ in_width width val }
    ensures narrow { OnOk result (width ≤ 8) }
{
    let fits = match width {
        1 => val <= 0xff,
        2 => val <= 0xffff,
        3 => val <= 0xff_ffff,
        4 => val <= 0xffff_ffff,
        8 => true,
        otherwise => return Err(Error::UnsupportedWordSize(otherwise)),
    };
    if fits {
        Ok(val)
    } else {
        Err(Error::ValueTooLarge)
    }
}

/// The low bytes of a number, as many as a width of at most 8 says.
pub fn low_bytes<E: Endianity>(endian: E, val: u64, width: u8) -> Bytes<8>
    requires { width ≤ 8 }
    ensures { held result ≡ fixed_bytes (E.Endianity.big endian) width val }
{
    let width = width as usize;
    let all = val.bytes(endian);
    let mut low = Bytes::new();
    if endian.is_big_endian() {
        low.extend(&all[8 - width..]);
    } else {
        low.extend(&all[..width]);
    }
    low
}

/// Write a number of a fixed width.
pub fn write_fixed<const N: usize, T: Fixed<N>, W: Writer>(w: &mut W, val: T) -> Result<(), Error>
    ensures { Appends (Ok (fixed_bytes (W.Writer.means w.old).big N (T.Fixed.value val))) (W.Writer.means w.old) (W.Writer.memory w.old) result (W.Writer.means w.new) (W.Writer.memory w.new) }
{
    w.write(&val.bytes(w.endian()))
}

/// Write a number of a fixed width at an offset.
pub fn write_fixed_at<const N: usize, T: Fixed<N>, W: Writer>(
    w: &mut W,
    offset: usize,
    val: T,
) -> Result<(), Error>
    ensures { Patches offset (Ok (fixed_bytes (W.Writer.means w.old).big N (T.Fixed.value val))) (W.Writer.means w.old) (W.Writer.memory w.old) result (W.Writer.means w.new) (W.Writer.memory w.new) }
{
    w.write_at(offset, &val.bytes(w.endian()))
}

/// Write a `u8`.
pub fn write_u8<W: Writer>(w: &mut W, val: u8) -> Result<(), Error>
    ensures { Appends (Ok (val ∷ [])) (W.Writer.means w.old) (W.Writer.memory w.old) result (W.Writer.means w.new) (W.Writer.memory w.new) }
{
    write_fixed::<1, _, _>(w, val)
}

/// Write a `u16`.
pub fn write_u16<W: Writer>(w: &mut W, val: u16) -> Result<(), Error>
    ensures { Appends (Ok (fixed_bytes (W.Writer.means w.old).big 2 val)) (W.Writer.means w.old) (W.Writer.memory w.old) result (W.Writer.means w.new) (W.Writer.memory w.new) }
{
    write_fixed::<2, _, _>(w, val)
}

/// Write a `u32`.
pub fn write_u32<W: Writer>(w: &mut W, val: u32) -> Result<(), Error>
    ensures { Appends (Ok (fixed_bytes (W.Writer.means w.old).big 4 val)) (W.Writer.means w.old) (W.Writer.memory w.old) result (W.Writer.means w.new) (W.Writer.memory w.new) }
{
    write_fixed::<4, _, _>(w, val)
}

/// Write a `u64`.
pub fn write_u64<W: Writer>(w: &mut W, val: u64) -> Result<(), Error>
    ensures { Appends (Ok (fixed_bytes (W.Writer.means w.old).big 8 val)) (W.Writer.means w.old) (W.Writer.memory w.old) result (W.Writer.means w.new) (W.Writer.memory w.new) }
{
    write_fixed::<8, _, _>(w, val)
}

/// Write a `u128`.
pub fn write_u128<W: Writer>(w: &mut W, val: u128) -> Result<(), Error>
    ensures { Appends (Ok (fixed_bytes (W.Writer.means w.old).big 16 val)) (W.Writer.means w.old) (W.Writer.memory w.old) result (W.Writer.means w.new) (W.Writer.memory w.new) }
{
    write_fixed::<16, _, _>(w, val)
}

/// Write a `u8` at an offset.
pub fn write_u8_at<W: Writer>(w: &mut W, offset: usize, val: u8) -> Result<(), Error>
    ensures { Patches offset (Ok (val ∷ [])) (W.Writer.means w.old) (W.Writer.memory w.old) result (W.Writer.means w.new) (W.Writer.memory w.new) }
{
    write_fixed_at::<1, _, _>(w, offset, val)
}

/// Write a `u16` at an offset.
pub fn write_u16_at<W: Writer>(w: &mut W, offset: usize, val: u16) -> Result<(), Error>
    ensures { Patches offset (Ok (fixed_bytes (W.Writer.means w.old).big 2 val)) (W.Writer.means w.old) (W.Writer.memory w.old) result (W.Writer.means w.new) (W.Writer.memory w.new) }
{
    write_fixed_at::<2, _, _>(w, offset, val)
}

/// Write a `u32` at an offset.
pub fn write_u32_at<W: Writer>(w: &mut W, offset: usize, val: u32) -> Result<(), Error>
    ensures { Patches offset (Ok (fixed_bytes (W.Writer.means w.old).big 4 val)) (W.Writer.means w.old) (W.Writer.memory w.old) result (W.Writer.means w.new) (W.Writer.memory w.new) }
{
    write_fixed_at::<4, _, _>(w, offset, val)
}

/// Write a `u64` at an offset.
pub fn write_u64_at<W: Writer>(w: &mut W, offset: usize, val: u64) -> Result<(), Error>
    ensures { Patches offset (Ok (fixed_bytes (W.Writer.means w.old).big 8 val)) (W.Writer.means w.old) (W.Writer.memory w.old) result (W.Writer.means w.new) (W.Writer.memory w.new) }
{
    write_fixed_at::<8, _, _>(w, offset, val)
}

/// Write a `u128` at an offset.
pub fn write_u128_at<W: Writer>(w: &mut W, offset: usize, val: u128) -> Result<(), Error>
    ensures { Patches offset (Ok (fixed_bytes (W.Writer.means w.old).big 16 val)) (W.Writer.means w.old) (W.Writer.memory w.old) result (W.Writer.means w.new) (W.Writer.memory w.new) }
{
    write_fixed_at::<16, _, _>(w, offset, val)
}
