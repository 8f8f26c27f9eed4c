//! The bytes of an operation before its data.

ghost use Rattle.std.specs.Prelude.{◌≡◌, ℕ, ◌+◌, ◌≤◌, [], ◌∷◌, ◌++◌, length};
ghost use Rattle.dwarf.specs.Fixed.{fixed_bytes};
ghost use Rattle.dwarf.specs.Leb.{uleb, sleb};
ghost use Rattle.head.specs.Heads.{held};

use common::bytes::Bytes;
use common::endianity::Endianity;
use leb128::Leb128;
use writer::fixed::low_bytes;

/// The code and operands of an operation, at most 32 bytes.
#[derive(Clone, Copy)]
pub struct Head(Bytes<32>);

impl Head {
    /// No bytes.
    pub fn new() -> Self
        ensures empty { held result ≡ [] }
        ensures size { result.0.len ≡ 0 }
    {
        Head(Bytes::new())
    }

    /// The bytes.
    pub fn bytes(&self) -> &[u8]
        ensures { result.now ≡ held self.now }
    {
        self.0.as_slice()
    }

    /// With more bytes.
    fn with(mut self, more: &[u8]) -> Self
        requires { self.0.len + length more.now ≤ 32 }
        ensures value { held result ≡ held self ++ more.now }
        ensures size { result.0.len ≡ self.0.len + length more.now }
    {
        self.0.extend(more);
        self
    }

    /// With one byte more.
    pub fn byte(self, byte: u8) -> Self
        requires { self.0.len + 1 ≤ 32 }
        ensures value { held result ≡ held self ++ (byte ∷ []) }
        ensures size { result.0.len ≡ self.0.len + 1 }
    {
        self.with(&[byte])
    }

    /// With an unsigned LEB128 number.
    pub fn uleb128(self, val: u64) -> Self
        requires { self.0.len + 10 ≤ 32 }
        ensures value { held result ≡ held self ++ uleb val }
        ensures size { result.0.len ≤ self.0.len + 10 }
    {
        self.with(Leb128::unsigned(val).bytes())
    }

    /// With a signed LEB128 number.
    pub fn sleb128(self, val: i64) -> Self
        requires { self.0.len + 10 ≤ 32 }
        ensures value { held result ≡ held self ++ sleb val }
        ensures size { result.0.len ≤ self.0.len + 10 }
    {
        self.with(Leb128::signed(val).bytes())
    }

    /// With a number in a width of at most 8 bytes.
    pub fn fixed<E: Endianity>(self, endian: E, val: u64, width: u8) -> Self
        requires narrow { width ≤ 8 }
        requires room { self.0.len + 8 ≤ 32 }
        ensures value { held result ≡ held self ++ fixed_bytes (E.Endianity.big endian) width val }
        ensures size { result.0.len ≡ self.0.len + width }
    {
        self.with(low_bytes(endian, val, width).as_slice())
    }
}
