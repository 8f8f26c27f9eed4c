//! DWARF's variable length integers, "Little Endian Base 128" (LEB128), written.

#![tactic(auto)]

ghost use Rattle.std.specs.Prelude.{◌≡◌, length, ◌≤◌};
ghost use Rattle.common.specs.Held.{held};
ghost use Rattle.dwarf.specs.Reader.{ReadsBack, Shortest};
ghost use Rattle.dwarf.specs.Leb.{uleb, sleb, read_uleb, read_sleb};

use crate::groups::Groups;
use common::bytes::Bytes;

mod groups;

/// Set on each byte of a number but the last.
const CONTINUATION_BIT: u8 = 1 << 7;

/// An encoded LEB128 value, signed or unsigned.
#[derive(Clone, Copy)]
pub struct Leb128(Bytes<10>);

impl Leb128 {
    /// The bytes of the encoded value.
    pub fn bytes(&self) -> &[u8]
        ensures { result.now ≡ held self.now.0 }
    {
        self.0.as_slice()
    }

    /// The length of the encoded bytes.
    pub fn len(&self) -> usize
        ensures { result ≡ length (held self.now.0) }
    {
        self.0.len()
    }

    /// Encodes a number, group by group.
    fn encode<N: Groups>(mut val: N) -> Self
        requires { N.Groups.fits 9 val }
        ensures { held result.0 ≡ N.Groups.cut 9 val }
    {
        let mut bytes = [0; 10];
        let mut len = 0;
        while !val.is_last() {
            bytes[len] = val.low() | CONTINUATION_BIT;
            len += 1;
            val = val.rest();
        }
        bytes[len] = val.low();
        Leb128(Bytes {
            bytes,
            len: len + 1,
        })
    }

    /// Encodes an unsigned number.
    pub fn unsigned(val: u64) -> Self
        ensures value { held result.0 ≡ uleb val }
        ensures reads_back { ReadsBack read_uleb (held result.0) val }
        ensures shortest { Shortest read_uleb (held result.0) val }
    {
        Leb128::encode(val)
    }

    /// Encodes a signed number.
    pub fn signed(val: i64) -> Self
        ensures value { held result.0 ≡ sleb val }
        ensures reads_back { ReadsBack read_sleb (held result.0) val }
        ensures shortest { Shortest read_sleb (held result.0) val }
    {
        Leb128::encode(val)
    }
}

/// How many groups a number has.
fn count<N: Groups>(mut val: N) -> usize
    requires { N.Groups.fits 9 val }
    ensures { result ≡ length (N.Groups.cut 9 val) }
{
    let mut size = 1;
    while !val.is_last() {
        val = val.rest();
        size += 1;
    }
    size
}

/// The size of an unsigned number's LEB128 encoding.
pub fn uleb128_size(val: u64) -> usize
    ensures value { result ≡ length (uleb val) }
    ensures small { result ≤ 10 }
{
    count::<u64>(val)
}

/// The size of a signed number's LEB128 encoding.
pub fn sleb128_size(val: i64) -> usize
    ensures value { result ≡ length (sleb val) }
    ensures small { result ≤ 10 }
{
    count::<i64>(val)
}

#[cfg(test)]
mod tests;
