//! Words that write bytes in hexadecimal digits.

ghost use Rattle.std.specs.Prelude.{◌≡◌, ℕ, is_some, IfOk};
ghost use Rattle.std.specs.Option.{option_map};
ghost use Rattle.words.specs.Numbers.{hex_digit};
ghost use Rattle.words.specs.Bytes.{byte_of, bytes_in, hex_of, denoted};

use crate::number::hex_digit;
use std::alloc::{AllocError, Global};

/// The digits of bytes, two for each.
#[derive(Clone, Copy)]
pub struct Hex<'a> {
    digits: &'a [u8],
}

/// The byte of two digits, the high one first.
fn pair(high: u8, low: u8) -> Option<u8>
    ensures { result ≡ byte_of (hex_digit high) (hex_digit low) }
{
    let high = hex_digit(high)?;
    let low = hex_digit(low)?;
    Some(high * 16 + low)
}

/// Whether digits write bytes, two for each.
fn are_pairs(digits: &[u8]) -> bool
    ensures { result ≡ is_some (bytes_in digits.now) }
{
    let mut left = digits;
    while let [high, low, rest @ ..] = left {
        if pair(*high, *low).is_none() {
            return false;
        }
        left = rest;
    }
    left.is_empty()
}

impl<'a> Hex<'a> {
    /// The word's bytes; `-` stands for none.
    pub fn parse(word: &'a [u8]) -> Option<Hex<'a>>
        ensures { option_map denoted result ≡ hex_of word.now }
    {
        if word == b"-".as_slice() {
            return Some(Hex { digits: &[] });
        }
        are_pairs(word).then_some(Hex { digits: word })
    }

    /// The bytes in a table of their own.
    pub fn decode(&self, heap: Global) -> Result<Vec<u8>, AllocError>
        ensures { IfOk result (λ v. v.items ≡ denoted self.now) }
    {
        let mut bytes = Vec::new(heap);
        let mut left = self.digits;
        while let [high, low, rest @ ..] = left {
            let Some(byte) = pair(*high, *low) else {
                break;
            };
            bytes.push(byte)?;
            left = rest;
        }
        Ok(bytes)
    }
}
