//! A sink over a lent table of 32-bit words.

ghost use Rattle.std.specs.Prelude.{◌≡◌, ℕ, ◌+◌, ◌*◌, ◌<◌, ◌≤◌, true, length, slice_index, slice_set};
ghost use Rattle.std.proofs.Common.{lit≤};
ghost use Rattle.sinks.specs.Lent.{lent, made};
ghost use Rattle.sinks.specs.Words.{spread};

use crate::sink::TableSink;
use crate::table::Table;
use common::endianity::BigEndian;

/// The most words that a sink uses.
const MOST_WORDS: usize = 536_870_911;

/// The byte at a place.
fn get_byte(table: &[u32], at: usize) -> u8
    requires { at < 4 * length table.now }
    ensures { result ≡ slice_index (spread table.now) at }
{
    let bytes = table[at / 4].to_be_bytes();
    bytes[at % 4]
}

/// Puts a byte at its place.
fn put_byte(table: &mut [u32], at: usize, b: u8)
    requires { at < 4 * length table.old }
    ensures { spread table.new ≡ slice_set (spread table.old) at b }
{
    let word = at / 4;
    let mut bytes = table[word].to_be_bytes();
    bytes[at % 4] = b;
    table[word] = u32::from_be_bytes(bytes);
}

/// The bytes of the words in their order, four to a word, the highest first.
impl<'a> Table for &'a mut [u32] {
    ghost bytes = { λ t. spread t.now };

    ghost lender = { λ t. t.ghost_name };

    ghost most = { 2147483644 };

    ghost bounded = { lit≤ tt };

    fn capacity(&self) -> usize {
        self.len().min(MOST_WORDS) * 4
    }

    fn get(&self, at: usize) -> u8 {
        get_byte(self, at)
    }

    fn put(&mut self, at: usize, more: &[u8]) {
        for (i, b) in more.iter().enumerate() {
            put_byte(self, at + i, *b);
        }
    }
}

/// Bytes are written to the front of a table of words that is lent; the highest byte of a number comes first.
pub type WordSink<'a> = TableSink<&'a mut [u32], BigEndian>;

impl<'a> TableSink<&'a mut [u32], BigEndian> {
    /// An empty sink over a table.
    pub fn new(table: &'a mut [u32]) -> WordSink<'a>
        ensures means { lent (spread result.table.now) 2147483644 result.len true ≡ made (spread table.old) 2147483644 true }
        ensures table { result.table.now ≡ table.old }
        ensures lender { result.table.ghost_name ≡ table.entry.ghost_name }
    {
        TableSink::over(table, BigEndian)
    }
}
