//! A sink over a lent table of bytes.

ghost use Rattle.std.specs.Prelude.{◌≡◌};
ghost use Rattle.std.proofs.Common.{lit≤};
ghost use Rattle.common.specs.Orders.{big_of};
ghost use Rattle.sinks.specs.Lent.{lent, made};

use crate::sink::TableSink;
use crate::table::Table;
use common::endianity::RunTimeEndian;

/// The most bytes that a sink holds.
const MOST: usize = 2_147_483_647;

impl<'a> Table for &'a mut [u8] {
    ghost bytes = { λ t. t.now };

    ghost lender = { λ t. t.ghost_name };

    ghost most = { 2147483647 };

    ghost bounded = { lit≤ tt };

    fn capacity(&self) -> usize {
        self.len().min(MOST)
    }

    fn get(&self, at: usize) -> u8 {
        self[at]
    }

    fn put(&mut self, at: usize, more: &[u8]) {
        self[at..at + more.len()].copy_from_slice(more);
    }
}

/// Bytes are written to the front of a table that is lent, in a byte order that is chosen when the sink is made.
pub type BufferSink<'a> = TableSink<&'a mut [u8], RunTimeEndian>;

impl<'a> TableSink<&'a mut [u8], RunTimeEndian> {
    /// An empty sink over a table, in a byte order.
    pub fn new(table: &'a mut [u8], endian: RunTimeEndian) -> BufferSink<'a>
        ensures means { lent result.table.now 2147483647 result.len (big_of result.endian) ≡ made table.old 2147483647 (big_of endian) }
        ensures table { result.table.now ≡ table.old }
        ensures lender { result.table.ghost_name ≡ table.entry.ghost_name }
    {
        TableSink::over(table, endian)
    }
}
