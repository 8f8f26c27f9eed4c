//! Sinks over tables that are lent.

ghost use Rattle.std.specs.Prelude.{◌≡◌, ℕ, ◌≤◌, min, length, take};
ghost use Rattle.sinks.specs.Lent.{lent, made, under, byte_at};

use crate::table::Table;
use common::endianity::Endianity;
use common::error::Error;
use writer::writer::Writer;

/// Bytes are written to the front of a table.
#[derive(Drop)]
pub struct TableSink<T: Table, E: Endianity> {
    table: T,
    len: usize,
    endian: E,
    ghost within: { len ≤ min (length (T.Table.bytes table)) T.Table.most },
}

impl<T: Table, E: Endianity> TableSink<T, E> {
    /// An empty sink over a table, in a byte order.
    pub fn over(table: T, endian: E) -> TableSink<T, E>
        ensures means { lent (T.Table.bytes result.table) T.Table.most result.len (E.Endianity.big result.endian) ≡ made (T.Table.bytes table) T.Table.most (E.Endianity.big endian) }
        ensures table { result.table ≡ table }
    {
        TableSink {
            table,
            len: 0,
            endian,
        }
    }

    /// The byte at an offset, if one was written there.
    pub fn byte_at(&self, offset: usize) -> Option<u8>
        ensures { result ≡ byte_at (lent (T.Table.bytes self.now.table) T.Table.most self.now.len (E.Endianity.big self.now.endian)) offset }
    {
        if offset < self.len {
            Some(self.table.get(offset))
        } else {
            None
        }
    }

    /// Gives the table back. What was written stands at its front, and the rest is as it was.
    pub fn into_table(self) -> T
        ensures { result ≡ self.table }
    {
        let TableSink {
            table,
            len: _,
            endian: _,
        } = self;
        table
    }
}

impl<T: Table, E: Endianity> Writer for TableSink<T, E> {
    type Endian = E;

    ghost means = { λ s. lent (T.Table.bytes s.table) T.Table.most s.len (E.Endianity.big s.endian) };

    ghost memory = { λ s. under (T.Table.lender s.table) (T.Table.bytes s.table) };

    fn endian(&self) -> E {
        self.endian
    }

    fn len(&self) -> usize {
        self.len
    }

    fn room(&self) -> usize {
        self.table.capacity() - self.len
    }

    fn write(&mut self, bytes: &[u8]) -> Result<(), Error> {
        let n = bytes.len();
        if n > self.room() {
            return Err(Error::NoRoom);
        }
        self.table.put(self.len, bytes);
        self.len += n;
        Ok(())
    }

    fn write_at(&mut self, offset: usize, bytes: &[u8]) -> Result<(), Error> {
        if offset > self.len {
            return Err(Error::OffsetOutOfBounds);
        }
        if bytes.len() > self.len - offset {
            return Err(Error::LengthOutOfBounds);
        }
        self.table.put(offset, bytes);
        Ok(())
    }
}
