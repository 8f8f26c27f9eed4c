//! Sinks whose bytes can be read back.

ghost use Rattle.std.specs.Prelude.{◌≡◌, ℕ, Option as Maybe};
ghost use Rattle.sinks.specs.Lent.{lent, byte_at};

use common::endianity::Endianity;
use sinks::sink::TableSink;
use sinks::table::Table;

/// A sink whose bytes can be read back.
pub trait Shown {
    /// The byte at an offset, if one was written there.
    ghost shows: { Self → ℕ → Maybe ℕ };

    /// The byte at an offset, if one was written there.
    fn byte_at(&self, offset: usize) -> Option<u8>
        ensures { result ≡ shows self.now offset };
}

impl<T: Table, E: Endianity> Shown for TableSink<T, E> {
    ghost shows = { λ s at. byte_at (lent (T.Table.bytes s.table) T.Table.most s.len (E.Endianity.big s.endian)) at };

    fn byte_at(&self, offset: usize) -> Option<u8> {
        TableSink::byte_at(self, offset)
    }
}
