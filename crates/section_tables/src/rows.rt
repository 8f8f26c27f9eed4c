//! Pending references.

ghost use Rattle.std.specs.Prelude.{◌≡◌, ◌+◌, ◌<◌, ◌++◌, [], take, drop};
ghost use Rattle.claim.specs.Calls.{stands_at};
ghost use Rattle.section_tables.specs.View.{units_of};
ghost use Rattle.section_tables.specs.Rows.{rows_of, Found};

use crate::tables::{Tables, Units};
use common::fixup::{DebugInfoFixup, Fixups};

/// Whether a reference begins at an offset and lies within `size` bytes.
fn stands_at(row: DebugInfoFixup, size: usize, offset: usize) -> bool
    ensures { result ≡ stands_at size offset row }
{
    let width = usize::from(row.width);
    row.offset == offset && width <= size && row.offset <= size - width
}

impl Tables {
    /// No units, and nothing pending.
    pub fn new() -> Tables
        ensures units { units_of result.units ≡ [] }
        ensures pending { rows_of result.pending ≡ [] }
    {
        Tables {
            units: Units::new(),
            pending: Fixups {
                rows: [DebugInfoFixup::default(); 512],
                count: 0,
            },
        }
    }

    /// The references that are pending.
    pub fn pending_rows(&self) -> &[DebugInfoFixup]
        ensures { result.now ≡ rows_of self.now.pending }
    {
        &self.pending.rows[..self.pending.count]
    }

    /// The place of the first pending reference that begins at an offset and lies within `size` bytes.
    pub fn find(&self, size: usize, offset: usize) -> Option<usize>
        ensures { Found size offset (rows_of self.now.pending) result }
    {
        let rows = self.pending_rows();
        let index = rows.partition_point(|row| row.offset < offset);
        rows.get(index)
            .is_some_and(|row| stands_at(*row, size, offset))
            .then_some(index)
    }

    /// Frees the row of a reference; those behind it move one place down.
    pub fn close(&mut self, index: usize)
        requires { index < self.old.pending.count }
        ensures rows { rows_of self.new.pending ≡ take index (rows_of self.old.pending) ++ drop (index + 1) (rows_of self.old.pending) }
        ensures units { self.new.units ≡ self.old.units }
    {
        let count = self.pending.count;
        let _ = list::remove(&mut self.pending.rows, count, index);
        self.pending.count = count - 1;
    }
}
