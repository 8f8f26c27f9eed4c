//! The tables of a section.

ghost use Rattle.std.specs.Prelude.{◌≡◌, ◌≤◌, true, length};
ghost use Rattle.section_tables.specs.Rows.{rows_of, wide, rise};

use common::fixup::Fixups;
use unit::UnitOffsets;

/// Units, in the order in which they began: a table, of which the first `count` rows are in use.
#[derive(Drop)]
pub struct Units {
    /// The rows.
    pub rows: [UnitOffsets; 8],
    /// How many are in use.
    pub count: usize,
    ghost table: { length rows ≡ 8 },
    ghost used: { count ≤ 8 },
}

/// A section's units and pending references.
#[derive(Drop)]
pub struct Tables {
    /// The units.
    pub units: Units,
    /// The references that wait for their entry, by rising offset.
    pub pending: Fixups,
    ghost widths: { wide (rows_of pending) ≡ true },
    ghost order: { rise 0 (rows_of pending) ≡ true },
}
