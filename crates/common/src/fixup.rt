//! References that wait for the offset of their entry.

ghost use Rattle.std.specs.Prelude.{◌≡◌, ◌≤◌, length};

/// A reference to an entry that was set down as zeros, to be filled once the entry's offset is known.
#[derive(Clone, Copy, Default)]
pub struct DebugInfoFixup {
    /// The offset of the reference's first byte in the section.
    pub offset: usize,
    /// How many bytes the reference has.
    pub width: u8,
    /// The unit of the entry.
    pub unit: usize,
    /// The entry.
    pub entry: usize,
}

/// References that wait for their entry: a table, of which the first `count` rows are in use.
#[derive(Drop)]
pub struct Fixups {
    /// The rows.
    pub rows: [DebugInfoFixup; 512],
    /// How many are in use.
    pub count: usize,
    ghost table: { length rows ≡ 512 },
    ghost used: { count ≤ 512 },
}
