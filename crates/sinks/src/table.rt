//! Tables of bytes that are lent.

ghost use Rattle.std.specs.Prelude.{◌≡◌, ℕ, ◌+◌, ◌<◌, ◌≤◌, min, List, length, slice_index};
ghost use Rattle.writer.specs.Meaning.{replaced};

/// A table that holds bytes.
pub trait Table {
    /// The bytes.
    ghost bytes: { Self → List ℕ };

    /// The ghost name of the reference that lends the table.
    ghost lender: { Self → ℕ };

    /// As many bytes as a sink uses at most.
    ghost most: { ℕ };

    /// How many bytes a sink uses.
    fn capacity(&self) -> usize
        ensures { result ≡ min (length (bytes self.now)) most };

    /// The byte at a place.
    fn get(&self, at: usize) -> u8
        requires { at < length (bytes self.now) }
        ensures { result ≡ slice_index (bytes self.now) at };

    /// Puts bytes from a place on.
    fn put(&mut self, at: usize, more: &[u8])
        requires { at + length more.now ≤ min (length (bytes self.old)) most }
        ensures value { bytes self.new ≡ replaced (bytes self.old) at more.now }
        ensures lender { lender self.new ≡ lender self.old };

    /// That is no more than any sink holds.
    ghost bounded: { most ≤ 2147483647 };
}
