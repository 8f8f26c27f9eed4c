//! The trait of sinks.

ghost use Rattle.std.specs.Prelude.{◌≡◌, ℕ, ◌-◌, length, Ok};
ghost use Rattle.writer.specs.Meaning.{Sink, Sound, Memory, no_memory, Appends, Patches};

use common::endianity::Endianity;
use common::error::Error;

/// Where the bytes of a section go.
///
/// A sink means a list of bytes, a capacity and a byte order. Capacity and order never change, the capacity is at most
/// 2,147,483,647, and there are never more bytes than that. An implementer says by `means` what its sink means, and shows
/// that the five calls keep to it.
pub trait Writer {
    /// The type of the sink's byte order.
    type Endian: Endianity;

    /// What the sink means.
    ghost means: { Self → Sink };

    /// The memory under the sink, for a sink that says what is in it past the bytes written.
    ghost memory: { Self → Memory } = { λ _. no_memory };

    /// The byte order of what is written.
    fn endian(&self) -> Self::Endian
        ensures { Self.Endian.Endianity.big result ≡ (means self.now).big };

    /// How many bytes were written. This may be used as an offset for `write_at` later.
    fn len(&self) -> usize
        ensures value { result ≡ length (means self.now).content }
        ensures sound { Sound (means self.now) };

    /// How many bytes more the sink takes.
    fn room(&self) -> usize
        ensures value { result ≡ (means self.now).capacity - length (means self.now).content }
        ensures sound { Sound (means self.now) };

    /// Adds bytes at the end, or refuses with `NoRoom`.
    fn write(&mut self, bytes: &[u8]) -> Result<(), Error>
        ensures { Appends (Ok bytes.now) (means self.old) (memory self.old) result (means self.new) (memory self.new) };

    /// Replaces the bytes from an offset on, or refuses with `OffsetOutOfBounds` and then `LengthOutOfBounds`.
    fn write_at(&mut self, offset: usize, bytes: &[u8]) -> Result<(), Error>
        ensures { Patches offset (Ok bytes.now) (means self.old) (memory self.old) result (means self.new) (memory self.new) };
}
