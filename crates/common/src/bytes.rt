//! Short runs of bytes in a fixed memory.

ghost use Rattle.std.specs.Prelude.{◌≡◌, ℕ, ◌+◌, ◌<◌, ◌≤◌, [], ◌∷◌, ◌++◌, length};

/// Up to `N` bytes: a table, of which the first `len` are in use.
#[derive(Clone, Copy)]
pub struct Bytes<const N: usize> {
    /// The table.
    pub bytes: [u8; N],
    /// How many are in use.
    pub len: usize,
    ghost within: { len ≤ N },
}

impl<const N: usize> Bytes<N> {
    ghost use Rattle.common.specs.Held.{held};

    /// No bytes.
    pub fn new() -> Self
        ensures value { held result ≡ [] }
        ensures size { result.len ≡ 0 }
    {
        Bytes {
            bytes: [0; N],
            len: 0,
        }
    }

    /// The bytes.
    pub fn as_slice(&self) -> &[u8]
        ensures { result.now ≡ held self.now }
    {
        &self.bytes[..self.len]
    }

    /// How many bytes they are.
    pub fn len(&self) -> usize
        ensures { result ≡ length (held self.now) }
    {
        self.as_slice().len()
    }

    /// Adds bytes that fit.
    pub fn extend(&mut self, more: &[u8])
        requires { self.old.len + length more.now ≤ N }
        ensures value { held self.new ≡ held self.old ++ more.now }
        ensures size { self.new.len ≡ self.old.len + length more.now }
    {
        let from = self.len;
        let to = from + more.len();
        let bytes = &mut self.bytes[..];
        bytes[from..to].copy_from_slice(more);
        self.len = to;
    }

    /// Adds a byte that fits.
    pub fn push(&mut self, byte: u8)
        requires { self.old.len < N }
        ensures value { held self.new ≡ held self.old ++ (byte ∷ []) }
        ensures size { self.new.len ≡ self.old.len + 1 }
    {
        self.bytes[self.len] = byte;
        self.len += 1;
    }
}
