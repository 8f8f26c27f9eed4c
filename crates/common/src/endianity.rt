//! Byte orders, chosen when a program is compiled or when it runs.

ghost use Rattle.std.specs.Prelude.{Bool, true, false, ◌≡◌};
ghost use Rattle.common.specs.Orders.{big_of};

/// A byte order.
pub trait Endianity: Copy {
    /// Whether the highest byte of a number comes first.
    ghost big: { Self → Bool };

    /// Whether the highest byte of a number comes first.
    fn is_big_endian(self) -> bool
        ensures { result ≡ big self };
}

/// A byte order that is chosen when the program runs.
#[derive(Clone, Copy)]
pub enum RunTimeEndian {
    /// The lowest byte comes first.
    Little,
    /// The highest byte comes first.
    Big,
}

impl Endianity for RunTimeEndian {
    ghost big = { λ e. big_of e };

    fn is_big_endian(self) -> bool {
        match self {
            RunTimeEndian::Little => false,
            RunTimeEndian::Big => true,
        }
    }
}

/// The byte order in which the lowest byte comes first.
#[derive(Clone, Copy)]
pub struct LittleEndian;

impl Endianity for LittleEndian {
    ghost big = { λ _. false };

    fn is_big_endian(self) -> bool {
        false
    }
}

/// The byte order in which the highest byte comes first.
#[derive(Clone, Copy)]
pub struct BigEndian;

impl Endianity for BigEndian {
    ghost big = { λ _. true };

    fn is_big_endian(self) -> bool {
        true
    }
}
