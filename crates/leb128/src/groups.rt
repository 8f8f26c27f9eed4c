//! Numbers as groups of seven bits.

ghost use Rattle.std.specs.Prelude.{◌≡◌, ℕ, suc, ◌+◌, ◌/◌, ◌%◌, ◌<◌, Bool, true, false, List, [], ◌∷◌, nat_lt};
ghost use Rattle.dwarf.specs.Leb.{groups, sgroups, low_seven, shr, is_small, magnitude};
ghost use Rattle.leb128.specs.Groups.{groups_none, last_group, next_group, room, one_group, fewer_groups, sgroups_none, last_sgroup, next_sgroup, signed_room, one_sgroup, fewer_sgroups};

/// A number that is cut into groups of seven bits, the lowest first.
pub(crate) trait Groups: Copy {
    /// The bytes of the number, where at most k groups follow the first: 128 is added to all but the last.
    ghost cut: { ℕ → Self → List ℕ };

    /// The lowest group.
    ghost lowest: { Self → ℕ };

    /// The number without it.
    ghost above: { Self → Self };

    /// Whether one group holds the number.
    ghost single: { Self → Bool };

    /// That at most k groups follow the first.
    ghost fits: { ℕ → Self → Type 0 };

    /// The lowest group.
    fn low(self) -> u8
        ensures value { result ≡ lowest self }
        ensures seven { result < 128 };

    /// The number without its lowest group.
    fn rest(self) -> Self
        ensures { result ≡ above self };

    /// Whether one group holds the number.
    fn is_last(self) -> bool
        ensures { result ≡ single self };

    /// Where none follows, the group stands alone.
    ghost stops: { (n : Self) → cut 0 n ≡ lowest n ∷ [] };

    /// And so where one holds the number.
    ghost ends: { (k : ℕ) (n : Self) → single n ≡ true → cut k n ≡ lowest n ∷ [] };

    /// Any other is followed by the groups of what is above it.
    ghost goes_on: { (k : ℕ) (n : Self) → single n ≡ false → cut (suc k) n ≡ (lowest n + 128) ∷ cut k (above n) };

    /// Where none follows, one holds the number.
    ghost last: { (n : Self) → fits 0 n → single n ≡ true };

    /// Where one does not hold it, one fewer follows what is above the lowest.
    ghost fewer: { (k : ℕ) (n : Self) → fits (suc k) n → single n ≡ false → fits k (above n) };
}

impl Groups for u64 {
    ghost cut = { groups };

    ghost lowest = { λ n. n % 128 };

    ghost above = { λ n. n / 128 };

    ghost single = { λ n. nat_lt n 128 };

    ghost fits = { λ k n. n < room k };

    ghost stops = { groups_none };

    ghost ends = { last_group };

    ghost goes_on = { next_group };

    ghost last = { one_group };

    ghost fewer = { fewer_groups };

    fn low(self) -> u8 {
        (self & 0x7f) as u8
    }

    fn rest(self) -> u64 {
        self >> 7
    }

    fn is_last(self) -> bool {
        self < 0x80
    }
}

impl Groups for i64 {
    ghost cut = { sgroups };

    ghost lowest = { low_seven };

    ghost above = { shr 128 };

    ghost single = { is_small };

    ghost fits = { λ k z. magnitude z < signed_room k };

    ghost stops = { sgroups_none };

    ghost ends = { last_sgroup };

    ghost goes_on = { next_sgroup };

    ghost last = { one_sgroup };

    ghost fewer = { fewer_sgroups };

    fn low(self) -> u8 {
        (self.cast_unsigned() & 0x7f) as u8
    }

    fn rest(self) -> i64 {
        self >> 7
    }

    // The group's sign bit, 0x40, and all bits above it are equal.
    fn is_last(self) -> bool {
        let sign = self >> 6;
        sign == 0 || sign == -1
    }
}
