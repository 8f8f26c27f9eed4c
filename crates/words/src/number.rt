//! The numbers of a script.

ghost use Rattle.std.specs.Prelude.{◌≡◌, ℕ, ◌+◌, ◌-◌, ◌*◌, ◌^◌, ◌<◌, ◌≤◌, pos, neg_ℤ};
ghost use Rattle.std.specs.Option.{option_map};
ghost use Rattle.words.specs.Numbers.{hex_digit, digit_in, numeral, below, plain, number_of, signed_of};

/// The value of a hexadecimal digit of either case.
pub fn hex_digit(c: u8) -> Option<u8>
    ensures { result ≡ hex_digit c }
{
    match c {
        b'0'..=b'9' => Some(c - b'0'),
        b'a'..=b'f' => Some(c - b'a' + 10),
        b'A'..=b'F' => Some(c - b'A' + 10),
        _ => None,
    }
}

/// The value of a digit in a base of at most 16.
fn digit_in(base: u64, c: u8) -> Option<u64>
    ensures { result ≡ digit_in base c }
{
    hex_digit(c).map(u64::from).filter(|digit| *digit < base)
}

/// The number that one or more digits write, if it fits 64 bits.
fn numeral_in(base: u64, digits: &[u8]) -> Option<u64>
    requires { 0 < base }
    ensures { result ≡ below (2 ^ 64) (numeral base digits.now) }
{
    if digits.is_empty() {
        return None;
    }
    digits
        .iter()
        .try_fold(0, |number, c| push_digit(base, number, *c))
}

/// The number with one more digit at its end, if it fits 64 bits.
fn push_digit(base: u64, number: u64, c: u8) -> Option<u64>
    ensures { result ≡ below (2 ^ 64) (option_map (λ d. number * base + d) (digit_in base c)) }
{
    let digit = digit_in(base, c)?;
    number.checked_mul(base)?.checked_add(digit)
}

/// A word that is decimal digits, or `0x` and hexadecimal digits, if its number fits 64 bits.
fn plain_number(word: &[u8]) -> Option<u64>
    ensures { result ≡ below (2 ^ 64) (plain word.now) }
{
    match word.strip_prefix(b"0x") {
        Some(digits) => numeral_in(16, digits),
        None => numeral_in(10, word),
    }
}

/// A word that is a number of at most `most`.
pub fn unsigned(word: &[u8], most: u64) -> Option<u64>
    ensures { result ≡ number_of most word.now }
{
    plain_number(word).filter(|number| *number <= most)
}

/// A word that is a number of 64 bits with a sign.
pub fn signed(word: &[u8]) -> Option<i64>
    ensures { result ≡ signed_of word.now }
{
    match word.strip_prefix(b"-") {
        Some(digits) => i64::try_from(-i128::from(plain_number(digits)?)).ok(),
        None => Some(unsigned(word, (1 << 63) - 1)?.cast_signed()),
    }
}
