//! The words that follow a command's first.

ghost use Rattle.std.specs.Prelude.{◌≡◌, ℕ, List, Some};
ghost use Rattle.std.specs.Option.{option_map};
ghost use Rattle.std.specs.Result.{result_ok};
ghost use Rattle.words.specs.Bytes.{hex_of, denoted};
ghost use Rattle.words.specs.Text.{words_in};
ghost use Rattle.script.specs.Operands.{alone, single, double, order_of, number64};

use crate::fault::Fault;
use common::endianity::RunTimeEndian;
use words::hex::Hex;
use words::number::unsigned;
use words::text::next_word;

/// That no word is left.
pub(crate) fn no_word(text: &[u8]) -> Result<(), Fault>
    ensures { result_ok result ≡ alone tt (words_in text.now) }
{
    match next_word(text) {
        None => Ok(()),
        Some(_) => Err(Fault::WordCount),
    }
}

/// The only word that is left.
pub(crate) fn one_word(text: &[u8]) -> Result<&[u8], Fault>
    ensures { option_map (λ x. x.now) (result_ok result) ≡ single Some (words_in text.now) }
{
    let split = next_word(text).ok_or(Fault::WordCount)?;
    no_word(split.rest)?;
    Ok(split.first)
}

/// The two words that are left.
pub(crate) fn two_words(text: &[u8]) -> Result<(&[u8], &[u8]), Fault>
    ensures { option_map {U = List ℕ × List ℕ} (λ p. (p.0.now, p.1.now)) (result_ok result) ≡ double (λ v w. Some (v, w)) (words_in text.now) }
{
    let split = next_word(text).ok_or(Fault::WordCount)?;
    Ok((split.first, one_word(split.rest)?))
}

/// A word that is a number of 64 bits.
pub(crate) fn number(word: &[u8]) -> Result<u64, Fault>
    ensures { result_ok result ≡ number64 word.now }
{
    unsigned(word, u64::MAX).ok_or(Fault::BadNumber)
}

/// A word that writes bytes.
pub(crate) fn bytes(word: &[u8]) -> Result<Hex<'_>, Fault>
    ensures { option_map denoted (result_ok result) ≡ hex_of word.now }
{
    Hex::parse(word).ok_or(Fault::BadBytes)
}

/// A word that names a byte order.
pub(crate) fn order(word: &[u8]) -> Result<RunTimeEndian, Fault>
    ensures { result_ok result ≡ order_of word.now }
{
    match word {
        b"little" => Ok(RunTimeEndian::Little),
        b"big" => Ok(RunTimeEndian::Big),
        _ => Err(Fault::BadOrder),
    }
}
