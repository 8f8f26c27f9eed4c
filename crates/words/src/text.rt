//! The text of a script: its lines and their words.

ghost use Rattle.std.specs.Prelude.{◌≡◌, ℕ, ◌<◌, Bool, [], ◌∷◌, length, IfSome, MatchOption};
ghost use Rattle.words.specs.Text.{blank, lines_of, words_in, uncommented, IsCut};

/// Whether a character separates words.
fn is_blank(c: u8) -> bool
    ensures { result ≡ blank c }
{
    matches!(c, b' ' | b'\t' | b'\r')
}

/// A text cut in two.
#[derive(Clone, Copy)]
pub struct Split<'a> {
    /// What stands first.
    pub first: &'a [u8],
    /// What follows it.
    pub rest: &'a [u8],
}

/// Cuts a text at the first character that passes a test, which falls away.
fn cut<F: Fn(u8) -> bool>(text: &[u8], ends: F) -> Split<'_>
    requires { F.IsAlwaysCallable ends }
    ensures { (test : ℕ → Bool) → ((c : ℕ) (r : Bool) → F.post ends c r → r ≡ test c) → IsCut test text.now result.first.now result.rest.now }
{
    let end = text.iter().position(|c| ends(*c)).unwrap_or(text.len());
    let next = (end + 1).min(text.len());
    Split {
        first: &text[..end],
        rest: &text[next..],
    }
}

/// The first line of a text, and the lines that follow it.
pub fn next_line(text: &[u8]) -> Option<Split<'_>>
    ensures lines { MatchOption result (lines_of text.now ≡ []) (λ s. lines_of text.now ≡ s.first.now ∷ lines_of s.rest.now) }
    ensures shorter { IfSome result (λ s. length s.rest.now < length text.now) }
{
    if text.is_empty() {
        return None;
    }
    Some(cut(text, |c| c == b'\n'))
}

/// A line without its comment.
pub fn without_comment(line: &[u8]) -> &[u8]
    ensures { result.now ≡ uncommented line.now }
{
    cut(line, |c| c == b'#').first
}

/// The first word of a text, and the words that follow it.
pub fn next_word(text: &[u8]) -> Option<Split<'_>>
    ensures { MatchOption result (words_in text.now ≡ []) (λ s. words_in text.now ≡ s.first.now ∷ words_in s.rest.now) }
{
    let start = text.iter().position(|c| !is_blank(*c))?;
    Some(cut(&text[start..], is_blank))
}
