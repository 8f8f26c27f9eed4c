//! The first words of commands.

ghost use Rattle.std.specs.Prelude.{◌≡◌, ℕ, Some};
ghost use Rattle.script.specs.Verbs.{word_for, part_of, verb_of};

use std::fmt;

/// The first word of a command.
#[derive(Clone, Copy, PartialEq, Eq, Debug)]
pub enum Verb {
    /// Starts afresh.
    New,
    /// Makes the sink.
    Sink,
    /// Makes the book.
    Book,
    /// Writes the bytes that are held at first.
    Hold,
    /// Appends bytes to the section.
    Append,
    /// Shows the sink's bytes.
    Dump,
}

/// The part of a script that a command belongs to.
#[derive(Clone, Copy)]
pub enum Part {
    /// Starts afresh.
    New,
    /// Makes the sink.
    Sink,
    /// Makes the book.
    Book,
    /// Writes the bytes that are held at first.
    Hold,
    /// Acts on what was made.
    Call,
}

/// All verbs.
const VERBS: [Verb; 6] = [
    Verb::New,
    Verb::Sink,
    Verb::Book,
    Verb::Hold,
    Verb::Append,
    Verb::Dump,
];

impl Verb {
    /// The word that the verb is written as.
    pub fn word(self) -> &'static str
        ensures { result.now ≡ word_for self }
    {
        match self {
            Verb::New => "new",
            Verb::Sink => "sink",
            Verb::Book => "book",
            Verb::Hold => "hold",
            Verb::Append => "append",
            Verb::Dump => "dump",
        }
    }

    /// The part of a script that the verb belongs to.
    pub fn part(self) -> Part
        ensures { result ≡ part_of self }
    {
        match self {
            Verb::New => Part::New,
            Verb::Sink => Part::Sink,
            Verb::Book => Part::Book,
            Verb::Hold => Part::Hold,
            Verb::Append | Verb::Dump => Part::Call,
        }
    }

    /// The verb that a word writes.
    pub fn parse(word: &[u8]) -> Option<Verb>
        ensures { result ≡ verb_of word.now }
    {
        VERBS
            .iter()
            .copied()
            .find(|verb| word == verb.word().as_bytes())
    }
}

/// The word that the verb is written as.
impl fmt::Display for Verb {
    ghost output = { λ v. Some (word_for v) };

    fn fmt<W: fmt::Write>(&self, f: &mut fmt::Formatter<W>) -> fmt::Result {
        f.write_str(self.word())
    }
}
