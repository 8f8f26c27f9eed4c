//! The commands of a script.

ghost use Rattle.std.specs.Prelude.{◌≡◌, ℕ};
ghost use Rattle.std.specs.Option.{option_map};
ghost use Rattle.std.specs.Result.{result_ok};
ghost use Rattle.words.specs.Bytes.{denoted};
ghost use Rattle.words.specs.Text.{words_in, words_of};
ghost use Rattle.script.specs.Operands.{single, double};
ghost use Rattle.script.specs.Verbs.{word_for};
ghost use Rattle.script.specs.Commands.{book_lengths, byte_sink, word_sink, sink_of, meant, verb_for, command_of, line_of};

use crate::fault::Fault;
use crate::operand::{bytes, no_word, number, one_word, order, two_words};
use crate::verb::Verb;
use common::endianity::RunTimeEndian;
use words::hex::Hex;
use words::text::{next_word, without_comment};

/// Which sink is made, over a table of which length.
#[derive(Clone, Copy)]
pub enum SinkKind {
    /// The buffer sink.
    Bytes {
        /// The table's bytes.
        capacity: u64,
        /// The byte order.
        endian: RunTimeEndian,
    },
    /// The word sink.
    Words {
        /// The table's words.
        count: u64,
    },
}

/// Lengths of the tables that are lent to a book.
#[derive(Clone, Copy)]
pub struct BookLengths {
    /// The operations.
    pub operations: u64,
    /// The data bytes.
    pub data: u64,
}

/// A command of a script.
#[derive(Clone, Copy)]
pub enum Command<'a> {
    /// Starts afresh.
    New,
    /// Makes the sink.
    Sink(SinkKind),
    /// Makes the book.
    Book(BookLengths),
    /// Writes to the sink before the section is made.
    Hold(Hex<'a>),
    /// Appends bytes to the section.
    Append(Hex<'a>),
    /// Shows the sink's bytes.
    Dump,
}

impl Command<'_> {
    /// The command's first word.
    pub fn verb(&self) -> Verb
        ensures { result ≡ verb_for (meant self.now) }
    {
        match self {
            Command::New => Verb::New,
            Command::Sink(_) => Verb::Sink,
            Command::Book(_) => Verb::Book,
            Command::Hold(_) => Verb::Hold,
            Command::Append(_) => Verb::Append,
            Command::Dump => Verb::Dump,
        }
    }
}

/// The buffer sink, of a capacity and an order.
fn byte_sink(text: &[u8]) -> Result<SinkKind, Fault>
    ensures { result_ok result ≡ double byte_sink (words_in text.now) }
{
    let (capacity, endian) = two_words(text)?;
    Ok(SinkKind::Bytes {
        capacity: number(capacity)?,
        endian: order(endian)?,
    })
}

/// The word sink, of a count of words.
fn word_sink(text: &[u8]) -> Result<SinkKind, Fault>
    ensures { result_ok result ≡ single word_sink (words_in text.now) }
{
    let count = number(one_word(text)?)?;
    Ok(SinkKind::Words { count })
}

/// The sink of the words that are left.
fn sink(text: &[u8]) -> Result<SinkKind, Fault>
    ensures { result_ok result ≡ sink_of (words_in text.now) }
{
    let split = next_word(text).ok_or(Fault::WordCount)?;
    match split.first {
        b"bytes" => byte_sink(split.rest),
        b"words" => word_sink(split.rest),
        _ => Err(Fault::BadSink),
    }
}

/// A book, of two lengths.
fn book(text: &[u8]) -> Result<BookLengths, Fault>
    ensures { result_ok result ≡ double book_lengths (words_in text.now) }
{
    let (operations, data) = two_words(text)?;
    Ok(BookLengths {
        operations: number(operations)?,
        data: number(data)?,
    })
}

/// The command of a verb and the words that follow it.
fn with_operands(verb: Verb, text: &[u8]) -> Result<Command<'_>, Fault>
    ensures { option_map meant (result_ok result) ≡ command_of verb (words_in text.now) }
{
    match verb {
        Verb::New => {
            no_word(text)?;
            Ok(Command::New)
        }
        Verb::Sink => Ok(Command::Sink(sink(text)?)),
        Verb::Book => Ok(Command::Book(book(text)?)),
        Verb::Hold => Ok(Command::Hold(bytes(one_word(text)?)?)),
        Verb::Append => Ok(Command::Append(bytes(one_word(text)?)?)),
        Verb::Dump => {
            no_word(text)?;
            Ok(Command::Dump)
        }
    }
}

/// The command of a line, if it has a word.
pub fn parse(line: &[u8]) -> Result<Option<Command<'_>>, Fault>
    ensures { option_map (option_map meant) (result_ok result) ≡ line_of (words_of line.now) }
{
    let Some(split) = next_word(without_comment(line)) else {
        return Ok(None);
    };
    let verb = Verb::parse(split.first).ok_or(Fault::UnknownCommand)?;
    Ok(Some(with_operands(verb, split.rest)?))
}
