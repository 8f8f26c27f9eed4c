//! Errors of the script.

ghost use Rattle.std.specs.Prelude.{Some};
ghost use Rattle.script.specs.Faults.{fault_text};

use std::error::Error;
use std::fmt;

/// Why a line is an error of the script.
#[derive(Clone, Copy, Debug, PartialEq, Eq)]
pub enum Fault {
    /// The first word names no command.
    UnknownCommand,
    /// There are too few or too many words.
    WordCount,
    /// A word is no number, or its number is out of range.
    BadNumber,
    /// A word is no bytes in hexadecimal digits.
    BadBytes,
    /// A word is neither `little` nor `big`.
    BadOrder,
    /// The sink is neither of `bytes` nor of `words`.
    BadSink,
    /// The sink, the book or the bytes held come after what they are to come before, or again.
    TooLate,
}

impl fmt::Display for Fault {
    ghost output = { λ fault. Some (fault_text fault) };

    fn fmt<W: fmt::Write>(&self, f: &mut fmt::Formatter<W>) -> fmt::Result {
        f.write_str(match self {
            Fault::UnknownCommand => "no such command",
            Fault::WordCount => "wrong count of words",
            Fault::BadNumber => "not a number, or out of range",
            Fault::BadBytes => "not bytes in hexadecimal digits",
            Fault::BadOrder => "neither little nor big",
            Fault::BadSink => "neither bytes nor words",
            Fault::TooLate => "comes too late",
        })
    }
}

impl Error for Fault {}
