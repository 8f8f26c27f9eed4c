//! What a call answers, as it is printed.

use std::fmt;

/// What a call that was accepted answers.
#[derive(Clone, Copy)]
pub enum Answer {
    /// Nothing, and nothing is printed.
    Silent,
    /// Nothing but that it was accepted.
    Done,
    /// A number.
    Number(usize),
}

/// What is printed after a line's number and its first word.
impl fmt::Display for Answer {
    ghost use Rattle.std.specs.Prelude.{Some};
    ghost use Rattle.runner.specs.Answers.{answer_text};

    ghost output = { λ answer. Some (answer_text answer) };

    fn fmt<W: fmt::Write>(&self, f: &mut fmt::Formatter<W>) -> fmt::Result {
        match self {
            Answer::Silent => Ok(()),
            Answer::Done => write!(f, "ok"),
            Answer::Number(number) => write!(f, "{number}"),
        }
    }
}
