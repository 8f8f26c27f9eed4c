//! What the calls of a case answer.

ghost use Rattle.std.specs.Prelude.{◌≡◌};

use book::draft::Draft;
use book::ticket::Ticket;
use common::constants::DW_OP_NOP;
use common::error::Error;
use op::operation::Operation;
use std::{fmt, io};

/// What the tables hold at first.
pub const NOP: Operation = Operation::Simple(DW_OP_NOP);

/// A case did not get to its end.
#[derive(Clone, Copy, Debug)]
pub struct Lost;

impl From<Error> for Lost {
    fn from(_error: Error) -> Lost {
        Lost
    }
}

/// What a case shows of a call, or of what it left.
#[derive(Clone, Copy)]
pub enum Answer {
    /// The call was accepted.
    Accepted,
    /// The call was refused.
    Refused(Error),
    /// So many were there.
    Count(usize),
}

/// A number: 0 where the call was accepted, and the number of its refusal.
impl fmt::Debug for Answer {
    fn fmt<W: fmt::Write>(&self, f: &mut fmt::Formatter<W>) -> fmt::Result {
        match self {
            Answer::Accepted => write!(f, "0"),
            Answer::Refused(error) => write!(f, "{}", error.number()),
            Answer::Count(count) => write!(f, "{count}"),
        }
    }
}

/// What a call hands out or back, and a case has no use for.
pub trait LetGo {
    /// Lets it go.
    fn let_go(self);
}

impl LetGo for () {
    fn let_go(self) {}
}

impl LetGo for usize {
    fn let_go(self) {}
}

impl LetGo for Draft {
    fn let_go(self) {}
}

impl LetGo for Ticket {
    fn let_go(self) {
        self.give_up();
    }
}

/// What a refused call answers.
pub trait Refusal {
    ghost use Rattle.common.specs.declared.error.Error.{Error as Why};

    /// Why it was refused.
    ghost why: { Self → Why };

    /// Why it was refused; what the call hands back is let go.
    fn error(self) -> Error
        ensures { result ≡ why self };
}

impl Refusal for Error {
    ghost why = { λ e. e };

    fn error(self) -> Error {
        self
    }
}

impl<T: LetGo> Refusal for (T, Error) {
    ghost why = { λ p. p.1 };

    fn error(self) -> Error {
        let (handed_back, error) = self;
        handed_back.let_go();
        error
    }
}

impl<T: LetGo, E: Refusal> From<Result<T, E>> for Answer {
    ghost use Rattle.std.specs.Prelude.{◌≡◌};
    ghost use Rattle.book_cases.specs.Refusals.{answer_of};

    ghost from_gives = { λ call answer. answer ≡ answer_of E.why call };

    fn from(call: Result<T, E>) -> Answer {
        match call {
            Ok(value) => {
                value.let_go();
                Answer::Accepted
            }
            Err(refused) => Answer::Refused(refused.error()),
        }
    }
}

/// Prints what a case shows.
pub fn show<T: fmt::Debug + Drop>(
    rt: &impl Print,
    name: &str,
    case: Result<T, Lost>,
) -> io::Result<()> {
    match case {
        Ok(answers) => println!(rt; "{name}: {answers:?}"),
        Err(Lost) => println!(rt; "{name}: lost"),
    }
}
