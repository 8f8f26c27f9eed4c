//! Targets of branches, and the end of a draft.

ghost use Rattle.std.specs.Prelude.{◌≡◌};
ghost use Rattle.book.specs.Answers.{answered, handed_back};
ghost use Rattle.book.specs.Holds.{holds};
ghost use Rattle.book_state.specs.Calls.{target_set, sealed, discarded};

use crate::book::Book;
use crate::draft::Draft;
use crate::ticket::Ticket;
use common::error::Error;

impl Draft {
    /// Sets the target of a branch: an operation's number, or the operation count for the end. Refusing, it hands the ticket back.
    pub fn set_target(
        &self,
        book: &mut Book<'_>,
        ticket: Ticket,
        target: usize,
    ) -> Result<(), (Ticket, Error)>
        ensures { answered (handed_back ticket) (target_set ticket.branch target (holds book.old)) ≡ (result, holds book.new) }
    {
        match book.aim(ticket.branch, target) {
            Ok(()) => {
                ticket.give_up();
                Ok(())
            }
            Err(error) => Err((ticket, error)),
        }
    }

    /// Makes an expression of the draft, and answers its number. Refusing, it hands the draft back.
    pub fn seal(self, book: &mut Book<'_>) -> Result<usize, (Draft, Error)>
        ensures { answered (handed_back self) (sealed (holds book.old)) ≡ (result, holds book.new) }
    {
        book.close().map_err(|error| (self, error))
    }

    /// Frees the draft's operations, data and nested expressions. Refusing, it hands the draft back.
    pub fn discard(self, book: &mut Book<'_>) -> Result<(), (Draft, Error)>
        ensures { answered (handed_back self) (discarded (holds book.old)) ≡ (result, holds book.new) }
    {
        book.withdraw().map_err(|error| (self, error))
    }
}
