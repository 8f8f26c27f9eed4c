//! Tickets of branches.

ghost use Rattle.std.specs.Prelude.{◌≡◌, true, false};

/// Names a branch of a draft, by its operation's number. It is spent by `set_target` or by `give_up`, and may not be let go.
pub struct Ticket {
    pub(crate) branch: usize,
    pub(crate) spent: bool,
}

impl Drop for Ticket {
    fn drop(self)
        requires { self.spent ≡ true }
    {
        let Ticket {
            branch: _,
            spent: _,
        } = self;
    }
}

impl Ticket {
    /// The ticket of a branch.
    pub(crate) fn of(branch: usize) -> Ticket
        ensures { result ≡ record { branch = branch; spent = false } }
    {
        Ticket {
            branch,
            spent: false,
        }
    }

    /// Spends the ticket, and leaves its branch without a target.
    pub fn give_up(mut self) {
        self.spent = true;
    }
}
