//! Where the writing of an expression stands.

ghost use Rattle.std.specs.Prelude.{◌≡◌, ◌<◌, ◌≤◌, length};
ghost use Rattle.emit.specs.Walk.{begin as beginning, moved, popped, entered};

/// An expression that is being written: its number, and the next of its operations.
#[derive(Clone, Copy, Default)]
pub struct Open {
    /// The expression's number.
    pub number: usize,
    /// The operation that comes next, counted from the expression's first.
    pub next: usize,
}

/// The expression that is being written, and those that it is nested in.
#[derive(Clone, Copy)]
pub struct Cursor {
    /// The innermost expression.
    pub top: Open,
    /// Those around it, the outermost first: where each goes on.
    pub around: [Open; 16],
    /// How many are around it.
    pub level: usize,
}

impl Cursor {
    /// At the first operation of an expression that is nested in none.
    pub(crate) fn begin(number: usize) -> Cursor
        ensures { result ≡ beginning number }
    {
        Cursor {
            top: Open { number, next: 0 },
            around: [Open::default(); 16],
            level: 0,
        }
    }

    /// Goes back to the expression around.
    pub(crate) fn leave(&mut self)
        requires deep { 0 < self.old.level }
        requires most { self.old.level ≤ 16 }
        requires opens { length self.old.around ≡ 16 }
        ensures { self.new ≡ popped self.old }
    {
        let level = self.level - 1;
        self.top = self.around[level];
        self.level = level;
    }

    /// Goes into a nested expression, and keeps where the one around goes on.
    pub(crate) fn enter(&mut self, number: usize)
        requires most { self.old.level < 16 }
        requires opens { length self.old.around ≡ 16 }
        requires bounded { self.old.top.next < 4096 }
        ensures { self.new ≡ entered self.old number }
    {
        let level = self.level;
        let top = self.top;
        self.around[level] = Open {
            number: top.number,
            next: top.next + 1,
        };
        self.top = Open { number, next: 0 };
        self.level = level + 1;
    }
}
