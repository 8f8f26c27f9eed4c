//! The order of a script's lines.

ghost use Rattle.std.specs.Prelude.{◌≡◌, List, []};
ghost use Rattle.std.specs.Result.{result_ok};
ghost use Rattle.script.specs.declared.verb.Part.{Part as Line};
ghost use Rattle.script.specs.Stages.{seen, late_at, grown, stage_after};

use crate::fault::Fault;
use crate::verb::Part;

/// Which lines were met since the script's start or the last `new`.
#[derive(Clone, Copy)]
pub struct Stage {
    /// One that makes the sink.
    sink: bool,
    /// One that makes the book.
    book: bool,
    /// One that holds bytes.
    hold: bool,
    /// One that is a call.
    begun: bool,
}

impl Stage {
    /// No line was met.
    pub fn start() -> Stage
        ensures { result ≡ seen [] }
    {
        Stage {
            sink: false,
            book: false,
            hold: false,
            begun: false,
        }
    }

    /// Whether a line comes too late.
    fn is_late(self, part: Part) -> bool
        ensures { result ≡ late_at self part }
    {
        match part {
            Part::Sink => self.begun || self.sink || self.hold,
            Part::Book => self.begun || self.book,
            Part::Hold => self.begun || self.hold,
            Part::New | Part::Call => false,
        }
    }

    /// With one more line.
    fn with(self, part: Part) -> Stage
        ensures { result ≡ grown self part }
    {
        match part {
            Part::New => Stage::start(),
            Part::Sink => Stage { sink: true, ..self },
            Part::Book => Stage { book: true, ..self },
            Part::Hold => Stage { hold: true, ..self },
            Part::Call => Stage {
                begun: true,
                ..self
            },
        }
    }

    /// The stage after one more line, unless it comes too late.
    pub fn after(self, part: Part) -> Result<Stage, Fault>
        ensures { (past : List Line) → self ≡ seen past → result_ok result ≡ stage_after past part }
    {
        if self.is_late(part) {
            Err(Fault::TooLate)
        } else {
            Ok(self.with(part))
        }
    }
}
