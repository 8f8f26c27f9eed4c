//! A run of a script.

ghost use Rattle.std.specs.Prelude.{◌≡◌, ℕ, ◌<◌, ◌≤◌, IfOk, MatchOption};
ghost use Rattle.words.specs.Bytes.{denoted};
ghost use Rattle.script.specs.Readers.{left};
ghost use Rattle.runner.specs.Answers.{Written};
ghost use Rattle.runner.specs.Endings.{Ends};

use crate::answer::Answer;
use crate::output::{print_answer, print_bytes, print_fault};
use crate::shown::Shown;
use common::endianity::RunTimeEndian;
use common::error::Error;
use script::command::{BookLengths, Command, SinkKind};
use script::fault::Fault;
use script::item::Item;
use script::reader::Reader;
use script::stage::Stage;
use sinks::buffer::BufferSink;
use sinks::words::WordSink;
use std::alloc::{AllocError, Global};
use words::hex::Hex;
use writer::writer::Writer;

/// As much as a sink uses of a table of bytes.
const MOST_BYTES: u64 = 2_147_483_647;

/// As much as a sink uses of a table of words.
const MOST_WORDS: u64 = 536_870_911;

/// How a run ended.
#[derive(Clone, Copy, PartialEq, Eq, Debug)]
pub enum Ending {
    /// The script came to its end.
    Complete,
    /// A line was an error of the script.
    Faulty,
}

/// What the lines before the first call make.
#[derive(Clone, Copy)]
struct Setup {
    sink: SinkKind,
    book: BookLengths,
    stage: Stage,
}

/// What is made without such lines.
impl Default for Setup {
    fn default() -> Setup {
        Setup {
            sink: SinkKind::Bytes {
                capacity: 65_536,
                endian: RunTimeEndian::Little,
            },
            book: BookLengths {
                operations: 4_096,
                data: 65_535,
            },
            stage: Stage::start(),
        }
    }
}

impl Setup {
    /// What is made with one more line, unless it is another line, is an error or comes too late.
    fn with_line(self, item: Item<'_>) -> Option<Setup> {
        let command = item.command.ok()?;
        let stage = self.stage.after(command.verb().part()).ok()?;
        match command {
            Command::Sink(sink) => Some(Setup {
                sink,
                stage,
                ..self
            }),
            Command::Book(book) => Some(Setup {
                book,
                stage,
                ..self
            }),
            _ => None,
        }
    }

    /// What is made with the next line, which is read if it makes the sink or the book.
    fn with_next(self, lines: &mut Reader<'_>) -> Option<Setup>
        ensures { MatchOption result (left lines.new ≤ left lines.old) (λ _. left lines.new < left lines.old) }
    {
        let mut ahead = *lines;
        let next = self.with_line(ahead.next()?)?;
        *lines = ahead;
        Some(next)
    }

    /// What the first of some lines make, which are read.
    fn of_lines(lines: &mut Reader<'_>) -> Setup
        ensures { left lines.new ≤ left lines.old }
    {
        let mut setup = Setup::default();
        while let Some(next) = setup.with_next(lines) {
            setup = next;
        }
        setup
    }
}

/// A sink on which lines are carried out, and the text that they print.
#[derive(Drop)]
struct Machine<'a, W> {
    heap: Global,
    sink: W,
    stage: Stage,
    out: &'a mut String,
}

impl<'a, W: Writer + Shown> Machine<'a, W> {
    /// A machine on which no line was carried out, behind the lines that made its sink.
    fn new(heap: Global, sink: W, stage: Stage, out: &'a mut String) -> Machine<'a, W> {
        Machine {
            heap,
            sink,
            stage,
            out,
        }
    }

    /// Writes bytes to the sink.
    fn write(&mut self, bytes: Hex<'_>, done: Answer) -> Result<Result<Answer, Error>, AllocError>
        ensures written { IfOk result (λ a. Written done (denoted bytes.entry) (W.Writer.means self.old.sink) a (W.Writer.means self.new.sink)) }
        ensures stage { self.new.stage ≡ self.old.stage }
        ensures text { self.new.out ≡ self.old.out }
    {
        let bytes = bytes.decode(self.heap)?;
        Ok(self.sink.write(bytes.as_slice()).map(|()| done))
    }

    /// Carries out a line, and prints what it answers.
    fn carry_out(&mut self, line: usize, command: Command<'_>) -> Result<(), AllocError> {
        let answer = match command {
            Command::Hold(bytes) => self.write(bytes, Answer::Silent)?,
            Command::Append(bytes) => self.write(bytes, Answer::Done)?,
            Command::Dump => Ok(Answer::Number(self.sink.len())),
            Command::New | Command::Sink(_) | Command::Book(_) => Ok(Answer::Silent),
        };
        print_answer(self.out, line, command.verb(), answer)?;
        if let Command::Dump = command {
            print_bytes(self.out, &self.sink)?;
        }
        Ok(())
    }

    /// The command of a line, unless it is an error of the script or comes too late.
    fn admit<'b>(&mut self, item: Item<'b>) -> Result<Command<'b>, Fault> {
        let command = item.command?;
        self.stage = self.stage.after(command.verb().part())?;
        Ok(command)
    }

    /// Carries out the lines up to one that starts afresh, or answers how the run ends.
    fn run(&mut self, lines: &mut Reader<'_>) -> Result<Option<Ending>, AllocError>
        ensures { IfOk result (λ e. Ends e (left lines.old) (left lines.new)) }
    {
        while let Some(item) = lines.next() {
            match self.admit(item) {
                Ok(Command::New) => return Ok(None),
                Ok(command) => self.carry_out(item.line, command)?,
                Err(fault) => {
                    print_fault(self.out, item.line, fault)?;
                    return Ok(Some(Ending::Faulty));
                }
            }
        }
        Ok(Some(Ending::Complete))
    }
}

/// Carries out a part of the script, up to a line that starts afresh, or answers how the run ends.
fn run_part(
    heap: Global,
    lines: &mut Reader<'_>,
    out: &mut String,
) -> Result<Option<Ending>, AllocError>
    ensures { IfOk result (λ e. Ends e (left lines.old) (left lines.new)) }
{
    let setup = Setup::of_lines(lines);
    match setup.sink {
        SinkKind::Bytes { capacity, endian } => {
            let mut table = vec![in heap; 0u8; capacity.min(MOST_BYTES) as usize]?;
            let sink = BufferSink::new(&mut table, endian);
            Machine::new(heap, sink, setup.stage, out).run(lines)
        }
        SinkKind::Words { count } => {
            let mut table = vec![in heap; 0u32; count.min(MOST_WORDS) as usize]?;
            let sink = WordSink::new(&mut table);
            Machine::new(heap, sink, setup.stage, out).run(lines)
        }
    }
}

/// Runs a script, and adds what it prints to `out`.
pub fn run(heap: Global, script: &[u8], out: &mut String) -> Result<Ending, AllocError> {
    let mut lines = Reader::new(script);
    loop {
        if let Some(ending) = run_part(heap, &mut lines, out)? {
            return Ok(ending);
        }
    }
}
