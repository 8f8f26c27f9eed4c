//! The text that a run prints.

ghost use Rattle.std.specs.Prelude.{◌≡◌, ◌++◌, OnOk, string_bytes};
ghost use Rattle.runner.specs.Printed.{answer_line, fault_line};

use crate::answer::Answer;
use crate::shown::Shown;
use common::error::Error;
use script::fault::Fault;
use script::verb::Verb;
use std::alloc::AllocError;
use writer::writer::Writer;

/// How many bytes are printed on a line.
const ROW: usize = 16;

/// Prints what a call answers: the line's number, its first word and the answer.
pub fn print_answer(
    out: &mut String,
    line: usize,
    verb: Verb,
    answer: Result<Answer, Error>,
) -> Result<(), AllocError>
    ensures { OnOk result (string_bytes out.new ≡ string_bytes out.old ++ answer_line line verb answer) }
{
    match answer {
        Ok(Answer::Silent) => Ok(()),
        Ok(answer) => writeln!(out, "{line} {verb} {answer}"),
        Err(error) => writeln!(out, "{line} {verb} refused {error}"),
    }
}

/// Prints an error of the script.
pub fn print_fault(out: &mut String, line: usize, fault: Fault) -> Result<(), AllocError>
    ensures { OnOk result (string_bytes out.new ≡ string_bytes out.old ++ fault_line line fault) }
{
    writeln!(out, "{line} error: {fault}")
}

/// Prints a sink's bytes, 16 to a line.
pub fn print_bytes<W: Writer + Shown>(out: &mut String, sink: &W) -> Result<(), AllocError> {
    let len = sink.len();
    for offset in (0..len).step_by(ROW) {
        write!(out, "{offset:08x}:")?;
        for at in (offset..len).take(ROW) {
            if let Some(byte) = sink.byte_at(at) {
                write!(out, " {byte:02x}")?;
            }
        }
        writeln!(out)?;
    }
    Ok(())
}
