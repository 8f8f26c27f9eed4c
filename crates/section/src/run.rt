//! Calls made one after the other.

ghost use Rattle.std.specs.Prelude.{◌≡◌, length, drop};
ghost use Rattle.book.specs.Holds.{holds};
ghost use Rattle.section.specs.Held.{state_of, Steps};
ghost use Rattle.section.specs.Made.{call_of, call_in, answer_of, all_made, Ran};

use crate::calls::{Answer, Call, NumberedCall};
use crate::section::Section;
use book::book::Book;
use common::error::Error;
use writer::writer::Writer;

/// Makes a call.
pub fn apply<W: Writer>(section: &mut Section<W>, call: Call<'_>) -> Result<Answer, Error>
    ensures { Steps W.Writer.means section.old (call_of call.entry) (answer_of result) section.new }
{
    match call {
        Call::BeginUnit(encoding) => section.begin_unit(encoding).map(Answer::Number),
        Call::Append(bytes) => section.append(bytes).map(|()| Answer::Done),
        Call::Place(entry) => section.place(entry).map(|()| Answer::Done),
        Call::Size(book, number) => section.size(book, number).map(Answer::Number),
        Call::SizeFrame(book, number, encoding) => section
            .size_frame(book, number, encoding)
            .map(Answer::Number),
        Call::Write(book, number) => section.write(book, number).map(Answer::Number),
        Call::WriteFrame(book, number, encoding) => section
            .write_frame(book, number, encoding)
            .map(Answer::Number),
        Call::Fill(offset) => section.fill(offset).map(|()| Answer::Done),
        Call::Finish => section.finish().map(Answer::Number),
        Call::Pending(index) => Ok(Answer::Row(section.pending(index))),
    }
}

/// Makes a call, with the expressions of a book.
pub fn apply_in_book<W: Writer>(
    section: &mut Section<W>,
    book: &Book<'_>,
    call: NumberedCall<'_>,
) -> Result<Answer, Error>
    ensures { Steps W.Writer.means section.old (call_in (holds book.now) call.entry) (answer_of result) section.new }
{
    let call = match call {
        NumberedCall::BeginUnit(encoding) => Call::BeginUnit(encoding),
        NumberedCall::Append(bytes) => Call::Append(bytes),
        NumberedCall::Place(entry) => Call::Place(entry),
        NumberedCall::Size(number) => Call::Size(book, number),
        NumberedCall::SizeFrame(number, encoding) => Call::SizeFrame(book, number, encoding),
        NumberedCall::Write(number) => Call::Write(book, number),
        NumberedCall::WriteFrame(number, encoding) => Call::WriteFrame(book, number, encoding),
        NumberedCall::Fill(offset) => Call::Fill(offset),
        NumberedCall::Finish => Call::Finish,
        NumberedCall::Pending(index) => Call::Pending(index),
    };
    apply(section, call)
}

/// Makes calls in order, and notes the answer of each. As many are made as there are places for answers.
pub fn run<W: Writer>(
    section: &mut Section<W>,
    calls: &[Call<'_>],
    answers: &mut [Result<Answer, Error>],
)
    ensures ran { Ran (state_of W.Writer.means section.old) (all_made call_of calls.now answers.new) (state_of W.Writer.means section.new) }
    ensures rest { drop (length calls.now) answers.new ≡ drop (length calls.now) answers.old }
{
    for i in 0..calls.len().min(answers.len()) {
        answers[i] = apply(section, calls[i]);
    }
}

/// Makes calls in order, with the expressions of a book, and notes the answer of each. As many are made as there are places for answers.
pub fn run_in_book<W: Writer>(
    section: &mut Section<W>,
    book: &Book<'_>,
    calls: &[NumberedCall<'_>],
    answers: &mut [Result<Answer, Error>],
)
    ensures ran { Ran (state_of W.Writer.means section.old) (all_made (call_in (holds book.now)) calls.now answers.new) (state_of W.Writer.means section.new) }
    ensures rest { drop (length calls.now) answers.new ≡ drop (length calls.now) answers.old }
{
    for i in 0..calls.len().min(answers.len()) {
        answers[i] = apply_in_book(section, book, calls[i]);
    }
}
