//! Entry values.

use crate::answers::{Answer, Lost, NOP, show};
use book::book::Book;
use common::error::Error;
use op::operation::Operation;
use std::io;

/// Seals an expression with an entry value of the one before, or without one.
fn seal_over(book: &mut Book<'_>, nested: Option<usize>) -> Result<usize, Error> {
    let draft = book.begin()?;
    let added = match nested {
        Some(number) => draft.op_entry_value(book, number),
        None => draft.op_constu(book, 1),
    };
    if let Err(error) = added {
        let _ = draft.discard(book);
        return Err(error);
    }
    draft.seal(book).map_err(|(_draft, error)| error)
}

/// Expressions nested to a depth of 16, and one more.
pub fn deep(operations: &mut [Operation], bytes: &mut [u8]) -> [Answer; 18] {
    let mut book = Book::new(operations, bytes);
    let mut answers = [Answer::Accepted; 18];
    for (depth, answer) in answers.iter_mut().enumerate() {
        *answer = seal_over(&mut book, depth.checked_sub(1)).into();
    }
    answers
}

/// No such expression; one nested twice; one nested in a draft that is discarded, and then again.
pub fn twice(operations: &mut [Operation], bytes: &mut [u8]) -> Result<[Answer; 7], Lost> {
    let mut book = Book::new(operations, bytes);
    let first = seal_over(&mut book, None).into();
    let draft = book.begin()?;
    let none = draft.op_entry_value(&mut book, 1).into();
    let nested = draft.op_entry_value(&mut book, 0).into();
    let twice = draft.op_entry_value(&mut book, 0).into();
    let gone = draft.discard(&mut book).into();
    let again = seal_over(&mut book, Some(0)).into();
    let held = seal_over(&mut book, Some(0)).into();
    Ok([first, none, nested, twice, gone, again, held])
}

/// Want of place is the last refusal.
pub fn full(operations: &mut [Operation], bytes: &mut [u8]) -> Result<[Answer; 4], Lost> {
    let mut book = Book::new(operations, bytes);
    let first = seal_over(&mut book, None).into();
    let draft = book.begin()?;
    let full = draft.op_entry_value(&mut book, 0).into();
    let none = draft.op_entry_value(&mut book, usize::MAX).into();
    let bad = draft.op_call(&mut book, 128).into();
    Ok([first, full, none, bad])
}

/// Prints the answers.
pub fn print(rt: &impl Print) -> io::Result<()> {
    show(rt, "depths 0 to 17", Ok(deep(&mut [NOP; 32], &mut [7; 8])))?;
    show(rt, "nested twice", twice(&mut [NOP; 8], &mut [7; 8]))?;
    show(
        rt,
        "nested in a full table",
        full(&mut [NOP; 1], &mut [7; 8]),
    )
}
