//! Branches, their tickets and their targets.

use crate::answers::{Answer, Lost, NOP, show};
use book::book::Book;
use op::operation::Operation;
use std::io;

/// A target past the end, at the branch itself, and at the end; then the expression is sealed.
pub fn targets(operations: &mut [Operation], bytes: &mut [u8]) -> Result<[Answer; 5], Lost> {
    let mut book = Book::new(operations, bytes);
    let draft = book.begin()?;
    let ticket = draft.op_skip(&mut book)?;
    let Err((ticket, past)) = draft.set_target(&mut book, ticket, 2) else {
        return Err(Lost);
    };
    let Err((ticket, itself)) = draft.set_target(&mut book, ticket, 0) else {
        return Err(Lost);
    };
    let end = draft.set_target(&mut book, ticket, 1).into();
    let next = draft.op_constu(&mut book, 5).into();
    let sealed = draft.seal(&mut book).into();
    Ok([
        Answer::Refused(past),
        Answer::Refused(itself),
        end,
        next,
        sealed,
    ])
}

/// A branch that is left without a target: the draft is not sealed, and can be discarded.
pub fn given_up(operations: &mut [Operation], bytes: &mut [u8]) -> Result<[Answer; 3], Lost> {
    let mut book = Book::new(operations, bytes);
    let draft = book.begin()?;
    let branch = draft.op_bra(&mut book).into();
    let Err((draft, open)) = draft.seal(&mut book) else {
        return Err(Lost);
    };
    let gone = draft.discard(&mut book).into();
    Ok([branch, Answer::Refused(open), gone])
}

/// A ticket of another draft names an operation number: it serves an unset branch there, and no other operation.
pub fn other_ticket(operations: &mut [Operation], bytes: &mut [u8]) -> Result<[Answer; 5], Lost> {
    let mut book = Book::new(operations, bytes);
    let draft = book.begin()?;
    let ticket = draft.op_skip(&mut book)?;
    let gone = draft.discard(&mut book).into();
    let Ok(draft) = book.begin() else {
        ticket.give_up();
        return Err(Lost);
    };
    let Err((ticket, none)) = draft.set_target(&mut book, ticket, 1) else {
        return Err(Lost);
    };
    let constu = draft.op_constu(&mut book, 5).into();
    let Err((ticket, other)) = draft.set_target(&mut book, ticket, 1) else {
        return Err(Lost);
    };
    let _ = draft.discard(&mut book);
    let Ok(draft) = book.begin() else {
        ticket.give_up();
        return Err(Lost);
    };
    let _ = Answer::from(draft.op_bra(&mut book));
    let served = draft.set_target(&mut book, ticket, 1).into();
    Ok([
        gone,
        Answer::Refused(none),
        constu,
        Answer::Refused(other),
        served,
    ])
}

/// A ticket of another book, and one of a branch whose target is set already.
pub fn other_book(
    operations: &mut [Operation],
    bytes: &mut [u8],
    others: &mut [Operation],
    data: &mut [u8],
) -> Result<[Answer; 3], Lost> {
    let mut book = Book::new(operations, bytes);
    let mut other = Book::new(others, data);
    let draft = book.begin()?;
    let theirs = other.begin()?;
    let ticket = draft.op_skip(&mut book)?;
    let Ok(same) = theirs.op_bra(&mut other) else {
        ticket.give_up();
        return Err(Lost);
    };
    let set = theirs.set_target(&mut other, ticket, 1).into();
    let Err((same, again)) = theirs.set_target(&mut other, same, 1) else {
        return Err(Lost);
    };
    same.give_up();
    let sealed = theirs.seal(&mut other).into();
    Ok([set, Answer::Refused(again), sealed])
}

/// Prints the answers.
pub fn print(rt: &impl Print) -> io::Result<()> {
    show(rt, "targets", targets(&mut [NOP; 8], &mut [7; 8]))?;
    show(rt, "given up", given_up(&mut [NOP; 8], &mut [7; 8]))?;
    show(
        rt,
        "ticket of another draft",
        other_ticket(&mut [NOP; 8], &mut [7; 8]),
    )?;
    show(
        rt,
        "ticket of another book",
        other_book(&mut [NOP; 8], &mut [7; 8], &mut [NOP; 8], &mut [7; 8]),
    )
}
