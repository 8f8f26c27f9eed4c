//! Drafts: opened twice, handed to another book, sealed and discarded.

use crate::answers::{Answer, Lost, NOP, show};
use book::book::Book;
use common::constants::DW_OP_NOP;
use op::operation::Operation;
use std::io;

/// A second `begin` and `raw` while a draft is open, and again after it is sealed.
pub fn opened_twice(operations: &mut [Operation], bytes: &mut [u8]) -> Result<[Answer; 5], Lost> {
    let mut book = Book::new(operations, bytes);
    let draft = book.begin()?;
    let second = book.begin().into();
    let raw = book.raw(b"x").into();
    let sealed = draft.seal(&mut book).into();
    let again = book.raw(b"x").into();
    let third = book.begin().into();
    Ok([second, raw, sealed, again, third])
}

/// A draft handed to a book that has none open: every call refuses with 20, before any other refusal.
pub fn other_book(
    operations: &mut [Operation],
    bytes: &mut [u8],
    others: &mut [Operation],
    data: &mut [u8],
) -> Result<[Answer; 8], Lost> {
    let mut book = Book::new(operations, bytes);
    let mut other = Book::new(others, data);
    let draft = book.begin()?;
    let constu = draft.op_constu(&mut other, 1).into();
    let call = draft.op_call(&mut other, 128).into();
    let nested = draft.op_entry_value(&mut other, 0).into();
    let skip = draft.op_skip(&mut other).into();
    let ticket = draft.op_skip(&mut book)?;
    let target = draft.set_target(&mut other, ticket, 1).into();
    let Err((draft, sealed)) = draft.seal(&mut other) else {
        return Err(Lost);
    };
    let Err((draft, discarded)) = draft.discard(&mut other) else {
        return Err(Lost);
    };
    let own = draft.discard(&mut book).into();
    Ok([
        constu,
        call,
        nested,
        skip,
        target,
        Answer::Refused(sealed),
        Answer::Refused(discarded),
        own,
    ])
}

/// A draft handed to a book with a draft of its own acts on that one.
pub fn other_draft(
    operations: &mut [Operation],
    bytes: &mut [u8],
    others: &mut [Operation],
    data: &mut [u8],
) -> Result<[Answer; 4], Lost> {
    let mut book = Book::new(operations, bytes);
    let mut other = Book::new(others, data);
    let draft = book.begin()?;
    let own = other.begin()?;
    let _ = draft.op_constu(&mut other, 1);
    let _ = draft.op_constu(&mut other, 2);
    let here = Answer::Count(book.next_index());
    let there = Answer::Count(other.next_index());
    let _ = draft.discard(&mut other);
    let after = Answer::Count(other.next_index());
    let refused = own.op_constu(&mut other, 3).into();
    Ok([here, there, after, refused])
}

/// A discarded draft leaves its places to the next one.
pub fn discarded(operations: &mut [Operation], bytes: &mut [u8]) -> Result<[Answer; 6], Lost> {
    let mut book = Book::new(operations, bytes);
    let draft = book.begin()?;
    let first = draft.op_implicit_value(&mut book, b"a").into();
    let full = draft.op_implicit_value(&mut book, b"").into();
    let gone = draft.discard(&mut book).into();
    let draft = book.begin()?;
    let second = draft.op_implicit_value(&mut book, b"b").into();
    let sealed = draft.seal(&mut book).into();
    let draft = book.begin()?;
    let third = draft.op(&mut book, DW_OP_NOP).into();
    Ok([first, full, gone, second, sealed, third])
}

/// Prints the answers.
pub fn print(rt: &impl Print) -> io::Result<()> {
    show(rt, "opened twice", opened_twice(&mut [NOP; 8], &mut [7; 8]))?;
    show(
        rt,
        "draft of another book",
        other_book(&mut [NOP; 8], &mut [7; 8], &mut [NOP; 8], &mut [7; 8]),
    )?;
    show(
        rt,
        "draft beside another draft",
        other_draft(&mut [NOP; 8], &mut [7; 8], &mut [NOP; 8], &mut [7; 8]),
    )?;
    show(
        rt,
        "discarded, in tables of one",
        discarded(&mut [NOP; 1], &mut [7; 1]),
    )
}
