//! A caller of the book: one expression, with a branch over its second operation.

#![tactic(auto)]

use book::book::Book;
use common::constants::DW_OP_NOP;
use common::error::Error;
use op::operation::Operation;
use std::io;

/// Seals the expression, and answers its number.
fn skip_over(book: &mut Book<'_>, value: u64) -> Result<usize, Error> {
    let draft = book.begin()?;
    let ticket = draft.op_skip(book)?;
    if let Err(error) = draft.op_constu(book, value) {
        ticket.give_up();
        return Err(error);
    }
    draft.set_target(book, ticket, 2).map_err(|(unset, error)| {
        unset.give_up();
        error
    })?;
    draft.seal(book).map_err(|(_draft, error)| error)
}

fn main(rt: HostRuntime) -> io::Result<()> {
    let mut operations = [Operation::Simple(DW_OP_NOP); 4];
    let mut bytes = [0; 4];
    let mut book = Book::new(&mut operations, &mut bytes);
    match skip_over(&mut book, 5) {
        Ok(number) => println!(rt; "sealed {number}"),
        Err(error) => println!(rt; "refused: {}", error.name()),
    }
}
