//! A user of the section over a lent table: a location expression whose nested expression calls an entry, which is placed and filled later.

#![tactic(auto)]

use book::book::Book;
use common::constants::{DW_OP_NOP, DW_OP_STACK_VALUE};
use common::encoding::{Encoding, Format};
use common::endianity::RunTimeEndian;
use common::error::Error;
use op::operation::{DebugInfoRef, Operation};
use section::calls::{Answer, Call};
use section::run::run;
use section::section::Section;
use sinks::buffer::BufferSink;
use std::io;

/// Seals an expression of an entry value over a call of an entry, and answers its number.
fn entry_value(book: &mut Book<'_>) -> Result<usize, Error> {
    let inner = book.begin()?;
    inner.op_call_ref(book, DebugInfoRef::Entry(0, 0))?;
    let called = inner.seal(book).map_err(|(_, error)| error)?;
    let outer = book.begin()?;
    outer.op_entry_value(book, called)?;
    outer.op(book, DW_OP_STACK_VALUE)?;
    outer.seal(book).map_err(|(_, error)| error)
}

/// Writes the expression at length 100, places the entry at 300, and fills the reference to it.
fn write(table: &mut [u8], book: &Book<'_>, number: usize) -> [Result<Answer, Error>; 8] {
    let encoding = Encoding {
        address_size: 4,
        format: Format::Dwarf32,
        version: 5,
    };
    let mut section = Section::new(BufferSink::new(table, RunTimeEndian::Little));
    let calls = [
        Call::BeginUnit(encoding),
        Call::Append(&[0; 100]),
        Call::Write(book, number),
        Call::Append(&[0; 192]),
        Call::Place(0),
        Call::Pending(0),
        Call::Fill(103),
        Call::Finish,
    ];
    let mut answers = [Ok(Answer::Done); 8];
    run(&mut section, &calls, &mut answers);
    answers
}

fn main(rt: HostRuntime) -> io::Result<()> {
    let mut operations = [Operation::Simple(DW_OP_NOP); 8];
    let mut bytes = [0; 8];
    let mut book = Book::new(&mut operations, &mut bytes);
    let mut table = [0; 512];
    match entry_value(&mut book) {
        Ok(number) => {
            for answer in &write(&mut table, &book, number) {
                match answer {
                    Ok(Answer::Done) => println!(rt; "done")?,
                    Ok(Answer::Number(number)) => println!(rt; "{number}")?,
                    Ok(Answer::Row(Some(row))) => {
                        let offset = row.offset;
                        let width = row.width;
                        println!(rt; "pending at {offset}, {width} bytes")?
                    }
                    Ok(Answer::Row(None)) => println!(rt; "nothing pending")?,
                    Err(error) => println!(rt; "refused {error}")?,
                }
            }
            print!(rt; "bytes:")?;
            for byte in &table[100..108] {
                print!(rt; " {byte:02x}")?;
            }
            println!(rt)
        }
        Err(error) => println!(rt; "refused {error}"),
    }
}
