//! Places in the tables, and numbers of entries.

use crate::answers::{Answer, Lost, NOP, show};
use book::book::Book;
use book_tables::tables::Tables;
use common::constants::DW_OP_NOP;
use op::operation::{DebugInfoRef, Operation};
use std::io;

/// Two operations and two bytes of data are added to a book over small tables, then the draft is sealed and a raw one begun.
pub fn small(operations: &mut [Operation], bytes: &mut [u8]) -> Result<[Answer; 7], Lost> {
    let mut book = Book::new(operations, bytes);
    let draft = book.begin()?;
    let long = draft.op_implicit_value(&mut book, b"ab").into();
    let one = draft.op_implicit_value(&mut book, b"a").into();
    let none = draft.op_implicit_value(&mut book, b"").into();
    let nop = draft.op(&mut book, DW_OP_NOP).into();
    let skip = draft.op_skip(&mut book).into();
    let sealed = draft.seal(&mut book).into();
    let raw = book.raw(b"").into();
    Ok([long, one, none, nop, skip, sealed, raw])
}

/// Seals expressions until none is taken: the last one's number, and how `begin` and `raw` refuse then.
pub fn expressions(operations: &mut [Operation], bytes: &mut [u8]) -> Result<[Answer; 4], Lost> {
    let mut book = Book::new(operations, bytes);
    let mut last = 0;
    let mut refused = Answer::Accepted;
    for _ in 0..1025 {
        match book.begin() {
            Ok(draft) => last = draft.seal(&mut book).map_err(|_| Lost)?,
            Err(error) => refused = Answer::Refused(error),
        }
    }
    let begun = book.begin().into();
    let raw = book.raw(b"").into();
    Ok([Answer::Count(last), refused, begun, raw])
}

/// Adds operations until none is taken: how many were, the refusal, and whether the element behind them is as it was.
pub fn operations(operations: &mut [Operation], bytes: &mut [u8]) -> Result<[Answer; 3], Lost> {
    let mut book = Book::new(operations, bytes);
    let draft = book.begin()?;
    let mut refused = Answer::Accepted;
    for _ in 0..4097 {
        refused = draft.op_constu(&mut book, 5).into();
    }
    let count = book.next_index();
    let Tables { operations, .. } = book.into_tables();
    let behind = list::read(operations, 4097, 4096);
    let kept = matches!(behind, Some(Operation::Simple(_)));
    Ok([
        Answer::Count(count),
        refused,
        Answer::Count(usize::from(kept)),
    ])
}

/// Data of 65,536 and 65,535 bytes, then of one more byte and of none; and the byte behind them, which is as it was.
pub fn data(
    operations: &mut [Operation],
    bytes: &mut [u8],
    value: &[u8; 65536],
) -> Result<[Answer; 6], Lost> {
    let mut book = Book::new(operations, bytes);
    let draft = book.begin()?;
    let long = draft.op_implicit_value(&mut book, value).into();
    let base = draft.op_const_type(&mut book, 128, value).into();
    let most = draft.op_const_type(&mut book, 127, &value[0..65535]).into();
    let more = draft.op_implicit_value(&mut book, b"a").into();
    let none = draft.op_implicit_value(&mut book, b"").into();
    let Tables { bytes, .. } = book.into_tables();
    let kept = list::read(bytes, 65536, 65535).ok_or(Lost)?;
    Ok([
        long,
        base,
        most,
        more,
        none,
        Answer::Count(usize::from(kept)),
    ])
}

/// Units and entries at their limits and past them.
pub fn entries(operations: &mut [Operation], bytes: &mut [u8]) -> Result<[Answer; 10], Lost> {
    let mut book = Book::new(operations, bytes);
    let draft = book.begin()?;
    let last = draft.op_call(&mut book, 127).into();
    let past = draft.op_call(&mut book, 128).into();
    let far = draft.op_gnu_parameter_ref(&mut book, usize::MAX).into();
    let pair = draft
        .op_call_ref(&mut book, DebugInfoRef::Entry(7, 127))
        .into();
    let unit = draft
        .op_call_ref(&mut book, DebugInfoRef::Entry(8, 127))
        .into();
    let entry = draft
        .op_variable_value(&mut book, DebugInfoRef::Entry(7, 128))
        .into();
    let symbol = draft
        .op_implicit_pointer(&mut book, DebugInfoRef::Symbol(usize::MAX), 0)
        .into();
    let base = draft.op_convert(&mut book, Some(128)).into();
    let generic = draft.op_reinterpret(&mut book, None).into();
    let typed = draft.op_xderef_type(&mut book, 4, 128).into();
    Ok([
        last, past, far, pair, unit, entry, symbol, base, generic, typed,
    ])
}

/// The lengths that `as_raw` answers, or 99 for nothing: a raw expression, one with an operation more, one with data, none.
pub fn raw(operations: &mut [Operation], bytes: &mut [u8]) -> [usize; 4] {
    let mut book = Book::new(operations, bytes);
    if let Ok(draft) = book.raw(b"abc") {
        let _ = draft.seal(&mut book);
    }
    if let Ok(draft) = book.raw(b"abc") {
        let _ = draft.op(&mut book, DW_OP_NOP);
        let _ = draft.seal(&mut book);
    }
    if let Ok(draft) = book.begin() {
        let _ = draft.op_implicit_value(&mut book, b"abc");
        let _ = draft.seal(&mut book);
    }
    let mut lengths = [99; 4];
    for (number, length) in lengths.iter_mut().enumerate() {
        if let Some(bytes) = book.as_raw(number) {
            *length = bytes.len();
        }
    }
    lengths
}

/// Prints the answers over small tables.
pub fn print_small(rt: &impl Print) -> io::Result<()> {
    show(rt, "tables of none", small(&mut [], &mut []))?;
    show(rt, "tables of one", small(&mut [NOP; 1], &mut [7; 1]))?;
    show(rt, "no data", small(&mut [NOP; 8], &mut []))
}

/// Prints the answers at the most that a book takes.
pub fn print_most(rt: &impl Print) -> io::Result<()> {
    show(rt, "expressions", expressions(&mut [], &mut []))?;
    show(rt, "operations", operations(&mut [NOP; 4200], &mut []))?;
    show(
        rt,
        "data",
        data(&mut [NOP; 8], &mut [7; 70000], &[1; 65536]),
    )
}

/// Prints the answers on entries and raw expressions.
pub fn print_values(rt: &impl Print) -> io::Result<()> {
    show(rt, "entries", entries(&mut [NOP; 8], &mut [7; 8]))?;
    show(rt, "raw", Ok(raw(&mut [NOP; 8], &mut [7; 8])))
}
