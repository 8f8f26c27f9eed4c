//! The calls of a section and their answers, as values.

use book::book::Book;
use common::encoding::Encoding;
use common::fixup::DebugInfoFixup;

/// A call of a section. An expression goes by its book and its number there.
#[derive(Clone, Copy)]
pub enum Call<'b> {
    /// `begin_unit`
    BeginUnit(Encoding),
    /// `append`
    Append(&'b [u8]),
    /// `place`
    Place(usize),
    /// `size`
    Size(&'b Book<'b>, usize),
    /// `size_frame`
    SizeFrame(&'b Book<'b>, usize, Encoding),
    /// `write`
    Write(&'b Book<'b>, usize),
    /// `write_frame`
    WriteFrame(&'b Book<'b>, usize, Encoding),
    /// `fill`
    Fill(usize),
    /// `finish`
    Finish,
    /// `pending`
    Pending(usize),
}

/// A call of a section that names no book. An expression goes by its number in the book that the call is made with.
#[derive(Clone, Copy)]
pub enum NumberedCall<'b> {
    /// `begin_unit`
    BeginUnit(Encoding),
    /// `append`
    Append(&'b [u8]),
    /// `place`
    Place(usize),
    /// `size`
    Size(usize),
    /// `size_frame`
    SizeFrame(usize, Encoding),
    /// `write`
    Write(usize),
    /// `write_frame`
    WriteFrame(usize, Encoding),
    /// `fill`
    Fill(usize),
    /// `finish`
    Finish,
    /// `pending`
    Pending(usize),
}

/// What a call answers that is not refused.
#[derive(Clone, Copy)]
pub enum Answer {
    /// That it is done.
    Done,
    /// A unit's number, a size, how many bytes were added, or the section's length.
    Number(usize),
    /// A pending reference, or nothing past the last.
    Row(Option<DebugInfoFixup>),
}
