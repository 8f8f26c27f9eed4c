//! A section over a sink of its own.

ghost use Rattle.std.specs.Prelude.{◌≡◌, true, length};
ghost use Rattle.book.specs.Holds.{holds};
ghost use Rattle.expression.specs.Sealed.{tree_at};
ghost use Rattle.claim.specs.Section.{New};
ghost use Rattle.claim.specs.Calls.{begin_unit as begin_unit_call, append as append_call, place_entry as place_call, ask_size as size_call, ask_frame_size as frame_size_call, write as write_call, write_frame as frame_call, fill as fill_call, finish as finish_call, ask_pending as pending_call, row};
ghost use Rattle.claim.specs.Claim.{plainly, counted};
ghost use Rattle.section_tables.specs.Rows.{inside, rows_of};

use book::book::Book;
use common::encoding::Encoding;
use common::error::Error;
use common::fixup::DebugInfoFixup;
use emit::write::write_expression;
use expression::size_of;
use fields::patch::write_udata_at;
use section_tables::tables::Tables;
use unit::Context;
use writer::writer::Writer;

/// A section that is being written.
#[derive(Drop)]
pub struct Section<W: Writer> {
    sink: W,
    tables: Tables,
    // Where the operations of the expression that is being written end; kept here so that no call needs memory of its own.
    ends: [usize; 4096],
    ghost inside: { inside (length (W.Writer.means sink).content) (rows_of tables.pending) ≡ true },
}

impl<W: Writer> Section<W> {
    ghost use Rattle.section.specs.Held.{state_of, Steps, KeepsMemory};

    /// A section without units, over the bytes that the sink holds.
    pub fn new(sink: W) -> Section<W>
        ensures sink { result.sink ≡ sink }
        ensures fresh { New (state_of W.Writer.means result) }
    {
        let _ = sink.len();
        Section {
            sink,
            tables: Tables::new(),
            ends: [0; 4096],
        }
    }

    /// The sink, with what was written to it.
    pub fn into_sink(self) -> W
        ensures { result ≡ self.sink }
    {
        self.sink
    }

    /// Begins a unit at the end of the section, and answers its number.
    pub fn begin_unit(&mut self, encoding: Encoding) -> Result<usize, Error>
        ensures step { Steps W.Writer.means self.old (begin_unit_call encoding) (counted result) self.new }
        ensures sink { self.new.sink ≡ self.old.sink }
    {
        self.tables.units.begin(encoding, self.sink.len())
    }

    /// Adds bytes at the end.
    pub fn append(&mut self, bytes: &[u8]) -> Result<(), Error>
        ensures step { Steps W.Writer.means self.old (append_call bytes.now) (plainly result) self.new }
        ensures memory { KeepsMemory W.Writer.means W.Writer.memory self.old self.new }
    {
        self.sink.write(bytes)
    }

    /// Places an entry of the last unit at the end of the section.
    pub fn place(&mut self, entry: usize) -> Result<(), Error>
        ensures step { Steps W.Writer.means self.old (place_call entry) (plainly result) self.new }
        ensures sink { self.new.sink ≡ self.old.sink }
    {
        self.tables.units.place(entry, self.sink.len())
    }

    /// How many bytes an expression of a book takes in the last unit.
    pub fn size(&self, book: &Book<'_>, number: usize) -> Result<usize, Error>
        ensures { Steps W.Writer.means self.now (size_call (tree_at (holds book.now) number)) (counted result) self.now }
    {
        let last = self.tables.units.last()?;
        size_of(book, number, Context::unit(last))
    }

    /// How many bytes an expression of a book takes in a frame table.
    pub fn size_frame(
        &self,
        book: &Book<'_>,
        number: usize,
        encoding: Encoding,
    ) -> Result<usize, Error>
        ensures { Steps W.Writer.means self.now (frame_size_call (tree_at (holds book.now) number) encoding) (counted result) self.now }
    {
        size_of(book, number, Context::frame(encoding))
    }

    /// Writes an expression of a book at the end of the section, as the last unit has it, and answers how many bytes it takes. Each reference
    /// to an entry is set down as zeros, and is pending until it is filled.
    pub fn write(&mut self, book: &Book<'_>, number: usize) -> Result<usize, Error>
        ensures step { Steps W.Writer.means self.old (write_call (tree_at (holds book.now) number)) (counted result) self.new }
        ensures memory { KeepsMemory W.Writer.means W.Writer.memory self.old self.new }
    {
        let tables = &mut self.tables;
        let last = tables.units.last()?;
        let pending = &mut tables.pending;
        write_expression(
            &mut self.sink,
            book,
            number,
            Context::unit(last),
            &mut self.ends,
            &mut pending.rows,
            &mut pending.count,
        )
    }

    /// Writes an expression of a book at the end of the section, as a frame table has it, and answers how many bytes it takes.
    pub fn write_frame(
        &mut self,
        book: &Book<'_>,
        number: usize,
        encoding: Encoding,
    ) -> Result<usize, Error>
        ensures step { Steps W.Writer.means self.old (frame_call (tree_at (holds book.now) number) encoding) (counted result) self.new }
        ensures memory { KeepsMemory W.Writer.means W.Writer.memory self.old self.new }
    {
        let pending = &mut self.tables.pending;
        write_expression(
            &mut self.sink,
            book,
            number,
            Context::frame(encoding),
            &mut self.ends,
            &mut pending.rows,
            &mut pending.count,
        )
    }

    /// Writes the offset of its entry into the pending reference that begins at an offset.
    pub fn fill(&mut self, offset: usize) -> Result<(), Error>
        ensures step { Steps W.Writer.means self.old (fill_call offset) (plainly result) self.new }
        ensures memory { KeepsMemory W.Writer.means W.Writer.memory self.old self.new }
    {
        let size = self.sink.len();
        let index = self.tables.find(size, offset).ok_or(Error::NotPending)?;
        let fixup = self.tables.pending_rows()[index];
        let entry = self.tables.units.entry_offset(fixup.unit, fixup.entry);
        let target = entry.ok_or(Error::NotPlaced)?;
        write_udata_at(&mut self.sink, offset, target as u64, fixup.width)?;
        self.tables.close(index);
        Ok(())
    }

    /// The length of the section, once no reference is pending.
    pub fn finish(&self) -> Result<usize, Error>
        ensures { Steps W.Writer.means self.now finish_call (counted result) self.now }
    {
        if !self.tables.pending_rows().is_empty() {
            return Err(Error::StillPending);
        }
        Ok(self.sink.len())
    }

    /// The pending reference at an index, by rising offset.
    pub fn pending(&self, index: usize) -> Option<DebugInfoFixup>
        ensures { Steps W.Writer.means self.now (pending_call index) (row result) self.now }
    {
        self.tables.pending_rows().get(index).copied()
    }
}
