//! The calls of a book.

ghost use Rattle.std.specs.Prelude.{◌≡◌, true, []};
ghost use Rattle.std.specs.Option.{option_map};
ghost use Rattle.book.specs.Answers.{answered, opening};
ghost use Rattle.book.specs.Holds.{holds};
ghost use Rattle.book_state.specs.Calls.{begun, raw_begun, added, branched, nested, target_set, sealed, discarded, next_index, as_raw};
ghost use Rattle.book_state.specs.Operations.{shape, entries_fit};
ghost use Rattle.book_state.specs.State.{fresh, place as place_of};
ghost use Rattle.book_state.specs.Whole.{Bare};
ghost use Rattle.book_tables.specs.View.{view};

use crate::book::Book;
use crate::draft::Draft;
use book_state::expression::Expression;
use book_tables::tables::Tables;
use common::error::Error;
use op::operation::{Data, Operation};

impl<'a> Book<'a> {
    /// A book over two tables, of which at most 4,096 operations and 65,535 bytes are used.
    pub fn new(operations: &'a mut [Operation], bytes: &'a mut [u8]) -> Book<'a>
        ensures { holds result ≡ fresh operations.old bytes.old }
    {
        let tables = Tables {
            operations,
            bytes,
            expressions: [Expression::default(); 1024],
            op_count: 0,
            byte_count: 0,
            sealed_count: 0,
            draft: None,
        };
        Book { tables }
    }

    /// The book's tables, to be read.
    pub fn tables(&self) -> &Tables<'a>
        ensures { view result.now ≡ holds self.now }
    {
        &self.tables
    }

    /// The tables, when the book is not needed any more.
    pub fn into_tables(self) -> Tables<'a>
        ensures { view result ≡ holds self.entry }
    {
        let Book { tables } = self;
        tables
    }

    /// Opens the book's draft.
    pub fn begin(&mut self) -> Result<Draft, Error>
        ensures { answered opening (begun (holds self.old)) ≡ (result, holds self.new) }
    {
        self.tables.begin()?;
        Ok(Draft(()))
    }

    /// Opens the book's draft with the given bytes as its first operation.
    pub fn raw(&mut self, bytes: &[u8]) -> Result<Draft, Error>
        ensures { answered opening (raw_begun bytes.now (holds self.old)) ≡ (result, holds self.new) }
    {
        self.tables.raw(bytes)?;
        Ok(Draft(()))
    }

    /// The bytes of an expression that is one raw operation.
    pub fn as_raw(&self, number: usize) -> Option<&[u8]>
        ensures { option_map (λ x. x.now) result ≡ as_raw number (holds self.now) }
    {
        self.tables.as_raw(number)
    }

    /// The operation count of the open draft.
    pub fn next_index(&self) -> usize
        ensures { result ≡ next_index (holds self.now) }
    {
        self.tables.next_index()
    }

    /// Where the next data come to lie.
    pub(crate) fn place(&self, len: usize) -> Data
        ensures { result ≡ place_of len (holds self.now) }
    {
        self.tables.place(len)
    }

    /// Adds an operation and its data to the draft.
    pub(crate) fn add(&mut self, op: Operation, bytes: &[u8]) -> Result<(), Error>
        requires { Bare bytes.now (holds self.old) (shape op) }
        ensures { added op bytes.now (holds self.old) ≡ (result, holds self.new) }
    {
        self.tables.add(op, bytes)
    }

    /// Adds a branch without a target to the draft.
    pub(crate) fn add_branch(&mut self, op: Operation) -> Result<usize, Error>
        requires bare { Bare [] (holds self.old) (shape op) }
        requires named { entries_fit op ≡ true }
        ensures { branched op (holds self.old) ≡ (result, holds self.new) }
    {
        self.tables.add_branch(op)
    }

    /// Adds an entry value to the draft.
    pub(crate) fn add_nested(&mut self, number: usize) -> Result<(), Error>
        ensures { nested number (holds self.old) ≡ (result, holds self.new) }
    {
        self.tables.add_nested(number)
    }

    /// Sets the target of a branch of the draft.
    pub(crate) fn aim(&mut self, branch: usize, target: usize) -> Result<(), Error>
        ensures { target_set branch target (holds self.old) ≡ (result, holds self.new) }
    {
        self.tables.set_target(branch, target)
    }

    /// Makes an expression of the draft.
    pub(crate) fn close(&mut self) -> Result<usize, Error>
        ensures { sealed (holds self.old) ≡ (result, holds self.new) }
    {
        self.tables.seal()
    }

    /// Frees what the draft holds.
    pub(crate) fn withdraw(&mut self) -> Result<(), Error>
        ensures { discarded (holds self.old) ≡ (result, holds self.new) }
    {
        self.tables.discard()
    }
}
