//! Drafts, and what is added to them.

ghost use Rattle.std.specs.Prelude.{◌≡◌, ◌+◌, ◌≤◌, true, [], length};
ghost use Rattle.std.specs.Option.{is_some};
ghost use Rattle.book_state.specs.Calls.{begun, raw_begun, added, branched, nested, target_set, overwritten};
ghost use Rattle.book_tables.specs.Put.{put};
ghost use Rattle.book_tables.specs.View.{view};

use crate::operation::{aimed_at, entries_fit, is_unset};
use crate::tables::{DraftStart, Tables};
use common::error::Error;
use op::operation::Operation;

/// Writes bytes over those of a table from a place on.
fn overwrite(table: &mut [u8], at: usize, bytes: &[u8])
    requires { at + length bytes.now ≤ length table.old }
    ensures { table.new ≡ overwritten table.old at bytes.now }
{
    table[at..at + bytes.len()].copy_from_slice(bytes);
}

impl<'a> Tables<'a> {
    /// Opens a draft.
    pub fn begin(&mut self) -> Result<(), Error>
        ensures { begun (view self.old) ≡ (result, view self.new) }
    {
        if self.draft.is_some() {
            return Err(Error::DraftState);
        }
        if self.sealed_count >= 1024 {
            return Err(Error::BookFull);
        }
        self.draft = Some(DraftStart {
            start: self.op_count,
            byte_start: self.byte_count,
        });
        Ok(())
    }

    /// Opens a draft that begins with the given bytes.
    pub fn raw(&mut self, bytes: &[u8]) -> Result<(), Error>
        ensures { raw_begun bytes.now (view self.old) ≡ (result, view self.new) }
    {
        if self.draft.is_none() && !self.fits(bytes.len()) {
            return Err(Error::BookFull);
        }
        self.begin()?;
        let data = self.place(bytes.len());
        self.put(Operation::Raw(data), bytes)
    }

    /// Adds an operation and its data to the open draft, where they fit.
    fn put(&mut self, op: Operation, bytes: &[u8]) -> Result<(), Error>
        requires { is_some self.old.draft ≡ true }
        ensures { put op bytes.now (view self.old) ≡ (result, view self.new) }
    {
        if !self.fits(bytes.len()) {
            return Err(Error::BookFull);
        }
        overwrite(self.bytes, self.byte_count, bytes);
        self.byte_count += bytes.len();
        if let Some(count) = list::push(self.operations, self.op_count, op) {
            self.op_count = count;
        }
        Ok(())
    }

    /// Adds an operation and its data.
    pub fn add(&mut self, op: Operation, bytes: &[u8]) -> Result<(), Error>
        ensures { added op bytes.now (view self.old) ≡ (result, view self.new) }
    {
        self.draft.ok_or(Error::DraftState)?;
        if !entries_fit(op) {
            return Err(Error::BadEntry);
        }
        self.put(op, bytes)
    }

    /// Adds a branch without a target, and answers its number in the draft.
    pub fn add_branch(&mut self, op: Operation) -> Result<usize, Error>
        ensures { branched op (view self.old) ≡ (result, view self.new) }
    {
        let draft = self.draft.ok_or(Error::DraftState)?;
        let branch = self.op_count - draft.start;
        self.put(op, &[])?;
        Ok(branch)
    }

    /// Adds an entry value of a sealed expression.
    pub fn add_nested(&mut self, number: usize) -> Result<(), Error>
        ensures { nested number (view self.old) ≡ (result, view self.new) }
    {
        self.draft.ok_or(Error::DraftState)?;
        let expression = self.expression(number).ok_or(Error::NoExpression)?;
        if expression.nested {
            return Err(Error::InUse);
        }
        if expression.depth >= 16 {
            return Err(Error::TooDeep);
        }
        self.put(Operation::EntryValue(number), &[])?;
        self.expressions[number].nested = true;
        Ok(())
    }

    /// Sets the target of a branch of the draft.
    pub fn set_target(&mut self, branch: usize, target: usize) -> Result<(), Error>
        ensures { target_set branch target (view self.old) ≡ (result, view self.new) }
    {
        let draft = self.draft.ok_or(Error::DraftState)?;
        let count = self.op_count - draft.start;
        if branch >= count {
            return Err(Error::BadTarget);
        }
        let at = draft.start + branch;
        let op = self.operations[at];
        if !is_unset(op) || target > count || target == branch {
            return Err(Error::BadTarget);
        }
        self.operations[at] = aimed_at(op, target);
        Ok(())
    }
}
