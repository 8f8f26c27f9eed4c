//! Sealing and discarding.

ghost use Rattle.std.specs.Prelude.{◌≡◌, Some};
ghost use Rattle.book_state.specs.Calls.{new_expression, sealed, discarded};
ghost use Rattle.book_state.specs.State.{draft};
ghost use Rattle.book_state.specs.Whole.{Counted};
ghost use Rattle.book_tables.specs.View.{view};

use crate::draft::{any_unset, depth_of, free, weight_of};
use crate::tables::{DraftStart, Tables};
use book_state::expression::Expression;
use common::error::Error;
use op::operation::Operation;

impl<'a> Tables<'a> {
    /// The draft's operations.
    fn drafted(&self) -> &[Operation]
        ensures { result.now ≡ draft (view self.now) }
    {
        match self.draft {
            Some(draft) => &self.operations[draft.start..self.op_count],
            None => &[],
        }
    }

    /// The draft as an expression.
    fn new_expression(&self, draft: DraftStart) -> Expression
        requires open { self.now.draft ≡ Some draft }
        requires counted { Counted (view self.now) }
        ensures { result ≡ new_expression (view self.now) }
    {
        let operations = self.drafted();
        Expression {
            start: draft.start,
            count: operations.len(),
            depth: depth_of(&self.expressions, operations),
            weight: weight_of(&self.expressions, operations),
            nested: false,
        }
    }

    /// Makes an expression of the draft, and answers its number.
    pub fn seal(&mut self) -> Result<usize, Error>
        requires { Counted (view self.old) }
        ensures { sealed (view self.old) ≡ (result, view self.new) }
    {
        let draft = self.draft.ok_or(Error::DraftState)?;
        if any_unset(self.drafted()) {
            return Err(Error::BranchOpen);
        }
        let number = self.sealed_count;
        let expression = self.new_expression(draft);
        if let Some(count) = list::push(&mut self.expressions, number, expression) {
            self.sealed_count = count;
        }
        self.draft = None;
        Ok(number)
    }

    /// Frees the draft's operations, data and nested expressions.
    pub fn discard(&mut self) -> Result<(), Error>
        ensures { discarded (view self.old) ≡ (result, view self.new) }
    {
        let draft = self.draft.ok_or(Error::DraftState)?;
        for place in draft.start..self.op_count {
            let op = self.operations[place];
            free(&mut self.expressions, op);
        }
        self.op_count = draft.start;
        self.byte_count = draft.byte_start;
        self.draft = None;
        Ok(())
    }
}
