//! Questions to a book's tables.

ghost use Rattle.std.specs.Prelude.{◌≡◌, ◌<◌, length, IfSome};
ghost use Rattle.std.specs.Option.{option_map};
ghost use Rattle.book_state.specs.Calls.{next_index, as_raw};
ghost use Rattle.book_state.specs.State.{sealed_at, expression_at, fits, place as place_of};
ghost use Rattle.book_state.specs.Whole.{Whole};
ghost use Rattle.book_tables.specs.View.{view};

use crate::operation::raw_place;
use crate::tables::Tables;
use book_state::expression::Expression;
use op::operation::Data;

impl<'a> Tables<'a> {
    /// The operation count of the open draft.
    pub fn next_index(&self) -> usize
        ensures { result ≡ next_index (view self.now) }
    {
        match self.draft {
            Some(draft) => self.op_count - draft.start,
            None => 0,
        }
    }

    /// A sealed expression.
    pub fn expression(&self, number: usize) -> Option<Expression>
        ensures value { result ≡ sealed_at number (view self.now) }
        ensures there { IfSome result (λ e. (number < self.now.sealed_count) × (number < length self.now.expressions) × (e ≡ expression_at (view self.now) number)) }
    {
        list::read(&self.expressions, self.sealed_count, number)
    }

    /// Whether one more operation with `len` bytes of data fits.
    pub fn fits(&self, len: usize) -> bool
        ensures { result ≡ fits len (view self.now) }
    {
        let operations = self.operations.len().min(4096);
        let bytes = self.bytes.len().min(65535);
        self.op_count < operations && len <= bytes - self.byte_count
    }

    /// Where the next data come to lie.
    pub fn place(&self, len: usize) -> Data
        ensures { result ≡ place_of len (view self.now) }
    {
        Data {
            start: self.byte_count as u16,
            len: len.min(65535) as u16,
        }
    }

    /// The bytes of an expression that is one raw operation.
    pub fn as_raw(&self, number: usize) -> Option<&[u8]>
        requires { Whole (view self.now) }
        ensures { option_map (λ x. x.now) result ≡ as_raw number (view self.now) }
    {
        let expression = self.expression(number)?;
        if expression.count != 1 {
            return None;
        }
        let data = raw_place(self.operations[expression.start])?;
        let start = usize::from(data.start);
        Some(&self.bytes[start..start + usize::from(data.len)])
    }
}
