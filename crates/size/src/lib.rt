//! How many bytes an expression takes.

#![tactic(auto)]

ghost use Rattle.std.specs.Prelude.{◌≡◌, ◌<◌, ◌≤◌, IfOk};
ghost use Rattle.book_state.specs.Operations.{shape};
ghost use Rattle.book_state.specs.State.{expression_at, weight_by};
ghost use Rattle.book_state.specs.Whole.{Whole};
ghost use Rattle.book_tables.specs.View.{view};
ghost use Rattle.book_tree.specs.Store.{InBook, size_in, tree_in};
ghost use Rattle.rules.specs.Sizes.{size_tree};
ghost use Rattle.unit.specs.Offsets.{scope_of};

use book_tables::tables::Tables;
use book_tree::reading::operations;
use common::error::Error;
use leb128::{sleb128_size, uleb128_size};
use op::operation::Operation;
use unit::{Context, pointer_size};

/// The size of a sealed expression, nested ones included.
#[cycle(expression_size_operation_size)]
pub fn expression_size(
    tables: &Tables<'_>,
    number: usize,
    context: Context<'_>,
) -> Result<usize, Error>
    requires whole { Whole (view tables.now) }
    requires there { number < tables.now.sealed_count }
    ensures value { result ≡ size_tree context.entry.encoding (scope_of context.entry.unit_offsets) (tree_in (view tables.now) number) }
    ensures light { IfOk result (λ n. n ≤ (expression_at (view tables.now) number).weight) }
{
    let mut size = 0;
    for op in operations(tables, number) {
        size += operation_size(tables, *op, context)?;
    }
    Ok(size)
}

/// The size of an operation, with the expression that it nests.
#[cycle(expression_size_operation_size)]
pub fn operation_size(
    tables: &Tables<'_>,
    op: Operation,
    context: Context<'_>,
) -> Result<usize, Error>
    requires whole { Whole (view tables.now) }
    requires inside { InBook (view tables.now) (shape op) }
    ensures value { result ≡ size_in context.entry.encoding (scope_of context.entry.unit_offsets) (view tables.now) op }
    ensures light { IfOk result (λ n. n ≤ weight_by tables.now.expressions (shape op)) }
{
    match op {
        Operation::Raw(data) => Ok(usize::from(data.len)),
        Operation::Simple(_) | Operation::Deref { .. } => Ok(1),
        Operation::Address(_) => Ok(1 + usize::from(context.encoding.address_size)),
        Operation::UnsignedConstant(value) if value < 32 => Ok(1),
        Operation::UnsignedConstant(value)
        | Operation::PlusConstant(value)
        | Operation::Piece {
            size_in_bytes: value,
        } => Ok(1 + uleb128_size(value)),
        Operation::SignedConstant(value) | Operation::FrameOffset(value) => {
            Ok(1 + sleb128_size(value))
        }
        Operation::ConstantType(base, data) => {
            Ok(1 + uleb128_size(context.entry_offset(base)?) + 1 + usize::from(data.len))
        }
        Operation::RegisterOffset(register, offset) if register.0 < 32 => Ok(
            1 + sleb128_size(offset),
        ),
        Operation::RegisterOffset(register, offset) => {
            Ok(1 + uleb128_size(u64::from(register.0)) + sleb128_size(offset))
        }
        Operation::RegisterType(register, base) => {
            let base = context.entry_offset(base)?;
            Ok(1 + uleb128_size(u64::from(register.0)) + uleb128_size(base))
        }
        Operation::Pick(index) if index > 1 => Ok(2),
        Operation::Pick(_) => Ok(1),
        Operation::DerefSize { .. } => Ok(2),
        Operation::DerefType { base, .. } => Ok(2 + uleb128_size(context.entry_offset(base)?)),
        Operation::Skip(_) | Operation::Branch(_) => Ok(3),
        Operation::Call(_) | Operation::ParameterRef(_) => Ok(5),
        Operation::CallRef(_) | Operation::VariableValue(_) => {
            Ok(1 + usize::from(context.encoding.format.word_size()))
        }
        Operation::Convert(base) | Operation::Reinterpret(base) => {
            Ok(1 + uleb128_size(context.base_offset(base)?))
        }
        Operation::EntryValue(number) => {
            let length = expression_size(tables, number, context)?;
            Ok(1 + uleb128_size(length as u64) + length)
        }
        Operation::Register(register) if register.0 < 32 => Ok(1),
        Operation::Register(register) => Ok(1 + uleb128_size(u64::from(register.0))),
        Operation::ImplicitValue(data) => {
            Ok(1 + uleb128_size(u64::from(data.len)) + usize::from(data.len))
        }
        Operation::ImplicitPointer { byte_offset, .. } => Ok(
            1 + usize::from(pointer_size(context.encoding)) + sleb128_size(byte_offset),
        ),
        Operation::BitPiece {
            size_in_bits,
            bit_offset,
        } => Ok(1 + uleb128_size(size_in_bits) + uleb128_size(bit_offset)),
    }
}
