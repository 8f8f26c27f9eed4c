//! Whether an expression whose sizes are taken can be encoded, and how many references it sets down.

#![tactic(auto)]

ghost use Rattle.std.specs.Prelude.{◌≡◌, ℕ, ◌+◌, ◌<◌, ◌≤◌, List, length, pos, IfOk, Ok};
ghost use Rattle.book_state.specs.Operations.{shape};
ghost use Rattle.book_state.specs.State.{data_by, expression_at, op_at, weight_by};
ghost use Rattle.book_state.specs.Whole.{Whole};
ghost use Rattle.book_tables.specs.View.{view};
ghost use Rattle.book_tree.specs.Store.{tree_in};
ghost use Rattle.checking.specs.Counts.{counted, encode_at};
ghost use Rattle.positions.specs.Ends.{Filled};
ghost use Rattle.rules.specs.Encode.{encode_op, encode_tree, starts};
ghost use Rattle.unit.specs.Offsets.{scope_of};

use book_tables::tables::Tables;
use book_tree::reading::operations;
use common::error::Error;
use head::operand::{address_in, placeholder};
use op::operation::Operation;
use positions::branch::displacement;
use unit::{Context, pointer_size};
use writer::fixed::in_width;

/// How many references a sealed expression sets down, nested ones included, or the first refusal of its operations.
#[cycle(check_expression_check_operation)]
pub fn check_expression(
    tables: &Tables<'_>,
    number: usize,
    context: Context<'_>,
    ends: &[usize],
) -> Result<usize, Error>
    requires whole { Whole (view tables.now) }
    requires there { number < tables.now.sealed_count }
    requires wide { 4096 ≤ length ends.now }
    requires filled { Filled context.encoding (scope_of context.unit_offsets) (view tables.now) ends.now number }
    ensures value { result ≡ counted (encode_tree context.entry.encoding (scope_of context.entry.unit_offsets) (starts context.entry.encoding (scope_of context.entry.unit_offsets) 0 (tree_in (view tables.now) number)) 0 (tree_in (view tables.now) number)) }
    ensures few { IfOk result (λ n. n ≤ (expression_at (view tables.now) number).weight) }
{
    let mut count = 0;
    for (index, op) in operations(tables, number).iter().enumerate() {
        count += check_operation(tables, number, index, *op, context, ends)?;
    }
    Ok(count)
}

/// How many references operation `index` of an expression sets down, with the expression that it nests, or its first refusal.
#[cycle(check_expression_check_operation)]
fn check_operation(
    tables: &Tables<'_>,
    number: usize,
    index: usize,
    op: Operation,
    context: Context<'_>,
    ends: &[usize],
) -> Result<usize, Error>
    requires whole { Whole (view tables.now) }
    requires there { number < tables.now.sealed_count }
    requires inside { index < (expression_at (view tables.now) number).count }
    requires here { op ≡ op_at (view tables.now) ((expression_at (view tables.now) number).start + index) }
    requires wide { 4096 ≤ length ends.now }
    requires filled { Filled context.encoding (scope_of context.unit_offsets) (view tables.now) ends.now number }
    ensures value { result ≡ counted (encode_at context.entry.encoding (scope_of context.entry.unit_offsets) (view tables.now) number index) }
    ensures few { IfOk result (λ n. n ≤ weight_by tables.now.expressions (shape op)) }
{
    match op {
        Operation::EntryValue(inner) => check_expression(tables, inner, context, ends),
        Operation::Skip(target) | Operation::Branch(target) => {
            displacement(tables, number, index, target, ends)?;
            Ok(0)
        }
        _ => check_plain(op, context),
    }
}

/// How many references an operation that nests nothing sets down, or its refusal. Displacements of branches are not looked at.
fn check_plain(op: Operation, context: Context<'_>) -> Result<usize, Error>
    ensures value { (bs : List ℕ) → length bs ≡ data_by (shape op) → result ≡ counted (encode_op context.entry.encoding (scope_of context.entry.unit_offsets) (λ _. Ok (pos 0)) op bs) }
    ensures few { IfOk result (λ n. n ≤ 1) }
{
    match op {
        Operation::Raw(_)
        | Operation::Simple(_)
        | Operation::UnsignedConstant(_)
        | Operation::SignedConstant(_)
        | Operation::FrameOffset(_)
        | Operation::RegisterOffset(_, _)
        | Operation::Pick(_)
        | Operation::Deref { .. }
        | Operation::DerefSize { .. }
        | Operation::PlusConstant(_)
        | Operation::Skip(_)
        | Operation::Branch(_)
        | Operation::Register(_)
        | Operation::ImplicitValue(_)
        | Operation::Piece { .. }
        | Operation::BitPiece { .. } => Ok(0),
        Operation::Address(address) => {
            address_in(address, context.encoding.address_size)?;
            Ok(0)
        }
        Operation::ConstantType(base, data) => {
            context.entry_offset(base)?;
            in_width(u64::from(data.len), 1)?;
            Ok(0)
        }
        Operation::RegisterType(_, base) | Operation::DerefType { base, .. } => {
            context.entry_offset(base)?;
            Ok(0)
        }
        Operation::Convert(base) | Operation::Reinterpret(base) => {
            context.base_offset(base)?;
            Ok(0)
        }
        Operation::Call(entry) | Operation::ParameterRef(entry) => {
            in_width(context.entry_offset(entry)?, 4)?;
            Ok(0)
        }
        Operation::CallRef(entry) | Operation::VariableValue(entry) => {
            placeholder(context, entry, context.encoding.format.word_size())?;
            Ok(1)
        }
        Operation::ImplicitPointer { entry, .. } => {
            placeholder(context, entry, pointer_size(context.encoding))?;
            Ok(1)
        }
        Operation::EntryValue(_) => Err(Error::NoExpression),
    }
}
