//! What the book's rules ask of an operation.

ghost use Rattle.std.specs.Prelude.{◌≡◌};
ghost use Rattle.book_state.specs.Operations.{shape as shape_of, entry_fits, base_fits, ref_fits, entries_fit, aimed_at, unset, raw_place};

use book_state::shape::Shape;
use op::operation::{Data, DebugInfoRef, Operation};

/// What the operation refers to inside its book.
pub fn shape(op: Operation) -> Shape
    ensures { result ≡ shape_of op }
{
    match op {
        Operation::Raw(data) | Operation::ConstantType(_, data) | Operation::ImplicitValue(data) =>
            Shape::Holding(data),
        Operation::Skip(target) | Operation::Branch(target) => Shape::Branching(target),
        Operation::EntryValue(number) => Shape::Nesting(number),
        _ => Shape::Plain,
    }
}

/// Whether the operation is a branch without a target.
pub fn is_unset(op: Operation) -> bool
    ensures { result ≡ unset (shape_of op) }
{
    matches!(shape(op), Shape::Branching(None))
}

/// The branch with its target; any other operation as it is.
pub fn aimed_at(op: Operation, target: usize) -> Operation
    ensures { result ≡ aimed_at target op }
{
    match op {
        Operation::Skip(_) => Operation::Skip(Some(target)),
        Operation::Branch(_) => Operation::Branch(Some(target)),
        _ => op,
    }
}

/// Where the bytes of a raw operation lie.
pub fn raw_place(op: Operation) -> Option<Data>
    ensures { result ≡ raw_place op }
{
    match op {
        Operation::Raw(data) => Some(data),
        _ => None,
    }
}

/// Whether each unit and entry that the operation names can exist.
pub fn entries_fit(op: Operation) -> bool
    ensures { result ≡ entries_fit op }
{
    match op {
        Operation::ConstantType(entry, _)
        | Operation::RegisterType(_, entry)
        | Operation::DerefType { base: entry, .. }
        | Operation::Call(entry)
        | Operation::ParameterRef(entry) => entry_fits(entry),
        Operation::CallRef(entry)
        | Operation::VariableValue(entry)
        | Operation::ImplicitPointer { entry, .. } => ref_fits(entry),
        Operation::Convert(base) | Operation::Reinterpret(base) => base_fits(base),
        _ => true,
    }
}

fn entry_fits(entry: usize) -> bool
    ensures { result ≡ entry_fits entry }
{
    entry < 128
}

fn base_fits(base: Option<usize>) -> bool
    ensures { result ≡ base_fits base }
{
    base.is_none_or(entry_fits)
}

fn ref_fits(entry: DebugInfoRef) -> bool
    ensures { result ≡ ref_fits entry }
{
    match entry {
        DebugInfoRef::Symbol(_) => true,
        DebugInfoRef::Entry(unit, entry) => unit < 8 && entry_fits(entry),
    }
}
