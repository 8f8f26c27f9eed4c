//! The reference that an operation sets down.

ghost use Rattle.std.specs.Prelude.{◌≡◌, ◌+◌, ◌^◌, ◌<◌};
ghost use Rattle.std.specs.Option.{option_to_list};
ghost use Rattle.operation.specs.Rows.{entry_row, row_of};

use common::encoding::Encoding;
use common::fixup::DebugInfoFixup;
use op::operation::{DebugInfoRef, Operation};
use unit::pointer_size;

/// The reference to an entry, if it is one, at an offset.
fn entry_row(offset: usize, width: u8, entry: DebugInfoRef) -> Option<DebugInfoFixup>
    ensures { option_to_list result ≡ entry_row offset width entry }
{
    match entry {
        DebugInfoRef::Symbol(_) => None,
        DebugInfoRef::Entry(unit, entry) => Some(DebugInfoFixup {
            offset,
            width,
            unit,
            entry,
        }),
    }
}

/// The reference that an operation sets down whose code stands at an offset: right behind the code.
pub fn reference_of(op: Operation, encoding: Encoding, offset: usize) -> Option<DebugInfoFixup>
    requires { offset + 1 < 2 ^ 64 }
    ensures { option_to_list result ≡ row_of encoding offset op }
{
    match op {
        Operation::CallRef(entry) | Operation::VariableValue(entry) => {
            entry_row(offset + 1, encoding.format.word_size(), entry)
        }
        Operation::ImplicitPointer { entry, .. } => {
            entry_row(offset + 1, pointer_size(encoding), entry)
        }
        _ => None,
    }
}
