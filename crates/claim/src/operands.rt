//! The operands of the operations that a program holds.

ghost use Rattle.std.specs.List.{AllByRecursion};
ghost use Rattle.claim.specs.Fits.{FitsOperation};

use op::operation::Operation;

/// Every operation that a program holds has its operands in the range of their types.
pub fn operands_fit(operation: Operation)
    ensures { FitsOperation operation }
{}

/// And so has every operation of a table.
pub fn all_operands_fit(operations: &[Operation])
    ensures { AllByRecursion FitsOperation operations.now }
{
    for operation in operations {
        operands_fit(*operation);
    }
}
