//! Builders: the operations that are added to a draft, in the order of DWARF 5, section 2.5.

ghost use Rattle.std.specs.Prelude.{◌≡◌, true, false, [], length, None};
ghost use Rattle.book.specs.Answers.{answered, ticketed};
ghost use Rattle.book.specs.Holds.{holds};
ghost use Rattle.book_state.specs.Calls.{added, branched, nested};
ghost use Rattle.book_state.specs.State.{place};

use crate::book::Book;
use crate::draft::Draft;
use crate::ticket::Ticket;
use common::address::Address;
use common::constants::DwOp;
use common::encoding::Register;
use common::error::Error;
use op::operation::{DebugInfoRef, Operation};

impl Draft {
    /// Adds an operation that has no operands.
    pub fn op(&self, book: &mut Book<'_>, opcode: DwOp) -> Result<(), Error>
        ensures { added (Operation.Simple opcode) [] (holds book.old) ≡ (result, holds book.new) }
    {
        book.add(Operation::Simple(opcode), &[])
    }

    /// Adds `DW_OP_addr`: the address of an object.
    pub fn op_addr(&self, book: &mut Book<'_>, address: Address) -> Result<(), Error>
        ensures { added (Operation.Address address) [] (holds book.old) ≡ (result, holds book.new) }
    {
        book.add(Operation::Address(address), &[])
    }

    /// Adds an unsigned constant, as `DW_OP_constu` or a literal.
    pub fn op_constu(&self, book: &mut Book<'_>, value: u64) -> Result<(), Error>
        ensures { added (Operation.UnsignedConstant value) [] (holds book.old) ≡ (result, holds book.new) }
    {
        book.add(Operation::UnsignedConstant(value), &[])
    }

    /// Adds `DW_OP_consts`: a signed constant.
    pub fn op_consts(&self, book: &mut Book<'_>, value: i64) -> Result<(), Error>
        ensures { added (Operation.SignedConstant value) [] (holds book.old) ≡ (result, holds book.new) }
    {
        book.add(Operation::SignedConstant(value), &[])
    }

    /// Adds `DW_OP_const_type`: a constant of a base type, which is an entry of the unit.
    pub fn op_const_type(&self, book: &mut Book<'_>, base: usize, value: &[u8]) -> Result<(), Error>
        ensures { added (Operation.ConstantType base (place (length value.now) (holds book.old))) value.now (holds book.old) ≡ (result, holds book.new) }
    {
        let data = book.place(value.len());
        book.add(Operation::ConstantType(base, data), value)
    }

    /// Adds `DW_OP_fbreg`: an offset from the frame base.
    pub fn op_fbreg(&self, book: &mut Book<'_>, offset: i64) -> Result<(), Error>
        ensures { added (Operation.FrameOffset offset) [] (holds book.old) ≡ (result, holds book.new) }
    {
        book.add(Operation::FrameOffset(offset), &[])
    }

    /// Adds an offset from a register's value, as `DW_OP_bregx` or the register's own code.
    pub fn op_breg(&self, book: &mut Book<'_>, register: Register, offset: i64) -> Result<(), Error>
        ensures { added (Operation.RegisterOffset register offset) [] (holds book.old) ≡ (result, holds book.new) }
    {
        book.add(Operation::RegisterOffset(register, offset), &[])
    }

    /// Adds `DW_OP_regval_type`: a register's value as a base type.
    pub fn op_regval_type(
        &self,
        book: &mut Book<'_>,
        register: Register,
        base: usize,
    ) -> Result<(), Error>
        ensures { added (Operation.RegisterType register base) [] (holds book.old) ≡ (result, holds book.new) }
    {
        book.add(Operation::RegisterType(register, base), &[])
    }

    /// Adds a copy of the stack's entry at an index, as `DW_OP_pick`, `DW_OP_dup` or `DW_OP_over`.
    pub fn op_pick(&self, book: &mut Book<'_>, index: u8) -> Result<(), Error>
        ensures { added (Operation.Pick index) [] (holds book.old) ≡ (result, holds book.new) }
    {
        book.add(Operation::Pick(index), &[])
    }

    /// Adds `DW_OP_deref`: the value behind an address.
    pub fn op_deref(&self, book: &mut Book<'_>) -> Result<(), Error>
        ensures { added (Operation.Deref false) [] (holds book.old) ≡ (result, holds book.new) }
    {
        book.add(Operation::Deref { space: false }, &[])
    }

    /// Adds `DW_OP_xderef`: the value behind an address in an address space.
    pub fn op_xderef(&self, book: &mut Book<'_>) -> Result<(), Error>
        ensures { added (Operation.Deref true) [] (holds book.old) ≡ (result, holds book.new) }
    {
        book.add(Operation::Deref { space: true }, &[])
    }

    /// Adds `DW_OP_deref_size`: the value behind an address, of a size in bytes.
    pub fn op_deref_size(&self, book: &mut Book<'_>, size: u8) -> Result<(), Error>
        ensures { added (Operation.DerefSize false size) [] (holds book.old) ≡ (result, holds book.new) }
    {
        book.add(Operation::DerefSize { space: false, size }, &[])
    }

    /// Adds `DW_OP_xderef_size`: the same in an address space.
    pub fn op_xderef_size(&self, book: &mut Book<'_>, size: u8) -> Result<(), Error>
        ensures { added (Operation.DerefSize true size) [] (holds book.old) ≡ (result, holds book.new) }
    {
        book.add(Operation::DerefSize { space: true, size }, &[])
    }

    /// Adds `DW_OP_deref_type`: the value behind an address, of a base type.
    pub fn op_deref_type(&self, book: &mut Book<'_>, size: u8, base: usize) -> Result<(), Error>
        ensures { added (Operation.DerefType false size base) [] (holds book.old) ≡ (result, holds book.new) }
    {
        book.add(
            Operation::DerefType {
                space: false,
                size,
                base,
            },
            &[],
        )
    }

    /// Adds `DW_OP_xderef_type`: the same in an address space.
    pub fn op_xderef_type(&self, book: &mut Book<'_>, size: u8, base: usize) -> Result<(), Error>
        ensures { added (Operation.DerefType true size base) [] (holds book.old) ≡ (result, holds book.new) }
    {
        book.add(
            Operation::DerefType {
                space: true,
                size,
                base,
            },
            &[],
        )
    }

    /// Adds `DW_OP_plus_uconst`: a constant added to the top of the stack.
    pub fn op_plus_uconst(&self, book: &mut Book<'_>, value: u64) -> Result<(), Error>
        ensures { added (Operation.PlusConstant value) [] (holds book.old) ≡ (result, holds book.new) }
    {
        book.add(Operation::PlusConstant(value), &[])
    }

    /// Adds `DW_OP_skip`: a branch, whose ticket is to be spent.
    pub fn op_skip(&self, book: &mut Book<'_>) -> Result<Ticket, Error>
        ensures { answered ticketed (branched (Operation.Skip None) (holds book.old)) ≡ (result, holds book.new) }
    {
        book.add_branch(Operation::Skip(None)).map(Ticket::of)
    }

    /// Adds `DW_OP_bra`: a branch taken where the top of the stack is not zero, whose ticket is to be spent.
    pub fn op_bra(&self, book: &mut Book<'_>) -> Result<Ticket, Error>
        ensures { answered ticketed (branched (Operation.Branch None) (holds book.old)) ≡ (result, holds book.new) }
    {
        book.add_branch(Operation::Branch(None)).map(Ticket::of)
    }

    /// Adds `DW_OP_call4`: a call of an entry of the unit.
    pub fn op_call(&self, book: &mut Book<'_>, entry: usize) -> Result<(), Error>
        ensures { added (Operation.Call entry) [] (holds book.old) ≡ (result, holds book.new) }
    {
        book.add(Operation::Call(entry), &[])
    }

    /// Adds `DW_OP_call_ref`: a call of an entry of any unit.
    pub fn op_call_ref(&self, book: &mut Book<'_>, entry: DebugInfoRef) -> Result<(), Error>
        ensures { added (Operation.CallRef entry) [] (holds book.old) ≡ (result, holds book.new) }
    {
        book.add(Operation::CallRef(entry), &[])
    }

    /// Adds `DW_OP_GNU_variable_value`: the value of an entry's variable.
    pub fn op_variable_value(&self, book: &mut Book<'_>, entry: DebugInfoRef) -> Result<(), Error>
        ensures { added (Operation.VariableValue entry) [] (holds book.old) ≡ (result, holds book.new) }
    {
        book.add(Operation::VariableValue(entry), &[])
    }

    /// Adds `DW_OP_convert`: a conversion to a base type, or to the generic type.
    pub fn op_convert(&self, book: &mut Book<'_>, base: Option<usize>) -> Result<(), Error>
        ensures { added (Operation.Convert base) [] (holds book.old) ≡ (result, holds book.new) }
    {
        book.add(Operation::Convert(base), &[])
    }

    /// Adds `DW_OP_reinterpret`: the same bits as a base type, or as the generic type.
    pub fn op_reinterpret(&self, book: &mut Book<'_>, base: Option<usize>) -> Result<(), Error>
        ensures { added (Operation.Reinterpret base) [] (holds book.old) ≡ (result, holds book.new) }
    {
        book.add(Operation::Reinterpret(base), &[])
    }

    /// Adds `DW_OP_entry_value`: the value of a sealed expression upon entry of the subprogram.
    pub fn op_entry_value(&self, book: &mut Book<'_>, expression: usize) -> Result<(), Error>
        ensures { nested expression (holds book.old) ≡ (result, holds book.new) }
    {
        book.add_nested(expression)
    }

    /// Adds a register as the location, as `DW_OP_regx` or the register's own code.
    pub fn op_reg(&self, book: &mut Book<'_>, register: Register) -> Result<(), Error>
        ensures { added (Operation.Register register) [] (holds book.old) ≡ (result, holds book.new) }
    {
        book.add(Operation::Register(register), &[])
    }

    /// Adds `DW_OP_implicit_value`: a value without a location.
    pub fn op_implicit_value(&self, book: &mut Book<'_>, value: &[u8]) -> Result<(), Error>
        ensures { added (Operation.ImplicitValue (place (length value.now) (holds book.old))) value.now (holds book.old) ≡ (result, holds book.new) }
    {
        let data = book.place(value.len());
        book.add(Operation::ImplicitValue(data), value)
    }

    /// Adds `DW_OP_implicit_pointer`: a pointer to an object without a location.
    pub fn op_implicit_pointer(
        &self,
        book: &mut Book<'_>,
        entry: DebugInfoRef,
        byte_offset: i64,
    ) -> Result<(), Error>
        ensures { added (Operation.ImplicitPointer entry byte_offset) [] (holds book.old) ≡ (result, holds book.new) }
    {
        book.add(Operation::ImplicitPointer { entry, byte_offset }, &[])
    }

    /// Adds `DW_OP_piece`: a piece of an object, by its size in bytes.
    pub fn op_piece(&self, book: &mut Book<'_>, size_in_bytes: u64) -> Result<(), Error>
        ensures { added (Operation.Piece size_in_bytes) [] (holds book.old) ≡ (result, holds book.new) }
    {
        book.add(Operation::Piece { size_in_bytes }, &[])
    }

    /// Adds `DW_OP_bit_piece`: a piece of an object, by its size and offset in bits.
    pub fn op_bit_piece(
        &self,
        book: &mut Book<'_>,
        size_in_bits: u64,
        bit_offset: u64,
    ) -> Result<(), Error>
        ensures { added (Operation.BitPiece size_in_bits bit_offset) [] (holds book.old) ≡ (result, holds book.new) }
    {
        book.add(
            Operation::BitPiece {
                size_in_bits,
                bit_offset,
            },
            &[],
        )
    }

    /// Adds `DW_OP_GNU_parameter_ref`: a parameter of the caller.
    pub fn op_gnu_parameter_ref(&self, book: &mut Book<'_>, entry: usize) -> Result<(), Error>
        ensures { added (Operation.ParameterRef entry) [] (holds book.old) ≡ (result, holds book.new) }
    {
        book.add(Operation::ParameterRef(entry), &[])
    }
}
