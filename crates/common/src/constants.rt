//! Opcodes of DWARF 5, section 7.7.1, and GNU's.

/// The code of an operation.
#[derive(Clone, Copy)]
pub struct DwOp(pub u8);

/// The address of an object.
pub const DW_OP_ADDR: DwOp = DwOp(0x03);
/// Dereference.
pub const DW_OP_DEREF: DwOp = DwOp(0x06);
/// An unsigned LEB128 constant.
pub const DW_OP_CONSTU: DwOp = DwOp(0x10);
/// A signed LEB128 constant.
pub const DW_OP_CONSTS: DwOp = DwOp(0x11);
/// Duplicate the top of the stack.
pub const DW_OP_DUP: DwOp = DwOp(0x12);
/// Copy the second entry of the stack.
pub const DW_OP_OVER: DwOp = DwOp(0x14);
/// Copy the entry at an index.
pub const DW_OP_PICK: DwOp = DwOp(0x15);
/// Dereference in an address space.
pub const DW_OP_XDEREF: DwOp = DwOp(0x18);
/// Add an unsigned LEB128 constant.
pub const DW_OP_PLUS_UCONST: DwOp = DwOp(0x23);
/// Branch if the top of the stack is not zero.
pub const DW_OP_BRA: DwOp = DwOp(0x28);
/// Branch.
pub const DW_OP_SKIP: DwOp = DwOp(0x2f);
/// The constant 0, the first of 32 literals.
pub const DW_OP_LIT0: DwOp = DwOp(0x30);
/// Register 0, the first of 32.
pub const DW_OP_REG0: DwOp = DwOp(0x50);
/// Register 0 and an offset, the first of 32.
pub const DW_OP_BREG0: DwOp = DwOp(0x70);
/// A register by its number.
pub const DW_OP_REGX: DwOp = DwOp(0x90);
/// The frame base and an offset.
pub const DW_OP_FBREG: DwOp = DwOp(0x91);
/// A register by its number, and an offset.
pub const DW_OP_BREGX: DwOp = DwOp(0x92);
/// A piece of an object, in bytes.
pub const DW_OP_PIECE: DwOp = DwOp(0x93);
/// Dereference at a size.
pub const DW_OP_DEREF_SIZE: DwOp = DwOp(0x94);
/// Dereference at a size, in an address space.
pub const DW_OP_XDEREF_SIZE: DwOp = DwOp(0x95);
/// Nothing.
pub const DW_OP_NOP: DwOp = DwOp(0x96);
/// The address of the object that is evaluated.
pub const DW_OP_PUSH_OBJECT_ADDRESS: DwOp = DwOp(0x97);
/// Call an entry of the unit.
pub const DW_OP_CALL4: DwOp = DwOp(0x99);
/// Call an entry of any unit.
pub const DW_OP_CALL_REF: DwOp = DwOp(0x9a);
/// An address in thread-local storage.
pub const DW_OP_FORM_TLS_ADDRESS: DwOp = DwOp(0x9b);
/// The canonical frame address.
pub const DW_OP_CALL_FRAME_CFA: DwOp = DwOp(0x9c);
/// A piece of an object, in bits.
pub const DW_OP_BIT_PIECE: DwOp = DwOp(0x9d);
/// A value without a location.
pub const DW_OP_IMPLICIT_VALUE: DwOp = DwOp(0x9e);
/// The value is on the stack.
pub const DW_OP_STACK_VALUE: DwOp = DwOp(0x9f);
/// A pointer to an object without a location.
pub const DW_OP_IMPLICIT_POINTER: DwOp = DwOp(0xa0);
/// A value upon entry of the subprogram.
pub const DW_OP_ENTRY_VALUE: DwOp = DwOp(0xa3);
/// A constant of a base type.
pub const DW_OP_CONST_TYPE: DwOp = DwOp(0xa4);
/// A register's value as a base type.
pub const DW_OP_REGVAL_TYPE: DwOp = DwOp(0xa5);
/// Dereference as a base type.
pub const DW_OP_DEREF_TYPE: DwOp = DwOp(0xa6);
/// Dereference as a base type, in an address space.
pub const DW_OP_XDEREF_TYPE: DwOp = DwOp(0xa7);
/// Convert to a base type.
pub const DW_OP_CONVERT: DwOp = DwOp(0xa8);
/// Reinterpret as a base type.
pub const DW_OP_REINTERPRET: DwOp = DwOp(0xa9);
/// The GNU code of `DW_OP_IMPLICIT_POINTER`.
pub const DW_OP_GNU_IMPLICIT_POINTER: DwOp = DwOp(0xf2);
/// The GNU code of `DW_OP_ENTRY_VALUE`.
pub const DW_OP_GNU_ENTRY_VALUE: DwOp = DwOp(0xf3);
/// The GNU code of `DW_OP_CONST_TYPE`.
pub const DW_OP_GNU_CONST_TYPE: DwOp = DwOp(0xf4);
/// The GNU code of `DW_OP_REGVAL_TYPE`.
pub const DW_OP_GNU_REGVAL_TYPE: DwOp = DwOp(0xf5);
/// The GNU code of `DW_OP_DEREF_TYPE`.
pub const DW_OP_GNU_DEREF_TYPE: DwOp = DwOp(0xf6);
/// The GNU code of `DW_OP_CONVERT`.
pub const DW_OP_GNU_CONVERT: DwOp = DwOp(0xf7);
/// The GNU code of `DW_OP_REINTERPRET`.
pub const DW_OP_GNU_REINTERPRET: DwOp = DwOp(0xf9);
/// A parameter of the caller.
pub const DW_OP_GNU_PARAMETER_REF: DwOp = DwOp(0xfa);
/// The value of an entry's variable.
pub const DW_OP_GNU_VARIABLE_VALUE: DwOp = DwOp(0xfd);
