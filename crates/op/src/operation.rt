//! The operations of an expression, as a book keeps them.

use common::address::Address;
use common::constants::DwOp;
use common::encoding::Register;

/// A reference to an entry of `.debug_info`.
#[derive(Clone, Copy)]
pub enum DebugInfoRef {
    /// A symbol, by its number.
    Symbol(usize),
    /// A unit and an entry of it, by their numbers.
    Entry(usize, usize),
}

/// A place in the data that a book keeps.
#[derive(Clone, Copy)]
pub struct Data {
    /// The place of the first byte.
    pub start: u16,
    /// The number of bytes.
    pub len: u16,
}

/// One operation. Entries are numbers of the unit's entries.
#[derive(Clone, Copy)]
pub enum Operation {
    /// Bytes that stand for themselves.
    Raw(Data),
    /// An operation without operands.
    Simple(DwOp),
    /// The address of an object.
    Address(Address),
    /// An unsigned constant.
    UnsignedConstant(u64),
    /// A signed constant.
    SignedConstant(i64),
    /// A constant of a base type: the base type's entry, and the value.
    ConstantType(usize, Data),
    /// An offset from the frame base.
    FrameOffset(i64),
    /// An offset from a register's value.
    RegisterOffset(Register, i64),
    /// A register's value as a base type.
    RegisterType(Register, usize),
    /// A copy of the stack's entry at an index.
    Pick(u8),
    /// The value behind an address.
    Deref {
        /// Whether an address space is taken from the stack.
        space: bool,
    },
    /// The value behind an address, of a size in bytes.
    DerefSize {
        /// Whether an address space is taken from the stack.
        space: bool,
        /// The value's size in bytes.
        size: u8,
    },
    /// The value behind an address, of a base type.
    DerefType {
        /// Whether an address space is taken from the stack.
        space: bool,
        /// The value's size in bytes.
        size: u8,
        /// The base type's entry.
        base: usize,
    },
    /// A constant added to the top of the stack.
    PlusConstant(u64),
    /// A branch to an operation, or to the end where the number is the operation count.
    Skip(Option<usize>),
    /// The same, taken where the top of the stack is not zero.
    Branch(Option<usize>),
    /// A call of an entry of the same unit.
    Call(usize),
    /// A call of an entry of any unit.
    CallRef(DebugInfoRef),
    /// The value of an entry's variable.
    VariableValue(DebugInfoRef),
    /// A conversion to a base type, or to the generic type.
    Convert(Option<usize>),
    /// A reinterpretation as a base type, or as the generic type.
    Reinterpret(Option<usize>),
    /// The value of an expression upon entry of the subprogram: the expression's number.
    EntryValue(usize),
    /// A register as the location.
    Register(Register),
    /// A value without a location.
    ImplicitValue(Data),
    /// A pointer to an object without a location.
    ImplicitPointer {
        /// The object's entry.
        entry: DebugInfoRef,
        /// The offset from the object's start, in bytes.
        byte_offset: i64,
    },
    /// A piece of an object.
    Piece {
        /// The piece's size in bytes.
        size_in_bytes: u64,
    },
    /// A piece of an object that begins or ends within a byte.
    BitPiece {
        /// The piece's size in bits.
        size_in_bits: u64,
        /// Where it begins, in bits.
        bit_offset: u64,
    },
    /// A parameter of the caller.
    ParameterRef(usize),
}
