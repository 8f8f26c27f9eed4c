//! The bytes of an operation, in the order of DWARF 5, sections 2.5 and 2.6.

ghost use Rattle.std.specs.Prelude.{◌≡◌, [], ◌∷◌, Ok};
ghost use Rattle.dwarf.specs.Leb.{uleb};
ghost use Rattle.head.specs.Heads.{bytes_in, held};
ghost use Rattle.operation.specs.Fronts.{front};
ghost use Rattle.rules.specs.Encode.{encode_op};
ghost use Rattle.rules.specs.Operands.{by_version};
ghost use Rattle.rules.specs.Results.{and_then};
ghost use Rattle.unit.specs.Offsets.{scope_of};

use common::constants::*;
use common::encoding::Encoding;
use common::endianity::Endianity;
use common::error::Error;
use head::head::Head;
use head::operand::{address_in, by_version, placeholder};
use op::operation::Operation;
use unit::{Context, pointer_size};
use writer::fixed::in_width;

/// The code and operands of an operation up to its data. `displacement` is a branch's.
pub fn encode_operation<E: Endianity>(
    op: Operation,
    data: &[u8],
    context: Context<'_>,
    endian: E,
    displacement: i16,
) -> Result<Head, Error>
    ensures { bytes_in result ≡ and_then (encode_op context.entry.encoding (scope_of context.entry.unit_offsets) (λ _. Ok displacement) op «data».now) (λ a. Ok (front (E.Endianity.big endian) [] a)) }
{
    let encoding = context.encoding;
    let head = Head::new();
    let offset = u64::from(displacement.cast_unsigned());
    match op {
        Operation::Raw(_) => Ok(head),
        Operation::Simple(opcode) => Ok(head.byte(opcode.0)),
        Operation::Address(address) => {
            let val = address_in(address, encoding.address_size)?;
            Ok(
                head.byte(DW_OP_ADDR.0)
                    .fixed(endian, val, encoding.address_size),
            )
        }
        Operation::UnsignedConstant(value) if value < 32 => {
            Ok(head.byte(DW_OP_LIT0.0 + value as u8))
        }
        Operation::UnsignedConstant(value) => Ok(head.byte(DW_OP_CONSTU.0).uleb128(value)),
        Operation::SignedConstant(value) => Ok(head.byte(DW_OP_CONSTS.0).sleb128(value)),
        Operation::ConstantType(base, _) => {
            let base = context.entry_offset(base)?;
            let len = in_width(data.len() as u64, 1)?;
            let code = by_version(encoding, DW_OP_CONST_TYPE.0, DW_OP_GNU_CONST_TYPE.0);
            Ok(head.byte(code).uleb128(base).byte(len as u8))
        }
        Operation::FrameOffset(offset) => Ok(head.byte(DW_OP_FBREG.0).sleb128(offset)),
        Operation::RegisterOffset(register, offset) if register.0 < 32 => {
            Ok(head.byte(DW_OP_BREG0.0 + register.0 as u8).sleb128(offset))
        }
        Operation::RegisterOffset(register, offset) => {
            Ok(
                head.byte(DW_OP_BREGX.0)
                    .uleb128(u64::from(register.0))
                    .sleb128(offset),
            )
        }
        Operation::RegisterType(register, base) => {
            let base = context.entry_offset(base)?;
            let code = by_version(encoding, DW_OP_REGVAL_TYPE.0, DW_OP_GNU_REGVAL_TYPE.0);
            Ok(head.byte(code).uleb128(u64::from(register.0)).uleb128(base))
        }
        Operation::Pick(0) => Ok(head.byte(DW_OP_DUP.0)),
        Operation::Pick(1) => Ok(head.byte(DW_OP_OVER.0)),
        Operation::Pick(index) => Ok(head.byte(DW_OP_PICK.0).byte(index)),
        Operation::Deref { space: true } => Ok(head.byte(DW_OP_XDEREF.0)),
        Operation::Deref { space: false } => Ok(head.byte(DW_OP_DEREF.0)),
        Operation::DerefSize { space: true, size } => {
            Ok(head.byte(DW_OP_XDEREF_SIZE.0).byte(size))
        }
        Operation::DerefSize { space: false, size } => {
            Ok(head.byte(DW_OP_DEREF_SIZE.0).byte(size))
        }
        Operation::DerefType { space, size, base } => {
            let base = context.entry_offset(base)?;
            let code = if space {
                DW_OP_XDEREF_TYPE.0
            } else {
                by_version(encoding, DW_OP_DEREF_TYPE.0, DW_OP_GNU_DEREF_TYPE.0)
            };
            Ok(head.byte(code).byte(size).uleb128(base))
        }
        Operation::PlusConstant(value) => Ok(head.byte(DW_OP_PLUS_UCONST.0).uleb128(value)),
        Operation::Skip(_) => Ok(head.byte(DW_OP_SKIP.0).fixed(endian, offset, 2)),
        Operation::Branch(_) => Ok(head.byte(DW_OP_BRA.0).fixed(endian, offset, 2)),
        Operation::Call(entry) => {
            let val = in_width(context.entry_offset(entry)?, 4)?;
            Ok(head.byte(DW_OP_CALL4.0).fixed(endian, val, 4))
        }
        Operation::CallRef(entry) => {
            let width = placeholder(context, entry, encoding.format.word_size())?;
            Ok(head.byte(DW_OP_CALL_REF.0).fixed(endian, 0, width))
        }
        Operation::VariableValue(entry) => {
            let width = placeholder(context, entry, encoding.format.word_size())?;
            Ok(
                head.byte(DW_OP_GNU_VARIABLE_VALUE.0)
                    .fixed(endian, 0, width),
            )
        }
        Operation::Convert(base) => {
            let base = context.base_offset(base)?;
            let code = by_version(encoding, DW_OP_CONVERT.0, DW_OP_GNU_CONVERT.0);
            Ok(head.byte(code).uleb128(base))
        }
        Operation::Reinterpret(base) => {
            let base = context.base_offset(base)?;
            let code = by_version(encoding, DW_OP_REINTERPRET.0, DW_OP_GNU_REINTERPRET.0);
            Ok(head.byte(code).uleb128(base))
        }
        Operation::EntryValue(_) => Err(Error::NoExpression),
        Operation::Register(register) if register.0 < 32 => {
            Ok(head.byte(DW_OP_REG0.0 + register.0 as u8))
        }
        Operation::Register(register) => Ok(head.byte(DW_OP_REGX.0).uleb128(u64::from(register.0))),
        Operation::ImplicitValue(_) => {
            Ok(head.byte(DW_OP_IMPLICIT_VALUE.0).uleb128(data.len() as u64))
        }
        Operation::ImplicitPointer { entry, byte_offset } => {
            let width = placeholder(context, entry, pointer_size(encoding))?;
            let code = by_version(
                encoding,
                DW_OP_IMPLICIT_POINTER.0,
                DW_OP_GNU_IMPLICIT_POINTER.0,
            );
            Ok(head.byte(code).fixed(endian, 0, width).sleb128(byte_offset))
        }
        Operation::Piece { size_in_bytes } => Ok(head.byte(DW_OP_PIECE.0).uleb128(size_in_bytes)),
        Operation::BitPiece {
            size_in_bits,
            bit_offset,
        } => Ok(
            head.byte(DW_OP_BIT_PIECE.0)
                .uleb128(size_in_bits)
                .uleb128(bit_offset),
        ),
        Operation::ParameterRef(entry) => {
            let val = in_width(context.entry_offset(entry)?, 4)?;
            Ok(head.byte(DW_OP_GNU_PARAMETER_REF.0).fixed(endian, val, 4))
        }
    }
}

/// The code and the length of an entry value whose expression takes so many bytes.
pub fn encode_nested(encoding: Encoding, length: u64) -> Head
    ensures { held result ≡ by_version encoding 0xa3 0xf3 ∷ uleb length }
{
    let code = by_version(encoding, DW_OP_ENTRY_VALUE.0, DW_OP_GNU_ENTRY_VALUE.0);
    Head::new().byte(code).uleb128(length)
}
