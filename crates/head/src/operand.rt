//! Operands that depend on the encoding, with their refusals.

ghost use Rattle.std.specs.Prelude.{◌≡◌, ◌≤◌, IfOk, OnOk};
ghost use Rattle.head.specs.Heads.{set_down};
ghost use Rattle.rules.specs.Operands.{address_in, by_version};
ghost use Rattle.unit.specs.Offsets.{scope_of};

use common::address::Address;
use common::encoding::Encoding;
use common::error::Error;
use op::operation::DebugInfoRef;
use unit::Context;
use writer::fixed::in_width;

/// A code of version 5 and above, or the code for the versions below.
pub fn by_version(encoding: Encoding, new: u8, old: u8) -> u8
    ensures { result ≡ by_version encoding new old }
{
    if encoding.version >= 5 { new } else { old }
}

/// The number of an address that a width holds.
pub fn address_in(address: Address, width: u8) -> Result<u64, Error>
    ensures value { result ≡ address_in width address }
    ensures narrow { OnOk result (width ≤ 8) }
{
    match address {
        Address::Constant(val) => in_width(val, width),
        Address::Symbol { .. } => Err(Error::InvalidAddress),
    }
}

/// The width of a reference that can be set down: none in a frame expression.
pub fn placeholder(context: Context<'_>, entry: DebugInfoRef, width: u8) -> Result<u8, Error>
    ensures value { result ≡ set_down (scope_of context.entry.unit_offsets) entry width }
    ensures narrow { IfOk result (λ n. n ≤ 8) }
{
    match (entry, context.unit_offsets) {
        (DebugInfoRef::Entry(_, _), Some(_)) => {
            in_width(0, width)?;
            Ok(width)
        }
        _ => Err(Error::InvalidReference),
    }
}
