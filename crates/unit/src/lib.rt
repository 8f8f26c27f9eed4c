//! Where the entries of a unit stand in the section.

#![tactic(auto)]

ghost use Rattle.std.specs.Prelude.{◌≡◌};
ghost use Rattle.rules.specs.Scope.{base_of, base_or_generic};
ghost use Rattle.rules.specs.Sizes.{pointer_size};
ghost use Rattle.unit.specs.Offsets.{of_frame, of_unit, offset_from, place_of, scope_of, unplaced};

use common::encoding::Encoding;
use common::error::Error;

/// The section offsets of a unit and of its entries.
#[derive(Clone, Copy)]
pub struct UnitOffsets {
    /// The unit's encoding.
    pub encoding: Encoding,
    /// Where the unit starts.
    pub start: usize,
    /// Where each entry stands that is placed.
    pub entries: [Option<usize>; 128],
}

impl UnitOffsets {
    /// A unit that starts at an offset, with no entry placed.
    pub fn new(encoding: Encoding, start: usize) -> UnitOffsets
        ensures { result ≡ unplaced encoding start }
    {
        UnitOffsets {
            encoding,
            start,
            entries: [None; 128],
        }
    }

    /// The offset of an entry from the start of its unit, or nothing where it is not placed.
    pub fn unit_offset(&self, entry: usize) -> Option<u64>
        ensures { result ≡ offset_from self.now.start (place_of self.now entry) }
    {
        let offset = (*self.entries.get(entry)?)?;
        Some(offset.saturating_sub(self.start) as u64)
    }
}

/// What an expression is written for: a unit's encoding and the offsets of its entries, or a frame table's encoding alone.
#[derive(Clone, Copy)]
pub struct Context<'u> {
    /// The encoding.
    pub encoding: Encoding,
    /// Where the entries stand; nothing in a frame table.
    pub unit_offsets: Option<&'u UnitOffsets>,
}

impl<'u> Context<'u> {
    /// A unit's.
    pub fn unit(offsets: &'u UnitOffsets) -> Context<'u>
        ensures { result ≡ of_unit offsets.entry }
    {
        Context {
            encoding: offsets.encoding,
            unit_offsets: Some(offsets),
        }
    }

    /// A frame table's.
    pub fn frame(encoding: Encoding) -> Context<'u>
        ensures { result ≡ of_frame encoding }
    {
        Context {
            encoding,
            unit_offsets: None,
        }
    }

    /// The offset of an entry from the start of the unit that an expression is written in.
    pub fn entry_offset(self, entry: usize) -> Result<u64, Error>
        ensures { result ≡ base_of (scope_of self.entry.unit_offsets) entry }
    {
        match self.unit_offsets {
            Some(offsets) => offsets
                .unit_offset(entry)
                .ok_or(Error::UnsupportedExpressionForwardReference),
            None => Err(Error::UnsupportedCfiExpressionReference),
        }
    }

    /// The offset that stands for a base type: 0 for the generic type.
    pub fn base_offset(self, base: Option<usize>) -> Result<u64, Error>
        ensures { result ≡ base_or_generic (scope_of self.entry.unit_offsets) base }
    {
        match base {
            Some(entry) => self.entry_offset(entry),
            None => Ok(0),
        }
    }
}

/// The width of an implicit pointer's reference, which version 2 has as wide as an address.
pub fn pointer_size(encoding: Encoding) -> u8
    ensures { result ≡ pointer_size encoding }
{
    if encoding.version == 2 {
        encoding.address_size
    } else {
        encoding.format.word_size()
    }
}
