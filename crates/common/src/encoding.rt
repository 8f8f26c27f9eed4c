//! What a unit's encoding is made of.

ghost use Rattle.std.specs.Prelude.{◌≡◌};
ghost use Rattle.common.specs.Formats.{word_size, initial_length_size};

/// The 32-bit or the 64-bit DWARF format.
#[derive(Clone, Copy, PartialEq, Eq, Default)]
pub enum Format {
    /// 64-bit DWARF.
    Dwarf64,
    /// 32-bit DWARF.
    #[default]
    Dwarf32,
}

impl Format {
    /// How many bytes an initial length takes.
    pub fn initial_length_size(self) -> u8
        ensures { result ≡ initial_length_size self }
    {
        match self {
            Format::Dwarf32 => 4,
            Format::Dwarf64 => 12,
        }
    }

    /// How many bytes a section offset takes.
    pub fn word_size(self) -> u8
        ensures { result ≡ word_size self }
    {
        match self {
            Format::Dwarf32 => 4,
            Format::Dwarf64 => 8,
        }
    }
}

/// What the encoding of a unit or a frame expression depends on.
#[derive(Clone, Copy, Default)]
pub struct Encoding {
    /// How many bytes an address takes.
    pub address_size: u8,
    /// Whether the DWARF format is 32- or 64-bit.
    pub format: Format,
    /// The DWARF version of the unit.
    pub version: u16,
}

/// A DWARF register number.
#[derive(Clone, Copy)]
pub struct Register(pub u16);

/// The sections that an offset can be relative to.
#[derive(Clone, Copy)]
pub enum SectionId {
    DebugAbbrev,
    DebugAddr,
    DebugAranges,
    DebugCuIndex,
    DebugFrame,
    EhFrame,
    EhFrameHdr,
    DebugGnuPubNames,
    DebugGnuPubTypes,
    DebugInfo,
    DebugLine,
    DebugLineStr,
    DebugLoc,
    DebugLocLists,
    DebugMacinfo,
    DebugMacro,
    DebugNames,
    DebugPubNames,
    DebugPubTypes,
    DebugRanges,
    DebugRngLists,
    DebugStr,
    DebugStrOffsets,
    DebugTuIndex,
    DebugTypes,
}
