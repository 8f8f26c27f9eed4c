//! The DWARF format: definitions of its numbers and encoded operations, and the theorems that hold of them.
//!
//! The definitions stand in `specs/`. Each function here has a theorem as its contract, and does nothing when it runs.

#![tactic(auto)]

ghost use Rattle.dwarf.specs.Examples.{ExamplesRead};
ghost use Rattle.dwarf.specs.Fixed.{FixedReadsBack};
ghost use Rattle.dwarf.specs.Reading.{StepsSuffice};
ghost use Rattle.dwarf.specs.References.{SizesHold, ReferencesStand, Patches};
ghost use Rattle.dwarf.specs.WellFormed.{TokensReadBack, ReadWellFormed};

/// Every number reads back from a fixed width that holds it, in either byte order and whatever follows.
pub fn fixed_reads_back()
    ensures { FixedReadsBack }
{}

/// Encoded operations take as many bytes as their size says.
pub fn sizes_hold()
    ensures { SizesHold }
{}

/// The bytes at a reference's place are those of its number, and zeros where it has none yet.
pub fn references_stand()
    ensures { ReferencesStand }
{}

/// A number written over a reference gives the same operations with that number in its place.
pub fn patches_hold()
    ensures { Patches }
{}

/// Well-formed operations read back from their bytes, at any nesting.
pub fn tokens_read_back()
    ensures { TokensReadBack }
{}

/// All that is read from bytes is well formed, and takes no more bytes when it is written.
pub fn read_well_formed()
    ensures { ReadWellFormed }
{}

/// A reading is never missing for want of steps.
pub fn steps_suffice()
    ensures { StepsSuffice }
{}

/// The examples of location descriptions and of each operation with operands read as DWARF says.
pub fn examples_read()
    ensures { ExamplesRead }
{}
