//! A section as its calls make it, and what holds of it after every list of calls.

#![tactic(auto)]

pub mod operands;

ghost use Rattle.claim.specs.Claim.{CallsCarry, Claim, Steady};
ghost use Rattle.claim.specs.Examples.{WorkedSections};
ghost use Rattle.claim.specs.Fits.{TreesFit};

/// After every list of calls from a new section on, it is told exactly what is pending, how the bytes read, and what they are.
pub fn claim_holds()
    ensures { Claim }
{}

/// No byte that is there changes in later calls outside the placeholders that they fill.
pub fn bytes_stay()
    ensures { Steady }
{}

/// Every call that answers and leaves what the rules say carries the claim on.
pub fn calls_carry()
    ensures { CallsCarry }
{}

/// The worked examples hold: what the calls answer and leave, and the order in which each refuses.
pub fn examples_hold()
    ensures { WorkedSections }
{}

/// Every expression that is made of a table's operations has their operands in range, nested ones too.
pub fn trees_fit()
    ensures { TreesFit }
{}
