//! What an expression is in bytes: definitions and their theorems.
//!
//! Each function here has a theorem as its contract, and does nothing when it runs.

#![tactic(auto)]

ghost use Rattle.rules.specs.Claims.{BranchesLead, ReferencesWide, RefusalsListed, SizesHold};
ghost use Rattle.rules.specs.Examples.{Worked};

/// The size of an accepted expression is the number of its bytes.
pub fn sizes_hold()
    ensures { SizesHold }
{}

/// A sealed expression is refused for the first six reasons alone.
pub fn refusals_listed()
    ensures { RefusalsListed }
{}

/// Every reference of an accepted expression has a byte at least.
pub fn references_wide()
    ensures { ReferencesWide }
{}

/// Every branch of an accepted expression leads to the operation that it names, or to its expression's end.
pub fn branches_lead()
    ensures { BranchesLead }
{}

/// The worked examples hold.
pub fn examples_hold()
    ensures { Worked }
{}
