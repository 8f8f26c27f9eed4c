//! Theorems that join the layers.

#![tactic(auto)]

ghost use Rattle.theorems.specs.Examples.{WorkedExamples};
ghost use Rattle.theorems.specs.ReadBack.{ExpressionsReadBack};

/// Every readable expression that is accepted reads back from its bytes as its own operations, in every encoding.
pub fn expressions_read_back()
    ensures { ExpressionsReadBack }
{}

/// The worked examples hold: the bytes of expressions, and what a section holds before and after a reference is filled.
pub fn worked_examples()
    ensures { WorkedExamples }
{}
