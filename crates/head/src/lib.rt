//! The code and operands of an operation before its data.

#![tactic(auto)]

pub mod head;
pub mod operand;
