//! Operations of a DWARF expression.

#![tactic(auto)]

pub mod operation;
