//! Fields of a section, written to any sink: sized and LEB128 numbers, addresses, offsets and initial lengths.

#![tactic(auto)]

pub mod append;
pub mod patch;
