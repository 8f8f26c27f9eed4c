//! The trait of sinks, and numbers of a fixed width written to one.

#![tactic(auto)]

pub mod fixed;
pub mod writer;
