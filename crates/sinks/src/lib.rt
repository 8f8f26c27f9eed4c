//! The sinks over lent tables.

#![tactic(auto)]

pub mod buffer;
pub mod sink;
pub mod table;
pub mod words;
