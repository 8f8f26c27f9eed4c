//! Writing an expression into a sink.

#![tactic(auto)]

pub mod cursor;
pub mod data;
pub mod put;
pub mod step;
pub mod walk;
pub mod write;
