//! The link script: its text, its commands and their order.

#![tactic(auto)]

pub mod command;
pub mod fault;
pub mod item;
mod operand;
pub mod reader;
pub mod stage;
pub mod verb;
