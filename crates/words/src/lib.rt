//! The text of a link script: lines, words, numbers and bytes.

#![tactic(auto)]

pub mod hex;
pub mod number;
pub mod text;
