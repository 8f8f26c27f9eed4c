//! The expressions of a book, to be read, and as trees: definitions and proofs.

#![tactic(auto)]

pub mod reading;
