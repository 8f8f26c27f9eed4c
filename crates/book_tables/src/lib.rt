//! The tables of a book, and its calls on them.

#![tactic(auto)]

pub mod adding;
mod draft;
pub mod operation;
pub mod questions;
pub mod sealing;
pub mod tables;
