//! The types that every part of the writer shares.

#![tactic(auto)]

pub mod address;
pub mod bytes;
pub mod constants;
pub mod encoding;
pub mod endianity;
pub mod error;
pub mod fixup;
