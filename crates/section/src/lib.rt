//! A section over any sink: units, entries, appended bytes, pending references.

#![tactic(auto)]

pub mod calls;
pub mod run;
pub mod section;
