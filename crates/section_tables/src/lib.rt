//! What a section keeps besides its sink: its units and its pending references.

#![tactic(auto)]

pub mod rows;
pub mod tables;
pub mod units;
