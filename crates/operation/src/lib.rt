//! One operation as bytes, and the reference that it sets down.

#![tactic(auto)]

pub mod encode;
pub mod reference;
