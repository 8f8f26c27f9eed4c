//! What a book holds, and what each call makes of it: types, definitions, and proofs that every call keeps a book whole.

#![tactic(auto)]

pub mod expression;
pub mod shape;
