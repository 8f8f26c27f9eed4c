//! The book: drafts, tickets and sealed expressions, in tables that the caller lends.

#![tactic(auto)]

pub mod book;
pub mod builders;
pub mod calls;
pub mod closing;
pub mod draft;
pub mod ticket;
