//! Drafts.

/// The open draft of a book. Only a book's calls make one, and it acts on the book that is handed over.
#[derive(Drop)]
pub struct Draft(pub(crate) ());
