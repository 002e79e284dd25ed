//! What is said of a tree, made of what is said of the trees below it: one walk for all texts that nest as the tree does.
//!
//! `specs/Nested` says what comes of a walk by what a writer says of one supervisor.

mod piece;
mod walk;

pub use piece::{NestedText, sub_at};
pub use walk::{TableWriter, piece_of};
