//! What is wrong in a tree file: each fault with its line and its place, what was read, what is allowed, and the word that was meant.
//!
//! Nothing is decided twice: each part of a document is judged by `read_tree`, as a small document of its own.
//!
//! - `source` has where keys stand in the text; `parts.rt` and `judging.rt` judge what stands there, and `finding.rt` says it, with a
//!   remedy (`advice.rt`).
//! - `hints` has what is allowed at a key, and what was meant.
//! - `starts` has which children can't be run.
#![tactic(auto)]

mod advice;
mod document;
mod finding;
mod hints;
mod judging;
mod owner;
mod parts;
mod places;
mod shown;
pub mod source;
pub mod starts;

pub use document::{check, warning};
pub use finding::{Finding, Remark};
