//! Lines of a script: what goes wrong in a tree, and when.
//!
//! `docs/FORMATS.md` has the words. A line is read without memory; only the word that may have been meant takes some.
#![tactic(auto)]

pub mod fault;
mod near;
mod nearest;
mod read;
mod spaced;
pub mod step;
mod time;
mod words;

pub use fault::{ScriptFault, Word};
pub use near::meant;
pub use nearest::Nearest;
pub use read::read_step;
pub use step::{Action, Child, Expected, NextStart, Step, When};
pub use words::{is_text, next_word, strip_return};
