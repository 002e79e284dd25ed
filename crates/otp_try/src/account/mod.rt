//! A whole script, played on a tree and kept: of each line what was told of it and how the supervisors stood after it, and how
//! they stand in the end. What is written of it stands in other crates.
//!
//! `specs/Accounts` says what is kept: all that a run tells, line by line, and nothing else.

mod account;
mod playing;

pub use account::{Account, Played};
pub use playing::play_script;
