//! The counts of a supervisor's children, which other threads read without its lock.
//!
//! A supervisor publishes what count_children would answer (supervisor, count_children/1) in one word, by one swap.
//! Whoever has a pass reads what was published last. No call waits: by its code a publishing and a reading is one atomic step
//! each, and the others make a fixed number of them.

mod counts;
mod steps;
pub mod view;
mod word;

pub use counts::{CountsPass, Publisher};
