//! The words of the program: its commands, as `clap` is told them, and what the words of a command line ask for.
//!
//! `specs/Commands` has the commands, and `specs/Asked` what is asked for, by what `clap`'s definition of a simple command
//! finds in the words.
#![tactic(auto)]

mod commands;
mod getters;
mod help;
mod questions;
mod runs;
mod slips;
mod topics;
mod trials;
mod words;

pub use slips::{Meant, Slip};
pub use words::{
    Checking, Command, Form, LogReading, Page, RunShows, Serving, TrialShows, Usage, WordsFault,
    read_words, words_of,
};
