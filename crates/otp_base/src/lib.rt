//! A supervisor's checkpoint as plain data: all that decides what it does next, and what is counted of the time before.
//! Whoever writes it out and reads it back can go on from there: `Core::checkpoint` and `Core::resume` of `otp_core`.
//! No process is in it: the rows tell which processes there were.
//!
//! [`change`] gives a checkpoint other flags and other specifications.
#![tactic(auto)]

pub mod base;
pub mod change;
mod copies;
pub mod fault;
mod lawful;
pub mod origin;
pub mod parts;

pub use base::{Base, Counts};
pub use fault::{BaseFault, ResumeFault};
pub use origin::{BaseState, origin_of};
pub use parts::{base_at, machine_at};
