//! What is told of the supervisors of a tree that is played: each order as a line, at its time and with the path of its supervisor;
//! for which child a process was started; how long a child was down; and how each supervisor bore up over the run.
//!
//! `specs/Story` says what is told of an event.

pub mod away;
pub mod starts;
pub mod strain;
pub mod telling;
pub mod time;

pub use away::{Away, Presence};
pub use starts::Started;
pub use strain::{Course, Strain};
