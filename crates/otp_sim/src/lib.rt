//! `sim`: a supervisor that is driven by lines, and that prints its orders.
//!
//! `specs/Sim` says what is printed for which input, `specs/Runs` how much of it has been written however a run ends.
#![tactic(auto)]

pub mod device;
pub mod driven;
pub mod engine;
mod player;
mod reading;
mod serving;
pub mod streams;
mod whole;
mod writing;

pub use device::{Failed, Input, Output, PIECE};
pub use engine::{SimEnd, serve, sim};
pub use player::Player;
pub use streams::Counted;
pub use writing::write_all;
