//! What would my tree do? A script is played on the cores of a tree, and what comes of it is told: each order, or a picture,
//! and at the end how the supervisors stand and who gave up.
//!
//! `specs/Page` says what a person or a script gets to see: the orders of the cores, and remarks between.
#![tactic(auto)]

pub mod account;
mod asked;
mod closing;
mod early;
mod input;
mod line;
mod meant;
mod person;
pub mod play;
mod remark;
pub mod remarks;
pub mod settings;
mod taking;

pub use otp_script::{
    Action, Child, Expected, NextStart, ScriptFault, Step, When, Word, read_step,
};
pub use otp_trial::{ActionEnd, Clock, Halt, Started, Strain, Trial, TriedSupervisor, plant_seats};
pub use play::{TryEnd, Writer, try_tree};
pub use settings::{Playing, Shows};
