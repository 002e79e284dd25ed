//! The core of a supervisor: what one event does, decided as the rules of `otp_rules` say.
//!
//! [`Core`] stores the history of its events; its state is what the rules give for that history. What an event changes
//! is in `otp_machine`, what is decided of rows in its `decisions`, what is kept in its `stores`.
#![tactic(auto)]

pub mod cut;
pub mod happening;
pub mod opening;
pub mod reply;
pub mod supervisor;

pub use cut::{CutFault, MAX_EVENTS_IN_ALL, MAX_KEPT_LINES};
pub use happening::EventFault;
pub use opening::OpenFault;
pub use otp_base::{Base, BaseFault, Counts, ResumeFault};
pub use otp_machine::stores::history::History;
pub use otp_machine::{Counter, Given, Numbers};
pub use otp_rules::laws;
pub use otp_spec::MAX_EVENTS;
pub use reply::ReplyAnswer;
pub use supervisor::{Core, Spare};
