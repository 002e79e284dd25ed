//! The rules of OTP's supervisor as definitions, the types that they speak of, and the laws that follow from them.
//!
//! `specs/` has the rules: `Step` says what one event does to a supervisor's state and which orders it gives.
//! No code decides anything here; the crate `otp_core` is proved to do what `Step` says.
#![tactic(auto)]

pub mod call;
pub mod ending;
pub mod event;
pub mod laws;
pub mod lives;
pub mod work;

pub use call::{Answered, Call, CallFault, ChildLine, ChildLines, ChildProcess, CountsNow, Reply};
pub use ending::{Cause, Ending, Stamps, SupEnd};
pub use event::{Effect, Event, Item, Kind, Waiting};
pub use work::{Due, Phase, Sequel};
