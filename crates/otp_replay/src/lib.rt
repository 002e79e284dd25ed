//! What would a tree have done, had happened to it what a log tells? The lines of the log that say what happened are a script, each at
//! the time of its timestamp, and the script is tried (otp_try).
//!
//! `specs/Logs` says the script of each log, a line for each of its lines, and `specs/Told` what is written.
#![tactic(auto)]

mod entry;
mod event;
mod near;
mod played;
mod reading;
mod stamp;
mod words;

pub use entry::LONGEST_ENTRY;
pub use near::Miss;
pub use played::{ReplayEnd, Replaying, replay};
pub use reading::{LogCounts, LogFault, MOST_NEAR, NearLine, Reading, read_log};
pub use stamp::{MOST_SECONDS, Stamp};
