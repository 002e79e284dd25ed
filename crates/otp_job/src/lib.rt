//! Jobs, and the processes that run them a turn at a time.
//!
//! A user writes a [`Job`] and hands it in as the [`Body`] of a child; a runtime makes a [`Process`] of it at each start
//! and calls [`one_turn`] until that answers [`After::Done`]. `Process<BoxedJob, BoxedSubsystem>` runs any job; the
//! types are generic so that a test may name its own. `crates/otp_uses/src/countdown.rt` has a job of ten lines to
//! copy, with its process stepped by hand.
//!
//! [`bridge`] has subsystems that are no processes of their own stand as children of a supervisor.
//! [`wake`] is how the threads of a tree sleep and are woken, and how a tree is asked to stop.
#![tactic(auto)]

pub mod body;
mod boxed;
pub mod bridge;
pub mod job;
pub mod place;
pub mod process;
pub mod turn;
pub mod wake;

pub use body::{Body, TableNo};
pub use job::{BoxedJob, Job, Told, Turn};
pub use place::{NoWaker, Place, Site};
pub use process::{Process, ProcessPhase, Spent, Ticket};
pub use turn::{After, EndNote, one_turn, one_turn_at};
