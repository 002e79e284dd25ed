//! A tree of supervisors that runs until it has ended or is told to stop, on threads that sleep while there is nothing to do.
//!
//! ```text
//! let stop = Stop::new(rt.alloc())?;
//! let report = run(&rt, rt.alloc(), plans, 4, &stop, &Unwatched)?;
//! ```
//!
//! [`run`] returns once the root has ended: by itself (it gave up, or its last significant child ended), or because another thread
//! raised the [`StopFlag`]. Then the tree was shut down in order, as OTP's `supervisor` does at the end of an application, and closed;
//! the report is that of [`close_tree`](otp_tree::close_tree).
//!
//! [`run_for`] runs it for a time: then the stop is raised, and where the tree hasn't ended some time after that, the hands leave it
//! ([`Span`]). The report says what is left.
//!
//! A [`Watch`] is told what happens: which processes started, started again and ended, and why, and when. It is told by the thread in which it
//! happened, with no lock held.
//!
//! Any thread calls the supervisors of a tree that runs by a [`Caller`], as OTP's `supervisor:restart_child` and the others do: a
//! tree is run with some ([`run_with_callers`]). By it supervisors are added, where the tree has room for them ([`run_growing`]).
//!
//! # Sleep
//!
//! A hand that finds nothing to do sleeps ([`otp_job::wake::Bells`] says why no wake is lost). It wakes for a letter to a supervisor
//! that rests in it, for the next deadline of such a supervisor, for a signal to a process that waits in it, and for a wake of its
//! job. It wakes for the stop, too, and where another hand has more to do than it gets done. A tree in which nothing happens takes
//! no time of the processor, and a deadline fires without anybody polling. A bridge wants a turn again and again, so where one
//! runs one hand is awake.
#![tactic(auto)]

pub mod calling;
pub mod clock;
mod crew;
mod crowd;
pub mod growing;
mod live;
pub mod log;
pub mod mailbox;
mod seat;
mod served;
pub mod span;
pub mod watch;

pub use crate::calling::{
    AddError, Answer, CallError, Caller, DeleteRefusal, GetRefusal, NoRefusal, RestartRefusal,
    StartEnd, StartRefusal, TerminateRefusal,
};
pub use clock::Stopwatch;
pub use growing::{Growing, run_growing};
pub use live::{close_callers, run, run_for, run_with_callers};
pub use log::{LogLines, write_line, write_line_at};
pub use mailbox::Mailbox;
pub use otp_job::wake::{StopFlag, Waker};
pub use otp_tree::Happening;
pub use span::Span;
pub use watch::{Seen, Unwatched, Watch};
