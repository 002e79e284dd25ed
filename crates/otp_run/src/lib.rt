//! The run queue: each scheduler puts processes into a deque of its own, takes from it, and steals from the others.
//!
//! `RunQueue::open` makes the deques, and [`Scheduler`]s share them, one for each thread. No call waits.
#![tactic(auto)]

pub mod deque;
mod gathering;
pub mod naming;
pub mod queue;
pub mod rule;
pub mod scheduler;

pub use deque::{OwnDeque, Victim};
pub use gathering::{GatherFault, LiveTotal, gather, is_all};
pub use naming::RunNaming;
pub use queue::RunQueue;
pub use scheduler::{SHARE_LIMIT, Scheduler, Share};
