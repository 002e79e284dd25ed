//! What waits in a hand, the thread's part of a tree that runs: processes that stand in no deque until something comes for them.
//!
//! - `waiting.rt`: workers and bridges that wait, and those that want a turn and stand aside. Both are parked (`parked.rt`); in each
//!   turn some of them are looked at, whether they were told something (`looks.rt`).
//! - `resting.rt`: supervisors that their last turn left nothing to do.
//! - `around.rt`: what the hand knows of its own deque and of others.

pub mod around;
pub mod looks;
pub mod parked;
pub mod resting;
pub mod waiting;

pub use around::{Around, Posted, is_due};
pub use resting::{Rested, Resting};
pub use waiting::Waiting;
