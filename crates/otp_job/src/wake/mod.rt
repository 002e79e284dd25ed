//! How the threads of a tree sleep and are woken, how a job that waits is woken from outside, and how a tree is asked to stop.
//!
//! - [`Bells`]: a bell for each of up to 8 threads. A thread announces that it will sleep, looks once more whether it has something
//!   to do, and sleeps; so no ring is lost.
//! - [`StopFlag`]: a flag that any thread may raise, and that wakes all that sleep.
//! - [`WakeWords`] and [`Waker`]: a word for each process, by which any thread wakes the job that waits in it.
//!
//! No call but a sleep waits, and none but an opening takes memory.

pub mod bells;
pub mod post;
pub mod stop;

pub use bells::{Announced, Bells, MAX_SLEEPERS};
pub use post::{WakeWords, Waker};
pub use stop::StopFlag;
