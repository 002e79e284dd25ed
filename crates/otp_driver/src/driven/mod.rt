//! One supervisor that a driver drives, and where it hangs in its tree.
//!
//! [`Supervisor`] has its core, and how many of its orders were taken; a [`Link`] says whose child it is.

pub mod fault;
pub mod limits;
pub mod link;
pub mod supervisor;

pub use fault::{ChangeRefusal, DriveFault};
pub use limits::KEPT_EVENTS;
pub use link::Link;
pub use supervisor::Supervisor;
