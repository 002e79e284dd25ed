//! Drives a whole tree of supervisors whose processes live outside: what happened goes in, orders come out.
//!
//! [`Driver`] does by itself what one supervisor of the tree orders of another, so that the outside sees only processes
//! that are its own.
//!
//! [`driven`] is one supervisor of such a tree, and its link, which says whose child it is.
#![tactic(auto)]

pub mod changing;
pub mod driven;
pub mod driver;
pub mod laws;
pub mod order;
pub mod planting;
pub mod route;
pub mod session;

pub use crate::driven::{ChangeRefusal, DriveFault, KEPT_EVENTS, Link, Supervisor};
pub use changing::Unchanged;
pub use driver::Driver;
pub use order::{Order, Task, What};
pub use route::{Route, ending_in};
pub use session::Session;
