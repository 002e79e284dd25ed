//! How long may the stop of a tree take, and who takes how much of it? A supervisor stops its children one after another, in
//! reverse start order, and waits for each until the deadline that it sets it.
//!
//! No time is played here: each deadline is the one that the supervisor's rules (otp_rules) set a child that is told to stop at
//! that time, and each child is taken to need all of it.
#![tactic(auto)]

mod column;
mod stop;
mod stops;
mod told;

pub use stop::{ChildPath, Stop, Stops};
pub use stops::find_stops;
pub use told::{ended_after, write_longest_stop};
