//! The world that a script is played in: what processes do when they are started, asked to shut down or killed, how supervisors
//! hear of one another, and which child a script means.
//!
//! `specs/World` says what comes of each order.

pub mod finding;
pub mod inits;
pub mod late;
pub mod links;
pub mod plans;
pub mod world;

pub use finding::Found;
pub use inits::Init;
pub use plans::{Hang, PlannedStart};
pub use world::{Deed, What, World};
