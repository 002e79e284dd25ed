//! A tree in a world whose processes do what a script says: the cores of its supervisors are played. Children start and stop by
//! themselves, unless a script says otherwise, and each order is told with its time and the path of its supervisor.
//!
//! `specs/Played` says what is told of a trial: all orders that the cores give, in their order, and nothing else.
#![tactic(auto)]

pub mod clock;
pub mod laws;
mod next;
mod planting;
pub mod processes;
mod seat;
pub mod steps;
pub mod story;
pub mod trial;

pub use crate::processes::{Hang, Init, PlannedStart, finding, world};
pub use crate::story::{Course, Started, Strain, starts, strain, telling, time};
pub use clock::Clock;
pub use planting::{Change, plant_seats};
pub use seat::TriedSupervisor;
pub use trial::{ActionEnd, Halt, Trial};
