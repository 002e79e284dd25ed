//! Bridges: subsystems that are no processes of their own, as children of a supervisor (`supervisor_bridge`).
//!
//! [`Subsystem`] is what a user writes. A [`Bridge`] calls it: exactly which calls it gets is in the contracts of
//! [`Bridge::start`] and [`Bridge::turn`].

mod boxed;
pub mod bridge;
pub mod subsystem;

pub use bridge::{Bridge, BridgePhase};
pub use subsystem::{BoxedSubsystem, Subsystem};
