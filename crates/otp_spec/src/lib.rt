//! The flags of a supervisor, the specifications of its children, and the checks of both.
#![tactic(auto)]

pub mod check;
pub mod child;
pub mod fault;
pub mod flags;
pub mod limits;
mod marks;
pub mod supervisor;
mod word;

pub use check::check_childspecs;
pub use child::{ChildSpec, ChildType, Modules, Restart, Shutdown};
pub use fault::{SpecFault, SpecKey};
pub use flags::{AutoShutdown, Strategy, SupFlags, check_flags};
pub use limits::{
    DEFAULT_INTENSITY, DEFAULT_PERIOD, DEFAULT_SHUTDOWN, MAX_CHILDREN, MAX_EVENTS, MAX_INTENSITY,
    MAX_PERIOD, MAX_READING, MAX_SHUTDOWN, MAX_TABLES,
};
pub use supervisor::{SupSpec, check_supervisor, copy_specs};
