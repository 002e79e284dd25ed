//! Why processes end, what they tell their supervisor, and the names and texts in both.
#![tactic(auto)]

pub mod delivery;
pub mod name;
pub mod note;
pub mod reason;
pub mod text;

pub use delivery::{Delivery, deliver};
pub use name::{NAME_SIZE, Name};
pub use note::{Note, Started};
pub use reason::Reason;
pub use text::{TEXT_SIZE, Text};
