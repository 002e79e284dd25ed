//! Whether a checkpoint from elsewhere is in order: its rows, its open work and its process numbers belong together as they do
//! between any two events of a supervisor. A core goes on from one that isn't, too (`Core::resume` tests what its own
//! contracts need); but the laws of a process's life (`otp_rules::lives`) speak of states that are in order alone.

pub mod order;
mod rows;

pub use order::{OrderFault, check_order};
