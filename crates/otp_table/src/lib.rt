//! The rows of one supervisor: its children in start order.
#![tactic(auto)]

mod counts;
mod deadlines;
mod hints;
mod keys;
mod marks;
mod numbers;
pub mod row;
pub mod rows;
mod search;

pub use otp_spec::MAX_CHILDREN;
pub use row::{Row, RowState};
pub use rows::Rows;
pub use search::{free_slot, slot_of};
