//! What differs in two trees: in the flags and children of supervisors with one path, and in what the failure of each child costs.
#![tactic(auto)]

mod change;
mod cost;
mod differ;
mod seat;

pub use change::Form;
pub use differ::write_trees_difference;
