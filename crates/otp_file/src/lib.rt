//! The tree file: a TOML document that says which flags a supervisor has and which children.
//!
//! [`roles`] say what the words of a tree file's starts stand for, and whether a tree can be run by them.
//! [`nested`] is one walk through a tree for all texts that nest as it does.
#![tactic(auto)]

mod child;
pub mod fault;
mod flags;
pub mod limits;
pub mod nested;
pub mod roles;
mod supervisor;
mod table;
pub mod tree;
pub mod value;

pub use fault::{ChildKey, FaultPlace, FlagKey, TableFault, TreeFault};
pub use limits::MAX_DEPTH;
pub use tree::{TreeSpec, read_located, read_tree};
