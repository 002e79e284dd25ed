//! What the program says of a tree, of its limits and of its stop, as JSON: one object on a line, a stated function of what is known.
#![tactic(auto)]

mod limits;
mod names;
mod rooted;
mod stops;
mod suggested;
mod table;
mod tree;
mod values;

pub use limits::write_limits_object;
pub use rooted::write_root_object;
pub use stops::write_stops_object;
pub use suggested::write_suggestion_object;
pub use tree::write_tree_object;
