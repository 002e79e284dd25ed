//! What the program says of a tree, as pages of HTML: the tree itself, and what the failure of each child costs. Each page is one
//! file, and a stated function of what is known.
//!
//! [`html`] escapes what comes from outside, and gives each page its head, its style and its end.
#![tactic(auto)]

mod child;
mod fates;
pub mod html;
mod limits;
mod map;
mod names;
mod row;
mod supervisor;
mod tree;

pub use limits::write_limits_page;
pub use supervisor::put_limit;
pub use tree::write_tree_page;
