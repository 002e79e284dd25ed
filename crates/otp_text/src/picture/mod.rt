//! A tree as text: supervisors and children in start order, each on a line.

mod picture;

pub use picture::{Caption, draw, draw_with, tree_at};
