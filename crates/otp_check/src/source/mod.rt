//! Where the keys of a TOML document stand in its text: what `toml` doesn't tell of a document that it has read.
//!
//! The text is read once more, by the readers that `toml` has itself, so that both see the same keys.

mod nodes;
mod scan;

pub use nodes::Part;
pub use scan::{Source, line_behind};
