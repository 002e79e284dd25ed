//! JSON: as it is written piece by piece, so that it takes no memory, and as members that are appended to a text.
#![tactic(auto)]

mod text;
mod value;

pub use text::{write_json_line, write_json_text};
pub use value::{put_json_text, put_key, put_number, put_optional, put_text};
