//! What is made of a text of another program: why it says no tree and where, names that a tree file takes, and the files that are
//! written with remarks on what has no counterpart.
#![tactic(auto)]

mod fault;
mod line;
mod names;
mod number;
mod quoted;
mod range;
mod work;

pub use fault::{ImportFault, Why};
pub use line::Spot;
pub use names::{Id, set_apart};
pub use number::number_in;
pub use quoted::{write_text, write_words};
pub use range::{Range, byte_of, is_blank, line_at, place_of, trimmed};
pub use work::{ImportWork, write_byte, write_number, write_place};
