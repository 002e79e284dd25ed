//! The texts of the supervisor's events and orders: what `sim` reads, and what it prints.
//!
//! `specs/` has both formats: `Effects` the printed line of each order, `Lines` the lines that are read.
//!
//! [`picture`] draws a tree: supervisors and children in start order, each on a line.
#![tactic(auto)]

mod digits;
pub mod effect;
mod fault;
pub mod laws;
pub mod line;
pub mod picture;
mod reply;
mod short;
pub mod timeline;
mod value;
mod verb;
mod word;

pub use effect::Printer;
pub use fault::{Letter, LineFault, line_fault, strange_letter};
pub use line::{
    LONGEST_LINE, Line, cut_verb, read_line, read_line_with, read_note_with, read_without_verb,
};
pub use value::{write_child_name, write_name, write_number, write_process, write_reason};
pub use verb::Verb;
pub use word::{read_name, read_number, read_reason};
