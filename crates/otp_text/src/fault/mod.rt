//! Why a line has no form that is read.

mod letter;
mod line;
mod text;

pub use letter::{Letter, strange_letter};
pub use line::line_fault;
pub use text::LineFault;
