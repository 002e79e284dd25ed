//! The system that the program is run on: its files and its standard output. The threads are `main`'s.

mod host;

pub use host::{Noting, System};
