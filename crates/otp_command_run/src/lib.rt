//! The program with trees that run: `run` runs one on threads, with worked jobs, and tells what came of it. All else that words ask
//! for `otp_commands` does.
#![tactic(auto)]

pub mod outcome;
pub mod program;
pub mod running;
pub mod serving;
mod standing;
mod watching;

pub use program::run_with;
pub use running::{Pool, RunAs, run_file};
pub use serving::{ServeAs, serve_file};
