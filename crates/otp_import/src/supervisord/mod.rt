//! The file of supervisord: its programs as children of a tree file, and what each runs as a file of commands of `otp-procs`.

mod expand;
mod ini;
mod order;
mod process;
mod programs;

pub use ini::is_ini;
pub use programs::put_programs;
