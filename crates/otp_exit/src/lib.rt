//! How the program ends: its exit status, what it tells of it on standard error, the files that it reads, of which each may
//! end it, and the pages that it writes.
#![tactic(auto)]

pub mod ending;
pub mod files;
pub mod host;
mod like;

pub use ending::{ProgramEnd, Unwritten, explain, tell, write_numbered};
pub use files::{
    LARGEST_FILE, LARGEST_TREE, TreeFiles, Unread, ask_page, read_any_file, read_large, read_log,
    read_run_file, read_script, read_small, read_tree_file, take_script, write_page, write_three,
};
