//! What other programs say of a tree of supervisors, as a tree file: a term of Erlang or Elixir, the file of supervisord, or units of
//! systemd.
//!
//! Each is read in a folder of its own: `term`, `supervisord`, `units`. Of a term `supervisor.rt` makes the tree, with `flags.rt`,
//! `child.rt` and `values.rt`; the other two make theirs themselves, of the settings that `settings.rt` collects.
//!
//! Bytes come in; a tree file and remarks on what has no counterpart come out. No device is touched. A tree file that is handed
//! out was read back by `read_tree`.
#![tactic(auto)]

mod child;
mod flags;
mod importing;
mod like;
mod settings;
mod supervisor;
mod supervisord;
mod term;
mod units;
mod values;

pub use importing::{Import, import_text, write_fault};
pub use otp_foreign::ImportFault;
