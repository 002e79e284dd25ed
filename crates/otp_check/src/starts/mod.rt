//! Which children of a tree file can't be run by the words of their starts, and what to write: what `run` would refuse, found
//! without a run.
//!
//! Whether there is such a child is decided by `runnable_tables` of `otp_file`, as for a run.

mod finding;
mod search;

pub use finding::StartFinding;
pub use search::find_unfit;
