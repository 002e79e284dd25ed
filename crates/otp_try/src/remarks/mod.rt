//! What is told of a trial beside its orders: how its supervisors stand, in a line, at the prompt and as a picture; what stands
//! above a line of a script and behind it; and at the end of a run what it never came to, and the verdict.

mod awaited;
pub mod fate;
mod fit;
pub mod help;
pub mod lines;
pub mod prompt;
pub mod sketch;
pub mod state;
pub mod summary;
pub mod unused;
mod verdict;

pub use fate::{Fate, fate_of, write_awaits};
pub use sketch::{Sketch, moment_at};
pub use summary::{summary_of, write_trial_verdict};
