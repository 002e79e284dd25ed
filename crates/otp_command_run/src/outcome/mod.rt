//! What came of a run of a tree, in words and as an object of JSON on a line: why each supervisor ended, and what a run that isn't
//! finished awaits.

mod awaited;
mod life;
mod object;
mod words;

pub use awaited::{Limit, write_awaited};
pub use life::{supervisor_name, write_lives};
pub use object::write_run_object;
