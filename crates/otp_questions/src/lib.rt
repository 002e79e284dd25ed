//! Questions about the tree of a file: what it looks like, what each child's failure costs, how long its stop may take, which flags
//! would survive crashes, what differs from another tree, and what it does by a script or by a log. Answers are texts, and some
//! objects of JSON or pages of HTML too.
#![tactic(auto)]

pub mod comparing;
pub mod drawing;
pub mod limiting;
mod near;
pub mod paging;
pub mod playing;
pub mod replaying;
pub mod rooting;
pub mod stopping;
pub mod suggesting;
pub mod trying;

pub use comparing::compare_files;
pub use drawing::{draw_file, tell_tree};
pub use limiting::{Asking, end_of_halt, limit_file};
pub use paging::{page_of_limits, page_of_tree};
pub use playing::{page_of_run, tell_run};
pub use replaying::{Log, replay_file, tell_replay};
pub use rooting::root_file;
pub use stopping::stop_file;
pub use suggesting::suggest_file;
pub use trying::try_file;
