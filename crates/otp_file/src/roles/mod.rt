//! What the words of a tree file's starts stand for, whether a tree can be run by them, and how a run is asked for: what is known
//! of a run without running it.
//!
//! No thread is needed for it. What each word does, and what runs such trees, is in `otp_jobs`. `docs/FORMATS.md` has the words.

pub mod fault;
pub mod flat;
pub mod role;
pub mod settings;
pub mod work;

pub use fault::{PlanFault, runnable_tables};
pub use flat::{FlatTable, is_nested};
pub use role::{Role, role_at};
pub use settings::Settings;
pub use work::JobWork;
