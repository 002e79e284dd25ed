//! What does each child's failure cost? A supervisor's core is played while one child crashes again and again: so many
//! crashes at once it survives, and crashes that are so far apart. Of a tree of supervisors the whole is played too: so many
//! crashes at once the root survives.
//!
//! Nothing is reckoned: each number stands for runs of the cores, which `specs/` says event by event.

mod clock;
mod cost;
mod fall;
mod fate;
mod known;
mod list;
mod path;
mod player;
mod stage;
mod steady;

pub use clock::first_phase_is_worst;
pub use cost::{Cost, MOST_CRASHES, find_cost};
pub use fall::{Fall, MOST_FALLS, bear, supervisor_path};
pub use fate::{Fate, play};
pub use list::Listed;
pub(crate) use list::copy_names;
pub use path::Path;
pub use player::TreePlayer;
pub use steady::{Steady, Verdict, find_steady, judge};
