//! With which flags would a supervisor survive crashes of a child? They come at an interval, or so many of them at any moments
//! within a time. The least intensity and the greatest period are found by halving: each is a run of a core (otp_costs, `limits`), and with
//! the next value the run ends the supervisor.
//!
//! So many within a time are survived whenever they come with what survives them all at once; beside it stands what is enough where
//! they are evenly spread.
//!
//! Of a whole tree it is asked which change of one intensity has the root survive so many at once: of each supervisor on the way from
//! the child to the root the least is found, each a run of the changed tree.
#![tactic(auto)]

mod advice;
mod asked;
mod course;
mod dial;
mod edge;
mod few;
mod found;
mod gap;
mod lever;
mod refused;
mod remedy;
mod root_told;
mod rooted;
mod subject;
mod time;
mod told;

pub use advice::{Advice, Suggestion, find_advice, find_suggestion};
pub use asked::{Amiss, Asked, read_burst, read_question};
pub use course::{Course, MOST_TIMES, Question};
pub use dial::Dial;
pub use edge::{Edge, find_edge};
pub use few::few_are_within;
pub use gap::{GapFault, LONGEST_GAP, read_gap};
pub use lever::{Lever, best_is_least, best_of};
pub use refused::{SuggestionAnswer, instead};
pub use remedy::{Remedy, find_remedy};
pub use root_told::write_root;
pub use rooted::{RootFinding, Rooted, find_root};
pub use subject::{Finding, Subject, find_subject};
pub use time::read_time;
pub use told::write_suggestion;
