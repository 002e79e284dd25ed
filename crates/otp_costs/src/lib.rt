//! What does each child's failure cost, in a whole tree? Children of a supervisor that are alike are taken together: the first
//! of them is played (`limits`), and a row stands for them all. The rows are told as a table, the worst first.
//!
//! Alike are children with the same restart type and type, both significant or both not, and as many processes below, unless their
//! supervisor is of rest_for_one. That the others of a row fare as the first isn't proved; [`Grain::Each`] plays each.
#![tactic(auto)]

mod alike;
mod below;
mod group;
pub mod limits;
mod pick;
mod progress;
mod rank;
mod rows;
mod table;
mod told;
mod words;

pub use alike::{Grain, Weighed, is_alike};
pub use group::{Group, find_groups};
pub use pick::{Pick, put_below};
pub use progress::{Progress, Unseen};
pub use rows::{Row, find_rows, find_rows_seen};
pub use table::{SHOWN, put_title, write_clipped, write_root, write_table};
pub use told::write_limits;
pub use words::{write_burst, write_interval, write_left, write_right};
