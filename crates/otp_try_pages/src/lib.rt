//! What came of a script, or of a log, that was played on a tree (`account` of otp_try): as an object of JSON, and as a page of HTML with a row
//! for each line.
//! Both are stated functions of what was kept.
#![tactic(auto)]

mod cells;
mod columns;
mod names;
mod object;
mod order;
mod page;
mod replayed;
mod scale;
mod supervisors;
mod tracks;
mod windows;
mod words;

pub use object::write_try_object;
pub use page::write_timeline_page;
pub use replayed::write_replay_object;
