//! What is left of a tree that was taken apart: of each supervisor its core with its history, what it was told of the ends of
//! others and what it hadn't taken from its inbox, and how many processes began and ended ([`Report`]).
//!
//! - `report.rt`: the report, and what is read off a supervisor's history.
//! - `evidence.rt`: whether each end that one supervisor was told of another is the one that the other's history gives
//!   ([`Report::find_mismatch`]).
//! - `marks.rt`: which numbers of processes may be those of supervisors.
//!
//! Nothing here knows of threads: a report is plain data. Who makes one is `otp_close`.

pub mod evidence;
mod marks;
pub mod report;

pub use evidence::Mismatch;
pub use report::{Report, TableReport};
