//! What the writer of a lawful tree may not have meant: stops longer than a period, intensities too small, ids that look alike.
//!
//! A remark is decided by the tree alone: no time is played, and no fault is looked for, as otp_check does that.

mod below;
mod children;
mod found;
mod kinds;
mod looks;
mod remark;
mod remarks;
mod tables;
mod text;

pub use found::{LintFinding, find_remarks};
pub use remark::{Remark, RemarkKind, RemarkPath, Remarks};
pub use remarks::lint;
pub use text::write_remark;
