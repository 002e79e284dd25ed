//! The limits of a history, and why a checkpoint is not made (own: OTP's supervisors keep no history).

use thiserror::Error;

/// The most events that a supervisor has in its life.
pub const MAX_EVENTS_IN_ALL: u64 = 1 << 62;

/// How many lines the lists of children may have that were told since the last cut: once there are so many, no further event
/// is taken before a cut. One event tells [`MAX_CHILDREN`](otp_spec::MAX_CHILDREN) of them at most.
pub const MAX_KEPT_LINES: usize = 65_536;

/// Why a checkpoint is not made.
#[derive(Clone, Copy, Debug, PartialEq, Eq, Error)]
pub enum CutFault {
    /// E8: there were more events than [`MAX_EVENTS_IN_ALL`].
    #[error("history full")]
    HistoryFull,
}
