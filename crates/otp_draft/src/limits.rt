//! The limits of a tree that is drawn up. Of one supervisor they are those of `otp_spec`.

/// The most levels of supervisors, the root's being the first (own).
pub const MAX_DEPTH: usize = 16;
