//! The limit of what a window is asked about.

/// The longest period, in seconds (own): that of a supervisor's flags, and in milliseconds it fits any count.
pub const MAX_PERIOD: u64 = 1_000_000;
