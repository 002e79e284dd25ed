//! The limit of what is kept.

/// How many events a supervisor keeps at the most while none of its orders waits to be taken, with the answers and ends that
/// they gave. What is older is dropped with the next event: nothing that happens later depends on it.
pub const KEPT_EVENTS: usize = 64;
