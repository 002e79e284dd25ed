//! The limits of a supervisor and of a tree of them, and the numbers that it has where none are named.
//!
//! The limits are this library's own: the manual leaves them open. Contracts and definitions name these constants.

/// The most children that one supervisor has.
pub const MAX_CHILDREN: usize = 256;

/// The most supervisors of a tree, the root included.
pub const MAX_TABLES: usize = 64;

/// The most events that the history of one supervisor holds.
pub const MAX_EVENTS: usize = 65_536;

/// The greatest reading of a clock, in milliseconds: 2^62. A reading and the longest time to shut down add up.
pub const MAX_READING: u64 = 1 << 62;

/// The greatest restart intensity.
pub const MAX_INTENSITY: u64 = 1_000;

/// The longest period of a restart intensity, in seconds.
pub const MAX_PERIOD: u64 = 1_000_000;

/// The longest time that a child may have to shut down, in milliseconds.
pub const MAX_SHUTDOWN: u64 = 4_294_967_295;

/// The restart intensity where none is named (Supervisor Behaviour, "Supervisor Flags").
pub const DEFAULT_INTENSITY: u64 = 1;

/// The period in seconds where none is named (Supervisor Behaviour, "Supervisor Flags").
pub const DEFAULT_PERIOD: u64 = 5;

/// The time in milliseconds that a worker has to shut down where none is named (Supervisor Behaviour,
/// "Child Specification").
pub const DEFAULT_SHUTDOWN: u32 = 5_000;
