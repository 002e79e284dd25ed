//! The limits of a tree file, which are this library's own.

/// How deep tables may lie; the root lies at 1.
pub const MAX_DEPTH: usize = 16;
