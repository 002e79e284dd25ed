//! The version of the library, which is that of all that the repository makes (`tools/version`).

/// The first of its three numbers.
pub const MAJOR: u32 = 0;
/// The second. Before version 1 each is another interface.
pub const MINOR: u32 = 3;
/// The third.
pub const PATCH: u32 = 0;
