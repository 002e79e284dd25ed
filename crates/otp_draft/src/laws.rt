//! Laws over all trees that can be drawn up. A law is a function that does nothing: what it ensures is the law.

ghost use Rattle.otp_draft.specs.Drawings.{TreesAreWalked};
ghost use Rattle.otp_draft.specs.Paths.{PathsAreWalked};

/// The plan of each tree has its supervisors in the order of a walk: it meets each before those below its own children, and those
/// below an earlier child before those below a later one. Each has there its flags, its specifications and what its children run,
/// and a child that is a supervisor is known by that one's number.
pub fn trees_are_walked<J: Drop, S: Drop>()
    ensures { TreesAreWalked J S }
{}

/// In the order of the walk ([`trees_are_walked`]) each supervisor has the path that leads to it: the ids of the children from the
/// root's on.
pub fn paths_are_walked<J: Drop, S: Drop>()
    ensures { PathsAreWalked J S }
{}
