//! Work that goes over several events: children to stop, children to start, and what follows.

use crate::ending::Ending;
use otp_reason::Name;

/// A child to be started, and the number that it keeps if its start fails; none: its process number.
#[derive(Clone, Copy, Debug, PartialEq, Eq)]
pub struct Due {
    pub id: Option<Name>,
    pub kept: Option<u64>,
}

/// What follows once the children to stop have ended and those to start have been started.
#[derive(Clone, Copy, Debug, PartialEq, Eq)]
pub enum Sequel {
    /// The opening is done.
    Ready,
    /// A restart is done.
    Nothing,
    /// The call with this number, which added a child, is answered.
    Added(u64),
    /// The call with this number, which started a child again, is answered.
    Restarted(u64),
    /// The call with this number, which stopped a child, is answered.
    Stopped(u64),
    /// The supervisor ends.
    End(Ending),
}

/// Whether the supervisor runs, and under which number.
#[derive(Clone, Copy, Debug, PartialEq, Eq)]
pub enum Phase {
    /// It was never opened.
    Unopened,
    /// It runs, in the process with this number.
    Open(u64),
    /// It has ended, for this reason; this was the number of its process.
    Ended(u64, Ending),
}
