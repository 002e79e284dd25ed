//! Who is told what happens in a tree.

use otp_reason::Name;
use otp_tree::Happening;

/// What happened, when, and to which child of whom.
#[derive(Clone, Copy, Debug, PartialEq, Eq)]
pub struct Seen {
    /// Milliseconds since the run began.
    pub at: u64,
    /// The number of the supervisor whose child it is, in the order of the plans, the root being 0, and behind them in the order in
    /// which they were added. Where it is the root itself, how many supervisors the tree can have.
    pub table: usize,
    /// The id of the child. A dynamic one has none, nor has the root.
    pub id: Option<Name>,
    pub what: Happening,
}

/// Who is told what happens in a tree, in the thread in which it happened and with no lock held. What takes long there keeps that
/// thread from its processes.
///
/// Each thing is told right after the news was sent to the supervisor: so with one thread an end is told before the start that
/// follows. What happens in two threads may be told in either order.
pub trait Watch {
    /// Told of each thing that happens. By default nothing is done.
    fn saw(&self, _seen: Seen) {}

    /// Told of each thing that happens, with the path of the supervisor: the ids from the root's child on, as `pool/cache`, or
    /// `root`; `None` where it is the root itself. By default `saw` is told.
    fn saw_at(&self, _path: Option<&[u8]>, seen: Seen) {
        self.saw(seen);
    }

    /// Whether it is to be told at all. By default it is.
    fn is_told(&self) -> bool {
        true
    }
}

/// A watch that says nothing.
#[derive(Drop)]
pub struct Unwatched;

impl Watch for Unwatched {
    fn is_told(&self) -> bool {
        false
    }
}
