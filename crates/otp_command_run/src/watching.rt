//! Who is told what happens in a tree that is served.

use crate::outcome::supervisor_name;
use otp_live::{Seen, Watch};
use otp_trial::TriedSupervisor;

/// Tells a watch the path of each supervisor.
#[derive(Drop)]
pub(crate) struct AtPaths<'a, L> {
    /// The supervisors of the tree, in the order of its plans.
    pub seats: &'a [TriedSupervisor],
    pub watch: &'a L,
}

impl<L: Watch> Watch for AtPaths<'_, L> {
    fn saw(&self, seen: Seen) {
        let path = match self.seats.get(seen.table) {
            Some(seat) => Some(supervisor_name(seat.path())),
            None => None,
        };
        self.watch.saw_at(path, seen);
    }

    fn is_told(&self) -> bool {
        self.watch.is_told()
    }
}
