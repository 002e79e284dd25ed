//! Who is told what a hand does.

use crate::happening::Happening;
use otp_job::Ticket;

/// What is told of the turns of a hand while it makes them, in the hand's own thread and with no lock held. No method needs to be
/// written: each does nothing by default.
///
/// Whoever lets hands sleep wakes one by it for a letter: a supervisor that waits in a hand has its next turn in that hand alone, and so
/// has a job that waits. For a signal the hand that posts it wakes the one in which that child waits ([`Hand::open_post`](otp_hand::Hand)).
pub trait Listener {
    /// A letter has gone, which tells that this happened to the process with this ticket. It went to the supervisor whose number the
    /// ticket has, or to whoever opened the tree, who has the number behind the last.
    fn sent(&self, _ticket: &Ticket, _what: Happening) {}

    /// The supervisor of this number had a turn in which it did something: it may have started processes, and have told its
    /// children something.
    fn served(&self, _table: usize) {}

    /// The supervisor of this number, a child of the other, waits in this hand from now on. Whether something has come for it
    /// since its turn wasn't looked at yet.
    fn rests(&self, _table: usize, _parent: usize) {}

    /// A job that is a child of this supervisor waits in this hand from now on. Whether it was told something since its turn wasn't
    /// looked at yet.
    fn waits(&self, _parent: usize) {}
}

/// A listener that isn't told anything.
pub(crate) struct Nobody;

impl Listener for Nobody {}
