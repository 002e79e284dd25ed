//! A hand's place among the others.

use crate::crew::Crew;
use crate::crowd::News;
use crate::watch::Watch;
use otp_job::Ticket;
use otp_tree::{Happening, Listener};
use std::sync::atomic::{AtomicU64, Ordering};
use std::time::Clock;

/// A hand's place among the others: what it does is told to them.
#[derive(Drop)]
pub(crate) struct CrewSeat<'a, C, W, J: Drop, S: Drop> {
    pub crew: &'a Crew<'a, C, W, J, S>,
    pub hand: usize,
    // Whether it served a supervisor since it was asked last. The hand's own thread alone reads and writes these three, so no
    // order is wanted; they are atomic since the seat is lent.
    served: AtomicU64,
    // What was told of its turns since it was asked last.
    steps: AtomicU64,
    waits: AtomicU64,
}

impl<'a, C, W, J: Drop, S: Drop> CrewSeat<'a, C, W, J, S> {
    /// The place of a hand that has done nothing yet.
    pub fn of(crew: &'a Crew<'a, C, W, J, S>, hand: usize) -> Self {
        CrewSeat {
            crew,
            hand,
            served: AtomicU64::new(0),
            steps: AtomicU64::new(0),
            waits: AtomicU64::new(0),
        }
    }

    /// Whether it served a supervisor since it was asked last.
    pub fn has_served(&self) -> bool {
        self.served.load(Ordering::Relaxed) != 0 && self.served.swap(0, Ordering::Relaxed) != 0
    }

    /// What was told of its turns since it was asked last.
    pub fn take_news(&self) -> News {
        News {
            steps: take(&self.steps),
            waits: take(&self.waits),
        }
    }
}

// The hand's thread alone counts, so no sum is lost.
fn count(counted: &AtomicU64) {
    let so_far = counted.load(Ordering::Relaxed);
    counted.store(so_far.saturating_add(1), Ordering::Relaxed);
}

fn take(counted: &AtomicU64) -> u64 {
    let so_far = counted.load(Ordering::Relaxed);
    counted.store(0, Ordering::Relaxed);
    so_far
}

impl<C: Clock, W: Watch, J: Drop, S: Drop> Listener for CrewSeat<'_, C, W, J, S> {
    fn sent(&self, ticket: &Ticket, what: Happening) {
        count(&self.steps);
        self.crew.sent(self.hand, ticket, what);
    }

    fn served(&self, table: usize) {
        count(&self.steps);
        self.served.store(1, Ordering::Relaxed);
        self.crew.is_up(table);
    }

    fn rests(&self, table: usize, _parent: usize) {
        self.crew.rests(self.hand, table);
    }

    fn waits(&self, _parent: usize) {
        count(&self.waits);
    }
}
