//! Hands that serve side by side learn from each other whether any of them still has something to do.

use std::sync::atomic::{AtomicU64, Ordering};

/// What a hand is marked with that has not begun.
const ABSENT: u64 = u64::MAX;

/// What a hand is marked with that makes no more turns.
const GONE: u64 = u64::MAX - 1;

/// What a hand is marked with that makes a turn, or has found something in its last.
const BUSY: u64 = u64::MAX - 2;

/// So often a hand looks for one that has not begun. Where no thread can be made, hands are served one after the other.
const PATIENCE: u64 = 20_000;

/// A mark of each hand, and how often a hand found something.
///
/// A hand that looks in vain is marked with the number of changes that it read *before* it looked. Where all are marked with that of
/// now, none has anything to do: whatever is given to a hand is given in a turn of another that found something, and such a turn
/// ends with a change.
#[derive(Drop)]
pub(crate) struct Meeting {
    changes: AtomicU64,
    marks: [AtomicU64; 8],
}

impl Meeting {
    /// Of so many hands, none of which has begun.
    pub fn of(hands: usize) -> Meeting {
        Meeting {
            changes: AtomicU64::new(0),
            marks: [
                first_mark(0, hands),
                first_mark(1, hands),
                first_mark(2, hands),
                first_mark(3, hands),
                first_mark(4, hands),
                first_mark(5, hands),
                first_mark(6, hands),
                first_mark(7, hands),
            ],
        }
    }

    /// How often a hand found something.
    pub fn changes(&self) -> u64 {
        self.changes.load(Ordering::SeqCst)
    }

    /// Notes that a hand found something, in a turn that has ended.
    pub fn found(&self) {
        self.changes.fetch_add(1, Ordering::SeqCst);
    }

    /// Notes that a hand looks for something to do.
    pub fn begin(&self, hand: usize) {
        // While it finds something it is marked so already.
        if !self.is_busy(hand) {
            self.mark(hand, BUSY);
        }
    }

    /// Whether a hand has nothing to do: it looked in vain in its last turn, or has not begun.
    pub fn has_idle(&self) -> bool {
        for mark in &self.marks {
            let at = mark.load(Ordering::Relaxed);
            if at != BUSY && at != GONE {
                return true;
            }
        }
        false
    }

    /// Notes that a hand looked in vain after so many changes.
    pub fn rest(&self, hand: usize, seen: u64) {
        self.mark(hand, seen);
    }

    /// Notes that a hand makes no more turns.
    pub fn leave(&self, hand: usize) {
        self.mark(hand, GONE);
    }

    /// Whether all hands looked in vain after so many changes, or are gone. Those that have not begun are waited for until there
    /// were so many looks.
    pub fn is_over(&self, seen: u64, looks: u64) -> bool {
        for mark in &self.marks {
            let at = mark.load(Ordering::SeqCst);
            if at == ABSENT && looks >= PATIENCE {
                let _begun = mark.compare_exchange(at, GONE, Ordering::SeqCst, Ordering::SeqCst);
            } else if at != seen && at != GONE {
                return false;
            }
        }
        true
    }

    fn is_busy(&self, hand: usize) -> bool {
        match self.marks.get(hand) {
            Some(at) => at.load(Ordering::Relaxed) == BUSY,
            None => false,
        }
    }

    fn mark(&self, hand: usize, mark: u64) {
        if let Some(at) = self.marks.get(hand) {
            at.store(mark, Ordering::SeqCst);
        }
    }
}

/// The mark of a hand that has not begun, or of none.
fn first_mark(hand: usize, hands: usize) -> AtomicU64 {
    AtomicU64::new(if hand < hands { ABSENT } else { GONE })
}
