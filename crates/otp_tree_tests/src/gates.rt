//! The clocks of the tests' trees, which see what hands do.

use crate::guests::{Common, comes_to};
use otp_rules::CountsNow;
use otp_tree::{Gate, Millis};
use std::sync::atomic::{AtomicU64, Ordering};

/// A clock that stands still.
#[derive(Drop)]
pub(crate) struct Still;

impl Millis for Still {
    fn now(&mut self) -> u64 {
        0
    }
}

/// What hands wait for before a turn.
#[derive(Clone, Copy, Debug, PartialEq, Eq)]
pub(crate) enum Wait {
    Nothing,
    /// Two hands wait for each other before the first turn of each. A wait has its end, so that one thread that served both hands,
    /// one after the other, would not hang: it would not meet.
    Each,
    /// The other hands make no turn before the first has started two workers.
    First,
    /// For a worker that lingers, for some looks.
    Lingering,
}

/// A clock, and what a gate is told of a run.
#[derive(Drop)]
pub(crate) struct Clock {
    // Milliseconds of a turn.
    step: u64,
    wait: Wait,
    shared: Common,
    now: AtomicU64,
    first: AtomicU64,
    second: AtomicU64,
    /// How many hands met.
    pub(crate) met: AtomicU64,
    /// Turns that were asked for, and those in which no hand had anything to do, until children were up at the half of a run.
    pub(crate) turns: AtomicU64,
    pub(crate) idle: AtomicU64,
    /// How often it was told how far a run is, with the turns made and those in all as told last, and the children that were up once
    /// half of them were made.
    pub(crate) calls: AtomicU64,
    pub(crate) made: AtomicU64,
    pub(crate) of: AtomicU64,
    pub(crate) live: AtomicU64,
}

impl Clock {
    pub(crate) fn new(shared: Common, step: u64, wait: Wait) -> Clock {
        Clock {
            step,
            wait,
            shared,
            now: AtomicU64::new(0),
            first: AtomicU64::new(0),
            second: AtomicU64::new(0),
            met: AtomicU64::new(0),
            turns: AtomicU64::new(0),
            idle: AtomicU64::new(0),
            calls: AtomicU64::new(0),
            made: AtomicU64::new(0),
            of: AtomicU64::new(0),
            live: AtomicU64::new(0),
        }
    }

    fn meet(&self, hand: usize) {
        let (own, other) = if hand == 0 {
            (&self.first, &self.second)
        } else {
            (&self.second, &self.first)
        };
        if own.swap(1, Ordering::SeqCst) == 0 && comes_to(other, 1, 10_000_000) {
            self.met.fetch_add(1, Ordering::SeqCst);
        }
    }
}

impl Gate for Clock {
    fn before_turn(&self, hand: usize) -> u64 {
        self.turns.fetch_add(1, Ordering::SeqCst);
        match self.wait {
            Wait::Nothing => {}
            Wait::Each => self.meet(hand),
            Wait::First => {
                let _both = hand == 0 || self.shared.both_start();
            }
            Wait::Lingering => {
                let _lingers = self.shared.one_lingers();
            }
        }
        self.now.fetch_add(self.step, Ordering::SeqCst).min(1 << 62)
    }

    fn idle(&self, _hand: usize) {
        self.shared.note_idle();
        if self.live.load(Ordering::SeqCst) == 0 {
            self.idle.fetch_add(1, Ordering::SeqCst);
        }
    }

    fn saw(&self, made: u64, of: u64, counts: &[CountsNow]) {
        self.calls.fetch_add(1, Ordering::SeqCst);
        self.made.store(made, Ordering::SeqCst);
        self.of.store(of, Ordering::SeqCst);
        if made == of / 2 {
            for supervisor in counts {
                self.live.fetch_add(supervisor.active, Ordering::SeqCst);
            }
        }
    }
}
