//! What the hands of a running tree share.

use crate::calling::Caller;
use crate::clock::Stopwatch;
use crate::span::Span;
use crate::watch::{Seen, Watch};
use otp_job::Ticket;
use otp_job::wake::{Bells, StopFlag, WakeWords};
use otp_tree::{Happening, MAX_HANDS};
use std::alloc::{AllocError, Global};
use std::sync::Arc;
use std::sync::atomic::{AtomicU64, Ordering};
use std::time::Clock;

/// So often a hand looks again before it sleeps, where there are others: for some 20 microseconds.
const PATIENCE: u32 = 32;

/// What the hands share: which supervisor rests where, by which they wake each other, and how far the run is.
///
/// A hand writes down where a supervisor rests before it announces a sleep, and so before it looks for the last time; whoever sends a
/// letter to that reads it after the sending. So either the look finds the letter, or the sender finds the hand and rings: the four
/// steps stand in one order, as they are `SeqCst`, those of the inbox too. Where a process waits for a signal, or to be woken, the
/// [`WakeWords`] knows in the same way.
#[derive(Drop)]
pub(crate) struct Crew<'a, C, W, J: Drop, S: Drop> {
    pub clock: &'a Stopwatch<'a, C>,
    pub stop: &'a StopFlag,
    span: Span,
    pub post: Arc<WakeWords>,
    pub callers: &'a [Caller<J, S>],
    pub alloc: Global,
    watch: &'a W,
    // In which hand each supervisor rests, as that number and 1, or 0 while it has turns; and one for whoever opened the tree.
    homes: Vec<AtomicU64>,
    hands: usize,
    // How many hands have something that others could take.
    crowds: AtomicU64,
    is_asked: AtomicU64,
    has_ended: AtomicU64,
}

fn homes_of(alloc: Global, tables: usize) -> Result<Vec<AtomicU64>, AllocError> {
    let mut homes = Vec::new(alloc);
    for _ in 0..=tables {
        homes.push(AtomicU64::new(0))?;
    }
    Ok(homes)
}

impl<'a, C: Clock, W: Watch, J: Drop, S: Drop> Crew<'a, C, W, J, S> {
    /// The crew of a tree of so many supervisors and hands, none of which rests anywhere yet.
    pub fn of(
        alloc: Global,
        clock: &'a Stopwatch<'a, C>,
        stop: &'a StopFlag,
        span: Span,
        watch: &'a W,
        callers: &'a [Caller<J, S>],
        post: Arc<WakeWords>,
        tables: usize,
        hands: usize,
    ) -> Result<Self, AllocError> {
        let homes = homes_of(alloc, tables)?;
        Ok(Crew {
            clock,
            stop,
            span,
            post,
            callers,
            alloc,
            watch,
            homes,
            hands: hands.min(MAX_HANDS),
            crowds: AtomicU64::new(0),
            is_asked: AtomicU64::new(0),
            has_ended: AtomicU64::new(0),
        })
    }

    /// By which the hands sleep.
    pub fn bells(&self) -> &Bells {
        self.stop.bells()
    }

    /// Whether the root has ended.
    pub fn has_ended(&self) -> bool {
        self.has_ended.load(Ordering::SeqCst) != 0
    }

    /// Raises the stop once its time has come, and says whether the hands are to leave.
    pub fn keep_time(&self) -> bool {
        if self.span.stop.is_none() {
            return false;
        }
        let reading = self.clock.reading();
        if self.span.is_to_stop(reading) && !self.stop.is_raised() {
            self.stop.raise();
        }
        self.span.is_over(reading)
    }

    /// When a hand that sleeps has to wake at the latest, whatever comes: for the stop, or once that was raised to leave.
    pub fn next_due(&self) -> Option<u64> {
        if self.stop.is_raised() {
            self.span.leave()
        } else {
            self.span.stop
        }
    }

    /// Whether this hand is to ask the root to stop: one of them is, once the stop was raised.
    pub fn is_to_ask(&self) -> bool {
        self.stop.is_raised()
            && self.is_asked.load(Ordering::SeqCst) == 0
            && self.is_asked.swap(1, Ordering::SeqCst) == 0
    }

    /// Whether the stop was raised and nobody has asked the root yet.
    pub fn is_to_stop(&self) -> bool {
        self.stop.is_raised() && self.is_asked.load(Ordering::SeqCst) == 0
    }

    /// Whether a caller wants something.
    pub fn is_called(&self) -> bool {
        is_any_wanted(self.callers)
    }

    /// Notes that this supervisor rests in a hand.
    pub fn rests(&self, hand: usize, table: usize) {
        if let Some(home) = self.homes.get(table) {
            home.store((hand as u64).saturating_add(1), Ordering::SeqCst);
        }
    }

    /// Notes that this supervisor has turns: a letter to it wakes nobody before it rests again.
    pub fn is_up(&self, table: usize) {
        if let Some(home) = self.homes.get(table) {
            if home.load(Ordering::SeqCst) != 0 {
                home.store(0, Ordering::SeqCst);
            }
        }
    }

    /// Wakes the hand in which this supervisor rests, but not this one.
    pub fn wake_home(&self, hand: usize, table: usize) {
        if let Some(home) = self.homes.get(table) {
            if let Some(home) = hand_in(home.load(Ordering::SeqCst)) {
                if home != hand {
                    self.bells().ring(home);
                }
            }
        }
    }

    /// How often a hand that finds nothing looks again before it sleeps: another may have something for it in a moment, and a look costs
    /// less than a sleep and a wake.
    pub fn patience(&self) -> u32 {
        if self.hands > 1 { PATIENCE } else { 0 }
    }

    /// Notes that a hand has something that others could take, or no longer, if that is new.
    pub fn note_crowd(&self, was_there: bool, is_there: bool) {
        if is_there && !was_there {
            self.crowds.fetch_add(1, Ordering::SeqCst);
        }
        if was_there && !is_there {
            self.crowds.fetch_sub(1, Ordering::SeqCst);
        }
    }

    /// Whether some hand has something that others could take.
    pub fn is_crowded(&self) -> bool {
        self.crowds.load(Ordering::SeqCst) != 0
    }

    /// Wakes one other hand that sleeps, if there is one, so that it takes something off this one.
    pub fn wake_another(&self, hand: usize) {
        for other in 0..self.hands {
            if other != hand && self.bells().is_asleep(other) {
                self.bells().ring(other);
                return;
            }
        }
    }

    /// Notes that a letter has gone, which tells that this happened to the process with this ticket.
    pub fn sent(&self, hand: usize, ticket: &Ticket, what: Happening) {
        let table = ticket.table;
        self.wake_home(hand, table);
        if self.watch.is_told() {
            self.watch.saw(Seen {
                at: self.clock.reading(),
                table,
                id: ticket.id,
                what,
            });
        }
        if table.saturating_add(1) == self.homes.len() && is_end(what) {
            self.has_ended.store(1, Ordering::SeqCst);
            self.bells().ring_all();
        }
    }
}

/// Whether one of them wants something.
fn is_any_wanted<J: Drop, S: Drop>(callers: &[Caller<J, S>]) -> bool {
    for caller in callers {
        if caller.is_wanted() {
            return true;
        }
    }
    false
}

/// Whether a process has ended by what happened to it.
fn is_end(what: Happening) -> bool {
    !matches!(what, Happening::Started(_) | Happening::Restarted(_))
}

/// The hand with this number, counted from 1.
fn hand_in(home: u64) -> Option<usize> {
    usize::try_from(home.checked_sub(1)?).ok()
}
