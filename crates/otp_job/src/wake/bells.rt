//! Bells, by which threads that sleep are woken.

use std::sync::Wait;
use std::sync::atomic::{AtomicU64, Ordering};
use std::time::Duration;

/// So many threads have a bell.
pub const MAX_SLEEPERS: usize = 8;

/// A thread's bell: how often it was rung while the thread slept or was about to, and how many sleeps of it are announced.
#[derive(Drop)]
struct Bell {
    rings: AtomicU64,
    sleepers: AtomicU64,
}

impl Bell {
    fn new() -> Bell {
        Bell {
            rings: AtomicU64::new(0),
            sleepers: AtomicU64::new(0),
        }
    }
}

/// A bell for each of up to [`MAX_SLEEPERS`] threads, numbered from 0, which all of them share, and whoever wakes them.
///
/// # No ring is lost
///
/// Whoever has something for a thread first gives it (sends a letter, raises a flag), and then rings. A thread first announces its
/// sleep, then looks whether there is something, and then sleeps on what the bell counted *between*. All these are single steps in
/// one order, that of all atomic words. So each is `SeqCst`, and what is given has to be, too, as the steps of inboxes and of
/// signal words are: with acquire and release alone the ring might find no sleeper, and the look find nothing.
///
/// - The ring found no sleeper announced: then the thing was given before the announcement, and the look finds it.
/// - It found one: then it raised the count. If the sleeper read the count after that, the thing was given before its look, which
///   finds it. If before, the count isn't the one on which it sleeps: the sleep ends, or doesn't begin.
///
/// The type has no other way to sleep than by what [`Bells::announce`] gives.
#[derive(Drop)]
pub struct Bells {
    bells: [Bell; 8],
}

/// A sleep that a thread announced. It ends with the value: the thread is a sleeper no more.
pub struct Announced<'a> {
    bell: Option<&'a Bell>,
    rings: u64,
}

impl Bells {
    /// Bells that nobody has rung.
    pub fn new() -> Bells {
        Bells {
            bells: [
                Bell::new(),
                Bell::new(),
                Bell::new(),
                Bell::new(),
                Bell::new(),
                Bell::new(),
                Bell::new(),
                Bell::new(),
            ],
        }
    }

    /// Announces that this thread will sleep. What it is to sleep for is looked for after this call, and before
    /// [`Announced::sleep`].
    pub fn announce(&self, thread: usize) -> Announced<'_> {
        match self.bells.get(thread) {
            Some(bell) => {
                bell.sleepers.fetch_add(1, Ordering::SeqCst);
                Announced {
                    bell: Some(bell),
                    rings: bell.rings.load(Ordering::SeqCst),
                }
            }
            None => Announced {
                bell: None,
                rings: 0,
            },
        }
    }

    /// Whether a thread sleeps, or has announced that it will.
    pub fn is_asleep(&self, thread: usize) -> bool {
        match self.bells.get(thread) {
            Some(bell) => bell.sleepers.load(Ordering::SeqCst) != 0,
            None => false,
        }
    }

    /// Wakes this thread, if it sleeps or is about to. Called after that was given for which it is woken.
    pub fn ring(&self, thread: usize) {
        if let Some(bell) = self.bells.get(thread) {
            if bell.sleepers.load(Ordering::SeqCst) != 0 {
                bell.rings.fetch_add(1, Ordering::SeqCst);
                bell.rings.wake_all();
            }
        }
    }

    /// Wakes all threads that sleep or are about to.
    pub fn ring_all(&self) {
        for thread in 0..MAX_SLEEPERS {
            self.ring(thread);
        }
    }
}

impl Announced<'_> {
    /// Sleeps until the bell is rung, if it wasn't yet since the announcement, and for so long at most. It may end early for no
    /// reason.
    pub fn sleep<R: Wait>(self, rt: &R, most: Option<Duration>) {
        if let Some(bell) = self.bell {
            let rings = (self.rings & 0xffff_ffff) as u32;
            match most {
                Some(most) => bell.rings.park_timeout(rt, rings, most),
                None => bell.rings.park(rt, rings),
            }
        }
    }
}

impl Drop for Announced<'_> {
    fn drop(self) {
        let Self { bell, rings: _ } = self;
        if let Some(bell) = bell {
            bell.sleepers.fetch_sub(1, Ordering::SeqCst);
        }
    }
}
