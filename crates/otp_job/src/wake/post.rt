//! A word for each process, by which its job is woken.

use crate::wake::bells::Bells;
use std::alloc::{AllocError, Global};
use std::sync::Arc;
use std::sync::atomic::{AtomicU64, Ordering};

/// The bit of a word that says that the job is to have a turn.
const WOKEN: u64 = 1;

/// A word for each slot of signal words: whether the job of the process that has the slot was woken, and in which thread it waits.
///
/// A wake sets a bit and reads where the job waits, in one step; a job that begins to wait writes where, and reads the bit, in one
/// step too. So either the job learns that it was woken and goes on, or whoever wakes it learns where it waits and rings. Both
/// steps read and write one word, so one of them sees the other whatever their ordering; they are `SeqCst` as all is that comes
/// before a ring ([`Bells`]).
#[derive(Drop)]
pub struct WakeWords {
    words: Vec<AtomicU64>,
    bells: Arc<Bells>,
}

impl WakeWords {
    /// Words for so many slots. The threads in which jobs wait sleep by these bells.
    pub fn open(alloc: Global, slots: usize, bells: &Arc<Bells>) -> Result<WakeWords, AllocError> {
        let mut words = Vec::with_capacity(alloc, slots)?;
        for _ in 0..slots {
            words.push(AtomicU64::new(0))?;
        }
        let bells = Arc::try_clone(bells)?;
        Ok(WakeWords { words, bells })
    }

    /// Wakes the job of the process that has this slot: it has a turn that begins after this call.
    pub fn wake(&self, slot: usize) {
        if let Some(word) = self.words.get(slot) {
            let before = word.fetch_or(WOKEN, Ordering::SeqCst);
            if let Some(thread) = home_in(before) {
                self.bells.ring(thread);
            }
        }
    }

    /// Whether the job was woken, and has had no turn since.
    pub fn is_woken(&self, slot: usize) -> bool {
        match self.words.get(slot) {
            Some(word) => is_woken(word.load(Ordering::SeqCst)),
            None => false,
        }
    }

    /// Notes that the job has a turn: it must be woken anew after this call to have a further one.
    pub fn take(&self, slot: usize) {
        if let Some(word) = self.words.get(slot) {
            if is_woken(word.load(Ordering::SeqCst)) {
                word.fetch_and(!WOKEN, Ordering::SeqCst);
            }
        }
    }

    /// Notes that the job begins to wait in this thread. False where it was woken meanwhile: then it has another turn at once.
    pub fn begins_to_wait(&self, slot: usize, thread: usize) -> bool {
        match self.words.get(slot) {
            Some(word) => !is_woken(word.swap(word_at(thread), Ordering::SeqCst)),
            None => true,
        }
    }
}

/// Whether a word says that the job was woken.
fn is_woken(word: u64) -> bool {
    word & WOKEN != 0
}

/// In which thread the job waits by this word, or waited last.
fn home_in(word: u64) -> Option<usize> {
    usize::try_from((word >> 1).checked_sub(1)?).ok()
}

/// The word of a job that waits in this thread and wasn't woken.
fn word_at(thread: usize) -> u64 {
    (thread as u64).saturating_add(1) << 1
}

/// Wakes one job from any thread: where that waits (`Turn::Wait`), it has another turn. It may be kept after the process has
/// ended; then it may give a process that follows it a turn in which nothing is new.
///
/// A wake is one word and is never lost: between the wake and the end of the process the job has a turn that began after it. Wakes
/// before that turn count as one.
#[derive(Drop)]
pub struct Waker {
    post: Arc<WakeWords>,
    slot: usize,
}

impl Waker {
    /// A waker of the job whose process has this slot.
    ///
    /// # Errors
    ///
    /// Where there are as many as a machine word counts.
    pub fn new(post: &Arc<WakeWords>, slot: usize) -> Result<Waker, AllocError> {
        Ok(Waker {
            post: Arc::try_clone(post)?,
            slot,
        })
    }

    /// Wakes the job. It waits for nobody and takes no memory.
    pub fn wake(&self) {
        self.post.wake(self.slot);
    }

    /// Another waker of the same job.
    ///
    /// # Errors
    ///
    /// Where there are as many as a machine word counts.
    pub fn try_clone(&self) -> Result<Waker, AllocError> {
        Waker::new(&self.post, self.slot)
    }
}
