//! A flag that stops a tree.

use crate::wake::bells::Bells;
use std::alloc::{AllocError, Global};
use std::sync::Arc;
use std::sync::atomic::{AtomicU64, Ordering};

#[derive(Drop)]
struct Flag {
    raised: AtomicU64,
    bells: Arc<Bells>,
}

/// A flag that any thread may raise, once and for all. Whoever runs a tree with it is told at once, also where all its threads
/// sleep; and a tree that is run after it was raised is opened and stopped at once. Several trees may be run with one.
#[derive(Drop)]
pub struct StopFlag {
    flag: Arc<Flag>,
}

impl StopFlag {
    /// A flag that isn't raised.
    ///
    /// # Errors
    ///
    /// Where memory is refused.
    pub fn new(alloc: Global) -> Result<StopFlag, AllocError> {
        let bells = Arc::new(alloc, Bells::new())?;
        let flag = Flag {
            raised: AtomicU64::new(0),
            bells,
        };
        Ok(StopFlag {
            flag: Arc::new(alloc, flag)?,
        })
    }

    /// Another handle on this flag, for another thread. Takes no memory.
    ///
    /// # Errors
    ///
    /// Where there are as many as a machine word counts.
    pub fn try_clone(&self) -> Result<StopFlag, AllocError> {
        Ok(StopFlag {
            flag: Arc::try_clone(&self.flag)?,
        })
    }

    /// Raises it. It waits for nobody and takes no memory. The flag is raised before the bells are rung, and both steps are
    /// `SeqCst`: so a thread that sleeps by these bells sees it before it sleeps, or is woken ([`Bells`]).
    pub fn raise(&self) {
        self.flag.raised.store(1, Ordering::SeqCst);
        self.flag.bells.ring_all();
    }

    /// Whether it was raised.
    pub fn is_raised(&self) -> bool {
        self.flag.raised.load(Ordering::SeqCst) != 0
    }

    /// The bells that it rings, by which those that it stops sleep.
    pub fn bells(&self) -> &Arc<Bells> {
        &self.flag.bells
    }
}
