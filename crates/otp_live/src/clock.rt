//! The clock of a run.
ghost use Rattle.std.specs.Prelude.{◌≤◌};
ghost use Rattle.otp_spec.specs.declared.limits.TheConstants.{MAX_READING};

use otp_spec::MAX_READING;
use std::sync::atomic::{AtomicU64, Ordering};
use std::time::{Clock, Instant};

/// Says how many milliseconds have passed since it was started, by the system's clock that never goes back. Where that can't be
/// read it says its last reading, 0 at first.
#[derive(Drop)]
pub struct Stopwatch<'a, C> {
    clock: &'a C,
    begun: Option<Instant>,
    // Whichever hand read last. An older reading does no harm, as a supervisor's clock never goes back: so no order is wanted.
    last: AtomicU64,
}

impl<'a, C: Clock> Stopwatch<'a, C> {
    /// A stopwatch that begins now.
    pub fn start(clock: &'a C) -> Self {
        Stopwatch {
            clock,
            begun: Instant::now(clock).ok(),
            last: AtomicU64::new(0),
        }
    }

    /// The milliseconds since it was started, at most 2^62.
    pub fn reading(&self) -> u64
        ensures { result ≤ MAX_READING }
    {
        match self.read() {
            Some(reading) => {
                self.last.store(reading, Ordering::Relaxed);
                reading.min(MAX_READING)
            }
            None => self.last.load(Ordering::Relaxed).min(MAX_READING),
        }
    }

    /// The milliseconds since it was started, if the clock can be read.
    fn read(&self) -> Option<u64> {
        let begun = self.begun?;
        let now = Instant::now(self.clock).ok()?;
        let passed = now.saturating_duration_since(begun).as_millis();
        u64::try_from(passed).ok()
    }
}
