//! By which clock restarts are counted.

ghost use Rattle.std.specs.Prelude.{◌≡◌, ◌≤◌};
ghost use Rattle.otp_trial.specs.Clocks.{shown};

use crate::story::strain::second;

/// By which clock a trial is played.
#[derive(Clone, Copy, Debug, PartialEq, Eq)]
pub enum Clock {
    /// Each time is known to the millisecond.
    Milliseconds,
    /// The clock shows whole seconds, as that does by which OTP up to today counts restarts.
    Seconds,
}

impl Clock {
    /// What the clock shows at a time in milliseconds.
    #[tactic(auto, unfolding(crate::specs::Clocks::shown))]
    pub fn shown(self, time: u64) -> u64
        ensures value { result ≡ shown self time }
        ensures before { result ≤ time }
    {
        match self {
            Clock::Milliseconds => time,
            Clock::Seconds => second(time),
        }
    }

    /// The first time at which the clock shows this one, or a later one.
    pub fn reached(self, time: u64) -> u64 {
        match self {
            Clock::Milliseconds => time,
            Clock::Seconds => second(time.saturating_add(999)),
        }
    }
}
