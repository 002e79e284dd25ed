//! The flags that say how many restarts a supervisor survives.

ghost use Rattle.std.specs.Prelude.{◌≡◌, ◌<◌, ◌≤◌};
ghost use Rattle.otp_spec.specs.declared.limits.TheConstants.{MAX_PERIOD};
ghost use Rattle.otp_suggest.specs.Edges.{last_step, turned, value_at};

use otp_spec::{MAX_INTENSITY, MAX_PERIOD, SupFlags};

/// A flag that says how many restarts a supervisor survives.
#[derive(Clone, Copy, Debug, PartialEq, Eq)]
pub enum Dial {
    /// How many restarts within the period.
    Intensity,
    /// The seconds within which they are counted.
    Period,
}

impl Dial {
    /// The flags with this value in the place of one.
    pub fn turned(self, value: u64, flags: SupFlags) -> SupFlags
        ensures { result ≡ turned self value flags }
    {
        match self {
            Dial::Intensity => SupFlags {
                intensity: value,
                ..flags
            },
            Dial::Period => SupFlags {
                period: value,
                ..flags
            },
        }
    }

    /// The values that a supervisor may have, from that with which least is survived on: intensities from 0 up, periods from the
    /// longest down to a second.
    pub fn value_at(self, step: u64) -> u64
        requires { step ≤ MAX_PERIOD }
        ensures { result ≡ value_at self step }
    {
        match self {
            Dial::Intensity => step,
            Dial::Period => MAX_PERIOD - step,
        }
    }

    /// The step of the last of them.
    pub fn last_step(self) -> u64
        ensures value { result ≡ last_step self }
        ensures limit { (0 < result) × (result ≤ MAX_PERIOD) }
    {
        match self {
            Dial::Intensity => MAX_INTENSITY,
            Dial::Period => MAX_PERIOD - 1,
        }
    }
}
