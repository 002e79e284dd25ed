//! How a supervisor ends.

use otp_reason::{Name, Reason};
use otp_spec::SupFlags;
use std::alloc::AllocError;
use std::marker::Model;

/// Why a supervisor gives up its children.
#[derive(Clone, Copy, Debug, PartialEq, Eq)]
pub enum Ending {
    /// More restarts than the intensity within the period.
    Intensity,
    /// The significant child with this process number ended by itself (automatic shutdown).
    Significant(u64),
    /// The parent asked.
    Asked,
    /// The child with this id didn't start at the opening.
    InitFailed(Name),
}

/// Restart times in milliseconds, in their order. Contracts see the list.
#[derive(Debug, Drop)]
pub struct Stamps {
    times: Vec<u64>,
}

impl Model for Stamps {
    ghost use Rattle.std.specs.Prelude.{ℕ, List};

    ghost Value = { List ℕ };

    ghost view = { λ a. a.times.items };
}

impl Stamps {
    ghost use Rattle.std.specs.Prelude.{◌≡◌, IfOk};

    /// The times of a list, without taking memory.
    pub fn from_vec(times: Vec<u64>) -> Self
        ensures { result ≡ times.items }
    {
        Stamps { times }
    }

    pub fn as_slice(&self) -> &[u64]
        ensures { result.now ≡ self.now }
    {
        &self.times
    }

    /// A copy, unless memory is refused.
    pub fn try_clone(&self) -> Result<Self, AllocError>
        ensures { IfOk result (λ copy. copy ≡ self.now) }
    {
        Ok(Stamps {
            times: self.times.clone()?,
        })
    }

    /// The list of the times, without taking memory.
    pub fn into_vec(self) -> Vec<u64>
        ensures { result.items ≡ self }
    {
        let Stamps { times } = self;
        times
    }
}

/// Why a supervisor ended, with what shows it.
#[derive(Debug, Drop)]
pub enum Cause {
    /// The flags, and the restart times of the last period: one more than the intensity.
    Intensity { flags: SupFlags, stamps: Stamps },
    /// The number of the significant child that ended.
    Significant(u64),
    Asked,
    /// The id of the child that didn't start.
    InitFailed(Name),
}

impl Cause {
    ghost use Rattle.std.specs.Prelude.{◌≡◌, IfOk};

    /// A copy, unless memory is refused.
    pub fn try_clone(&self) -> Result<Self, AllocError>
        ensures { IfOk result (λ copy. copy ≡ self.now) }
    {
        Ok(match self {
            Cause::Intensity { flags, stamps } => Cause::Intensity {
                flags: *flags,
                stamps: stamps.try_clone()?,
            },
            Cause::Significant(number) => Cause::Significant(*number),
            Cause::Asked => Cause::Asked,
            Cause::InitFailed(id) => Cause::InitFailed(*id),
        })
    }
}

/// The end of a supervisor: the reason that its parent sees, and the cause.
#[derive(Debug, Drop)]
pub struct SupEnd {
    pub reason: Reason,
    pub cause: Cause,
}

impl SupEnd {
    ghost use Rattle.std.specs.Prelude.{◌≡◌, IfOk};

    /// A copy, unless memory is refused.
    pub fn try_clone(&self) -> Result<Self, AllocError>
        ensures { IfOk result (λ copy. copy ≡ self.now) }
    {
        Ok(SupEnd {
            reason: self.reason,
            cause: self.cause.try_clone()?,
        })
    }
}
