//! Why a supervisor isn't changed.

use otp_spec::SpecFault;
use std::alloc::AllocError;
use thiserror::Error;

/// Why a supervisor gets no other flags and specifications.
#[derive(Clone, Copy, Debug, PartialEq, Eq, Error)]
pub enum ChangeFault {
    /// Work is open, or something waits until none is. So it is, too, where one that doesn't run has children.
    #[error("children are starting or stopping")]
    Busy,
    /// The flags or the specifications are unlawful.
    #[error("the flags or the specifications are unlawful: {0}")]
    Spec(SpecFault),
    /// There are children, and the strategy becomes simple_one_for_one, or was it.
    #[error("children can't turn into dynamic ones, nor dynamic ones into others")]
    Turned,
    /// A child that vanishes has a process, or a retry of its start waits.
    #[error("a child that vanishes has a process")]
    Running,
    /// E0: there is no memory for the change.
    #[error("out of memory")]
    OutOfMemory,
}

impl From<AllocError> for ChangeFault {
    ghost use Rattle.std.specs.Prelude.{◌≡◌};
    ghost use Rattle.otp_base.specs.declared.change.fault.ChangeFault.TheVariants.{OutOfMemory};

    ghost from_gives = { λ _ fault. fault ≡ OutOfMemory };

    fn from(_: AllocError) -> ChangeFault {
        ChangeFault::OutOfMemory
    }
}
