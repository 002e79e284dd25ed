//! Why something is not taken, and why a supervisor isn't changed.
ghost use Rattle.std.specs.Prelude.{◌≡◌};
ghost use Rattle.otp_driver.specs.DrivenChanged.{change_refusal, resume_refusal};
ghost use Rattle.otp_driver.specs.Members.{fault_of};

use otp_base::change::ChangeFault;
use otp_core::{BaseFault, EventFault, ResumeFault};
use std::alloc::AllocError;
use thiserror::Error;

/// Why something is not taken. The tree is then as it was.
#[derive(Clone, Copy, Debug, PartialEq, Eq, Error)]
pub enum DriveFault {
    /// E0: memory was refused. The same may be told again.
    #[error("out of memory")]
    OutOfMemory,
    /// Orders of this supervisor wait to be taken, and it keeps as many events and answers as it may. It goes on once they are
    /// taken.
    #[error("orders wait to be taken")]
    OrdersWait,
    /// E8: there were as many events, or numbers of processes, as there may be in all. It never goes on.
    #[error("history full")]
    Spent,
    /// The tree has no supervisor of this number.
    #[error("there is no supervisor of this number")]
    NoSupervisor,
    /// The process is a supervisor of the tree, of which nobody tells anything from outside.
    #[error("the process is a supervisor of the tree")]
    IsNested,
    /// The reading of the clock is above [`MAX_READING`](otp_spec::MAX_READING).
    #[error("the clock's reading is too large")]
    BadReading,
}

impl From<AllocError> for DriveFault {
    ghost use Rattle.std.specs.Prelude.{◌≡◌};
    ghost use Rattle.otp_driver.specs.declared.driven.fault.DriveFault.TheVariants.{OutOfMemory};

    ghost from_gives = { λ _ fault. fault ≡ OutOfMemory };

    fn from(_error: AllocError) -> Self {
        DriveFault::OutOfMemory
    }
}

/// Why a core takes no event, as the driver says it.
pub(crate) fn fault_of(cause: EventFault) -> DriveFault
    ensures { result ≡ fault_of cause }
{
    match cause {
        EventFault::OutOfMemory => DriveFault::OutOfMemory,
        EventFault::OrdersWait => DriveFault::OrdersWait,
        EventFault::HistoryFull => DriveFault::Spent,
    }
}

/// Why a supervisor doesn't go on under other flags and specifications. It is then as it was.
#[derive(Clone, Copy, Debug, PartialEq, Eq, Error)]
pub enum ChangeRefusal {
    /// E0: memory was refused. The same may be tried again.
    #[error("out of memory")]
    OutOfMemory,
    /// Orders of this supervisor wait to be taken.
    #[error("orders wait to be taken")]
    OrdersWait,
    /// The change isn't made, for this; never for want of memory.
    #[error("{0}")]
    Change(ChangeFault),
    /// No supervisor goes on from the checkpoint that the change gives, as it has this fault.
    #[error("{0}")]
    Base(BaseFault),
    /// It is in the tree no more, and runs. A supervisor by itself is never refused for this.
    #[error("it is in the new tree no more, and runs")]
    Runs,
    /// A child that has a process would be one of another kind: a supervisor of the tree, or none. A supervisor by itself is never
    /// refused for this.
    #[error("a child that has a process is of another kind in the new tree")]
    Turns,
}

impl From<AllocError> for ChangeRefusal {
    ghost use Rattle.std.specs.Prelude.{◌≡◌};
    ghost use Rattle.otp_driver.specs.declared.driven.fault.ChangeRefusal.TheVariants.{OutOfMemory};

    ghost from_gives = { λ _ fault. fault ≡ OutOfMemory };

    fn from(_error: AllocError) -> Self {
        ChangeRefusal::OutOfMemory
    }
}

/// Why a change isn't made, as the driver says it.
pub(crate) fn change_refusal(why: ChangeFault) -> ChangeRefusal
    ensures { result ≡ change_refusal why }
{
    match why {
        ChangeFault::OutOfMemory => ChangeRefusal::OutOfMemory,
        why => ChangeRefusal::Change(why),
    }
}

/// Why no core goes on from a checkpoint, as the driver says it.
pub(crate) fn resume_refusal(why: ResumeFault) -> ChangeRefusal
    ensures { result ≡ resume_refusal why }
{
    match why {
        ResumeFault::OutOfMemory => ChangeRefusal::OutOfMemory,
        ResumeFault::Base(why) => ChangeRefusal::Base(why),
    }
}
