//! Why a tree was not run.
ghost use Rattle.std.specs.Prelude.{◌≡◌};
ghost use Rattle.otp.specs.Faults.{fault_of, run_fault};

use otp_draft::{DraftFault, Refused, TreeDraft};
use otp_tree::{CloseFault, RunFault, SystemFault, Unopened};
use std::alloc::AllocError;
use thiserror::Error;

/// Why a tree was not run, or has no report: what is left where nothing that was handed in is wanted back.
#[derive(Clone, Copy, Debug, PartialEq, Eq, Error)]
pub enum Fault {
    /// E0: memory was refused.
    #[error("out of memory")]
    OutOfMemory,
    /// The tree can't be drawn up so.
    #[error("{0}")]
    Draft(DraftFault),
    /// A tree is served by 1 to 8 hands.
    #[error("a tree is served by 1 to 8 hands")]
    Hands,
    /// A child has no body, which a draft gives each.
    #[error("a child has nothing to run")]
    NoBody,
    /// E20: a part of the tree is missing at its close.
    #[error("a part of the tree is missing at its close")]
    Missing,
    /// E20: a supervisor's lock holds another one's, which doesn't happen ([`CloseFault::Misplaced`]).
    #[error("a supervisor's lock holds another one's")]
    Misplaced,
    /// E17: a supervisor was told an end of another that isn't the one that the other's own history gives.
    #[error("a supervisor was told another's end otherwise than that one's history gives it")]
    Mismatch,
}

/// Why a tree was not run, or has no report.
#[derive(Drop)]
pub enum Unrun<J: Drop, S: Drop> {
    /// It wasn't finished: the root may not have its flags or specifications, or memory was refused. The tree comes back.
    Unfinished(Refused<TreeDraft<J, S>>),
    /// A tree is served by 1 to 8 hands. The tree comes back.
    Hands(TreeDraft<J, S>),
    /// It was not opened, and its plans come back with the bodies of all children; or it was not closed.
    Run(RunFault<J, S>),
}

impl From<AllocError> for Fault {
    ghost use Rattle.std.specs.Prelude.{◌≡◌};
    ghost use Rattle.otp.specs.declared.fault.Fault.TheVariants.{OutOfMemory};

    ghost from_gives = { λ _ fault. fault ≡ OutOfMemory };

    fn from(_: AllocError) -> Fault {
        Fault::OutOfMemory
    }
}

impl From<DraftFault> for Fault {
    ghost use Rattle.std.specs.Prelude.{◌≡◌};
    ghost use Rattle.otp.specs.Faults.{fault_of};

    ghost from_gives = { λ why fault. fault ≡ fault_of why };

    fn from(why: DraftFault) -> Fault {
        match why {
            DraftFault::OutOfMemory => Fault::OutOfMemory,
            other => Fault::Draft(other),
        }
    }
}

impl<T: Drop> From<Refused<T>> for Fault {
    ghost use Rattle.std.specs.Prelude.{◌≡◌};
    ghost use Rattle.otp.specs.Faults.{fault_of};

    ghost from_gives = { λ back fault. fault ≡ fault_of back.fault };

    /// What was handed in is dropped.
    fn from(back: Refused<T>) -> Fault {
        let Refused { fault, given } = back;
        drop(given);
        Fault::from(fault)
    }
}

impl From<SystemFault> for Fault {
    ghost use Rattle.std.specs.Prelude.{◌≡◌};
    ghost use Rattle.otp.specs.Faults.{open_fault};

    ghost from_gives = { λ why fault. fault ≡ open_fault why };

    fn from(why: SystemFault) -> Fault {
        match why {
            SystemFault::OutOfMemory => Fault::OutOfMemory,
            SystemFault::NoBody { .. } => Fault::NoBody,
        }
    }
}

impl<J: Drop, S: Drop> From<RunFault<J, S>> for Fault {
    ghost use Rattle.std.specs.Prelude.{◌≡◌};
    ghost use Rattle.otp.specs.Faults.{run_fault};

    ghost from_gives = { λ why fault. fault ≡ run_fault why };

    /// The plans that came back are dropped.
    fn from(why: RunFault<J, S>) -> Fault {
        match why {
            RunFault::Open(back) => {
                let Unopened { fault, plans } = back;
                drop(plans);
                Fault::from(fault)
            }
            RunFault::Close(CloseFault::OutOfMemory(())) => Fault::OutOfMemory,
            RunFault::Close(CloseFault::Missing(())) => Fault::Missing,
            RunFault::Close(CloseFault::Misplaced((), _)) => Fault::Misplaced,
            RunFault::Close(CloseFault::Mismatch(_, report)) => {
                drop(report);
                Fault::Mismatch
            }
        }
    }
}

impl<J: Drop, S: Drop> From<Unrun<J, S>> for Fault {
    ghost use Rattle.std.specs.Prelude.{◌≡◌};
    ghost use Rattle.otp.specs.Faults.{unrun_fault};

    ghost from_gives = { λ why fault. fault ≡ unrun_fault why };

    /// The tree that was not finished is dropped.
    fn from(why: Unrun<J, S>) -> Fault {
        match why {
            Unrun::Unfinished(back) => Fault::from(back),
            Unrun::Hands(root) => {
                drop(root);
                Fault::Hands
            }
            Unrun::Run(fault) => Fault::from(fault),
        }
    }
}
