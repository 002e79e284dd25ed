//! Why a tree is not drawn up as it is wanted.
ghost use Rattle.std.specs.Prelude.{◌≡◌};

use otp_spec::SpecFault;
use std::fmt;
use thiserror::Error;

/// Why a child was not added, or a tree not finished.
#[derive(Clone, Copy, Debug, PartialEq, Eq, Error)]
pub enum DraftFault {
    /// E0: memory was refused.
    #[error("out of memory")]
    OutOfMemory,
    /// E1 to E7: no supervisor may have these flags or specifications.
    #[error("{0}")]
    Spec(SpecFault),
    /// A child of a supervisor with the strategy simple_one_for_one is handed in when it is started, and not before
    /// (Supervisor Behaviour, Simplified one_for_one Supervisors).
    #[error("a dynamic child is handed in when it is started")]
    Dynamic,
    /// The child has nothing to run, which only the one specification of dynamic children has.
    #[error("the child has nothing to run")]
    NoBody,
    /// E19: a worker's job stands where a supervisor is wanted, or a supervisor where a worker is.
    #[error("what the child runs isn't of its type")]
    WrongBody,
    /// E16: the shutdown of a child that is a supervisor is infinity (supervisor, child specification).
    #[error("a child that is a supervisor has the shutdown infinity")]
    NestedNotInfinity,
    /// E14: supervisors would stand on more than 16 levels.
    #[error("supervisors stand on at most 16 levels")]
    TooDeep,
    /// E15: there would be more than 64 supervisors.
    #[error("a tree has at most 64 supervisors")]
    TooManyTables,
}

/// What was refused: why, and what was handed in, which comes back.
#[derive(Drop)]
pub struct Refused<T: Drop> {
    pub fault: DraftFault,
    pub given: T,
}

impl<T: Drop> fmt::Debug for Refused<T> {
    /// The fault alone.
    fn fmt<W: fmt::Write>(&self, f: &mut fmt::Formatter<W>) -> fmt::Result {
        write!(f, "{:?}", self.fault)
    }
}

impl<T: Drop> fmt::Display for Refused<T> {
    /// The fault alone.
    fn fmt<W: fmt::Write>(&self, f: &mut fmt::Formatter<W>) -> fmt::Result {
        write!(f, "{}", self.fault)
    }
}

impl<T: Drop> From<Refused<T>> for DraftFault {
    ghost use Rattle.std.specs.Prelude.{◌≡◌};

    ghost from_gives = { λ back fault. fault ≡ back.fault };

    /// The fault alone: what was handed in is dropped.
    fn from(back: Refused<T>) -> Self {
        let Refused { fault, given } = back;
        drop(given);
        fault
    }
}
