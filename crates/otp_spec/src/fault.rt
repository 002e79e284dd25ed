ghost use Rattle.std.specs.Prelude.{◌≡◌};
ghost use Rattle.otp_spec.specs.Faults.{code_of};

use std::fmt;
use thiserror::Error;

/// The keys of a specification whose values can be unlawful.
#[derive(Clone, Copy, Debug, PartialEq, Eq)]
pub enum SpecKey {
    /// The id is no lawful name.
    Id,
    /// The name of the start function's module is none.
    Start,
    /// One of the modules' names is none.
    Modules,
}

impl fmt::Display for SpecKey {
    fn fmt<W: fmt::Write>(&self, f: &mut fmt::Formatter<W>) -> fmt::Result {
        match self {
            SpecKey::Id => write!(f, "id"),
            SpecKey::Start => write!(f, "start"),
            SpecKey::Modules => write!(f, "modules"),
        }
    }
}

/// Why flags or specifications are refused. An `index` is the place in the list, from 0.
#[derive(Clone, Copy, Debug, PartialEq, Eq, Error)]
pub enum SpecFault {
    /// E1: the intensity or the period is out of its limits.
    #[error("a flag is out of its limits: intensity 0 to 1000, period 1 to 1000000 seconds")]
    BadFlag,
    /// E2: the key's value is not a lawful name.
    #[error("specification {index}: the value of {key} is not a lawful name")]
    BadSpec { index: usize, key: SpecKey },
    /// E3: a specification before this one has its id.
    #[error("specification {index}: an earlier one has the same id")]
    DuplicateId { index: usize },
    /// E4: the child is significant and permanent.
    #[error("specification {index}: a significant child may not be permanent")]
    SignificantPermanent { index: usize },
    /// E5: the child is significant under a supervisor that never shuts down by itself.
    #[error("specification {index}: a significant child needs an automatic shutdown")]
    SignificantNever { index: usize },
    /// E6: a supervisor with the strategy simple_one_for_one has one specification.
    #[error("simple_one_for_one needs exactly one specification")]
    SimpleNeedsOne,
    /// E7: a supervisor has at most 256 children.
    #[error("a supervisor has at most 256 children")]
    TooManyChildren,
}

impl SpecFault {
    /// The number by which the program names the fault: 1 to 7, printed as `E1` to `E7`.
    pub fn code(&self) -> u8
        ensures { result ≡ code_of self.now }
    {
        match self {
            SpecFault::BadFlag => 1,
            SpecFault::BadSpec { .. } => 2,
            SpecFault::DuplicateId { .. } => 3,
            SpecFault::SignificantPermanent { .. } => 4,
            SpecFault::SignificantNever { .. } => 5,
            SpecFault::SimpleNeedsOne => 6,
            SpecFault::TooManyChildren => 7,
        }
    }
}
