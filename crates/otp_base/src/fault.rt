//! Why no core goes on from a checkpoint.

use otp_spec::SpecFault;
use thiserror::Error;

/// Why a checkpoint is unlawful: no supervisor stands so between two events.
#[derive(Clone, Copy, Debug, PartialEq, Eq, Error)]
pub enum BaseFault {
    /// The flags or the specifications are unlawful.
    #[error("the flags or the specifications are unlawful: {0}")]
    Spec(SpecFault),
    /// There are more children than a supervisor has.
    #[error("too many children")]
    Rows,
    /// The last event was later than any reading of a clock.
    #[error("the last event is too late")]
    Reading,
    /// The restarts aren't in order, or later than the last event, or more than are kept; or they are one too many, and the
    /// supervisor doesn't end by them; or it ends by them, and they aren't.
    #[error("the restarts do not fit")]
    Restarts,
    /// There were more events, or starts, than a checkpoint counts, or more starts than events.
    #[error("the counts do not fit")]
    Counts,
}

/// Why no core is resumed.
#[derive(Clone, Copy, Debug, PartialEq, Eq, Error)]
pub enum ResumeFault {
    /// The checkpoint is unlawful.
    #[error("the checkpoint is unlawful: {0}")]
    Base(BaseFault),
    /// E0: there is no memory for the core.
    #[error("out of memory")]
    OutOfMemory,
}
