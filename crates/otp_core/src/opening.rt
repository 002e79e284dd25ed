//! Why a core is not opened.

use otp_spec::SpecFault;
use thiserror::Error;

/// Why a core is not opened.
#[derive(Clone, Copy, Debug, PartialEq, Eq, Error)]
pub enum OpenFault {
    /// The flags or the specifications are unlawful.
    #[error("the flags or the specifications are unlawful: {0}")]
    Spec(SpecFault),
    /// E0: there is no memory for the specifications.
    #[error("out of memory")]
    OutOfMemory,
}
