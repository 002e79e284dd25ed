//! The one bound for all that a tree's name says.
use otp_run::RunNaming;
use otp_sup::SupNaming;

/// A name for a tree: for its supervisors, and for the deques of its hands.
pub trait TreeNaming: SupNaming + RunNaming {}

impl<N: SupNaming + RunNaming> TreeNaming for N {}
