//! Which events start a child, asked beforehand of a core ([`NeedsNumber`]): the rules are walked without a change and, by the code,
//! without memory. No step asks it; it is for callers that must have a number before they step.
#![tactic(auto)]

pub mod asking;
pub(crate) mod needs;
pub mod order;
pub(crate) mod waited;

pub use asking::NeedsNumber;
