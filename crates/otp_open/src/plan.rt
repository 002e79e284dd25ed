//! What a tree is made of.

use otp_job::Body;
use otp_spec::SupSpec;

/// One supervisor of a tree: what it is opened with, which was tested ([`SupSpec::check`]), and a body for each of its child
/// specifications, in their order.
///
/// The supervisors of a tree are numbered in the order in which they stand in the list that is opened; the root is the
/// first. The body of a child that is a supervisor is its number ([`Body::Sup`]).
#[derive(Drop)]
pub struct TablePlan<J: Drop, S: Drop> {
    pub supervisor: SupSpec,
    pub bodies: Vec<Body<J, S>>,
}
