//! What to do about a fault.

ghost use Rattle.std.specs.Prelude.{◌≡◌};
ghost use Rattle.otp_check.specs.Advice.{blamed_key, is_detailed, only_child_text, remedy_text};

use otp_file::{ChildKey, FaultPlace, FlagKey, TreeFault};
use otp_spec::SpecFault;

/// Whether it is a fault of a key or a value that was read, or of a text that is no document: what is said of it is what was read.
#[tactic(auto, unfolding(crate::specs::Advice::is_detailed))]
pub(crate) fn is_detailed(fault: &TreeFault) -> bool
    ensures { result ≡ is_detailed fault.now }
{
    match fault {
        TreeFault::NotToml | TreeFault::UnknownKey(_) | TreeFault::WrongKind(_) => true,
        TreeFault::BadFlag(_) | TreeFault::BadSpec { .. } => true,
        _ => false,
    }
}

/// What to do about a fault of a whole table: what a child lacks, or why its values, or all of them, don't go together.
#[tactic(auto, unfolding(crate::specs::Advice::remedy_text))]
pub(crate) fn remedy(fault: &TreeFault) -> &'static str
    ensures { result.now ≡ remedy_text fault.now }
{
    match fault {
        TreeFault::MissingKey {
            key: ChildKey::Id,
            ..
        } => "id is missing; write id = \"NAME\"",
        TreeFault::MissingKey {
            key: ChildKey::Start,
            ..
        } => "start is missing; write start = \"NAME\", the module of its start function",
        TreeFault::Unlawful(SpecFault::SignificantPermanent { .. }) =>
            "significant and permanent; a significant child is \"transient\" or \"temporary\"",
        TreeFault::Unlawful(SpecFault::SignificantNever { .. }) =>
            "significant under auto_shutdown = \"never\"; set auto_shutdown, or leave out significant",
        TreeFault::Unlawful(SpecFault::DuplicateId { .. }) =>
            "an earlier child has this id; each id stands once",
        TreeFault::Unlawful(SpecFault::TooManyChildren) =>
            "more than 256 children; a supervisor has at most so many: put some into the tree of a child",
        TreeFault::Unlawful(SpecFault::SimpleNeedsOne) =>
            "not one child; simple_one_for_one has exactly one [[child]], which all are made from",
        TreeFault::NestedNotInfinity { .. } =>
            "a child that has a tree is waited for; write shutdown = \"infinity\", or leave it out",
        TreeFault::WrongKind(FaultPlace::Child(_)) => "no table; each child is one, [[child]]",
        TreeFault::WrongKind(FaultPlace::ChildKey(_, ChildKey::Kind)) =>
            "a child that has a tree is a supervisor; write type = \"supervisor\", or leave it out",
        TreeFault::TooDeep =>
            "supervisors are nested more than 16 deep; put this one's children into a tree above it",
        TreeFault::TooManyTables =>
            "more than 64 supervisors; put children of some into the tree of another",
        _ => "refused",
    }
}

/// Why one child is not the one of simple_one_for_one.
#[tactic(auto, unfolding(crate::specs::Advice::only_child_text))]
pub(crate) fn no_only_child() -> &'static str
    ensures { result.now ≡ only_child_text }
{
    "under simple_one_for_one the one [[child]] has no tree; leave the tree out, or set another strategy"
}

/// The key of its table on whose line a fault of a whole table is told.
#[tactic(auto, unfolding(crate::specs::Advice::blamed_key))]
pub(crate) fn key_to_blame(fault: &TreeFault) -> &'static str
    ensures { result.now ≡ blamed_key fault.now }
{
    match fault {
        TreeFault::Unlawful(
            SpecFault::SignificantPermanent { .. } | SpecFault::SignificantNever { .. },
        ) => ChildKey::Significant.name(),
        TreeFault::Unlawful(SpecFault::DuplicateId { .. }) => ChildKey::Id.name(),
        TreeFault::Unlawful(SpecFault::SimpleNeedsOne) => FlagKey::Strategy.name(),
        TreeFault::NestedNotInfinity { .. } => ChildKey::Shutdown.name(),
        TreeFault::WrongKind(FaultPlace::ChildKey(_, ChildKey::Kind)) => ChildKey::Kind.name(),
        _ => "",
    }
}
