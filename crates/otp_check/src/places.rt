//! The places of children in faults.

ghost use Rattle.std.specs.Prelude.{◌≡◌};
ghost use Rattle.otp_check.specs.Places.{moved_to, place_of};

use otp_file::{FaultPlace, TreeFault};
use otp_spec::SpecFault;

/// The fault of the child at this place, which was judged alone.
#[tactic(auto, unfolding(crate::specs::Places::moved_to))]
pub(crate) fn moved_to(fault: TreeFault, index: usize) -> TreeFault
    ensures { result ≡ moved_to fault index }
{
    match fault {
        TreeFault::UnknownKey(FaultPlace::Child(_)) => TreeFault::UnknownKey(FaultPlace::Child(
            index,
        )),
        TreeFault::MissingKey { index: _, key } => TreeFault::MissingKey { index, key },
        TreeFault::WrongKind(FaultPlace::ChildKey(_, key)) => {
            TreeFault::WrongKind(FaultPlace::ChildKey(index, key))
        }
        TreeFault::BadSpec { index: _, key } => TreeFault::BadSpec { index, key },
        TreeFault::NestedNotInfinity { .. } => TreeFault::NestedNotInfinity { index },
        TreeFault::Unlawful(SpecFault::SignificantPermanent { .. }) => {
            TreeFault::Unlawful(SpecFault::SignificantPermanent { index })
        }
        TreeFault::Unlawful(SpecFault::SignificantNever { .. }) => {
            TreeFault::Unlawful(SpecFault::SignificantNever { index })
        }
        other => other,
    }
}

/// The place of the child of whose table this is a fault, whatever its siblings are.
#[tactic(auto, unfolding(crate::specs::Places::place_of))]
pub(crate) fn place_of(fault: &TreeFault) -> Option<usize>
    ensures { result ≡ place_of fault.now }
{
    match fault {
        TreeFault::UnknownKey(FaultPlace::Child(index))
        | TreeFault::WrongKind(FaultPlace::Child(index) | FaultPlace::ChildKey(index, _))
        | TreeFault::MissingKey { index, .. }
        | TreeFault::BadSpec { index, .. }
        | TreeFault::NestedNotInfinity { index } => Some(*index),
        _ => None,
    }
}
