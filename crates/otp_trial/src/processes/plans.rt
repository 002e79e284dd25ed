//! What a script said beforehand: what the next starts of children answer, and which children don't end at once.

ghost use Rattle.std.specs.Prelude.{◌≡◌, ◌<◌, ◌++◌, ◌∷◌, [], IfSome, OnOk, Some, length, position, slice_get};
ghost use Rattle.std.specs.List.{remove};
ghost use Rattle.otp_trial.specs.Plans.{is_for, is_hung, is_meant, plan_for, start_found, without_plan};

use otp_reason::Name;
use otp_script::{Child, NextStart};
use std::alloc::AllocError;

/// What the next start of the child with this id answers, of the supervisor at this place.
#[derive(Clone, Copy, Debug, PartialEq, Eq)]
pub struct PlannedStart {
    pub place: usize,
    pub id: Name,
    pub start: NextStart,
    /// The line that says so.
    pub line: u64,
    /// The child was there then. Otherwise a later `start` may add it.
    pub is_known: bool,
}

/// A child of the supervisor at this place that doesn't end when it is next asked to shut down, or so much later.
#[derive(Clone, Copy, Debug, PartialEq, Eq)]
pub struct Hang {
    pub place: usize,
    pub child: Child,
    /// So many milliseconds after it was asked it ends; or it doesn't.
    pub delay: Option<u64>,
    /// The line that says so.
    pub line: u64,
}

/// Whether a plan is for this child of the supervisor at this place.
fn is_for(place: usize, id: &Name, plan: &PlannedStart) -> bool
    ensures { result ≡ is_for place id.now plan.now }
{
    plan.place == place && plan.id == *id
}

/// The place of the first plan for this child of the supervisor at this place.
fn plan_of(plans: &[PlannedStart], place: usize, id: &Name) -> Option<usize>
    ensures place { result ≡ position (is_for place id.now) plans.now }
    ensures inside { IfSome result (λ at. at < length plans.now) }
{
    plans.iter().position(|plan| is_for(place, id, plan))
}

/// The place of the first plan for this child of the supervisor at this place, if the child has an id.
#[tactic(auto, unfolding(crate::specs::Plans::plan_for))]
fn plan_for(plans: &[PlannedStart], place: usize, id: &Option<Name>) -> Option<usize>
    ensures place { result ≡ plan_for place id.now plans.now }
    ensures inside { IfSome result (λ at. at < length plans.now) }
{
    match id {
        None => None,
        Some(id) => plan_of(plans, place, id),
    }
}

/// How the start of this child goes, if the script said so. That is used up.
#[tactic(auto, unfolding(crate::specs::Plans::start_found, crate::specs::Plans::without_plan))]
pub(crate) fn take_start(
    plans: &mut Vec<PlannedStart>,
    place: usize,
    id: &Option<Name>,
) -> Option<NextStart>
    ensures start { result ≡ start_found plans.old.items (plan_for place id.now plans.old.items) }
    ensures used { plans.new.items ≡ without_plan plans.old.items (plan_for place id.now plans.old.items) }
{
    let found = plan_for(plans.as_slice(), place, id);
    match found {
        None => None,
        Some(at) => {
            let plan = plans[at];
            plans.remove(at);
            Some(plan.start)
        }
    }
}

/// Whether the script means this child: by its id or its process number.
#[tactic(auto, unfolding(crate::specs::Plans::is_meant))]
fn is_meant(child: &Child, id: &Option<Name>, number: u64) -> bool
    ensures { result ≡ is_meant child.now id.now number }
{
    match child {
        Child::Named(name) => *id == Some(*name),
        Child::Numbered(process) => *process == number,
    }
}

/// Whether this child of the supervisor at this place is the one that doesn't end at once.
#[tactic(auto, unfolding(crate::specs::Plans::is_hung))]
fn is_hung(place: usize, id: &Option<Name>, number: u64, hang: &Hang) -> bool
    ensures { result ≡ is_hung place id.now number hang.now }
{
    hang.place == place && is_meant(&hang.child, id, number)
}

/// Where the first stands that means this child of the supervisor at this place.
pub(crate) fn hang_of(
    hanging: &[Hang],
    place: usize,
    id: &Option<Name>,
    number: u64,
) -> Option<usize>
    ensures place { result ≡ position (is_hung place id.now number) hanging.now }
    ensures inside { IfSome result (λ at. at < length hanging.now) }
{
    hanging
        .iter()
        .position(|hang| is_hung(place, id, number, hang))
}

/// Takes out of the list, at this place, what a script says of a child that doesn't end at once when it is asked to shut down.
pub(crate) fn take_hang(hanging: &mut Vec<Hang>, at: usize) -> Hang
    requires { at < length hanging.old.items }
    ensures hang { slice_get hanging.old.items at ≡ Some result }
    ensures used { hanging.new.items ≡ remove hanging.old.items at }
{
    let hang = hanging[at];
    hanging.remove(at);
    hang
}

/// Puts a plan behind the others.
pub(crate) fn put_plan(plans: &mut Vec<PlannedStart>, plan: PlannedStart) -> Result<(), AllocError>
    ensures { OnOk result (plans.new.items ≡ plans.old.items ++ plan ∷ []) }
{
    plans.push(plan).map_err(|_| AllocError)
}

/// Puts behind the others that a child doesn't end at once.
pub(crate) fn put_hang(hanging: &mut Vec<Hang>, hang: Hang) -> Result<(), AllocError>
    ensures { OnOk result (hanging.new.items ≡ hanging.old.items ++ hang ∷ []) }
{
    hanging.push(hang).map_err(|_| AllocError)
}
