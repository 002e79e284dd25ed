//! Supervisors are added to places of a tree that have none. All memory is taken before anything is moved, so that a refusal
//! leaves the plans whole; then each place gets its supervisor, under the place's own lock.
ghost use Rattle.std.specs.Prelude.{◌≡◌, ◌+◌, ◌<◌, ◌≤◌, ℕ, All, IfNone, IfOk, IfSome, IsTrue, None, false, length};
ghost use Rattle.std.specs.List.{AllPass};
ghost use Rattle.otp_draft.specs.Plans.{IsNear};
ghost use Rattle.otp_spec.specs.declared.limits.TheConstants.{MAX_TABLES};
ghost use Rattle.otp_open.specs.Adds.{AreNear, ArePlannedFrom, AreWithin, Fit, IsAnyOccupied, IsSpaceFor, IsStrangerAt, is_within};
ghost use Rattle.otp_open.specs.Plans.{HasBodies, HaveBodies, IsLackingAt, LacksBody};
ghost use Rattle.otp_sup.specs.Anew.{IsOccupied, PlannedUnder};
ghost use Rattle.otp_bodies.specs.Bodies.{handed_in};

use crate::plan::TablePlan;
use otp_draft::number_bodies;
use otp_hand::Shared;
use otp_hand::places::{keep, next_of};
use otp_job::Body;
use otp_sup::{Bodies, Sup, SupNaming, count_opened};
use std::alloc::{AllocError, Global};
use std::sync::Wait;

/// The number of the first of these plans that has fewer bodies than an opening makes children.
pub fn find_lacking<J: Drop, S: Drop>(plans: &[TablePlan<J, S>]) -> Option<usize>
    ensures lacks { IfSome result (IsLackingAt plans.now) }
    ensures none { IfNone result (HaveBodies plans.now) }
{
    for place in 0..plans.len() {
        if lacks_body(&plans[place]) {
            return Some(place);
        }
    }
    None
}

/// Whether the plan has fewer bodies than an opening makes children.
fn lacks_body<J: Drop, S: Drop>(plan: &TablePlan<J, S>) -> bool
    ensures lacks { IsTrue result → LacksBody plan.now }
    ensures has { result ≡ false → HasBodies plan.now }
{
    plan.bodies.len() < count_opened(&plan.supervisor)
}

/// The number of the first of these plans that has a supervisor for a child which isn't among them.
pub fn find_stranger<J: Drop, S: Drop>(plans: &[TablePlan<J, S>]) -> Option<usize>
    requires { length plans.now ≤ MAX_TABLES }
    ensures within { IfNone result (AreWithin plans.now) }
    ensures near { IfNone result (AreNear plans.now) }
    ensures strange { IfSome result (IsStrangerAt plans.now) }
{
    let count = plans.len();
    for place in 0..count {
        if !are_within(plans[place].bodies.as_slice(), count) {
            return Some(place);
        }
    }
    None
}

/// Whether each of these bodies that is a supervisor has a number below this one.
fn are_within<J: Drop, S: Drop>(bodies: &[Body<J, S>], count: usize) -> bool
    requires { count ≤ MAX_TABLES }
    ensures within { IsTrue result → AllPass (is_within count) bodies.now }
    ensures near { IsTrue result → All IsNear bodies.now }
    ensures strange { result ≡ false → ¬ (AllPass (is_within count) bodies.now) }
{
    for place in 0..bodies.len() {
        if !is_within(&bodies[place], count) {
            return false;
        }
    }
    true
}

/// Whether the body is no supervisor, or one with a number below this one.
fn is_within<J: Drop, S: Drop>(body: &Body<J, S>, count: usize) -> bool
    requires { count ≤ MAX_TABLES }
    ensures value { result ≡ is_within count body.now }
    ensures near { IsTrue result → IsNear body.now }
{
    match body {
        Body::Sup(table) => table.number() < count,
        Body::Worker(_) | Body::Bridge(_) => true,
    }
}

/// The memory for the bodies of each plan, in their order.
pub fn make_spaces<J: Drop, S: Drop>(
    alloc: Global,
    plans: &[TablePlan<J, S>],
) -> Result<Vec<Bodies<Body<J, S>>>, AllocError>
    ensures { IfOk result (λ spaces. Fit plans.now spaces.items) }
{
    let mut spaces = Vec::new(alloc);
    for place in 0..plans.len() {
        let Ok(space) = Bodies::with_room(alloc, plans[place].bodies.len()) else {
            drop(spaces);
            return Err(AllocError);
        };
        let Ok(()) = keep(&mut spaces, space) else {
            drop(spaces);
            return Err(AllocError);
        };
    }
    Ok(spaces)
}

/// Gives a place its supervisor. False where the place had one that was opened: it is dropped then.
fn plan_one<N: SupNaming, J: Drop, S: Drop, R: Wait>(
    rt: &R,
    alloc: Global,
    sup: &Sup<N, Body<J, S>>,
    plan: TablePlan<J, S>,
    space: Bodies<Body<J, S>>,
    first: usize,
) -> bool
    requires free { N.plan sup.now.inbox ≡ None }
    requires bodies { HasBodies plan }
    requires space { IsSpaceFor plan space }
    requires near { All IsNear plan.bodies.items }
    requires few { first < MAX_TABLES }
    ensures occupied { result ≡ false → IsOccupied N.plan sup.now.inbox }
    // It is this plan's supervisor that a table of the place got.
    ensures planned { IsTrue result → PlannedUnder N.plan sup.now.inbox plan.supervisor (handed_in (length plan.bodies.items)) }
{
    let TablePlan {
        supervisor,
        mut bodies,
    } = plan;
    number_bodies(&mut bodies, first);
    let bodies = space.hand_in_list(bodies);
    match sup.plan_anew(rt, alloc, supervisor, bodies) {
        Ok(()) => true,
        Err((supervisor, bodies)) => {
            drop(supervisor);
            drop(bodies);
            false
        }
    }
}

/// Whether so many places from this one on are there, and none of their supervisors had an event.
pub fn are_unused<N: SupNaming, J: Drop, S: Drop, R: Wait>(
    rt: &R,
    shared: &Shared<N, J, S>,
    first: usize,
    count: usize,
) -> bool
    ensures { result ≡ false → first + count ≤ shared.now.tables → IsAnyOccupied N.plan }
{
    for offset in 0..count {
        let Some(sup) = sup_at(shared, first.saturating_add(offset)) else {
            return false;
        };
        if !sup.is_unused(rt) {
            return false;
        }
    }
    true
}

/// The place with this number.
fn sup_at<N: SupNaming, J: Drop, S: Drop>(
    shared: &Shared<N, J, S>,
    table: usize,
) -> Option<&Sup<N, Body<J, S>>>
    ensures there { IfSome result (λ sup. sup.now.inbox ≡ table) }
    ensures beyond { IfNone result (shared.now.tables ≤ table) }
{
    shared.sups.get(table)
}

/// Gives places their supervisors, from the place with this number on, which no plan had when the name was picked. Takes no memory.
/// False where one of them had an event meanwhile, or isn't there.
pub fn plan_all<N: SupNaming, J: Drop, S: Drop, R: Wait>(
    rt: &R,
    alloc: Global,
    shared: &Shared<N, J, S>,
    first: usize,
    plans: Vec<TablePlan<J, S>>,
    spaces: Vec<Bodies<Body<J, S>>>,
) -> bool
    requires free { (k : ℕ) → first ≤ k → N.plan k ≡ None }
    requires few { first + length plans.items ≤ MAX_TABLES }
    requires bodies { HaveBodies plans.items }
    requires near { AreNear plans.items }
    requires fit { Fit plans.items spaces.items }
    ensures occupied { result ≡ false → first + length plans.items ≤ shared.now.tables → IsAnyOccupied N.plan }
    // Each place got the supervisor of its own plan.
    ensures planned { IsTrue result → ArePlannedFrom N.plan first plans.items }
{
    let mut spaces = spaces.into_iter();
    let mut number = first;
    let mut are_all = true;
    for plan in plans {
        let space = next_of(&mut spaces);
        let Some(sup) = sup_at(shared, number) else {
            drop(plan);
            drop(space);
            return false;
        };
        if !plan_one(rt, alloc, sup, plan, space, first) {
            are_all = false;
        }
        number += 1;
    }
    are_all
}
