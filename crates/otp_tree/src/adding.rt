//! Supervisors are added to a running tree (supervisor, start_child/2, with a child that is a supervisor).
ghost use Rattle.std.specs.Prelude.{◌≡◌, ◌<◌, IfErr, IfOk, OnOk, length};
ghost use Rattle.otp_spec.specs.declared.limits.TheConstants.{MAX_TABLES};
ghost use Rattle.otp_open.specs.Adds.{AreNear, ArePlannedFrom, AreWithin, Fit};
ghost use Rattle.otp_open.specs.Plans.{HaveBodies};
ghost use Rattle.otp_tree.specs.Adds.{IsAddFault, IsGivenBack, IsOccupiedOnly};

use otp_hand::Shared;
use otp_job::{Body, TableNo};
use otp_open::{TablePlan, are_unused, find_lacking, find_stranger, make_spaces, plan_all};
use otp_spec::MAX_TABLES;
use otp_sup::{Bodies, SupNaming};
use otp_system::{Growth, System};
use std::alloc::Global;
use std::sync::Wait;

/// Why no supervisor was added: the first of these that is so.
#[derive(Clone, Copy, Debug, PartialEq, Eq)]
pub enum AddFault {
    /// A child of this one of them has no body in its plan.
    NoBody { table: usize },
    /// E19: this one of them has a child that is a supervisor, and none of those that are added.
    WrongBody { table: usize },
    /// E0: memory was refused.
    OutOfMemory,
    /// E15: the tree has fewer places left.
    TooManyTables,
    /// A place has had a supervisor already. It doesn't happen, unless somebody made up the place's number and ran it; but what
    /// lies under a lock is known by its type alone, which doesn't say it.
    Occupied,
}

/// Supervisors that were not added.
#[derive(Drop)]
pub struct Unadded<J: Drop, S: Drop> {
    pub fault: AddFault,
    pub plans: Vec<TablePlan<J, S>>,
}

/// Adds supervisors to the running tree. The first is the top of a tree of its own, and each stands before those below its own
/// children. The body of a child that is a supervisor is its place among them, from 0 on, as where a tree is opened.
///
/// They run once the top is somebody's child: the answer is its number, as the body of a start call
/// ([`System::submit`]). Until then they can be called, and take the calls up when they run. All threads may add at
/// once; each call gets numbers of its own, in their order.
///
/// # Errors
///
/// See [`AddFault`]. No supervisor was added, and the plans come back. At [`AddFault::Occupied`] alone some may have
/// been added, and the plans may be gone.
pub fn add_tree<N: SupNaming, J: Drop, S: Drop, R: Wait>(
    rt: &R,
    alloc: Global,
    system: &System<N, J, S>,
    plans: Vec<TablePlan<J, S>>,
) -> Result<TableNo, Unadded<J, S>>
    requires { 0 < length plans.items }
    ensures there { IfOk result (λ top. top < system.now.tables) }
    // A table of each place from there on got the supervisor of its plan.
    ensures planned { IfOk result (λ top. ArePlannedFrom N.plan top plans.items) }
    ensures bodies { OnOk result (HaveBodies plans.items) }
    ensures within { OnOk result (AreWithin plans.items) }
    ensures fault { IfErr result (λ back. IsAddFault plans.items back.fault) }
    ensures back { IfErr result (IsGivenBack plans.items) }
    // A place is said to be occupied only where a table that keeps the rules had an event, or isn't in its place.
    ensures occupied { IfErr result (λ back. IsOccupiedOnly N.plan back.fault) }
{
    if plans.len() > MAX_TABLES {
        return Err(not_added(AddFault::TooManyTables, plans));
    }
    if let Some(table) = find_lacking(plans.as_slice()) {
        return Err(not_added(AddFault::NoBody { table }, plans));
    }
    if let Some(table) = find_stranger(plans.as_slice()) {
        return Err(not_added(AddFault::WrongBody { table }, plans));
    }
    let Ok(spaces) = make_spaces(alloc, plans.as_slice()) else {
        return Err(not_added(AddFault::OutOfMemory, plans));
    };
    let Some(growth) = system.growth() else {
        drop(spaces);
        return Err(not_added(AddFault::TooManyTables, plans));
    };
    add_ready(rt, alloc, system.shared(), growth, plans, spaces)
}

/// Gives them places, under the one lock. It is noted that they are there before any is moved, so that a refusal leaves all as it
/// was; nobody knows their numbers until the answer.
fn add_ready<N: SupNaming, J: Drop, S: Drop, R: Wait>(
    rt: &R,
    alloc: Global,
    shared: &Shared<N, J, S>,
    growth: &Growth<N>,
    plans: Vec<TablePlan<J, S>>,
    spaces: Vec<Bodies<Body<J, S>>>,
) -> Result<TableNo, Unadded<J, S>>
    requires some { 0 < length plans.items }
    requires bodies { HaveBodies plans.items }
    requires near { AreNear plans.items }
    requires fit { Fit plans.items spaces.items }
    ensures there { IfOk result (λ top. top < shared.now.tables) }
    ensures planned { IfOk result (λ top. ArePlannedFrom N.plan top plans.items) }
    ensures fault { IfErr result (λ back. IsAddFault plans.items back.fault) }
    ensures back { IfErr result (IsGivenBack plans.items) }
    ensures occupied { IfErr result (λ back. IsOccupiedOnly N.plan back.fault) }
{
    let mut guard = growth.desk().lock(rt);
    let desk = &mut *guard;
    let count = plans.len();
    let Some(first) = desk.first_for(count, shared.tables().min(MAX_TABLES)) else {
        drop(spaces);
        return Err(not_added(AddFault::TooManyTables, plans));
    };
    if !are_unused(rt, shared, first, count) {
        drop(spaces);
        return Err(not_added(AddFault::Occupied, plans));
    }
    if let Err(_) = growth.take(rt, desk, count) {
        drop(spaces);
        return Err(not_added(AddFault::OutOfMemory, plans));
    }
    if plan_all(rt, alloc, shared, first, plans, spaces) {
        Ok(TableNo::new(first))
    } else {
        Err(not_added(AddFault::Occupied, Vec::new(alloc)))
    }
}

fn not_added<J: Drop, S: Drop>(fault: AddFault, plans: Vec<TablePlan<J, S>>) -> Unadded<J, S>
    ensures fault { result.fault ≡ fault }
    ensures plans { result.plans ≡ plans }
{
    Unadded { fault, plans }
}
