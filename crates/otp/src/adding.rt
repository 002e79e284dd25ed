//! A tree that was drawn up is added to one that runs.
ghost use Rattle.std.specs.Prelude.{◌≡◌, IfErr, None, OnOk};
ghost use Rattle.otp_draft.specs.Faults.{finish_fault};
ghost use Rattle.otp.specs.Runs.{IsNotAdded, IsNotGrown};

use crate::running::plans;
use otp_draft::{Refused, TreeDraft};
use otp_job::Body;
use otp_live::{AddError, Caller};
use otp_sup::SupNaming;
use otp_tree::{System, TablePlan, Unadded};
use std::alloc::Global;
use std::sync::Wait;

/// Why a tree was not added to one that runs.
#[derive(Drop)]
pub enum NotAdded<J: Drop, S: Drop> {
    /// It wasn't finished: its top may not have its flags or specifications, or memory was refused. The tree comes back.
    Unfinished(Refused<TreeDraft<J, S>>),
    /// The tree that runs didn't take it. Its plans come back.
    Unadded(Unadded<J, S>),
    /// The run has ended. Its plans come back, unless none were left.
    Over(Option<Vec<TablePlan<J, S>>>),
}

/// Adds a tree to one that runs, where that was run with room for it ([`run_growing`](crate::run_growing)): from any thread, by a
/// caller. The answer is what a start call brings that makes its top somebody's child
/// ([`Caller::start_child`]): with a child specification of type supervisor, and as much time to shut down as it wants.
///
/// # Errors
///
/// As [`TreeDraft::finish`], with the tree; or as [`Caller::add_tree`], with its plans.
pub fn grow<R, J, S>(
    rt: &R,
    alloc: Global,
    caller: &Caller<J, S>,
    tree: TreeDraft<J, S>,
) -> Result<Body<J, S>, NotAdded<J, S>>
where
    R: Wait,
    J: Drop,
    S: Drop,
    ensures lawful { OnOk result (finish_fault tree ≡ None) }
    ensures back { IfErr result (IsNotGrown tree) }
{
    match plans(alloc, tree) {
        Ok(plans) => match caller.add_tree(rt, plans) {
            Ok(top) => Ok(Body::Sup(top)),
            Err(AddError::Refused(back)) => Err(NotAdded::Unadded(back)),
            Err(AddError::Over(plans)) => Err(NotAdded::Over(plans)),
        },
        Err(back) => Err(NotAdded::Unfinished(back)),
    }
}

/// Adds a tree to one that runs in a session, where that was opened with room ([`with_growing_tree`](crate::with_growing_tree)).
/// The start call is [`System::submit`].
///
/// # Errors
///
/// As [`TreeDraft::finish`], with the tree; or as [`otp_tree::add_tree`], with its plans.
pub fn add_tree<N, R, J, S>(
    rt: &R,
    alloc: Global,
    system: &System<N, J, S>,
    tree: TreeDraft<J, S>,
) -> Result<Body<J, S>, NotAdded<J, S>>
where
    N: SupNaming,
    R: Wait,
    J: Drop,
    S: Drop,
    ensures lawful { OnOk result (finish_fault tree ≡ None) }
    ensures back { IfErr result (IsNotAdded tree) }
{
    match plans(alloc, tree) {
        Ok(plans) => match otp_tree::add_tree(rt, alloc, system, plans) {
            Ok(top) => Ok(Body::Sup(top)),
            Err(back) => Err(NotAdded::Unadded(back)),
        },
        Err(back) => Err(NotAdded::Unfinished(back)),
    }
}
