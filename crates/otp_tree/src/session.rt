//! A tree for one call: the name is picked here, so that no caller has to.
ghost use Rattle.std.specs.Prelude.{◌≡◌, ◌<◌, ◌≤◌, ℕ, None, length, IfErr, OnOk};
ghost use Rattle.otp_spec.specs.declared.limits.TheConstants.{MAX_TABLES};
ghost use Rattle.otp_run.specs.Lists.{AllAt};
ghost use Rattle.otp_run.specs.Rule.{all_parts};
ghost use Rattle.otp_open.specs.Opens.{slots_of};
ghost use Rattle.otp_open.specs.Plans.{ArePlanned, HaveBodies, IsOpenFault};

use crate::opening::{Opened, Parts};
use otp_hand::{Hand, TreeClient, TreeNaming};
use otp_inbox::InboxNaming;
use otp_job::Body;
use otp_open::{TablePlan, Unopened, with_spares, without_spares};
use otp_run::RunNaming;
use otp_signals::WordsNaming;
use otp_sup::PlanNaming;
use otp_system::System;
use std::alloc::Global;
use std::marker::Brand;

/// What is done with a tree, from its opening to its close.
///
/// All that belongs to one tree bears one name, `N`, in its type; so nothing of it can be mixed up with another's.
/// The library picks the name, and an implementer is generic in it.
pub trait Session<R, J: Drop, S: Drop>: Drop {
    /// What comes out: whatever has no `N` in its type, as a report.
    type Output;

    /// Is called once, with the open tree.
    fn run<N: TreeNaming + Send + Sync>(
        self,
        rt: &R,
        system: System<N, J, S>,
        hands: Vec<Hand<N, J, S>>,
        client: TreeClient<N, Body<J, S>>,
    ) -> Self::Output;
}

/// Opens a tree of 1 to 64 supervisors, the root first, for 1 to 8 hands, and runs a session with it.
///
/// # Errors
///
/// [`SystemFault`](otp_open::SystemFault), with the plans as they were; the session is dropped.
pub fn with_system<R, J: Drop, S: Drop, T: Session<R, J, S>>(
    rt: &R,
    alloc: Global,
    plans: Vec<TablePlan<J, S>>,
    hands: usize,
    session: T,
) -> Result<T::Output, Unopened<J, S>>
    requires tables { length plans.items ≤ MAX_TABLES }
    requires some { 0 < hands }
    requires few { hands ≤ all_parts }
    // Each plan has a body for each child that an opening makes, or that is why there was no session, or memory was refused.
    ensures bodies { OnOk result (HaveBodies plans.items) }
    ensures fault { IfErr result (λ back. IsOpenFault plans.items back.fault) }
    ensures back { IfErr result (λ back. back.plans.items ≡ plans.items) }
{
    let places = plans.len();
    with_growing_system(rt, alloc, plans, places, hands, session)
}

/// Opens a tree for 1 to 8 hands that has places for so many supervisors, 1 to 64, and runs a session with it. The first have those of
/// the plans, the root first; to the others supervisors can be added while it runs ([`add_tree`](crate::add_tree)).
///
/// Each place has an inbox, a way to it in each hand and client, 256 signal words, and a word for its counts from the opening on.
///
/// # Errors
///
/// As [`with_system`].
pub fn with_growing_system<R, J: Drop, S: Drop, T: Session<R, J, S>>(
    rt: &R,
    alloc: Global,
    plans: Vec<TablePlan<J, S>>,
    places: usize,
    hands: usize,
    session: T,
) -> Result<T::Output, Unopened<J, S>>
    requires tables { length plans.items ≤ places }
    requires places { places ≤ MAX_TABLES }
    requires some { 0 < hands }
    requires few { hands ≤ all_parts }
    ensures bodies { OnOk result (HaveBodies plans.items) }
    ensures fault { IfErr result (λ back. IsOpenFault plans.items back.fault) }
    ensures back { IfErr result (λ back. back.plans.items ≡ plans.items) }
{
    let opened = plans.len();
    let all = match with_spares(alloc, plans, places) {
        Ok(all) => all,
        Err(plans) => {
            drop(session);
            return Err(Unopened::for_memory(plans));
        }
    };
    match run_padded(rt, alloc, all, opened, hands, session) {
        Ok(output) => Ok(output),
        Err(back) => {
            let Unopened { fault, plans } = back;
            Err(Unopened {
                fault,
                plans: without_spares(plans, opened),
            })
        }
    }
}

/// Runs a session with a tree whose last plans are of spare places. Where the tree isn't opened all plans come back.
fn run_padded<R, J: Drop, S: Drop, T: Session<R, J, S>>(
    rt: &R,
    alloc: Global,
    plans: Vec<TablePlan<J, S>>,
    opened: usize,
    hands: usize,
    session: T,
) -> Result<T::Output, Unopened<J, S>>
    requires tables { length plans.items ≤ MAX_TABLES }
    requires some { 0 < hands }
    requires few { hands ≤ all_parts }
    ensures bodies { OnOk result (HaveBodies plans.items) }
    ensures fault { IfErr result (λ back. IsOpenFault plans.items back.fault) }
    ensures back { IfErr result (λ back. back.plans.items ≡ plans.items) }
{
    let parts = match Parts::open(alloc, plans, hands) {
        Ok(parts) => parts,
        Err(back) => {
            drop(session);
            return Err(back);
        }
    };
    run_named::<Brand, R, J, S, T>(rt, alloc, parts, opened, session)
}

// Whoever calls this picks the names, which the language allows for the traits alone that have them.
fn run_named<
    N: WordsNaming + InboxNaming + PlanNaming + RunNaming + Send + Sync,
    R,
    J: Drop,
    S: Drop,
    T: Session<R, J, S>,
>(
    rt: &R,
    alloc: Global,
    parts: Parts<J, S>,
    opened: usize,
    session: T,
) -> Result<T::Output, Unopened<J, S>>
    requires words { parts.words.words ≡ N.words }
    requires inboxes { AllAt (λ k id. id ≡ N.inbox k) parts.inboxes.items }
    requires plans { ArePlanned N.plan parts.plans.items }
    requires free { (k : ℕ) → opened ≤ k → N.plan k ≡ None }
    requires as_many { length parts.plans.items ≡ length parts.inboxes.items }
    requires outer { parts.outer ≡ N.inbox (length parts.inboxes.items) }
    requires deques { AllAt (λ k id. id ≡ N.deque k) parts.queue }
    requires slots { parts.words.slots ≡ slots_of (length parts.inboxes.items) }
    requires few { length parts.inboxes.items ≤ MAX_TABLES }
    ensures bodies { OnOk result (HaveBodies parts.plans.items) }
    ensures fault { IfErr result (λ back. IsOpenFault parts.plans.items back.fault) }
    ensures back { IfErr result (λ back. back.plans.items ≡ parts.plans.items) }
{
    let all = match parts.named_growing::<N>(alloc, opened) {
        Ok(all) => all,
        Err(back) => {
            drop(session);
            return Err(back);
        }
    };
    let Opened {
        system,
        hands,
        client,
        passes,
    } = all;
    drop(passes);
    Ok(session.run::<N>(rt, system, hands, client))
}
