//! A tree is opened, served by each hand in a thread of its own, and closed.
ghost use Rattle.std.specs.Prelude.{◌≡◌, ◌<◌, ◌≤◌, ℕ, length, IfErr, IfOk, None};
ghost use Rattle.otp_spec.specs.declared.limits.TheConstants.{MAX_TABLES};
ghost use Rattle.otp_run.specs.Lists.{AllAt};
ghost use Rattle.otp_run.specs.Rule.{all_parts};
ghost use Rattle.otp_hand.specs.Standings.{reach_of, standing_of, standings};
ghost use Rattle.otp_open.specs.Opens.{slots_of};
ghost use Rattle.otp_open.specs.Plans.{ArePlanned, first_plans};
ghost use Rattle.otp_tree.specs.Runs.{IsGrownRun, IsUnrun};

use crate::calling::locked::{Locked, ReachNaming};
use crate::crew::Crew;
use crate::live::serve;
use crate::seat::CrewSeat;
use crate::watch::Watch;
use otp_hand::TreeNaming;
use otp_inbox::InboxNaming;
use otp_job::bridge::Subsystem;
use otp_job::{Body, Job};
use otp_run::RunNaming;
use otp_signals::WordsNaming;
use otp_sup::PlanNaming;
use otp_tree::{
    Hand, MAX_HANDS, Opened, Parts, Report, RunFault, System, TablePlan, TreeClient, finish_tree,
};
use std::alloc::Global;
use std::marker::Brand;
use std::sync::{Mutex, Wait};
use std::thread;
use std::thread::Threads;
use std::time::Clock;

/// Opens a tree of these places, of which the first so many have a supervisor, for so many hands, serves it by each of them until its
/// root has ended, and closes it.
pub(crate) fn serve_tree<R, J, S, W>(
    rt: &R,
    alloc: Global,
    plans: Vec<TablePlan<J, S>>,
    known: usize,
    hands: usize,
    crew: &Crew<'_, R, W, J, S>,
) -> Result<Report<J, S>, RunFault<J, S>>
where
    R: Threads + Wait + Clock + Sync,
    J: Job + Send,
    S: Subsystem + Send,
    W: Watch + Sync,
    requires tables { length plans.items ≤ MAX_TABLES }
    requires some { 0 < hands }
    requires few { hands ≤ all_parts }
    ensures run { IfOk result (IsGrownRun (first_plans known plans.items) (length plans.items) plans.items) }
    ensures unrun { IfErr result (IsUnrun plans.items) }
{
    let parts = match Parts::open(alloc, plans, hands) {
        Ok(parts) => parts,
        Err(back) => return Err(RunFault::Open(back)),
    };
    serve_named::<Brand, R, J, S, W>(rt, alloc, parts, known, crew)
}

// Whoever calls this picks the names, which the language allows for the traits alone that have them.
fn serve_named<N, R, J, S, W>(
    rt: &R,
    alloc: Global,
    parts: Parts<J, S>,
    known: usize,
    crew: &Crew<'_, R, W, J, S>,
) -> Result<Report<J, S>, RunFault<J, S>>
where
    N: WordsNaming + InboxNaming + PlanNaming + RunNaming + Send + Sync,
    R: Threads + Wait + Clock + Sync,
    J: Job + Send,
    S: Subsystem + Send,
    W: Watch + Sync,
    requires words { parts.words.words ≡ N.words }
    requires inboxes { AllAt (λ k id. id ≡ N.inbox k) parts.inboxes.items }
    requires plans { ArePlanned N.plan parts.plans.items }
    requires free { (k : ℕ) → known ≤ k → N.plan k ≡ None }
    requires as_many { length parts.plans.items ≡ length parts.inboxes.items }
    requires outer { parts.outer ≡ N.inbox (length parts.inboxes.items) }
    requires deques { AllAt (λ k id. id ≡ N.deque k) parts.queue }
    requires slots { parts.words.slots ≡ slots_of (length parts.inboxes.items) }
    requires few { length parts.inboxes.items ≤ MAX_TABLES }
    requires some { 0 < length parts.queue }
    ensures run { IfOk result (IsGrownRun N.plan (length parts.inboxes.items) parts.plans.items) }
    ensures unrun { IfErr result (IsUnrun parts.plans.items) }
{
    let all = match parts.named_growing::<N>(alloc, known) {
        Ok(all) => all,
        Err(back) => return Err(RunFault::Open(back)),
    };
    let Opened {
        system,
        mut hands,
        client,
        passes,
    } = all;
    drop(passes);
    let client = serve_locked::<N, Brand, R, J, S, W>(rt, crew, &system, &mut hands, client);
    match finish_tree(rt, alloc, system, hands, client) {
        Ok(report) => Ok(report),
        Err(fault) => Err(RunFault::Close(fault)),
    }
}

/// Serves by each hand, in a thread of its own, and by the client, which lies under a lock meanwhile. Where no thread can be made the
/// hands serve one after the other, the first until the root has ended.
fn serve_locked<N, K, R, J, S, W>(
    rt: &R,
    crew: &Crew<'_, R, W, J, S>,
    system: &System<N, J, S>,
    hands: &mut Vec<Hand<N, J, S>>,
    client: TreeClient<N, Body<J, S>>,
) -> TreeClient<N, Body<J, S>>
where
    N: TreeNaming + Send + Sync,
    K: ReachNaming + Send + Sync,
    R: Threads + Wait + Clock + Sync,
    J: Job + Send,
    S: Subsystem + Send,
    W: Watch + Sync,
    requires { reach_of client ≡ K.reach }
    ensures client { reach_of result ≡ K.reach }
    ensures hands { standings hands.new.items ≡ standings hands.old.items }
{
    let client = Mutex::new(Locked::<N, K, J, S>::of(client));
    serve_all(rt, crew, system, hands, &client);
    client.into_inner().into_client()
}

/// Serves by a whole list of hands: of one that was lent as a slice in the midst of a function the prover knows nothing after.
fn serve_all<N, K, R, J, S, W>(
    rt: &R,
    crew: &Crew<'_, R, W, J, S>,
    system: &System<N, J, S>,
    hands: &mut Vec<Hand<N, J, S>>,
    client: &Mutex<Locked<N, K, J, S>>,
)
where
    N: TreeNaming + Send + Sync,
    K: ReachNaming + Send + Sync,
    R: Threads + Wait + Clock + Sync,
    J: Job + Send,
    S: Subsystem + Send,
    W: Watch + Sync,
    ensures { standings hands.new.items ≡ standings hands.old.items }
{
    serve_each(rt, crew, system, hands, client);
}

/// Serves by each of these hands, in a thread of its own.
fn serve_each<N, K, R, J, S, W>(
    rt: &R,
    crew: &Crew<'_, R, W, J, S>,
    system: &System<N, J, S>,
    hands: &mut [Hand<N, J, S>],
    client: &Mutex<Locked<N, K, J, S>>,
)
where
    N: TreeNaming + Send + Sync,
    K: ReachNaming + Send + Sync,
    R: Threads + Wait + Clock + Sync,
    J: Job + Send,
    S: Subsystem + Send,
    W: Watch + Sync,
    ensures { standings hands.new ≡ standings hands.old }
{
    thread::for_each_mut(
        rt,
        hands,
        MAX_HANDS,
        &|index, hand|
            ensures { standing_of hand.new ≡ standing_of hand.old }
        { serve_at(rt, crew, index, system, hand, client) },
    );
}

/// Serves by the hand with this index.
fn serve_at<N, K, R, J, S, W>(
    rt: &R,
    crew: &Crew<'_, R, W, J, S>,
    index: usize,
    system: &System<N, J, S>,
    hand: &mut Hand<N, J, S>,
    client: &Mutex<Locked<N, K, J, S>>,
)
where
    N: TreeNaming,
    K: ReachNaming,
    R: Wait + Clock,
    J: Job,
    S: Subsystem,
    W: Watch,
    ensures { standing_of hand.new ≡ standing_of hand.old }
{
    let seat = CrewSeat::of(crew, index);
    serve(rt, &seat, system, hand, client);
}
