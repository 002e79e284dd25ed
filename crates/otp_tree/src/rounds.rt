//! A whole tree on threads, round by round.
ghost use Rattle.std.specs.Prelude.{◌≡◌, ◌<◌, ◌≤◌, length, IfErr, IfOk, IfSome, OnOk, Some};
ghost use Rattle.otp_spec.specs.declared.limits.TheConstants.{MAX_TABLES};
ghost use Rattle.otp_run.specs.Lists.{AllAt};
ghost use Rattle.otp_run.specs.Rule.{all_parts};
ghost use Rattle.otp_close.specs.Closes.{HaveBegun, IsMismatchOnly, IsReportOf, NoneMissing, report_in};
ghost use Rattle.otp_hand.specs.Standings.{reach_of, standings};
ghost use Rattle.otp_open.specs.Opens.{slots_of};
ghost use Rattle.otp_open.specs.Plans.{HaveBodies, IsOpenFault, plans_of};

use crate::closing::finish_tree;
use crate::opening::{Opened, Parts};
use otp_close::CloseFault;
use otp_close::report::Report;
use otp_core::ReplyAnswer;
use otp_hand::{Hand, TreeClient, TreeNaming};
use otp_inbox::InboxNaming;
use otp_job::bridge::Subsystem;
use otp_job::{Body, Job};
use otp_open::{TablePlan, Unopened};
use otp_reason::Note;
use otp_rules::{Call, Reply};
use otp_run::RunNaming;
use otp_signals::WordsNaming;
use otp_sup::{PlanNaming, SupNaming};
use otp_system::{Gate, System, Uncalled, pool_run};
use std::alloc::Global;
use std::marker::Brand;
use std::sync::Wait;
use std::thread::Threads;

/// What is done with a tree next.
#[derive(Drop)]
pub enum Round<J: Drop, S: Drop> {
    /// Each hand makes so many turns, all hands at once.
    Serve(u64),
    /// A supervisor is called, then each hand makes so many turns, all hands at once, and the leader hears the answer
    /// ([`Leader::hear`]).
    Call(CallRequest<J, S>),
    /// Each hand makes so many turns, all hands at once, and the leader hears the answer to a call that was not answered yet.
    Await(CallId, u64),
    /// The root is asked to shut down, and then each hand makes so many turns, all hands at once.
    Stop(u64),
    /// Nothing more: the tree is closed as it is.
    Leave,
}

/// A call of a supervisor that is to be made.
#[derive(Drop)]
pub struct CallRequest<J: Drop, S: Drop> {
    /// The number of the supervisor.
    pub table: usize,
    pub call: Call,
    /// What the child runs, exactly where the call starts a new one.
    pub body: Option<Body<J, S>>,
    /// So many turns each hand makes before the answer is looked for.
    pub turns: u64,
}

/// A call that was made.
#[derive(Clone, Copy, Debug, PartialEq, Eq)]
pub struct CallId {
    /// The number of the supervisor.
    pub table: usize,
    /// The number of the call.
    pub number: u64,
}

/// What became of a call.
#[derive(Drop)]
pub enum CallEnd<J: Drop, S: Drop> {
    /// The supervisor answered. Where no child has the body that the call brought, as after a refusal, it is back.
    Answered(CallId, Reply, Option<Body<J, S>>),
    /// It was not answered yet: [`Round::Await`] looks again.
    Unanswered(CallId),
    /// A checkpoint of the supervisor dropped the answer, so it can't be told any more; a body that no child has is back. Where the
    /// call still stands in the supervisor's inbox, behind a later one that was answered, it is yet to be answered, and
    /// [`Round::Await`] may see that.
    Gone(CallId, Option<Body<J, S>>),
    /// E0: memory for a copy of the answer was refused. It is kept, and [`Round::Await`] looks again.
    OutOfMemory(CallId),
    /// It was not sent, and its body is back.
    Unsent(Uncalled<Body<J, S>>),
}

/// Who leads a tree from round to round. No hand makes a turn while it is asked.
pub trait Leader<J: Drop, S: Drop>: Drop {
    /// The next round, given what the root told since it was asked last: `Up` once all its children have started, `Exit`
    /// when it has ended, None where there is nothing new.
    fn next(&mut self, told: Option<Note>) -> Round<J, S>;

    /// Hears what became of a call, after the turns that its round gave it. A leader that makes no call needn't write it.
    fn hear(&mut self, _answer: CallEnd<J, S>) {}
}

/// What came of a tree that was led.
#[derive(Drop)]
pub struct Led<J: Drop, S: Drop, L: Leader<J, S>> {
    pub leader: L,
    /// What the tree was when it was closed; a fault has nothing to give back, as the tree can't leave the call.
    pub report: Result<Report<J, S>, CloseFault<J, S, ()>>,
}

/// Opens a tree of 1 to 64 supervisors, the root first, for 1 to 8 hands, and serves it with each hand in a thread of its
/// own ([`pool_run`]), round by round as the leader says: at most so many rounds. Then the tree is closed
/// ([`close_tree`](crate::close_tree)). The leader comes back, with the report.
///
/// A round ends when each hand has made its turns. The gate is asked before each turn of a hand, in the hand's own thread, and
/// told where there was nothing to do for any.
///
/// # Errors
///
/// [`SystemFault`](otp_open::SystemFault), with the plans as they were; the leader is dropped.
pub fn lead<R, J, S, G, L>(
    rt: &R,
    alloc: Global,
    plans: Vec<TablePlan<J, S>>,
    hands: usize,
    gate: &G,
    rounds: u64,
    leader: L,
) -> Result<Led<J, S, L>, Unopened<J, S>>
where
    R: Threads + Wait + Sync,
    J: Job + Send,
    S: Subsystem + Send,
    G: Gate + Sync,
    L: Leader<J, S>,
    requires tables { length plans.items ≤ MAX_TABLES }
    requires some { 0 < hands }
    requires few { hands ≤ all_parts }
    ensures report { IfOk result (λ led. IfOk led.report (IsReportOf (length plans.items))) }
    // Each core began as the supervisor of the plan at its place in the list, never opened.
    ensures plans { IfOk result (λ led. IfSome (report_in led.report) (λ report. HaveBegun (plans_of plans.items) report.tables.items)) }
    ensures mismatch { IfOk result (λ led. IfErr led.report IsMismatchOnly) }
    // All parts of the tree are there when it is closed, since nobody else has one.
    ensures missing { IfOk result (λ led. IfErr led.report NoneMissing) }
    // Each plan has a body for each child that an opening makes, or that is why it isn't led, or memory was refused.
    ensures bodies { OnOk result (HaveBodies plans.items) }
    ensures fault { IfErr result (λ back. IsOpenFault plans.items back.fault) }
    ensures back { IfErr result (λ back. back.plans.items ≡ plans.items) }
{
    let parts = match Parts::open(alloc, plans, hands) {
        Ok(parts) => parts,
        Err(back) => {
            drop(leader);
            return Err(back);
        }
    };
    lead_named::<Brand, R, J, S, G, L>(rt, alloc, parts, gate, rounds, leader)
}

// Whoever calls this picks the names, which the language allows for the traits alone that have them.
fn lead_named<N, R, J, S, G, L>(
    rt: &R,
    alloc: Global,
    parts: Parts<J, S>,
    gate: &G,
    rounds: u64,
    mut leader: L,
) -> Result<Led<J, S, L>, Unopened<J, S>>
where
    N: WordsNaming + InboxNaming + PlanNaming + RunNaming + Send + Sync,
    R: Threads + Wait + Sync,
    J: Job + Send,
    S: Subsystem + Send,
    G: Gate + Sync,
    L: Leader<J, S>,
    requires words { parts.words.words ≡ N.words }
    requires inboxes { AllAt (λ k id. id ≡ N.inbox k) parts.inboxes.items }
    requires plans { AllAt (λ k plan. N.plan k ≡ Some plan.supervisor) parts.plans.items }
    requires as_many { length parts.plans.items ≡ length parts.inboxes.items }
    requires outer { parts.outer ≡ N.inbox (length parts.inboxes.items) }
    requires deques { AllAt (λ k id. id ≡ N.deque k) parts.queue }
    requires slots { parts.words.slots ≡ slots_of (length parts.inboxes.items) }
    requires few { length parts.inboxes.items ≤ MAX_TABLES }
    requires some { 0 < length parts.queue }
    ensures report { IfOk result (λ led. IfOk led.report (IsReportOf (length parts.inboxes.items))) }
    ensures plans { IfOk result (λ led. IfSome (report_in led.report) (λ report. HaveBegun N.plan report.tables.items)) }
    ensures mismatch { IfOk result (λ led. IfErr led.report IsMismatchOnly) }
    ensures missing { IfOk result (λ led. IfErr led.report NoneMissing) }
    ensures bodies { OnOk result (HaveBodies parts.plans.items) }
    ensures fault { IfErr result (λ back. IsOpenFault parts.plans.items back.fault) }
    ensures back { IfErr result (λ back. back.plans.items ≡ parts.plans.items) }
{
    let opened = match parts.named::<N>(alloc) {
        Ok(opened) => opened,
        Err(back) => {
            drop(leader);
            return Err(back);
        }
    };
    let Opened {
        system,
        mut hands,
        mut client,
        passes,
    } = opened;
    drop(passes);
    for _ in 0..rounds {
        let round = leader.next(system.root_note(rt, &mut client));
        if !make_round(
            rt,
            alloc,
            &system,
            &mut hands,
            &mut client,
            gate,
            &mut leader,
            round,
        ) {
            break;
        }
    }
    let report = finish_tree(rt, alloc, system, hands, client);
    Ok(Led { leader, report })
}

/// Makes a round. False where nothing more is wanted.
fn make_round<N, R, J, S, G, L>(
    rt: &R,
    alloc: Global,
    system: &System<N, J, S>,
    hands: &mut Vec<Hand<N, J, S>>,
    client: &mut TreeClient<N, Body<J, S>>,
    gate: &G,
    leader: &mut L,
    round: Round<J, S>,
) -> bool
where
    N: TreeNaming + Send + Sync,
    R: Threads + Wait + Sync,
    J: Job + Send,
    S: Subsystem + Send,
    G: Gate + Sync,
    L: Leader<J, S>,
    ensures hands { standings hands.new.items ≡ standings hands.old.items }
    ensures client { reach_of client.new ≡ reach_of client.old }
{
    match round {
        Round::Serve(turns) => pool_all(rt, system, hands, gate, turns),
        Round::Stop(turns) => {
            system.stop(client);
            pool_all(rt, system, hands, gate, turns);
        }
        Round::Call(asking) => {
            let CallRequest {
                table,
                call,
                body,
                turns,
            } = asking;
            match system.submit(rt, alloc, client, table, call, body) {
                Ok(number) => {
                    pool_all(rt, system, hands, gate, turns);
                    leader.hear(answer_to(rt, system, CallId { table, number }));
                }
                Err(fault) => leader.hear(CallEnd::Unsent(fault)),
            }
        }
        Round::Await(asked, turns) => {
            pool_all(rt, system, hands, gate, turns);
            leader.hear(answer_to(rt, system, asked));
        }
        Round::Leave => return false,
    }
    true
}

/// Each hand makes so many turns, in a thread of its own. The whole list is lent: of one that was lent as a slice in the midst of a
/// function the prover knows nothing after.
pub(crate) fn pool_all<N, J, S, R, G>(
    rt: &R,
    system: &System<N, J, S>,
    hands: &mut Vec<Hand<N, J, S>>,
    gate: &G,
    turns: u64,
)
where
    N: TreeNaming + Send + Sync,
    J: Job + Send,
    S: Subsystem + Send,
    R: Threads + Wait + Sync,
    G: Gate + Sync,
    ensures { standings hands.new.items ≡ standings hands.old.items }
{
    pool_run(rt, system, hands, gate, turns);
}

/// What became of a call so far.
fn answer_to<N, R, J, S>(rt: &R, system: &System<N, J, S>, asked: CallId) -> CallEnd<J, S>
where
    N: SupNaming,
    R: Wait,
    J: Drop,
    S: Drop,
{
    match system.reply(rt, asked.table, asked.number) {
        Ok(ReplyAnswer::Kept(reply)) => {
            let body = system.take_box(rt, asked.table, asked.number);
            CallEnd::Answered(asked, reply, body)
        }
        Ok(ReplyAnswer::Gone) => {
            let body = system.take_box(rt, asked.table, asked.number);
            CallEnd::Gone(asked, body)
        }
        Ok(ReplyAnswer::NotYet) => CallEnd::Unanswered(asked),
        Err(_) => CallEnd::OutOfMemory(asked),
    }
}
