//! A tree runs until it has ended.
ghost use Rattle.std.specs.Prelude.{◌≡◌, ◌<◌, ◌≤◌, length, IfErr, IfOk};
ghost use Rattle.otp_spec.specs.declared.limits.TheConstants.{MAX_TABLES};
ghost use Rattle.otp_run.specs.Rule.{all_parts};
ghost use Rattle.otp_hand.specs.Standings.{standing_of};
ghost use Rattle.otp_open.specs.Plans.{first_plans};
ghost use Rattle.otp_tree.specs.Runs.{IsGrownRun, IsRunOf, IsUnrun};

use crate::calling::Caller;
use crate::calling::locked::{Locked, ReachNaming};
use crate::clock::Stopwatch;
use crate::crew::Crew;
use crate::crowd::Crowd;
use crate::seat::CrewSeat;
use crate::served::serve_tree;
use crate::span::{Span, sooner};
use crate::watch::Watch;
use otp_hand::TreeNaming;
use otp_job::Job;
use otp_job::bridge::Subsystem;
use otp_job::wake::{StopFlag, WakeWords};
use otp_open::slots_of;
use otp_sup::SupNaming;
use otp_tree::{Hand, Report, RunFault, System, TablePlan, Unopened};
use std::alloc::{AllocError, Global};
use std::sync::{Arc, Mutex, Wait};
use std::thread;
use std::thread::Threads;
use std::time::{Clock, Duration};

/// So many milliseconds a hand sleeps that was refused memory, for a letter or for a supervisor's turn, before it tries again.
const PAUSE: u64 = 1;

/// Opens a tree of 1 to 64 supervisors, the root first, and runs it with 1 to 8 hands, each in a thread of its own, until its root
/// has ended: by itself, as when it gives up, or because the stop is raised, from any thread and at any time, also before. By the
/// stop it is asked to shut down, and stops its children in reverse start order, each within its time. At last the tree is closed,
/// and its report comes out.
///
/// The clock is the system's, in milliseconds since the call. The threads sleep while there is nothing to do.
///
/// # Errors
///
/// [`RunFault::Open`] where memory is refused, or a plan lacks a body: nothing ran, and the plans come back. [`RunFault::Close`] where
/// memory for the report is refused, and in two cases that don't happen ([`CloseFault`](otp_tree::CloseFault)).
pub fn run<R, J, S, W>(
    rt: &R,
    alloc: Global,
    plans: Vec<TablePlan<J, S>>,
    hands: usize,
    stop: &StopFlag,
    watch: &W,
) -> Result<Report<J, S>, RunFault<J, S>>
where
    R: Threads + Wait + Clock + Sync,
    J: Job + Send,
    S: Subsystem + Send,
    W: Watch + Sync,
    requires tables { length plans.items ≤ MAX_TABLES }
    requires some { 0 < hands }
    requires few { hands ≤ all_parts }
    // What each says part by part: `Runs` of otp_tree's definitions.
    ensures run { IfOk result (IsRunOf plans.items) }
    ensures unrun { IfErr result (IsUnrun plans.items) }
{
    let callers = Vec::new(alloc);
    run_with_callers(rt, alloc, plans, hands, stop, watch, callers.as_slice())
}

/// Does what [`run`] does; by each of these callers a thread may call the tree's supervisors while it runs ([`Caller`]).
pub fn run_with_callers<R, J, S, W>(
    rt: &R,
    alloc: Global,
    plans: Vec<TablePlan<J, S>>,
    hands: usize,
    stop: &StopFlag,
    watch: &W,
    callers: &[Caller<J, S>],
) -> Result<Report<J, S>, RunFault<J, S>>
where
    R: Threads + Wait + Clock + Sync,
    J: Job + Send,
    S: Subsystem + Send,
    W: Watch + Sync,
    requires tables { length plans.items ≤ MAX_TABLES }
    requires some { 0 < hands }
    requires few { hands ≤ all_parts }
    ensures run { IfOk result (IsRunOf plans.items) }
    ensures unrun { IfErr result (IsUnrun plans.items) }
{
    run_spanned(
        rt,
        alloc,
        plans,
        hands,
        stop,
        Span::endless(),
        watch,
        callers,
    )
}

/// Runs a tree for a time: then its root is asked to shut down, as by a stop, and where that hasn't ended by the end of its grace,
/// the hands leave the tree as it is. It is closed then, and the report says how many processes are left.
///
/// # Errors
///
/// As [`run`], and [`RunFault::Open`] where memory for a stop is refused.
pub fn run_for<R, J, S, W>(
    rt: &R,
    alloc: Global,
    plans: Vec<TablePlan<J, S>>,
    hands: usize,
    span: Span,
    watch: &W,
) -> Result<Report<J, S>, RunFault<J, S>>
where
    R: Threads + Wait + Clock + Sync,
    J: Job + Send,
    S: Subsystem + Send,
    W: Watch + Sync,
    requires tables { length plans.items ≤ MAX_TABLES }
    requires some { 0 < hands }
    requires few { hands ≤ all_parts }
    ensures run { IfOk result (IsRunOf plans.items) }
    ensures unrun { IfErr result (IsUnrun plans.items) }
{
    let Ok(stop) = StopFlag::new(alloc) else {
        return Err(RunFault::Open(Unopened::for_memory(plans)));
    };
    let callers = Vec::new(alloc);
    run_spanned(
        rt,
        alloc,
        plans,
        hands,
        &stop,
        span,
        watch,
        callers.as_slice(),
    )
}

/// Runs a tree so long, with these callers. Nothing can be added to it.
fn run_spanned<R, J, S, W>(
    rt: &R,
    alloc: Global,
    plans: Vec<TablePlan<J, S>>,
    hands: usize,
    stop: &StopFlag,
    span: Span,
    watch: &W,
    callers: &[Caller<J, S>],
) -> Result<Report<J, S>, RunFault<J, S>>
where
    R: Threads + Wait + Clock + Sync,
    J: Job + Send,
    S: Subsystem + Send,
    W: Watch + Sync,
    requires tables { length plans.items ≤ MAX_TABLES }
    requires some { 0 < hands }
    requires few { hands ≤ all_parts }
    ensures run { IfOk result (IsRunOf plans.items) }
    ensures unrun { IfErr result (IsUnrun plans.items) }
{
    let known = plans.len();
    match run_places(rt, alloc, plans, known, hands, stop, span, watch, callers) {
        Ok(report) => Ok(report),
        Err(why) => Err(why),
    }
}

/// Runs a tree of these places so long, with these callers; the first so many have a supervisor.
pub(crate) fn run_places<R, J, S, W>(
    rt: &R,
    alloc: Global,
    plans: Vec<TablePlan<J, S>>,
    known: usize,
    hands: usize,
    stop: &StopFlag,
    span: Span,
    watch: &W,
    callers: &[Caller<J, S>],
) -> Result<Report<J, S>, RunFault<J, S>>
where
    R: Threads + Wait + Clock + Sync,
    J: Job + Send,
    S: Subsystem + Send,
    W: Watch + Sync,
    requires tables { length plans.items ≤ MAX_TABLES }
    requires some { 0 < hands }
    requires few { hands ≤ all_parts }
    ensures run { IfOk result (IsGrownRun (first_plans known plans.items) (length plans.items) plans.items) }
    ensures unrun { IfErr result (IsUnrun plans.items) }
{
    let clock = Stopwatch::start(rt);
    let Ok(crew) = gather(
        alloc,
        &clock,
        stop,
        span,
        watch,
        callers,
        plans.len(),
        hands,
    ) else {
        close_callers(rt, callers);
        return Err(RunFault::Open(Unopened::for_memory(plans)));
    };
    let report = serve_tree(rt, alloc, plans, known, hands, &crew);
    close_callers(rt, callers);
    report
}

/// Tells callers that the run has ended, or that there will be none: each call is answered [`Answer::Over`](crate::Answer::Over). A run
/// does so at its end.
pub fn close_callers<R: Wait, J: Drop, S: Drop>(rt: &R, callers: &[Caller<J, S>]) {
    for caller in callers {
        caller.close(rt);
    }
}

/// The crew of a tree that is to be run. Its post has a word for each slot of signal words that the tree has.
fn gather<'a, C: Clock, W: Watch, J: Drop, S: Drop>(
    alloc: Global,
    clock: &'a Stopwatch<'a, C>,
    stop: &'a StopFlag,
    span: Span,
    watch: &'a W,
    callers: &'a [Caller<J, S>],
    tables: usize,
    hands: usize,
) -> Result<Crew<'a, C, W, J, S>, AllocError>
    requires { tables ≤ MAX_TABLES }
{
    let post = WakeWords::open(alloc, slots_of(tables), stop.bells())?;
    let post = Arc::new(alloc, post)?;
    Crew::of(
        alloc, clock, stop, span, watch, callers, post, tables, hands,
    )
}

/// Serves by a hand until the root has ended, or the time of the run is over.
pub(crate) fn serve<N, K, R, J, S, W>(
    rt: &R,
    seat: &CrewSeat<'_, R, W, J, S>,
    system: &System<N, J, S>,
    hand: &mut Hand<N, J, S>,
    client: &Mutex<Locked<N, K, J, S>>,
)
where
    N: TreeNaming,
    K: ReachNaming,
    R: Wait + Clock,
    J: Job,
    S: Subsystem,
    W: Watch,
    // The hand keeps its place among all hands, and its parts of the right to send.
    ensures { standing_of hand.new ≡ standing_of hand.old }
{
    let crew = seat.crew;
    // Where this is refused, which it isn't, jobs that ask for a waker at their start get none.
    let _opened = hand.open_post(&crew.post);
    let mut crowd = Crowd::new();
    let mut vain: u32 = 0;
    for _ in rt.forever() {
        if crew.has_ended() || crew.keep_time() {
            return;
        }
        if crew.is_to_ask() {
            ask(rt, seat, system, client);
        }
        if crew.is_called() {
            serve_callers(rt, seat, system, client);
        }
        mind_crowds(crew, hand);
        let is_busy = serve_some(rt, seat, system, hand, crowd.turns());
        collect_answers(rt, seat, system);
        share(seat, &mut crowd, hand, is_busy);
        if is_busy {
            vain = 0;
        } else if vain < crew.patience() {
            vain = vain.saturating_add(1);
            thread::yield_now();
        } else {
            vain = 0;
            sleep(rt, seat, system, hand);
        }
    }
}

/// So many turns of a hand, at one reading of the clock. False where it found nothing to do in the last.
fn serve_some<N, R, J, S, W>(
    rt: &R,
    seat: &CrewSeat<'_, R, W, J, S>,
    system: &System<N, J, S>,
    hand: &mut Hand<N, J, S>,
    turns: u32,
) -> bool
where
    N: TreeNaming,
    R: Wait + Clock,
    J: Job,
    S: Subsystem,
    W: Watch,
    ensures { standing_of hand.new ≡ standing_of hand.old }
{
    let reading = seat.crew.clock.reading();
    for _ in 0..turns {
        if !system.turn_heard(rt, hand, reading, seat) {
            return false;
        }
    }
    true
}

/// Asks the root to shut down, and wakes the hand in which it waits.
fn ask<N, K, R, J, S, W>(
    rt: &R,
    seat: &CrewSeat<'_, R, W, J, S>,
    system: &System<N, J, S>,
    client: &Mutex<Locked<N, K, J, S>>,
)
where
    N: SupNaming,
    K: ReachNaming,
    R: Wait + Clock,
    J: Drop,
    S: Drop,
    W: Watch,
{
    let mut guard = client.lock(rt);
    guard.stop(system);
    drop(guard);
    seat.crew.wake_home(seat.hand, 0);
}

/// Does what callers want, and wakes the hands in which those wait that are called.
fn serve_callers<N, K, R, J, S, W>(
    rt: &R,
    seat: &CrewSeat<'_, R, W, J, S>,
    system: &System<N, J, S>,
    client: &Mutex<Locked<N, K, J, S>>,
)
where
    N: SupNaming,
    K: ReachNaming,
    R: Wait + Clock,
    J: Drop,
    S: Drop,
    W: Watch,
{
    let crew = seat.crew;
    for caller in crew.callers {
        if let Some(table) = caller.serve(rt, crew.alloc, system, client) {
            crew.wake_home(seat.hand, table);
        }
    }
}

/// Looks whether calls were answered, and tells those who made them.
fn collect_answers<N, R, J, S, W>(rt: &R, seat: &CrewSeat<'_, R, W, J, S>, system: &System<N, J, S>)
where
    N: SupNaming,
    R: Wait + Clock,
    J: Drop,
    S: Drop,
    W: Watch,
{
    if !seat.has_served() {
        return;
    }
    for caller in seat.crew.callers {
        if caller.is_sent() {
            caller.collect(rt, system);
        }
    }
}

/// Lets a hand try the deques of others in its next searches only where one of them is crowded. What is in a deque has its turns there;
/// whoever took one of two processes that wait for each other would be waited for.
fn mind_crowds<N, C, W, J, S>(crew: &Crew<'_, C, W, J, S>, hand: &mut Hand<N, J, S>)
where
    N: TreeNaming,
    C: Clock,
    W: Watch,
    J: Drop,
    S: Drop,
    ensures { standing_of hand.new ≡ standing_of hand.old }
{
    if crew.is_crowded() {
        hand.try_others();
    } else {
        hand.spare_others();
    }
}

/// Notes a batch of turns of a hand. Where it has much to do for long, other hands may take of that, and one is woken for it.
fn share<N, C, W, J, S>(
    seat: &CrewSeat<'_, C, W, J, S>,
    crowd: &mut Crowd,
    hand: &mut Hand<N, J, S>,
    is_busy: bool,
)
where
    N: TreeNaming,
    C: Clock,
    W: Watch,
    J: Drop,
    S: Drop,
    ensures { standing_of hand.new ≡ standing_of hand.old }
{
    let crew = seat.crew;
    let was_there = crowd.is_there();
    let (stock, news) = (hand.stock(), seat.take_news());
    crowd.note(is_busy, stock, news, crew.clock.reading());
    crew.note_crowd(was_there, crowd.is_there());
    hand.note_crowd(crowd.is_there());
    if crowd.wakes_another() {
        crew.wake_another(seat.hand);
    }
}

/// Sleeps until there may be something to do for a hand. It returns at once where there is.
///
/// The sleep is announced before the last look at all that may have come, so none that comes after the look is missed
/// ([`Bells`](otp_job::wake::Bells)).
fn sleep<N, R, J, S, W>(
    rt: &R,
    seat: &CrewSeat<'_, R, W, J, S>,
    system: &System<N, J, S>,
    hand: &mut Hand<N, J, S>,
)
where
    N: TreeNaming,
    R: Wait + Clock,
    J: Job,
    S: Subsystem,
    W: Watch,
    ensures { standing_of hand.new ≡ standing_of hand.old }
{
    let crew = seat.crew;
    let announced = crew.bells().announce(seat.hand);
    if crew.has_ended() || crew.is_to_stop() || crew.is_called() {
        drop(announced);
        return;
    }
    mind_crowds(crew, hand);
    let reading = crew.clock.reading();
    if system.look_at_all(hand, reading) {
        drop(announced);
        if !system.turn_heard(rt, hand, reading, seat) {
            // Memory is refused, for a letter or to a supervisor.
            crew.bells()
                .announce(seat.hand)
                .sleep(rt, Some(Duration::from_millis(PAUSE)));
        }
        return;
    }
    let due = sooner(hand.next_due(), crew.next_due());
    announced.sleep(rt, time_left(due, reading));
}

/// How long it is until a deadline, by this reading of the clock.
fn time_left(due: Option<u64>, reading: u64) -> Option<Duration> {
    Some(Duration::from_millis(due?.saturating_sub(reading)))
}
