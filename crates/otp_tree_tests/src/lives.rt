//! Trees whose leader does what a list of steps says: what it has to see, and what the tree was when it was closed.
ghost use Rattle.std.specs.Prelude.{◌≡◌, ◌<◌, ◌≤◌, length};
ghost use Rattle.otp_run.specs.Rule.{all_parts};
ghost use Rattle.otp_spec.specs.declared.limits.TheConstants.{MAX_TABLES};

use crate::fixtures::{MEMORY, got, same};
use crate::gates::{Clock, Wait as Before};
use crate::guests::{
    Child, Common, GuestKind, GuestPlan, TOO_OFTEN, Worker, again, both, common, crowd, one,
    plan_of,
};
use crate::openings::{Back, sizes_of};
use crate::script::{Question, Script, Seen, Step};
use otp_job::bridge::BoxedSubsystem;
use otp_reason::Reason;
use otp_rules::{Call, Cause, Item};
use otp_spec::MAX_TABLES;
use otp_tree::{
    Led, MAX_HANDS, Report, RunFault, SystemFault, TableReport, Unopened, lead, run_tree,
};
use std::alloc::Global;
use std::process::Abort;
use std::sync::Wait;
use std::sync::atomic::Ordering;
use std::thread::Threads;

pub(crate) type Closed = Report<Worker, BoxedSubsystem>;

type LedSo = Result<Led<Worker, BoxedSubsystem, Script>, Back>;

/// Which tree it is.
#[derive(Clone, Copy, Debug, PartialEq, Eq)]
pub(crate) enum Grove {
    /// The root has the worker `a` and the supervisor `sub`, which has the workers `b` and `c`; `c` crashes once.
    Pair,
    /// One supervisor of three steady workers.
    Three,
    /// The root has `sub`, which bears no restart and has the worker `x`.
    Fragile,
    /// The root has `sub`, with a worker of each kind that has nothing to do but one.
    Guests,
    /// The root has `sub`, which has more workers than are looked at in one turn; they wait.
    Waiters,
    /// The root has a worker that crashes in each turn, or works on, and `sub`, which has one that crashes too and bears so many
    /// restarts.
    Storm(bool, u64),
    /// Two workers that meet, or look for each other so often.
    Meeting(u64),
    /// The root has `sub`, which bears no restart and has the worker `x`, which crashes once.
    Strict,
    /// The root has eight supervisors, with a worker of this kind each.
    Wide(GuestKind),
    /// One supervisor of a worker whose turns last for so many looks.
    Lingering(u64),
}

/// How many workers a crowd of waiters has.
const WAITERS: u64 = 64;

// The plans of a root of these children, and of its supervisor of those.
fn nested(
    rt: &impl Abort,
    alloc: Global,
    root: &[Child],
    sub: &[Child],
    intensity: (u64, u64),
    shared: &Common,
) -> Vec<GuestPlan> {
    let root = plan_of(rt, alloc, root, intensity.0, shared);
    let sub = plan_of(rt, alloc, sub, intensity.1, shared);
    both(rt, alloc, root, sub)
}

const SUB: [Child; 1] = [Child::Sup("sub", 1)];

const GUESTS: [Child; 3] = [
    Child::Does("meek", GuestKind::Waits),
    Child::Does("stubborn", GuestKind::Stubborn),
    Child::Does("fragile", GuestKind::Fragile),
];

const THREE: [Child; 3] = [
    Child::Does("a", GuestKind::Steady),
    Child::Does("b", GuestKind::Steady),
    Child::Does("c", GuestKind::Steady),
];

const PAIR: [Child; 2] = [Child::Does("a", GuestKind::Steady), Child::Sup("sub", 1)];

const BELOW: [Child; 2] = [
    Child::Does("b", GuestKind::Steady),
    Child::Does("c", GuestKind::CrashesOnce),
];

const WIDE: [Child; 8] = [
    Child::Sup("a", 1),
    Child::Sup("b", 2),
    Child::Sup("c", 3),
    Child::Sup("d", 4),
    Child::Sup("e", 5),
    Child::Sup("f", 6),
    Child::Sup("g", 7),
    Child::Sup("h", 8),
];

fn wide(rt: &impl Abort, alloc: Global, kind: GuestKind, shared: &Common) -> Vec<GuestPlan> {
    let mut plans = single(rt, alloc, &WIDE, shared);
    let one = [Child::Does("x", kind)];
    for _ in 0..WIDE.len() {
        let sub = plan_of(rt, alloc, &one, 1_000, shared);
        got(rt, MEMORY, plans.push(sub));
    }
    plans
}

// `sub` bears no restart.
fn strict(rt: &impl Abort, alloc: Global, kind: GuestKind, shared: &Common) -> Vec<GuestPlan> {
    let sub = [Child::Does("x", kind)];
    nested(rt, alloc, &SUB, &sub, (1, 0), shared)
}

// Of a tree of one supervisor.
fn single(rt: &impl Abort, alloc: Global, children: &[Child], shared: &Common) -> Vec<GuestPlan> {
    one(rt, alloc, plan_of(rt, alloc, children, 1, shared))
}

fn storm(
    rt: &impl Abort,
    alloc: Global,
    of_root: bool,
    intensity: u64,
    shared: &Common,
) -> Vec<GuestPlan> {
    let kind = if of_root {
        GuestKind::Crashes(false)
    } else {
        GuestKind::Steady
    };
    let root = [Child::Does("a", kind), Child::Sup("sub", 1)];
    let sub = [Child::Does("b", GuestKind::Crashes(true))];
    nested(rt, alloc, &root, &sub, (1_000, intensity), shared)
}

/// Its plans.
pub(crate) fn plans_of(
    rt: &impl Abort,
    alloc: Global,
    grove: Grove,
    shared: &Common,
) -> Vec<GuestPlan> {
    match grove {
        Grove::Pair => nested(rt, alloc, &PAIR, &BELOW, (1, 1), shared),
        Grove::Three => single(rt, alloc, &THREE, shared),
        Grove::Fragile => strict(rt, alloc, GuestKind::Fragile, shared),
        Grove::Strict => strict(rt, alloc, GuestKind::CrashesOnce, shared),
        Grove::Wide(kind) => wide(rt, alloc, kind, shared),
        Grove::Lingering(looks) => {
            let one = [Child::Does("a", GuestKind::Lingers(looks))];
            single(rt, alloc, &one, shared)
        }
        Grove::Guests => nested(rt, alloc, &SUB, &GUESTS, (1, 1), shared),
        Grove::Waiters => {
            let root = plan_of(rt, alloc, &SUB, 1, shared);
            let sub = crowd(rt, alloc, 4, 0, GuestKind::Waits, shared);
            both(rt, alloc, root, sub)
        }
        Grove::Storm(of_root, intensity) => storm(rt, alloc, of_root, intensity, shared),
        Grove::Meeting(looks) => {
            let both = [
                Child::Does("a", GuestKind::Meets(true, looks)),
                Child::Does("b", GuestKind::Meets(false, looks)),
            ];
            single(rt, alloc, &both, shared)
        }
    }
}

/// A tree of so many supervisors can be served by so many hands.
pub(crate) fn may_run(rt: &impl Abort, plans: &[GuestPlan], hands: usize)
    ensures tables { length plans.now ≤ MAX_TABLES }
    ensures some { 0 < hands }
    ensures few { hands ≤ all_parts }
{
    assert!(rt; plans.len() <= MAX_TABLES);
    assert!(rt; 0 < hands);
    assert!(rt; hands <= MAX_HANDS);
}

/// Rounds at the most: more than any machine needs, however busy.
const ROUNDS: u64 = 1_000_000;

pub(crate) fn led<R: Threads + Wait + Abort + Sync>(
    rt: &R,
    alloc: Global,
    plans: Vec<GuestPlan>,
    hands: usize,
    clock: &Clock,
    script: Script,
) -> LedSo {
    may_run(rt, plans.as_slice(), hands);
    lead(rt, alloc, plans, hands, clock, ROUNDS, script)
}

/// The report of a tree that is run in one call, so many turns of each hand before the stop, and as many after it.
pub(crate) fn ran<R: Threads + Wait + Abort + Sync>(
    rt: &R,
    alloc: Global,
    plans: Vec<GuestPlan>,
    hands: usize,
    clock: &Clock,
    turns: u64,
) -> Closed {
    may_run(rt, plans.as_slice(), hands);
    let report = run_tree(rt, alloc, plans, hands, clock, turns);
    got(rt, "the tree was not run", report)
}

/// What a tree is led by: the tree, the clock's milliseconds of a turn, what hands wait for, the turns of a round, the steps, and
/// what the leader has to see.
#[derive(Clone, Copy)]
pub(crate) struct Life {
    grove: Grove,
    step: u64,
    wait: Before,
    turns: u64,
    steps: &'static [Step],
    seen: &'static [Seen],
}

/// What came of it.
#[derive(Drop)]
pub(crate) struct Lived {
    shared: Common,
    clock: Clock,
    rounds: u64,
    report: Closed,
}

fn live<R: Threads + Wait + Abort + Sync>(
    rt: &R,
    alloc: Global,
    life: &Life,
    hands: usize,
) -> Lived {
    let shared = common(rt, alloc);
    let plans = plans_of(rt, alloc, life.grove, &shared);
    let clock = Clock::new(again(rt, &shared), life.step, life.wait);
    let script = Script::new(rt, alloc, again(rt, &shared), life.steps, life.turns);
    let led = led(rt, alloc, plans, hands, &clock, script);
    let Led { leader, report } = got(rt, "the tree was refused", led);
    same(rt, "what the leader saw", leader.seen.as_slice(), life.seen);
    let rounds = leader.rounds;
    drop(leader);
    let report = got(rt, "the tree was not closed", report);
    Lived {
        shared,
        clock,
        rounds,
        report,
    }
}

/// What any report says, however far the tree came.
pub(crate) fn check_ledger<R: Abort>(rt: &R, report: &Closed) {
    let counted = report.ended.saturating_add(report.live);
    same(rt, "the processes that began", report.begun, counted);
    let left = report.processes.len() as u64;
    same(rt, "the processes that are left", left, report.live);
    assert!(rt; report.find_mismatch().is_none());
}

// The tree began so many processes, and all of them have ended.
fn all_ended<R: Abort>(rt: &R, report: &Closed, begun: u64) {
    check_ledger(rt, report);
    same(
        rt,
        "what began and is live",
        (report.begun, report.live),
        (begun, 0),
    );
}

/// A supervisor that started and restarted so many children, and was asked to end.
pub(crate) fn was_table(rt: &impl Abort, table: Option<&TableReport>, starts: u64, restarts: u64) {
    let Some(table) = table else {
        panic!(rt; "a supervisor");
    };
    let told = (table.starts(), table.restarts(), table.end());
    let wanted = (starts, restarts, Some(Reason::Shutdown));
    same(rt, "a supervisor", told, wanted);
}

/// What the strict tree is once all of it has ended: `sub` gave up once, and its worker was started twice.
pub(crate) fn check_strict<R: Abort>(rt: &R, report: &Closed) {
    assert!(rt; report.tables.len() == 2);
    was_table(rt, report.tables.first(), 2, 1);
    was_table(rt, report.tables.last(), 2, 0);
    all_ended(rt, report, 5);
}

/// What a supervisor of three steady workers is once it has ended.
pub(crate) fn check_three<R: Abort>(rt: &R, report: &Closed) {
    assert!(rt; report.tables.len() == 1);
    was_table(rt, report.tables.first(), 3, 0);
    all_ended(rt, report, 4);
}

/// What the pair is once all of it has ended: two children of the root and two of `sub` were started, one of these once more, and
/// nobody has anything left.
pub(crate) fn check_pair<R: Abort>(rt: &R, report: &Closed) {
    assert!(rt; report.tables.len() == 2);
    was_table(rt, report.tables.first(), 2, 0);
    was_table(rt, report.tables.last(), 3, 1);
    all_ended(rt, report, 6);
}

const END: Seen = Seen::Ended(Reason::Shutdown);

const UP_AND_DOWN: Life = Life {
    grove: Grove::Pair,
    step: 0,
    wait: Before::Nothing,
    turns: 100,
    steps: &[Step::Up, Step::Starts(4, 0), Step::Stop, Step::End],
    seen: &[Seen::Up, END],
};

// The root is asked to stop before the turns of that round, so that it has ended after them. There is no round behind it.
const STOPS_AT_ONCE: Life = Life {
    steps: &[Step::Up, Step::Starts(4, 0), Step::Stop],
    ..UP_AND_DOWN
};

#[test]
fn a_tree_is_served_by_one_hand_and_by_several(rt: HostRuntime) {
    for (life, hands) in [
        (UP_AND_DOWN, 1),
        (UP_AND_DOWN, 2),
        (UP_AND_DOWN, 4),
        (STOPS_AT_ONCE, 1),
    ] {
        let lived = live(&rt, rt.alloc(), &life, hands);
        goes_up_and_down(&rt, &lived);
        drop(lived);
    }
}

// Each worker started once and the one that crashed once more.
fn goes_up_and_down(rt: &impl Abort, lived: &Lived) {
    same(rt, "the starts of workers", lived.shared.starts(), 4);
    let report = &lived.report;
    check_pair(rt, report);
    let told = (report.heard, report.held, report.last.len());
    same(rt, "what was told", told, (1, 0, 0));
}

const ONCE: Life = Life {
    wait: Before::Each,
    turns: 1,
    steps: &[Step::Rounds(1)],
    seen: &[],
    ..UP_AND_DOWN
};

#[test]
fn each_hand_has_a_thread_of_its_own(rt: HostRuntime) {
    let lived = live(&rt, rt.alloc(), &ONCE, 2);
    let told = (lived.rounds, lived.clock.met.load(Ordering::SeqCst));
    same(&rt, "the rounds, and the hands that met", told, (1, 2));
    drop(lived);
}

// What comes back of a tree that isn't led.
fn back_of(rt: &impl Abort, led: LedSo) -> Back {
    match led {
        Ok(Led { leader, report }) => {
            drop(leader);
            drop(report);
            panic!(rt; "it was led")
        }
        Err(back) => back,
    }
}

// The last supervisor loses the last of its bodies.
fn lose_a_body(plans: &mut Vec<GuestPlan>) {
    if let Some(plan) = plans.last_mut() {
        drop(plan.bodies.pop());
    }
}

// The nested supervisor has two children and one body. The plans come back as they were.
#[test]
fn a_refused_table_is_told_by_its_number(rt: HostRuntime) {
    let shared = common(&rt, rt.alloc());
    let mut plans = plans_of(&rt, rt.alloc(), Grove::Pair, &shared);
    lose_a_body(&mut plans);
    let clock = Clock::new(again(&rt, &shared), 0, Before::Nothing);
    let script = Script::new(&rt, rt.alloc(), shared, ONCE.steps, 1);
    let Unopened { fault, plans } = back_of(&rt, led(&rt, rt.alloc(), plans, 2, &clock, script));
    let wanted = SystemFault::NoBody { table: 1 };
    same(&rt, "the fault", fault, wanted);
    let sizes = (2, 2, 1);
    same(&rt, "the plans", sizes_of(plans.as_slice()), sizes);
    // A tree that is run in one call is refused so, too.
    may_run(&rt, plans.as_slice(), 2);
    match run_tree(&rt, rt.alloc(), plans, 2, &clock, 1) {
        Err(RunFault::Open(back)) => {
            let Unopened { fault, plans } = back;
            same(&rt, "the fault", fault, wanted);
            same(&rt, "the plans", sizes_of(plans.as_slice()), sizes);
            drop(plans);
        }
        Err(RunFault::Close(fault)) => {
            drop(fault);
            panic!(rt; "it was run");
        }
        Ok(report) => {
            drop(report);
            panic!(rt; "it was run");
        }
    }
    drop(clock);
}

// A call that nobody took, since no turn was made after it.
const CALLS_LATE: Life = Life {
    grove: Grove::Three,
    steps: &[Step::Up, Step::AskLate(0, Question::Which)],
    seen: &[Seen::Up, Seen::Unanswered],
    ..UP_AND_DOWN
};

#[test]
fn a_call_that_nobody_took_is_left(rt: HostRuntime) {
    let lived = live(&rt, rt.alloc(), &CALLS_LATE, 2);
    has_call_left(&rt, &lived.report);
    drop(lived);
}

fn has_call_left(rt: &impl Abort, report: &Closed) {
    let left = match report.tables.first() {
        Some(root) => matches!(root.left.as_slice(), [Item::Call(_, Call::WhichChildren)]),
        None => false,
    };
    assert!(rt; left);
    let told = (report.last.len(), report.live);
    same(rt, "what is left and live", told, (0, 4));
}

// Adds the child `y` to `sub`, lets `x` crash, so that `sub` gives up and is started anew, and lists the children of `sub` before and
// after: `y` has the fourth number (the call itself had one), and is gone after the restart. `x` is there already then, and its second
// body comes back.
const ADDS: Life = Life {
    grove: Grove::Fragile,
    turns: 400,
    steps: &[
        Step::Up,
        Step::Ask(2, Question::Count),
        Step::Ask(1, Question::AddTable),
        Step::Ask(1, Question::Add("y")),
        Step::Ask(1, Question::Which),
        Step::Crash,
        Step::Starts(3, 0),
        Step::Ask(1, Question::Which),
        Step::Ask(1, Question::Add("x")),
        Step::Stop,
        Step::End,
    ],
    seen: &[
        Seen::Up,
        Seen::NoSupervisor,
        Seen::WrongBody,
        Seen::Started(4),
        Seen::Listed(2),
        Seen::Listed(1),
        Seen::AlreadyThere(true),
        END,
    ],
    ..UP_AND_DOWN
};

#[test]
fn a_child_that_a_call_added_is_gone_after_a_restart(rt: HostRuntime) {
    for hands in [1, 2] {
        let lived = live(&rt, rt.alloc(), &ADDS, hands);
        has_two_ends(&rt, lived.report.tables.first());
        drop(lived);
    }
}

// Whether it is the cause of an end by one restart, where none is borne: one time shows it.
fn is_one_too_many(cause: &Cause) -> bool {
    match cause {
        Cause::Intensity { flags, stamps } => flags.intensity == 0 && stamps.as_slice().len() == 1,
        _ => false,
    }
}

// The root has what shows why `sub` ended: it gave up after the crash, and the next `sub` was asked to stop.
fn has_two_ends(rt: &impl Abort, root: Option<&TableReport>) {
    let Some(root) = root else {
        panic!(rt; "a root");
    };
    let [first, second] = root.ends_told.as_slice() else {
        panic!(rt; "two ends that were told");
    };
    assert!(rt; is_one_too_many(&first.end.end().cause));
    assert!(rt; matches!(second.end.end().cause, Cause::Asked));
}

// Lets the supervisors wait for some rounds before each thing that comes for them: a crash of a child, two calls, the stop.
const DISTURBED: Life = Life {
    grove: Grove::Guests,
    step: 1,
    turns: 1_000,
    steps: &[
        Step::Up,
        Step::Rounds(6),
        Step::Crash,
        Step::Starts(4, 0),
        Step::Ask(1, Question::Terminate("stubborn")),
        Step::Ask(1, Question::Restart("stubborn")),
        Step::Stop,
        Step::End,
    ],
    seen: &[Seen::Up, Seen::Ok, Seen::Started(8), END],
    ..UP_AND_DOWN
};

// There were 3 starts at the opening, one after the crash, one of the call, and of `sub` and the root.
#[test]
fn supervisors_that_wait_do_what_comes_for_them(rt: HostRuntime) {
    for hands in [1, 2, 4] {
        let lived = live(&rt, rt.alloc(), &DISTURBED, hands);
        same(&rt, "the starts of workers", lived.shared.starts(), 5);
        all_ended(&rt, &lived.report, 7);
        drop(lived);
    }
}

// Workers that wait take no turns in ten rounds, but the first.
const LEFT_WAITING: Life = Life {
    grove: Grove::Waiters,
    turns: 1_000,
    steps: &[
        Step::Up,
        Step::Turns(WAITERS),
        Step::Rounds(11),
        Step::Count,
    ],
    seen: &[Seen::Up, Seen::Turns(WAITERS)],
    ..UP_AND_DOWN
};

// They have one turn more when they are asked to shut down.
const STOPPED_WAITING: Life = Life {
    steps: &[
        Step::Up,
        Step::Turns(WAITERS),
        Step::Rounds(11),
        Step::Count,
        Step::Stop,
        Step::End,
    ],
    seen: &[Seen::Up, Seen::Turns(WAITERS), END],
    ..LEFT_WAITING
};

// The workers had so many turns in all, and so many processes are live. Each hand made its turns of each round, and the gate was
// told of those in which there was nothing to do: of all turns of ten rounds but the first.
fn idles(rt: &impl Abort, lived: &Lived, hands: u64, turns: u64, live: u64) {
    let of_workers = (lived.shared.starts(), lived.shared.turns());
    same(
        rt,
        "starts and turns of workers",
        of_workers,
        (WAITERS, turns),
    );
    let report = &lived.report;
    check_ledger(rt, report);
    let counted = (report.begun, report.live);
    same(rt, "what began and is live", counted, (WAITERS + 2, live));
    let of_a_round = hands.saturating_mul(1_000);
    let of_hands = lived.clock.turns.load(Ordering::SeqCst);
    let wanted = of_a_round.saturating_mul(lived.rounds);
    same(rt, "the hands' turns", of_hands, wanted);
    let idle = lived.clock.idle.load(Ordering::SeqCst);
    assert!(rt; idle >= of_a_round.saturating_mul(9) && idle <= of_hands);
}

#[test]
fn jobs_that_wait_take_no_turns_until_they_are_told(rt: HostRuntime) {
    let lives = [
        (LEFT_WAITING, WAITERS, WAITERS + 2),
        (STOPPED_WAITING, WAITERS + WAITERS, 0),
    ];
    for (life, turns, left) in lives {
        for hands in [1, 2] {
            let lived = live(&rt, rt.alloc(), &life, hands);
            idles(&rt, &lived, hands as u64, turns, left);
            drop(lived);
        }
    }
}

// Nine supervisors of a hand rest, while eight workers want turns. One crashes, and its supervisor has the next turn: no worker has
// one before. Rounds are of one turn.
const CALLED: Life = Life {
    grove: Grove::Wide(GuestKind::Fragile),
    turns: 1,
    steps: &[
        Step::Up,
        Step::Rounds(40),
        Step::Crash,
        Step::Mark,
        Step::Rounds(1),
        Step::Count,
        Step::Rounds(40),
        Step::Crash,
        Step::Mark,
        Step::Rounds(1),
        Step::Count,
        Step::Rounds(40),
        Step::Crash,
        Step::Mark,
        Step::Rounds(1),
        Step::Count,
    ],
    seen: &[Seen::Up, Seen::Turns(0), Seen::Turns(0), Seen::Turns(0)],
    ..UP_AND_DOWN
};

// All of them rest, and their workers wait. While they are stopped each turn of the hand finds something to do.
const AT_LEISURE: Life = Life {
    grove: Grove::Wide(GuestKind::Waits),
    turns: 1,
    steps: &[
        Step::Up,
        Step::Turns(8),
        Step::Rounds(40),
        Step::Mark,
        Step::Stop,
        Step::End,
        Step::CountIdle,
    ],
    seen: &[Seen::Up, END, Seen::Idle(0)],
    ..UP_AND_DOWN
};

#[test]
fn whoever_rests_is_found_at_once(rt: HostRuntime) {
    for (life, live_at_end) in [(CALLED, 17), (AT_LEISURE, 0)] {
        let lived = live(&rt, rt.alloc(), &life, 1);
        check_ledger(&rt, &lived.report);
        same(&rt, "the live", lived.report.live, live_at_end);
        drop(lived);
    }
}

// One worker, whose turns last long, and two hands. The other one has nothing to do, but isn't told so before the worker's hand has
// made its turns.
const LINGERING: Life = Life {
    grove: Grove::Lingering(20),
    wait: Before::Lingering,
    turns: 20,
    steps: &[Step::Up, Step::Rounds(3)],
    seen: &[Seen::Up],
    ..UP_AND_DOWN
};

#[test]
fn no_hand_is_idle_beside_one_that_works(rt: HostRuntime) {
    let lived = live(&rt, rt.alloc(), &LINGERING, 2);
    assert!(rt; lived.shared.turns() > 0 && lived.shared.beside() < TOO_OFTEN);
    drop(lived);
}

// Trees that live longer than any history: more events than one holds, until a stop. The clock goes on by 10 ms with each turn, so
// that no second has more than 100 restarts. A worker of each supervisor crashes in each of its turns: two events for each restart.
// The answer of the root is gone where it made a checkpoint since.
const LONG: Life = Life {
    grove: Grove::Storm(true, 1_000),
    step: 10,
    turns: 1_000,
    steps: &[
        Step::Up,
        Step::Ask(0, Question::Count),
        Step::Starts(33_000, 33_000),
        Step::AskAgain,
        Step::Stop,
        Step::End,
    ],
    seen: &[Seen::Up, Seen::Counted, Seen::Gone, END],
    ..UP_AND_DOWN
};

// `sub` bears no restart, so that it ends with each crash: three events for each of its lives, two of them told the root.
const ENDS_OFTEN: Life = Life {
    grove: Grove::Storm(false, 0),
    steps: &[
        Step::Up,
        Step::Ask(0, Question::Count),
        Step::Starts(1, 22_000),
        Step::AskAgain,
        Step::Stop,
        Step::End,
    ],
    seen: &[Seen::Up, Seen::Counted, Seen::Counted, END],
    ..LONG
};

// A supervisor that has ended as it was asked to. It had more events than a history holds exactly where a checkpoint is wanted.
fn has_lived(rt: &impl Abort, table: &TableReport, is_long: bool) {
    let told = (table.end(), table.core.events_cut() >= 65_536, table.unsent);
    same(
        rt,
        "a supervisor",
        told,
        (Some(Reason::Shutdown), is_long, 0),
    );
    assert!(rt; table.events() <= 65_536);
}

// All that began has ended, and no end that was told is false. The root was opened once, with two children. More ends were told than
// `sub` has stored, where it ended again and again.
fn outlives(rt: &impl Abort, report: &Closed, of_root: bool, are_ends_cut: bool) {
    let [root, sub] = report.tables.as_slice() else {
        panic!(rt; "two supervisors");
    };
    has_lived(rt, root, of_root);
    has_lived(rt, sub, true);
    let began = root.starts().saturating_add(sub.starts());
    all_ended(rt, report, began.saturating_add(1));
    let restarted = root.restarts().saturating_add(2);
    same(rt, "the starts of the root", root.starts(), restarted);
    let is_cut = root.ends_told.len() > sub.core.ends().len();
    same(rt, "that ends were cut off", is_cut, are_ends_cut);
}

#[test]
fn a_tree_outlives_its_histories(rt: HostRuntime) {
    let lived = live(&rt, rt.alloc(), &LONG, 1);
    outlives(&rt, &lived.report, true, false);
    drop(lived);
}

#[test]
fn ends_that_a_checkpoint_dropped_are_no_mismatch(rt: HostRuntime) {
    let lived = live(&rt, rt.alloc(), &ENDS_OFTEN, 1);
    outlives(&rt, &lived.report, false, true);
    drop(lived);
}
