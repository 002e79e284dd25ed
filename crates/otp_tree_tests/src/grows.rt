//! Trees to which supervisors are added while they run.

use crate::fixtures::{MEMORY, got, same};
use crate::gates::Still;
use crate::guests::{
    Child, Common, GuestKind, GuestPlan, Load, Worker, again, both, common, one, plan_of,
};
use crate::lives::Closed;
use otp_core::ReplyAnswer;
use otp_hand::TreeNaming;
use otp_job::bridge::BoxedSubsystem;
use otp_job::{Body, TableNo};
use otp_reason::{Name, Reason};
use otp_rules::{Call, Reply};
use otp_spec::{ChildSpec, ChildType, MAX_TABLES, Shutdown};
use otp_tree::{
    AddFault, CallRefusal, Hand, NoTable, Session, System, TreeClient, Uncalled, add_tree,
    close_tree, with_growing_system,
};
use std::alloc::Global;
use std::process::Abort;
use std::sync::Wait;

type Tree<N> = System<N, Worker, BoxedSubsystem>;

type Serving<N> = Hand<N, Worker, BoxedSubsystem>;

type Caller<N> = TreeClient<N, Load>;

// The plan of a supervisor without children.
fn childless(rt: &impl Abort, alloc: Global, shared: &Common) -> Vec<GuestPlan> {
    one(rt, alloc, plan_of(rt, alloc, &[], 1, shared))
}

// The plans of a supervisor of one that has the worker `x`.
fn pair(rt: &impl Abort, alloc: Global, shared: &Common) -> Vec<GuestPlan> {
    let top = plan_of(rt, alloc, &[Child::Sup("below", 1)], 1, shared);
    let below = plan_of(rt, alloc, &[Child::Does("x", GuestKind::Steady)], 1, shared);
    both(rt, alloc, top, below)
}

// Adds these supervisors, of which the first gets this number.
fn add<N: TreeNaming, R: Wait + Abort>(
    rt: &R,
    alloc: Global,
    system: &Tree<N>,
    plans: Vec<GuestPlan>,
    number: usize,
) -> TableNo {
    assert!(rt; !plans.is_empty());
    let top = got(
        rt,
        "no supervisor was added",
        add_tree(rt, alloc, system, plans),
    );
    same(rt, "its number", top.number(), number);
    top
}

// A child that is a supervisor, with as much time to shut down as it wants, or with less.
fn supervisor_spec(rt: &impl Abort, shutdown: Shutdown) -> ChildSpec {
    let Some(id) = Name::new(b"sub") else {
        panic!(rt; "a name");
    };
    ChildSpec {
        kind: ChildType::Supervisor,
        shutdown,
        ..ChildSpec::new(id, id)
    }
}

// Calls the root to start the top as its child. The number of the call.
fn start<N: TreeNaming, R: Wait + Abort>(
    rt: &R,
    alloc: Global,
    system: &Tree<N>,
    client: &mut Caller<N>,
    top: TableNo,
) -> u64 {
    let late = Call::StartChild(supervisor_spec(rt, Shutdown::Milliseconds(5_000)));
    let Uncalled { cause, body } = match system.submit(
        rt,
        alloc,
        client,
        0,
        late,
        Some(Body::Sup(top)),
    ) {
        Ok(_) => panic!(rt; "it has less time than it wants"),
        Err(back) => back,
    };
    same(rt, "why it was not sent", cause, CallRefusal::NotInfinity);
    let call = Call::StartChild(supervisor_spec(rt, Shutdown::Infinity));
    got(
        rt,
        "the call was not sent",
        system.submit(rt, alloc, client, 0, call, body),
    )
}

fn serve<N: TreeNaming, R: Wait>(rt: &R, system: &Tree<N>, hands: &mut Vec<Serving<N>>) {
    for hand in hands.iter_mut() {
        system.serve(rt, hand, &mut Still, 200);
    }
}

// The answer to a call of the root is that this process was started.
fn is_started<N: TreeNaming, R: Wait + Abort>(rt: &R, system: &Tree<N>, call: u64) {
    let answer = got(rt, MEMORY, system.reply(rt, 0, call));
    match answer {
        ReplyAnswer::Kept(Reply::OkProcess(_)) => {}
        _ => panic!(rt; "the supervisor was not started"),
    }
}

// A table was reported that started so many children, and ended so.
fn ended(rt: &impl Abort, report: &Closed, table: usize, starts: u64, end: Option<Reason>) {
    let Some(one) = report.tables.get(table) else {
        panic!(rt; "the supervisor was not reported");
    };
    same(
        rt,
        "how many children it started",
        (table, one.starts()),
        (table, starts),
    );
    same(rt, "how it ended", (table, one.end()), (table, end));
}

// Adds two supervisors, and starts the first of them as the root's child.
#[derive(Drop)]
struct Starting {
    shared: Common,
    alloc: Global,
}

impl<R: Wait + Abort> Session<R, Worker, BoxedSubsystem> for Starting {
    type Output = Closed;

    fn run<N: TreeNaming + Send + Sync>(
        self,
        rt: &R,
        system: System<N, Worker, BoxedSubsystem>,
        hands: Vec<Hand<N, Worker, BoxedSubsystem>>,
        client: TreeClient<N, Body<Worker, BoxedSubsystem>>,
    ) -> Closed {
        let (mut hands, mut client) = (hands, client);
        let Starting { shared, alloc } = self;
        let plans = pair(rt, alloc, &shared);
        drop(shared);
        serve(rt, &system, &mut hands);
        let top = add(rt, alloc, &system, plans, 1);
        let call = start(rt, alloc, &system, &mut client, top);
        serve(rt, &system, &mut hands);
        is_started(rt, &system, call);
        same(rt, "how many supervisors there are", system.tables(), 3);
        assert!(rt; system.stop(&mut client));
        serve(rt, &system, &mut hands);
        got(
            rt,
            "all parts are here",
            close_tree(rt, alloc, system, hands, client),
        )
    }
}

#[test]
fn a_supervisor_is_added_and_started(rt: HostRuntime) {
    let shared = common(&rt, rt.alloc());
    let plans = childless(&rt, rt.alloc(), &shared);
    let starting = Starting {
        shared: again(&rt, &shared),
        alloc: rt.alloc(),
    };
    assert!(rt; plans.len() <= 8);
    let opened = with_growing_system(&rt, rt.alloc(), plans, 8, 1, starting);
    let report = got(&rt, "the tree was not opened", opened);
    same(
        &rt,
        "how many supervisors are reported",
        report.tables.len(),
        3,
    );
    ended(&rt, &report, 0, 1, Some(Reason::Shutdown));
    ended(&rt, &report, 1, 1, Some(Reason::Shutdown));
    ended(&rt, &report, 2, 1, Some(Reason::Shutdown));
    same(&rt, "what is live", report.live, 0);
    same(&rt, "the starts of workers", shared.starts(), 1);
    drop(report);
    drop(shared);
}

// Fills the tree with supervisors, and asks for one more, and for one that isn't there.
#[derive(Drop)]
struct Filling {
    shared: Common,
    alloc: Global,
}

impl<R: Wait + Abort> Session<R, Worker, BoxedSubsystem> for Filling {
    type Output = Closed;

    fn run<N: TreeNaming + Send + Sync>(
        self,
        rt: &R,
        system: System<N, Worker, BoxedSubsystem>,
        hands: Vec<Hand<N, Worker, BoxedSubsystem>>,
        client: TreeClient<N, Body<Worker, BoxedSubsystem>>,
    ) -> Closed {
        let Filling { shared, alloc } = self;
        same(
            rt,
            "one that isn't there",
            system.reach(&client, 1),
            Err(NoTable),
        );
        for number in 1..MAX_TABLES {
            let plans = childless(rt, alloc, &shared);
            drop(add(rt, alloc, &system, plans, number));
            same(
                rt,
                "one that was added",
                system.reach(&client, number),
                Ok(()),
            );
        }
        same(
            rt,
            "one that can't be",
            system.reach(&client, MAX_TABLES),
            Err(NoTable),
        );
        too_many(rt, alloc, &system, &shared);
        drop(shared);
        got(
            rt,
            "all parts are here",
            close_tree(rt, alloc, system, hands, client),
        )
    }
}

// One more is refused, and its plan comes back.
fn too_many<N: TreeNaming, R: Wait + Abort>(
    rt: &R,
    alloc: Global,
    system: &Tree<N>,
    shared: &Common,
) {
    let plans = childless(rt, alloc, shared);
    assert!(rt; !plans.is_empty());
    match add_tree(rt, alloc, system, plans) {
        Ok(_) => panic!(rt; "there is no place left"),
        Err(back) => {
            same(
                rt,
                "why none was added",
                back.fault,
                AddFault::TooManyTables,
            );
            same(rt, "how many came back", back.plans.len(), 1);
            drop(back);
        }
    }
}

#[test]
fn a_tree_has_64_supervisors_at_most(rt: HostRuntime) {
    let shared = common(&rt, rt.alloc());
    let plans = childless(&rt, rt.alloc(), &shared);
    let filling = Filling {
        shared,
        alloc: rt.alloc(),
    };
    assert!(rt; plans.len() <= MAX_TABLES);
    let opened = with_growing_system(&rt, rt.alloc(), plans, MAX_TABLES, 2, filling);
    let report = got(&rt, "the tree was not opened", opened);
    same(
        &rt,
        "how many supervisors are reported",
        report.tables.len(),
        MAX_TABLES,
    );
    ended(&rt, &report, 63, 0, None);
    drop(report);
}

// How many supervisors are added at a time.
const EACH: usize = 20;

// Adds supervisors one by one. Their numbers.
fn add_many<N: TreeNaming, R: Wait + Abort>(
    rt: &R,
    alloc: Global,
    system: &Tree<N>,
    shared: Common,
) -> Vec<usize> {
    let mut numbers = Vec::new(alloc);
    for _ in 0..EACH {
        let plans = childless(rt, alloc, &shared);
        assert!(rt; !plans.is_empty());
        let top = got(
            rt,
            "no supervisor was added",
            add_tree(rt, alloc, system, plans),
        );
        got(rt, MEMORY, numbers.push(top.number()));
        drop(top);
    }
    drop(shared);
    numbers
}

// Marks these numbers, none of which is marked yet.
fn mark(rt: &impl Abort, is_there: &mut [bool], numbers: &[usize]) {
    for number in numbers {
        let Some(place) = is_there.get_mut(*number) else {
            panic!(rt; "a number that no supervisor has");
        };
        assert!(rt; !*place);
        *place = true;
    }
}

// Each number from the first on that was added is one of these, and none twice.
fn are_once(rt: &impl Abort, one: &[usize], other: &[usize]) {
    let mut is_there = [false; MAX_TABLES];
    mark(rt, &mut is_there, one);
    mark(rt, &mut is_there, other);
    let mut number = 0;
    for is_one in &is_there {
        let wanted = number >= 1 && number <= 2 * EACH;
        same(rt, "who has a number", (number, *is_one), (number, wanted));
        number = number.saturating_add(1);
    }
}

#[derive(Drop)]
struct Sharing {
    one: Common,
    other: Common,
    alloc: Global,
}

impl<R: Wait + Abort> Session<R, Worker, BoxedSubsystem> for Sharing {
    type Output = Closed;

    fn run<N: TreeNaming + Send + Sync>(
        self,
        rt: &R,
        system: System<N, Worker, BoxedSubsystem>,
        hands: Vec<Hand<N, Worker, BoxedSubsystem>>,
        client: TreeClient<N, Body<Worker, BoxedSubsystem>>,
    ) -> Closed {
        let Sharing { one, other, alloc } = self;
        let numbers = add_many(rt, alloc, &system, one);
        let others = add_many(rt, alloc, &system, other);
        are_once(rt, numbers.as_slice(), others.as_slice());
        got(
            rt,
            "all parts are here",
            close_tree(rt, alloc, system, hands, client),
        )
    }
}

#[test]
fn each_supervisor_that_is_added_has_a_number_of_its_own(rt: HostRuntime) {
    let shared = common(&rt, rt.alloc());
    let plans = childless(&rt, rt.alloc(), &shared);
    let sharing = Sharing {
        one: again(&rt, &shared),
        other: again(&rt, &shared),
        alloc: rt.alloc(),
    };
    drop(shared);
    assert!(rt; plans.len() <= MAX_TABLES);
    let opened = with_growing_system(&rt, rt.alloc(), plans, MAX_TABLES, 1, sharing);
    let report = got(&rt, "the tree was not opened", opened);
    same(
        &rt,
        "how many supervisors are reported",
        report.tables.len(),
        1 + 2 * EACH,
    );
    drop(report);
}
