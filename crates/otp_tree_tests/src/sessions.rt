//! Trees whose hands one thread serves, in a session: opened, counted, closed without one of the hands and then with all.

use crate::fixtures::{MEMORY, got, same};
use crate::gates::Still;
use crate::guests::{Common, GuestPlan, Worker, again, common};
use crate::lives::{Closed, Grove, check_pair, check_strict, plans_of};
use crate::openings::{Back, plans_back};
use otp_job::Body;
use otp_job::bridge::BoxedSubsystem;
use otp_reason::{Note, Reason};
use otp_rules::{Call, CountsNow};
use otp_tree::{
    CloseFault, Hand, Session, System, TreeClient, TreeNaming, Unclosed, close_tree,
    with_growing_system, with_system,
};
use std::alloc::Global;
use std::process::Abort;
use std::sync::Wait;

type Tree<N> = System<N, Worker, BoxedSubsystem>;

type Serving<N> = Hand<N, Worker, BoxedSubsystem>;

type Caller<N> = TreeClient<N, Body<Worker, BoxedSubsystem>>;

// How many starts of workers the pair has: three, of whom one crashes.
const STARTS: u64 = 4;

// Serves all hands until the root is up and so many starts were made.
fn serve_alone<N: TreeNaming, R: Wait + Abort>(
    rt: &R,
    system: &Tree<N>,
    hands: &mut Vec<Serving<N>>,
    client: &mut Caller<N>,
    shared: &Common,
    starts: u64,
) {
    let mut is_up = false;
    for _ in 0..10_000 {
        match system.root_note(rt, client) {
            Some(Note::Up(0)) => is_up = true,
            Some(_) => panic!(rt; "it ended before it was asked to"),
            None => {}
        }
        if is_up && shared.starts() >= starts {
            return;
        }
        for hand in hands.iter_mut() {
            system.serve(rt, hand, &mut Still, 99);
            system.turn(rt, hand, 0);
        }
    }
}

// A turn of a hand. Whether the root has no child left then: with the last one it ends.
fn turn_ends<N: TreeNaming, R: Wait>(rt: &R, system: &Tree<N>, hand: &mut Serving<N>) -> bool {
    system.turn(rt, hand, 0);
    match system.counts(hand, 0) {
        Some(now) => now.active == 0,
        None => false,
    }
}

// Serves all hands until the root ends, and no turn longer.
fn serve_to_end<N: TreeNaming, R: Wait>(rt: &R, system: &Tree<N>, hands: &mut Vec<Serving<N>>) {
    for _ in 0..10_000 {
        let mut has_ended = false;
        for hand in hands.iter_mut() {
            has_ended = has_ended || turn_ends(rt, system, hand);
        }
        if has_ended {
            return;
        }
    }
}

// The tree was up, so many workers were started, and it ended as it was asked to; unless that is still to be told.
fn lives_alone<N: TreeNaming, R: Wait + Abort>(
    rt: &R,
    system: &Tree<N>,
    hands: &mut Vec<Serving<N>>,
    client: &mut Caller<N>,
    shared: &Common,
    starts: u64,
) {
    assert!(rt; system.tables() == 2 && hands.len() == 2 && client.is_first());
    serve_alone(rt, system, hands, client, shared, starts);
    assert!(rt; system.stop(client));
    serve_to_end(rt, system, hands);
    if let Some(end) = system.root_note(rt, client) {
        same(rt, "its end", end, Note::Exit(0, Reason::Shutdown));
    }
    same(rt, "the starts of workers", shared.starts(), starts);
}

// Ends the tree after so many starts of workers, closes it without one of its hands, and then with all of them.
#[derive(Drop)]
struct Closing {
    shared: Common,
    starts: u64,
    alloc: Global,
}

impl<R: Wait + Abort> Session<R, Worker, BoxedSubsystem> for Closing {
    type Output = Closed;

    fn run<N: TreeNaming + Send + Sync>(
        self,
        rt: &R,
        system: System<N, Worker, BoxedSubsystem>,
        hands: Vec<Hand<N, Worker, BoxedSubsystem>>,
        client: TreeClient<N, Body<Worker, BoxedSubsystem>>,
    ) -> Closed {
        let (mut hands, mut client) = (hands, client);
        let Closing {
            shared,
            starts,
            alloc,
        } = self;
        lives_alone(rt, &system, &mut hands, &mut client, &shared, starts);
        drop(shared);
        let away = last_of(rt, &mut hands);
        let mut back = close_without(rt, alloc, system, hands, client);
        got(rt, MEMORY, back.hands.push(away));
        close_with_all(rt, alloc, back)
    }
}

// The last of these hands.
fn last_of<N: TreeNaming, R: Abort>(rt: &R, hands: &mut Vec<Serving<N>>) -> Serving<N> {
    match hands.pop() {
        Some(hand) => hand,
        None => panic!(rt; "a hand"),
    }
}

// Closes the tree without one of its two hands: all that is there comes back.
fn close_without<N: TreeNaming, R: Wait + Abort>(
    rt: &R,
    alloc: Global,
    system: Tree<N>,
    hands: Vec<Serving<N>>,
    client: Caller<N>,
) -> Unclosed<N, Worker, BoxedSubsystem> {
    let back = match close_tree(rt, alloc, system, hands, client) {
        Err(CloseFault::Missing(back) | CloseFault::OutOfMemory(back)) => back,
        _ => panic!(rt; "a hand is away"),
    };
    assert!(rt; back.system.tables() == 2 && back.hands.len() == 1 && back.client.is_first());
    back
}

// Closes the tree. Under a refused growth all comes back, and the tree can be closed again.
fn close_with_all<N: TreeNaming, R: Wait + Abort>(
    rt: &R,
    alloc: Global,
    back: Unclosed<N, Worker, BoxedSubsystem>,
) -> Closed {
    let back = match close_once(rt, alloc, back) {
        Ok(report) => return report,
        Err(CloseFault::OutOfMemory(back)) => back,
        Err(_) => panic!(rt; "all hands are here"),
    };
    got(rt, MEMORY, close_once(rt, alloc, back))
}

// Closes the tree that came back.
fn close_once<N: TreeNaming, R: Wait>(
    rt: &R,
    alloc: Global,
    back: Unclosed<N, Worker, BoxedSubsystem>,
) -> Result<Closed, CloseFault<Worker, BoxedSubsystem, Unclosed<N, Worker, BoxedSubsystem>>> {
    let Unclosed {
        system,
        hands,
        client,
    } = back;
    close_tree(rt, alloc, system, hands, client)
}

// The whole life of the tree, closed first without one of its hands. Where memory is refused at its opening the plans come back.
fn close_whole<R: Wait + Abort>(
    rt: &R,
    alloc: Global,
    plans: Vec<GuestPlan>,
    shared: &Common,
) -> Result<Closed, Back> {
    assert!(rt; plans.len() <= 64);
    let closing = Closing {
        shared: again(rt, shared),
        starts: STARTS,
        alloc,
    };
    with_system(rt, alloc, plans, 2, closing)
}

// The root's end was heard, or is still to be sent: by a hand, or by the root, whose process is left then. Whether it was told.
fn has_told_end<R: Abort>(rt: &R, report: &Closed) -> bool {
    let Some(root) = report.tables.first() else {
        panic!(rt; "a supervisor");
    };
    let orders = root.unsent_orders;
    let told = report.heard.saturating_add(report.held);
    same(rt, "the root's ends", told.saturating_add(orders), 1);
    same(
        rt,
        "what is live and unsent",
        (report.live, root.unsent),
        (orders, 0),
    );
    orders == 0
}

// Under `.ci/refused-growths --trees` the first allocations that are refused are those that the test makes for itself, which it
// then tells. Each of the next is a growth of the opening, of a turn or of the close: the tree is opened again with the plans that
// came back, or nothing is lost, and all comes to the same end; but where what shows the root's end is refused, that order is left.
#[test]
fn a_tree_is_closed_with_all_its_hands(rt: HostRuntime) {
    let shared = common(&rt, rt.alloc());
    let plans = plans_of(&rt, rt.alloc(), Grove::Pair, &shared);
    let report = match close_whole(&rt, rt.alloc(), plans, &shared) {
        Ok(report) => report,
        Err(back) => {
            let plans = plans_back(&rt, back);
            got(
                &rt,
                "the plans were refused again",
                close_whole(&rt, rt.alloc(), plans, &shared),
            )
        }
    };
    if has_told_end(&rt, &report) {
        check_pair(&rt, &report);
    }
    drop(report);
    drop(shared);
}

// The whole life of a tree whose nested supervisor bears no restart. It may have a place for one supervisor more.
fn close_strict<R: Wait + Abort>(rt: &R, alloc: Global, grows: bool) -> Result<Closed, Back> {
    let shared = common(rt, alloc);
    let plans = plans_of(rt, alloc, Grove::Strict, &shared);
    let closing = Closing {
        shared,
        starts: 2,
        alloc,
    };
    assert!(rt; plans.len() <= 3);
    if grows {
        with_growing_system(rt, alloc, plans, 3, 2, closing)
    } else {
        with_system(rt, alloc, plans, 2, closing)
    }
}

// With other flags the nested supervisor would restart its worker, and not give up.
#[test]
fn supervisors_have_the_flags_of_their_plans(rt: HostRuntime) {
    for grows in [false, true] {
        let closed = close_strict(&rt, rt.alloc(), grows);
        let report = got(&rt, "the tree was not opened", closed);
        assert!(rt; has_told_end(&rt, &report));
        check_strict(&rt, &report);
        drop(report);
    }
}

// What a supervisor counts that has so many children, of whom so many have a process.
fn counted(specs: u64, active: u64, supervisors: u64, workers: u64) -> Option<CountsNow> {
    Some(CountsNow {
        specs,
        active,
        supervisors,
        workers,
    })
}

// Whether a reading of the nested supervisor may come after one that had so many children: it is of two workers, of whom at
// most two run, or of none before it was opened; and never of none again.
fn may_follow(last: u64, now: CountsNow) -> bool {
    let is_one = now.specs == now.workers && now.specs <= 2 && now.active <= now.specs;
    is_one && last <= now.specs
}

// A hand reads these counts of a supervisor.
fn reads<N: TreeNaming, R: Abort>(
    rt: &R,
    system: &Tree<N>,
    hand: &mut Serving<N>,
    table: usize,
    wanted: Option<CountsNow>,
) {
    let told = (table, system.counts(hand, table));
    same(rt, "the counts of a supervisor", told, (table, wanted));
}

// Serves by one hand, while another reads after each turn; and reads once all is up and `c` was restarted.
fn count_along<N: TreeNaming, R: Wait + Abort>(
    rt: &R,
    system: &Tree<N>,
    serving: &mut Serving<N>,
    reading: &mut Serving<N>,
) {
    reads(rt, system, reading, 0, counted(0, 0, 0, 0));
    reads(rt, system, reading, 1, counted(0, 0, 0, 0));
    reads(rt, system, reading, 2, None);
    // The root is opened, and starts its first child.
    system.turn(rt, serving, 0);
    reads(rt, system, reading, 0, counted(2, 0, 1, 1));
    count_turns(rt, system, serving, reading);
    reads(rt, system, reading, 0, counted(2, 2, 1, 1));
    reads(rt, system, reading, 1, counted(2, 2, 0, 2));
    reads(rt, system, serving, 1, counted(2, 2, 0, 2));
}

// Reads after each of many turns.
fn count_turns<N: TreeNaming, R: Wait + Abort>(
    rt: &R,
    system: &Tree<N>,
    serving: &mut Serving<N>,
    reading: &mut Serving<N>,
) {
    let mut last = 0;
    for _ in 0..1000 {
        system.turn(rt, serving, 0);
        match system.counts(reading, 1) {
            Some(now) => {
                assert!(rt; may_follow(last, now));
                last = now.specs;
            }
            None => panic!(rt; "the counts of a supervisor"),
        }
    }
}

// A hand that found nothing leaves the deques of others alone for so many searches, and then has a process of them.
fn search_again<N: TreeNaming, R: Wait + Abort>(
    rt: &R,
    system: &Tree<N>,
    serving: &mut Serving<N>,
    searching: &mut Serving<N>,
) {
    // The only process is out.
    assert!(rt; system.look_at_all(serving, 0));
    assert!(rt; !system.turn(rt, searching, 0));
    system.serve(rt, serving, &mut Still, 1000);
    let mut spared: u64 = 0;
    for _ in 0..300 {
        if system.turn(rt, searching, 0) {
            break;
        }
        spared = spared.saturating_add(1);
    }
    same(rt, "the searches that spared others", spared, 256);
}

// So many turns a hand makes while the root is called before each of them.
const CALLED_TURNS: u64 = 170;

// The root is called before each turn of the hand in which it rests: something has come for it each time. All the same one of 17 turns is a
// worker's at least. From the first of them on more are: two calls wait for the root then, so that it goes through the deque.
fn call_along<N: TreeNaming, R: Wait + Abort>(
    rt: &R,
    alloc: Global,
    system: &Tree<N>,
    serving: &mut Serving<N>,
    client: &mut Caller<N>,
    shared: &Common,
) {
    system.serve(rt, serving, &mut Still, 1000);
    let before = shared.turns();
    for _ in 0..CALLED_TURNS {
        let called = system.submit(rt, alloc, client, 0, Call::CountChildren, None);
        drop(got(rt, "the call was not sent", called));
        system.turn(rt, serving, 0);
    }
    let of_workers = shared.turns().saturating_sub(before);
    assert!(rt; of_workers >= CALLED_TURNS / 17 && of_workers < CALLED_TURNS);
}

// What one of two hands, or a caller, does while the other serves. The tree is let go as it runs.
#[derive(Drop)]
enum Beside {
    Counts,
    Searches,
    Calls(Global, Common),
}

impl<R: Wait + Abort> Session<R, Worker, BoxedSubsystem> for Beside {
    type Output = bool;

    fn run<N: TreeNaming + Send + Sync>(
        self,
        rt: &R,
        system: System<N, Worker, BoxedSubsystem>,
        hands: Vec<Hand<N, Worker, BoxedSubsystem>>,
        client: TreeClient<N, Body<Worker, BoxedSubsystem>>,
    ) -> bool {
        let (mut hands, mut client) = (hands, client);
        let mut other = last_of(rt, &mut hands);
        let mut serving = last_of(rt, &mut hands);
        match self {
            Beside::Counts => count_along(rt, &system, &mut serving, &mut other),
            Beside::Searches => search_again(rt, &system, &mut serving, &mut other),
            Beside::Calls(alloc, shared) => {
                call_along(rt, alloc, &system, &mut serving, &mut client, &shared);
                drop(shared);
            }
        }
        drop(serving);
        drop(other);
        drop(hands);
        drop(client);
        drop(system);
        true
    }
}

// A pair is served by one hand, and the other does this.
fn serve_beside<R: Wait + Abort>(rt: &R, alloc: Global, shared: Common, other: Beside) {
    let plans = plans_of(rt, alloc, Grove::Pair, &shared);
    assert!(rt; plans.len() <= 64);
    let served = with_system(rt, alloc, plans, 2, other);
    let served = got(rt, "the tree was not opened", served);
    same(rt, "that it was served", served, true);
    same(rt, "the starts of workers", shared.starts(), STARTS);
    drop(shared);
}

#[test]
fn counts_are_read_while_the_tree_restarts(rt: HostRuntime) {
    serve_beside(&rt, rt.alloc(), common(&rt, rt.alloc()), Beside::Counts);
}

#[test]
fn a_hand_that_found_nothing_searches_again_in_time(rt: HostRuntime) {
    serve_beside(&rt, rt.alloc(), common(&rt, rt.alloc()), Beside::Searches);
}

#[test]
fn a_supervisor_that_is_called_all_the_time_leaves_turns_to_others(rt: HostRuntime) {
    let shared = common(&rt, rt.alloc());
    let other = Beside::Calls(rt.alloc(), again(&rt, &shared));
    serve_beside(&rt, rt.alloc(), shared, other);
}
