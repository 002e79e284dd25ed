// How a tree that was drawn up is served: by a thread for each hand, round by round, and by turns that are counted.

use crate::drawn::{Draft, add, shop, starts_in};
use crate::guests::{Guest, GuestKind, Shared, got, same};
use otp::{
    BoxedSubsystem, CountedRun, CountsNow, Leader, Led, Note, Round, Still, SupFlags, Unwatched,
    lead, run, run_counted,
};
use std::alloc::Global;
use std::process::Abort;
use std::sync::Wait;
use std::sync::atomic::Ordering;
use std::thread::Threads;
use std::time::Clock;

// Whether two jobs had a turn at the same time, within so many turns by so many hands.
fn meets<R: Threads + Wait + Clock + Abort + Sync>(
    rt: &R,
    alloc: Global,
    turns: u64,
    hands: usize,
) -> u64 {
    let shared = Shared::new(rt, alloc);
    let mut root = Draft::new(alloc, SupFlags::default());
    add(rt, &mut root, "a", GuestKind::Meets(turns), &shared);
    add(rt, &mut root, "b", GuestKind::Meets(turns), &shared);
    let ran = run(rt, alloc, root, hands, &shared.stop, &Unwatched);
    let report = got(rt, "the tree was not run", ran);
    same(rt, "the processes that are left", report.live, 0);
    drop(report);
    let met = shared.met.load(Ordering::SeqCst);
    drop(shared);
    met
}

#[test]
fn two_hands_serve_at_the_same_time(rt: HostRuntime) {
    same(&rt, "by one hand", meets(&rt, rt.alloc(), 100, 1), 0);
    same(&rt, "by two", meets(&rt, rt.alloc(), 100_000, 2), 1);
}

// Serves for two rounds, and stops the tree in the third.
#[derive(Drop)]
struct Leading {
    // How often it was asked, and how often the root told that it is up.
    asked: u64,
    ups: u64,
}

impl Leader<Guest, BoxedSubsystem> for Leading {
    fn next(&mut self, told: Option<Note>) -> Round<Guest, BoxedSubsystem> {
        self.asked = self.asked.saturating_add(1);
        if let Some(Note::Up(_)) = told {
            self.ups = self.ups.saturating_add(1);
        }
        match self.asked {
            1 => Round::Serve(200),
            2 => Round::Serve(1),
            _ => Round::Stop(200),
        }
    }
}

fn lead_shop<R: Threads + Wait + Abort + Sync>(rt: &R, alloc: Global) {
    let shared = Shared::new(rt, alloc);
    let root = shop(rt, alloc, &shared);
    let leader = Leading { asked: 0, ups: 0 };
    let led = lead(rt, alloc, root, 1, &Still, 3, leader);
    let Led { leader, report } = got(rt, "the tree was not led", led);
    let report = got(rt, "the tree was not closed", report);
    same(rt, "the rounds", (leader.asked, leader.ups), (3, 1));
    same(rt, "the report", starts_in(&report, 1), (Some(2), 0));
    drop(report);
    drop(leader);
    drop(shared);
}

// A leader is asked before each round, as often as there may be rounds, and hears that the root is up.
#[test]
fn a_tree_is_led_round_by_round(rt: HostRuntime) {
    lead_shop(&rt, rt.alloc());
}

fn count_shop<R: Threads + Wait + Abort + Sync>(rt: &R, alloc: Global) {
    let shared = Shared::new(rt, alloc);
    let root = shop(rt, alloc, &shared);
    let ran = run_counted(rt, alloc, root, 1, &Still, 200);
    let CountedRun { counts, report } = got(rt, "the tree was not run", ran);
    let of_root = CountsNow {
        specs: 2,
        active: 2,
        supervisors: 1,
        workers: 1,
    };
    let of_pool = CountsNow {
        specs: 2,
        active: 2,
        supervisors: 0,
        workers: 2,
    };
    same(rt, "how many were counted", counts.len(), 2);
    same(rt, "the root", counts.first().copied(), Some(of_root));
    same(rt, "the pool", counts.last().copied(), Some(of_pool));
    same(rt, "the report", starts_in(&report, 1), (Some(2), 0));
    drop(report);
    drop(counts);
    drop(shared);
}

// The counts are those from before the stop, when all children were up.
#[test]
fn the_children_of_each_supervisor_are_counted(rt: HostRuntime) {
    count_shop(&rt, rt.alloc());
}
