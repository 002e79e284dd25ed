//! Trees that are run in one call, and their reports: small ones, and one of as many supervisors as there may be, each with as many
//! children.

use crate::fixtures::{MEMORY, got, same};
use crate::gates::{Clock, Wait as Before};
use crate::guests::{GuestKind, GuestPlan, common, crowd};
use crate::lives::{
    Closed, Grove, check_ledger, check_pair, check_strict, check_three, plans_of, ran,
};
use otp_reason::{Note, Reason, Text};
use otp_rules::{Item, Kind as Event};
use otp_spec::MAX_TABLES;
use otp_tree::TableReport;
use std::alloc::Global;
use std::process::Abort;
use std::sync::Wait;
use std::sync::atomic::{AtomicU64, Ordering};
use std::thread::Threads;

// A tree is run in one call, so many turns of each hand before the stop and as many after it. What its gate was told comes along.
fn run_so<R: Threads + Wait + Abort + Sync>(
    rt: &R,
    alloc: Global,
    grove: Grove,
    wait: Before,
    hands: usize,
    turns: u64,
) -> (Closed, Clock) {
    let shared = common(rt, alloc);
    let plans = plans_of(rt, alloc, grove, &shared);
    let clock = Clock::new(shared, 0, wait);
    let report = ran(rt, alloc, plans, hands, &clock, turns);
    (report, clock)
}

// The report alone, where hands wait for nothing.
fn report_of<R: Threads + Wait + Abort + Sync>(
    rt: &R,
    alloc: Global,
    grove: Grove,
    hands: usize,
    turns: u64,
) -> Closed {
    let (report, clock) = run_so(rt, alloc, grove, Before::Nothing, hands, turns);
    drop(clock);
    report
}

// What a tree is once all of it has ended.
fn check_end<R: Abort>(rt: &R, grove: Grove, report: &Closed) {
    match grove {
        Grove::Pair => check_pair(rt, report),
        Grove::Three => check_three(rt, report),
        Grove::Strict => check_strict(rt, report),
        _ => panic!(rt; "a tree that ends"),
    }
}

// The whole life of a tree in one call, long enough for its end. How far several hands come depends on how their threads run: one may
// use up its turns while another, which has a process out, doesn't run. So the end is asked of one hand, and of more where all has
// ended.
fn runs_whole<R: Threads + Wait + Abort + Sync>(rt: &R, alloc: Global, grove: Grove, hands: usize) {
    let report = report_of(rt, alloc, grove, hands, 20_000);
    check_accounts(rt, &report);
    check_numbers(rt, alloc, &report);
    if hands == 1 || report.live == 0 {
        check_end(rt, grove, &report);
    }
    drop(report);
}

#[test]
fn a_whole_tree_is_run_in_one_call(rt: HostRuntime) {
    for grove in [Grove::Pair, Grove::Three, Grove::Strict] {
        for hands in [1, 2, 4, 8] {
            runs_whole(&rt, rt.alloc(), grove, hands);
        }
    }
}

// So short that processes are left.
#[test]
fn a_tree_is_closed_in_the_midst_of_its_life(rt: HostRuntime) {
    for hands in [1, 2, 4, 8] {
        let report = report_of(&rt, rt.alloc(), Grove::Pair, hands, 1);
        check_accounts(&rt, &report);
        assert!(rt; report.tables.len() == 2 && report.live > 0);
        drop(report);
    }
}

// As many supervisors as there may be, each with 256 children, of whom in the root the first are the others.
fn full_plans(rt: &impl Abort, alloc: Global) -> Vec<GuestPlan> {
    let shared = common(rt, alloc);
    let mut plans = Vec::new(alloc);
    for table in 0..MAX_TABLES {
        let nested = if table == 0 { MAX_TABLES - 1 } else { 0 };
        let plan = crowd(rt, alloc, 16, nested, GuestKind::Steady, &shared);
        got(rt, MEMORY, plans.push(plan));
    }
    drop(shared);
    plans
}

// So few turns of all hands together leave most children unstarted, and most of those that were started unended.
fn close_full<R: Threads + Wait + Abort + Sync>(rt: &R, alloc: Global, hands: usize, turns: u64) {
    let plans = full_plans(rt, alloc);
    let clock = Clock::new(common(rt, alloc), 0, Before::Nothing);
    let report = ran(rt, alloc, plans, hands, &clock, turns);
    drop(clock);
    assert!(rt; report.tables.len() == MAX_TABLES && report.live > 0);
    check_accounts(rt, &report);
    check_numbers(rt, alloc, &report);
    drop(report);
}

#[test]
fn full_trees_are_closed(rt: HostRuntime) {
    for (hands, turns) in [(1, 20_000), (2, 10_000), (4, 5_000), (8, 2_500)] {
        close_full(&rt, rt.alloc(), hands, turns);
    }
}

// What all supervisors of a report have together: the children that they started, the starts that were still to be sent, the items that
// they hadn't taken, and the ends that they took or left.
#[derive(Clone, Copy)]
struct Sums {
    starts: u64,
    unsent: u64,
    left: u64,
    ends: u64,
}

fn sums_of(report: &Closed) -> Sums {
    let mut sums = Sums {
        starts: 0,
        unsent: 0,
        left: 0,
        ends: 0,
    };
    for table in report.tables.as_slice() {
        sums.starts = sums.starts.saturating_add(table.starts());
        sums.unsent = sums.unsent.saturating_add(table.unsent);
        sums.left = sums.left.saturating_add(table.left.len() as u64);
        sums.ends = sums
            .ends
            .saturating_add(ends_taken(table))
            .saturating_add(ends_in(table.left.as_slice()));
    }
    sums
}

// Each start that was sent began a process, and so did the root. Each end was taken or is left, the root's own too and those that
// hands had still to tell, and the rest is live.
fn check_accounts<R: Abort>(rt: &R, report: &Closed) {
    check_ledger(rt, report);
    let sums = sums_of(report);
    let started = report.begun.saturating_add(sums.unsent);
    same(rt, "the starts", started, sums.starts.saturating_add(1));
    let ends = ends_in(report.last.as_slice())
        .saturating_add(report.heard)
        .saturating_add(report.held)
        .saturating_add(sums.ends);
    same(rt, "the ends", report.ended, ends);
}

fn ends_taken(table: &TableReport) -> u64 {
    let history = table.core.history();
    let mut ends: u64 = 0;
    for place in 0..history.len() {
        if let Event::Took(item) = history.get(place).kind {
            ends = ends.saturating_add(ends_in(&[item]));
        }
    }
    ends
}

fn ends_in(items: &[Item]) -> u64 {
    let mut ends: u64 = 0;
    for item in items {
        if let Item::Note(Note::Ignored(_) | Note::Failed(..) | Note::Exit(..)) = item {
            ends = ends.saturating_add(1);
        }
    }
    ends
}

// 0 is the root's number. Each of the next was given to one child of one supervisor, and no other number to any.
fn check_numbers<R: Abort>(rt: &R, alloc: Global, report: &Closed) {
    let mut given = got(
        rt,
        MEMORY,
        Vec::from_elem(alloc, false, report.begun as usize),
    );
    for table in report.tables.as_slice() {
        marks_all(rt, given.as_mut_slice(), table);
    }
}

// The number of the first child's process: 0 is the root's.
const FIRST: u64 = 1;

// A supervisor gave so many numbers, one after the other, and this one first.
fn check_turn<R: Abort>(rt: &R, table: &TableReport, first: u64, count: u64) {
    let history = table.core.history();
    let mut next = first;
    for place in 0..history.len() {
        if let Some(number) = history.get(place).number {
            same(rt, "a number in turn", number, next);
            next = next.saturating_add(1);
        }
    }
    same(
        rt,
        "the number after the last",
        next,
        first.saturating_add(count),
    );
}

// Marks the numbers that a supervisor gave, which none has given before.
fn marks_all<R: Abort>(rt: &R, given: &mut [bool], table: &TableReport) {
    let history = table.core.history();
    for place in 0..history.len() {
        if let Some(number) = history.get(place).number {
            marks_one(rt, given, number);
        }
    }
}

fn marks_one(rt: &impl Abort, given: &mut [bool], number: u64) {
    assert!(rt; number > 0);
    match given.get_mut(number as usize) {
        Some(mark) => {
            assert!(rt; !*mark);
            *mark = true;
        }
        None => panic!(rt; "a number in turn"),
    }
}

#[test]
fn a_report_counts_starts_events_and_processes(rt: HostRuntime) {
    let report = report_of(&rt, rt.alloc(), Grove::Three, 1, 1000);
    check_small(&rt, &report);
    drop(report);
}

// What the report tells of three steady workers: opened, three starts and three answers, and the stop with three ends. The root took
// all.
fn check_small<R: Abort>(rt: &R, report: &Closed) {
    let [root] = report.tables.as_slice() else {
        panic!(rt; "one supervisor");
    };
    let counted = (root.starts(), root.restarts(), root.events());
    same(rt, "the starts and events", counted, (3, 0, 8));
    same(rt, "its end", root.end(), Some(Reason::Shutdown));
    check_turn(rt, root, FIRST, 3);
    assert!(rt; root.left.is_empty() && root.unsent_orders == 0 && root.unsent == 0);
    let counted = (report.begun, report.ended, report.live);
    same(rt, "the processes", counted, (4, 4, 0));
    // Nobody took what the root told: that it was up, and its end.
    let end = Note::Exit(0, Reason::Shutdown);
    let told = [Item::Note(Note::Up(0)), Item::Note(end)];
    same(rt, "what is left", report.last.as_slice(), told.as_slice());
}

// The supervisor's first turn started the first worker, its second one the second; in its third it was told to stop. The last turn was the
// second worker's first.
fn has_answer_left<R: Abort>(rt: &R, report: &Closed) {
    let up = [Item::Note(Note::Up(2))];
    match report.tables.first() {
        Some(root) => same(rt, "what it left", root.left.as_slice(), up.as_slice()),
        None => panic!(rt; "a supervisor"),
    }
}

#[test]
fn trees_that_are_closed_early_tell_what_is_left(rt: HostRuntime) {
    let mut left: u64 = 0;
    for turns in 1..20 {
        let report = report_of(&rt, rt.alloc(), Grove::Three, 1, turns);
        if turns == 3 {
            has_answer_left(&rt, &report);
        }
        check_accounts(&rt, &report);
        left = left.saturating_add(sums_of(&report).left);
        drop(report);
    }
    assert!(rt; left > 0);
}

fn is_told(rt: &impl Abort, what: &str, told: &AtomicU64, wanted: u64) {
    same(rt, what, told.load(Ordering::SeqCst), wanted);
}

// It was called four times, the last time at the end, and saw three children.
#[test]
fn a_gate_is_told_how_far_a_run_is(rt: HostRuntime) {
    let (report, clock) = run_so(&rt, rt.alloc(), Grove::Three, Before::Nothing, 2, 60_000);
    drop(report);
    is_told(&rt, "the calls", &clock.calls, 4);
    is_told(&rt, "the turns that were made", &clock.made, 120_000);
    is_told(&rt, "the turns in all", &clock.of, 120_000);
    is_told(&rt, "the children", &clock.live, 3);
    drop(clock);
}

#[test]
fn a_gate_is_told_of_no_idle_turn_while_workers_work(rt: HostRuntime) {
    let (report, clock) = run_so(&rt, rt.alloc(), Grove::Three, Before::Nothing, 1, 1_000);
    drop(report);
    is_told(&rt, "the idle turns", &clock.idle, 0);
    is_told(&rt, "the children", &clock.live, 3);
    drop(clock);
}

// How many processes ended normally, how many otherwise, and how the first of them ended, by the histories.
fn ends_of(report: &Closed) -> (u64, u64, Option<Reason>) {
    let (mut normal, mut other): (u64, u64) = (0, 0);
    let mut first = None;
    for table in report.tables.as_slice() {
        let history = table.core.history();
        for place in 0..history.len() {
            if let Event::Took(Item::Note(Note::Exit(_, reason))) = history.get(place).kind {
                first = first.or(Some(reason));
                match reason {
                    Reason::Normal => normal = normal.saturating_add(1),
                    _ => other = other.saturating_add(1),
                }
            }
        }
    }
    (normal, other, first)
}

fn alone() -> Option<Reason> {
    Some(Reason::Error(Text::joined(b"alone", b"")))
}

// Two workers end well only where they run at once: where one of two hands has both, the other steals one. One hand can't run them
// so: the first holds in vain, and the second sees that the first had its turn. With three hands one has nothing to do at last.
#[test]
fn several_threads_run_two_jobs_at_once_and_one_does_not(rt: HostRuntime) {
    let met: (u64, u64, Option<Reason>) = (2, 0, Some(Reason::Normal));
    let runs = [
        (Grove::Meeting(10_000_000), 2, 1_000_000, met),
        (Grove::Meeting(10_000_000), 3, 20_000, met),
        (Grove::Meeting(1000), 1, 1000, (1, 1, alone())),
    ];
    for (grove, hands, turns, ends) in runs {
        let (report, clock) = run_so(&rt, rt.alloc(), grove, Before::First, hands, turns);
        drop(clock);
        same(&rt, "the ends", ends_of(&report), ends);
        drop(report);
    }
}
