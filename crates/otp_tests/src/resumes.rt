//! A checkpoint from elsewhere: what is changed in it, and why no core is resumed from it then, or why it isn't in order.

use crate::driver::{Driver, ONE, checkpoint};
use crate::fixtures::{got, same};
use otp_core::{Base, BaseFault, Core, ResumeFault};
use otp_needs::order::{OrderFault, check_order};
use otp_rules::{Due, Ending, Phase, Sequel};
use otp_spec::{MAX_CHILDREN, MAX_READING, SpecFault};
use otp_table::Row;
use std::alloc::Global;
use std::process::Abort;

// What is changed.
#[derive(Clone, Copy)]
enum Change {
    Nothing,
    Restart(u64),
    NoRestarts,
    Last(u64),
    Phase(Phase),
    Events(u64),
    Greatest(u64),
    // The first child once more, so often.
    Rows(usize),
    // The first specification once more.
    Spec,
    Stop(u64),
    NoStops,
    // The first child is to be started.
    Start,
    Follows(Option<Sequel>),
}

// The row of the first child.
fn first_of(rt: &impl Abort, base: &Base) -> Row {
    match base.rows.first() {
        Some(row) => *row,
        None => panic!(rt; "a row"),
    }
}

fn add_rows(rt: &impl Abort, base: &mut Base, count: usize) {
    let row = first_of(rt, base);
    for _ in 0..count {
        got(rt, base.rows.push(row));
    }
}

fn add_start(rt: &impl Abort, base: &mut Base) {
    let due = Due {
        id: first_of(rt, base).id,
        kept: None,
    };
    got(rt, base.to_start.push(due));
}

fn make(rt: &impl Abort, base: &mut Base, change: Change) {
    match change {
        Change::Nothing => {}
        Change::Restart(at) => got(rt, base.stamps.push(at)),
        Change::NoRestarts => base.stamps.clear(),
        Change::Last(last) => base.last = last,
        Change::Phase(phase) => base.phase = phase,
        Change::Events(events) => base.counts.events = events,
        Change::Greatest(number) => base.counts.greatest_number = number,
        Change::Rows(count) => add_rows(rt, base, count),
        Change::Spec => {
            let spec = first_of(rt, base).spec;
            got(rt, base.specs.push(spec));
        }
        Change::Stop(number) => got(rt, base.to_stop.push(number)),
        Change::NoStops => base.to_stop.clear(),
        Change::Start => add_start(rt, base),
        Change::Follows(follows) => base.follows = follows,
    }
}

// Why no core is resumed from it.
fn fault_of(alloc: Global, base: &Base) -> Option<BaseFault> {
    match Core::resume(alloc, base) {
        Err(ResumeFault::Base(why)) => Some(why),
        Err(_) => None,
        Ok(core) => {
            drop(core);
            None
        }
    }
}

// What it is now, the change, why no core is resumed from it, and why it isn't in order.
type Told = (&'static str, Change, Option<BaseFault>, Option<OrderFault>);

// A supervisor of one child that crashed once, as it stands.
fn sample(rt: &impl Abort, alloc: Global) -> Base {
    let mut driver = Driver::open(rt, alloc, ONE);
    let steps = [
        ("up 1", "start a #1\nready\n"),
        ("at 1000", ""),
        ("exit 1 error:x", "start a #2\n"),
        ("up 2", ""),
    ];
    driver.play(rt, alloc, &steps);
    let base = checkpoint(rt, alloc, &mut driver.core);
    drop(driver);
    base
}

// Changes it, one change after the other.
fn changes(rt: &impl Abort, alloc: Global, changes: &[Told]) {
    let mut base = sample(rt, alloc);
    for (what, change, fault, disorder) in changes {
        make(rt, &mut base, *change);
        let told = (fault_of(alloc, &base), check_order(&base).err());
        same(rt, what, told, (*fault, *disorder));
    }
    drop(base);
}

const LATE: Option<BaseFault> = Some(BaseFault::Reading);

const RESTARTS: Option<BaseFault> = Some(BaseFault::Restarts);

const COUNTS: Option<BaseFault> = Some(BaseFault::Counts);

const OF_RESTARTS: [Told; 12] = [
    ("as it stands", Change::Nothing, None, None),
    (
        "a restart before another",
        Change::Restart(900),
        RESTARTS,
        None,
    ),
    ("no restart", Change::NoRestarts, None, None),
    ("a restart", Change::Restart(800), None, None),
    ("one too many", Change::Restart(900), RESTARTS, None),
    (
        "one too many at the end",
        Change::Phase(Phase::Ended(0, Ending::Intensity)),
        None,
        Some(OrderFault::Rows),
    ),
    (
        "a restart to come",
        Change::Last(899),
        RESTARTS,
        Some(OrderFault::Rows),
    ),
    (
        "a later event",
        Change::Last(10_000),
        None,
        Some(OrderFault::Rows),
    ),
    (
        "more than are kept",
        Change::Restart(9_000),
        RESTARTS,
        Some(OrderFault::Rows),
    ),
    (
        "an end without restarts",
        Change::NoRestarts,
        RESTARTS,
        Some(OrderFault::Rows),
    ),
    ("it runs", Change::Phase(Phase::Open(0)), None, None),
    (
        "it was stopped",
        Change::Phase(Phase::Ended(0, Ending::Asked)),
        None,
        Some(OrderFault::Rows),
    ),
];

#[test]
fn refused_restarts(rt: HostRuntime) {
    changes(&rt, rt.alloc(), &OF_RESTARTS);
}

const OF_NUMBERS: [Told; 6] = [
    ("a late event", Change::Last(MAX_READING + 1), LATE, None),
    ("the latest event", Change::Last(MAX_READING), None, None),
    (
        "too many events",
        Change::Events((1 << 62) + 1),
        COUNTS,
        None,
    ),
    ("more starts than events", Change::Events(1), COUNTS, None),
    (
        "a number to come",
        Change::Greatest(1),
        COUNTS,
        Some(OrderFault::Processes),
    ),
    ("no number to come", Change::Greatest(2), COUNTS, None),
];

#[test]
fn refused_numbers(rt: HostRuntime) {
    changes(&rt, rt.alloc(), &OF_NUMBERS);
}

const PROCESSES: Option<OrderFault> = Some(OrderFault::Processes);

const OF_CHILDREN: [Told; 4] = [
    (
        "two children of one process",
        Change::Rows(1),
        None,
        PROCESSES,
    ),
    (
        "as many as may be",
        Change::Rows(MAX_CHILDREN - 2),
        None,
        PROCESSES,
    ),
    (
        "one child more",
        Change::Rows(1),
        Some(BaseFault::Rows),
        PROCESSES,
    ),
    (
        "an id twice",
        Change::Spec,
        Some(BaseFault::Spec(SpecFault::DuplicateId { index: 1 })),
        PROCESSES,
    ),
];

#[test]
fn refused_children(rt: HostRuntime) {
    changes(&rt, rt.alloc(), &OF_CHILDREN);
}

const WORK: Option<OrderFault> = Some(OrderFault::Work);

const OF_WORK: [Told; 8] = [
    ("a stop without work", Change::Stop(2), None, WORK),
    (
        "an end",
        Change::Follows(Some(Sequel::End(Ending::Asked))),
        None,
        None,
    ),
    ("a stop of nobody", Change::Stop(1), None, WORK),
    (
        "an end that stops nobody",
        Change::NoStops,
        None,
        Some(OrderFault::Ending),
    ),
    ("an end that starts a child", Change::Start, None, WORK),
    (
        "a stop that starts a child",
        Change::Follows(Some(Sequel::Stopped(1))),
        None,
        Some(OrderFault::Stopping),
    ),
    (
        "a restart",
        Change::Follows(Some(Sequel::Nothing)),
        None,
        None,
    ),
    ("a start without work", Change::Follows(None), None, WORK),
];

#[test]
fn refused_work(rt: HostRuntime) {
    changes(&rt, rt.alloc(), &OF_WORK);
}
