//! What a supervisor tells of itself, from outside. Worked histories are calls of `.ci/calls`: the program shows their orders, their
//! answers and why they end.

use crate::driver::{Driver, ONE, Step, TWO, plays};
use crate::fixtures::{child, error, prints, same};
use otp_core::{Core, OpenFault};
use otp_needs::NeedsNumber;
use otp_reason::Note;
use otp_rules::{Call, Cause, Effect, Event, Item, Kind, SupEnd};
use otp_spec::{ChildSpec, SpecFault, Strategy, SupFlags};
use otp_text::Line;
use std::alloc::Global;
use std::process::Abort;

const RESTARTS: [Step; 5] = [
    ("up 1", "start a #1\nready\n"),
    ("crashes 1000", ""),
    ("state", "Open(0) works false waits None until None\n"),
    ("exit 1001 error:x", "end shutdown\n"),
    (
        "counts",
        "events 0+2003 starts 1001 restarts 1001 kept 1001 numbers 1001 1001 dropped none rows 0\n",
    ),
];

#[test]
fn thousand_restarts_are_borne(rt: HostRuntime) {
    let tree = "intensity = 1000\nperiod = 1000000\n[[child]]\nid = \"a\"\nstart = \"a\"\n";
    let mut driver = Driver::open(&rt, rt.alloc(), tree);
    driver.play(&rt, rt.alloc(), &RESTARTS);
    is_given_up(&rt, &driver.core);
    drop(driver);
}

// The supervisor's end, if it was ordered.
fn end_of(core: &Core) -> Option<&SupEnd> {
    for effect in core.effects() {
        if let Effect::End(end) = effect {
            return Some(end);
        }
    }
    None
}

// It has ended, with all its restarts.
fn is_given_up(rt: &impl Abort, core: &Core) {
    let Some(end) = end_of(core) else {
        panic!(rt; "an end");
    };
    let Cause::Intensity { flags, stamps } = &end.cause else {
        panic!(rt; "the intensity");
    };
    assert!(rt; flags.intensity == 1000);
    let wanted = [0; 1001];
    same(rt, "the times", stamps.as_slice(), wanted.as_slice());
}

// Orders are moved out for whoever carries them out; answers are looked up by their calls.
const MOVED_OUT: [Step; 6] = [
    ("up 1", "start a #1\nstart b #2\n"),
    ("up 2", "ready\n"),
    ("which", "reply 1 which a,#1,worker,a b,#2,worker,b\n"),
    ("exit 2 error:x", "start b #3\n"),
    ("move out", "start a #1\nstart b #2\nready\nstart b #3\n"),
    ("answer 1", "reply 1 which a,#1,worker,a b,#2,worker,b\n"),
];

#[test]
fn orders_are_moved_out(rt: HostRuntime) {
    plays(&rt, rt.alloc(), TWO, &MOVED_OUT);
}

#[test]
fn little_memory_is_held_ahead(rt: HostRuntime) {
    let mut driver = Driver::open(&rt, rt.alloc(), TWO);
    driver.play(&rt, rt.alloc(), &[("ups 2", "")]);
    for _ in 0..100 {
        driver.line(&rt, Line::Call(Call::CountChildren));
        driver.line(&rt, Line::Call(Call::WhichChildren));
        driver.prepare(&rt);
        driver.prepare(&rt);
        holds_little(&rt, &driver);
    }
    drop(driver);
}

// As much again as is kept, and what one event may need: two children, of which none waits.
fn holds_little(rt: &impl Abort, driver: &Driver) {
    let core = &driver.core;
    let spare = core.spare();
    assert!(rt; spare.events <= core.history().len().saturating_add(8));
    assert!(rt; spare.orders <= core.effects().len().saturating_add(16));
    assert!(rt; spare.answers <= (driver.calls as usize).saturating_add(16));
}

// The call that came last under a number is the one that is answered.
const ANSWERED: [Step; 12] = [
    ("ups 2", ""),
    (
        "call 3 count",
        "reply 3 count specs 2 active 2 supervisors 0 workers 2\n",
    ),
    ("call 5 start", "reply 5 error not_simple\n"),
    (
        "call 9 count",
        "reply 9 count specs 2 active 2 supervisors 0 workers 2\n",
    ),
    (
        "answer 3",
        "reply 3 count specs 2 active 2 supervisors 0 workers 2\n",
    ),
    ("answer 5", "reply 5 error not_simple\n"),
    ("answer 4", "not yet\n"),
    (
        "call 5 count",
        "reply 5 count specs 2 active 2 supervisors 0 workers 2\n",
    ),
    (
        "call 1 which",
        "reply 1 which a,#1,worker,a b,#2,worker,b\n",
    ),
    (
        "answer 5",
        "reply 5 count specs 2 active 2 supervisors 0 workers 2\n",
    ),
    ("answer 1", "reply 1 which a,#1,worker,a b,#2,worker,b\n"),
    ("answer 10", "not yet\n"),
];

#[test]
fn an_answer_is_found_by_its_call(rt: HostRuntime) {
    plays(&rt, rt.alloc(), TWO, &ANSWERED);
}

// A strategy, a period, how many children of one id, and why they aren't opened.
const REFUSED: [(Strategy, u64, usize, SpecFault); 4] = [
    (
        Strategy::OneForOne,
        5,
        2,
        SpecFault::DuplicateId { index: 1 },
    ),
    (Strategy::OneForOne, 5, 257, SpecFault::TooManyChildren),
    (Strategy::SimpleOneForOne, 5, 2, SpecFault::SimpleNeedsOne),
    (Strategy::SimpleOneForOne, 0, 2, SpecFault::BadFlag),
];

#[test]
fn refused_openings(rt: HostRuntime) {
    let children = [child(&rt, b"a"); 257];
    for (strategy, period, count, fault) in REFUSED {
        let flags = SupFlags {
            strategy,
            period,
            ..SupFlags::default()
        };
        is_refused(&rt, rt.alloc(), flags, &children[..count.min(257)], fault);
    }
}

// A supervisor with these flags and children isn't opened, for this fault.
fn is_refused(
    rt: &impl Abort,
    alloc: Global,
    flags: SupFlags,
    specs: &[ChildSpec],
    fault: SpecFault,
) {
    match Core::open(alloc, flags, specs) {
        Err(why) => same(rt, "the fault", why, OpenFault::Spec(fault)),
        Ok(core) => {
            drop(core);
            panic!(rt; "it is refused")
        }
    }
}

#[test]
fn numbers_that_are_drawn_beforehand(rt: HostRuntime) {
    let mut driver = Driver::open(&rt, rt.alloc(), ONE);
    let notes = [
        (Kind::Took(Item::Note(Note::Up(1))), None),
        (Kind::Took(Item::Note(Note::Exit(1, error()))), Some(7)),
        (Kind::Stopped, None),
    ];
    for (kind, number) in notes {
        takes(&rt, &mut driver.core, kind, number);
    }
    drop(driver);
}

// It takes an event with a number that was drawn before, and that is its last number then.
fn takes(rt: &impl Abort, core: &mut Core, kind: Kind, number: Option<u64>) {
    let prepared = core.prepare();
    assert!(rt; prepared.is_ok());
    assert!(rt; core.is_prepared());
    assert!(rt; !core.is_full());
    let is_needed = core.needs_number(0, &kind);
    // Two assertions that the proof of `step` rests on.
    assert_eq!(rt; is_needed, number.is_some());
    assert!(rt; number.is_none_or(|n| core.last_number() < n));
    let last = number.unwrap_or(core.last_number());
    core.step(Event {
        reading: 0,
        number,
        kind,
    });
    assert!(rt; core.last_number() == last);
}

const IDLE: [Step; 4] = [
    ("ups 2", ""),
    ("state", "Open(0) works false waits None until None\n"),
    ("next 0", "None Some(Stopped)\n"),
    (
        "counts",
        "events 0+3 starts 2 restarts 0 kept 0 numbers 2 2 dropped none rows 2\n",
    ),
];

#[test]
fn idle_supervisor_tells(rt: HostRuntime) {
    plays(&rt, rt.alloc(), TWO, &IDLE);
}

const STOPPING: [Step; 6] = [
    ("ups 2", ""),
    ("terminate a", "ask a #1\n"),
    ("exit 2 kill", ""),
    (
        "state",
        "Open(0) works true waits Some(Item(Note(Exit(2, Kill)))) until Some(100)\n",
    ),
    ("next 99", "None None\n"),
    ("next 100", "Some(Ticked) Some(Ticked)\n"),
];

#[test]
fn stopping_supervisor_tells(rt: HostRuntime) {
    plays(&rt, rt.alloc(), TWO, &STOPPING);
}

const ENDED: [Step; 8] = [
    ("ups 2", ""),
    ("which", "reply 1 which a,#1,worker,a b,#2,worker,b\n"),
    ("stop", "ask b #2\n"),
    ("exit 2 shutdown", "ask a #1\n"),
    ("exit 1 shutdown", "end shutdown\n"),
    ("answer 1", "reply 1 which a,#1,worker,a b,#2,worker,b\n"),
    (
        "state",
        "Ended(0, Asked) works false waits None until None\n",
    ),
    ("ends", "0 shutdown\n"),
];

#[test]
fn ended_supervisor_tells(rt: HostRuntime) {
    plays(&rt, rt.alloc(), TWO, &ENDED);
}

// What a call has added belongs to one life of the supervisor: the next one begins with the specifications.
const ADDED: [Step; 9] = [
    ("up 1", "start x #1\nready\n"),
    (
        "start added s permanent false 5000 worker",
        "start added #2\n",
    ),
    ("up 2", "reply 1 ok #2\n"),
    ("exit 1 error:x", "ask added #2\n"),
    ("exit 2 shutdown", "end shutdown\n"),
    (
        "state",
        "Ended(0, Intensity) works false waits None until None\n",
    ),
    ("open 7", "start x #3\n"),
    ("up 3", "ready\n"),
    ("which", "reply 2 which x,#3,worker,x\n"),
];

#[test]
fn added_child_is_gone_after_the_next_start(rt: HostRuntime) {
    let tree = "intensity = 0\n[[child]]\nid = \"x\"\nstart = \"x\"\n";
    plays(&rt, rt.alloc(), tree, &ADDED);
}

/// Why a core is not opened, as whoever opens one may print it.
#[test]
fn texts_of_open_faults(rt: HostRuntime) {
    let text =
        "the flags or the specifications are unlawful: simple_one_for_one needs exactly one specification";
    let faults = [
        (OpenFault::Spec(SpecFault::SimpleNeedsOne), text),
        (OpenFault::OutOfMemory, "out of memory"),
    ];
    for (fault, text) in faults {
        prints(&rt, rt.alloc(), &fault, text);
    }
}
