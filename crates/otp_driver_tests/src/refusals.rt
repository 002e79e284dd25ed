//! What is refused, and what stands then.

use crate::fixtures::{Step, got, line_of, open, play, same, tell, tell_at};
use otp_driver::{DriveFault, Session};
use otp_spec::MAX_READING;
use otp_text::Line;
use std::alloc::Global;
use std::process::Abort;

const NESTED: &[u8] = b"[[child]]\nid = \"pool\"\nstart = \"pool\"\n[child.tree]\n\
[[child.tree.child]]\nid = \"a\"\nstart = \"a\"\n";

/// More than an untaken order lets a supervisor keep.
const MOST_EVENTS: usize = 65_536;

/// What a supervisor is told, and why that is refused. The pool, which is number 1, is the library's own: from outside nobody tells
/// anything of it.
const REFUSED: [(usize, &str, DriveFault); 6] = [
    (0, "up 1", DriveFault::IsNested),
    (0, "exit 1 normal", DriveFault::IsNested),
    (0, "ignore 1", DriveFault::IsNested),
    (2, "up 2", DriveFault::NoSupervisor),
    (usize::MAX, "up 2", DriveFault::NoSupervisor),
    (2, "count", DriveFault::NoSupervisor),
];

fn refuses(rt: &impl Abort, session: &mut Session, place: usize, line: Line, fault: DriveFault) {
    let reading = session.driver.reading();
    same(rt, "a refusal", tell(session, place, line), Err(fault));
    let after = session.driver.reading();
    same(rt, "the clock after a refusal", after, reading);
}

/// A reading that is too large is refused first, whoever is named.
fn refuses_reading(rt: &impl Abort, session: &mut Session, reading: u64, line: Line) {
    let told = tell_at(session, reading, 2, line);
    same(rt, "a reading", told, Err(DriveFault::BadReading));
}

/// The greatest reading is one, and an earlier one counts as that. A number that no child has changes nothing.
const LATE: [Step; 3] = [
    (0, "at 4611686018427387904", ""),
    (0, "at 5", ""),
    (0, "up 77", ""),
];

/// Each refusal leaves all as it was: the same orders come as without it.
fn each_refusal(rt: &impl Abort, alloc: Global, session: &mut Session) {
    play(rt, alloc, session, &[(0, "", "1 start a a #2;")]);
    for (place, text, fault) in REFUSED {
        refuses(rt, session, place, line_of(rt, text), fault);
    }
    for reading in [MAX_READING + 1, u64::MAX] {
        refuses(rt, session, 0, Line::At(reading), DriveFault::BadReading);
        for text in ["up 2", "count", "stop"] {
            refuses_reading(rt, session, reading, line_of(rt, text));
        }
    }
    play(rt, alloc, session, &LATE);
    same(rt, "the clock", session.driver.reading(), MAX_READING);
}

#[test]
fn each_refusal_leaves_all_as_it_was(rt: HostRuntime) {
    let mut session = open(&rt, rt.alloc(), NESTED);
    each_refusal(&rt, rt.alloc(), &mut session);
    drop(session);
}

/// As many events as a supervisor keeps while an order waits.
fn fill(session: &mut Session, line: Line) -> Result<(), DriveFault> {
    for _ in 0..MOST_EVENTS {
        tell(session, 1, line)?;
    }
    Ok(())
}

/// Once its orders were taken it goes on.
const GOES_ON: [Step; 2] = [(0, "", "1 start a a #2;"), (1, "up 77", "")];

/// Whose orders aren't taken, is told so at last; it goes on once they are.
fn untaken(rt: &impl Abort, alloc: Global, session: &mut Session) {
    // The order to start waits from the moment at which the pool is opened.
    let place = got(rt, "no order can be had", session.driver.go_on());
    same(rt, "the place of an order", place, Some(1));
    let line = line_of(rt, "up 77");
    let full = Err(DriveFault::OrdersWait);
    same(rt, "too many events", fill(session, line), full);
    refuses(rt, session, 1, line, DriveFault::OrdersWait);
    play(rt, alloc, session, &GOES_ON);
}

#[test]
fn orders_that_nobody_takes_are_waited_for(rt: HostRuntime) {
    let mut session = open(&rt, rt.alloc(), NESTED);
    untaken(&rt, rt.alloc(), &mut session);
    drop(session);
}
