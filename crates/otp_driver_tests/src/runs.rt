//! Whole runs of a nested tree.

use crate::fixtures::{Step, named, open, play, play_at, plays, same};
use otp_driver::{Driver, Session};
use otp_reason::Name;
use std::alloc::Global;
use std::process::Abort;

/// A worker, and a pool of two that bears one restart in ten seconds.
const SHOP: &[u8] = b"intensity = 1\nperiod = 10\n\
[[child]]\nid = \"web\"\nstart = \"serve\"\n\
[[child]]\nid = \"pool\"\nstart = \"pool\"\n\
[child.tree]\nstrategy = \"one_for_all\"\nintensity = 1\nperiod = 10\n\
[[child.tree.child]]\nid = \"a\"\nstart = \"work\"\nshutdown = 300\n\
[[child.tree.child]]\nid = \"b\"\nstart = \"work\"\nshutdown = 300\n";

/// Three levels: the root, one supervisor below it with two of its own, and one more.
const DEEP: &[u8] = b"[[child]]\nid = \"one\"\nstart = \"x\"\n[child.tree]\n\
[[child.tree.child]]\nid = \"two\"\nstart = \"x\"\n[child.tree.child.tree]\n\
[[child.tree.child]]\nid = \"w\"\nstart = \"x\"\n\
[[child.tree.child]]\nid = \"three\"\nstart = \"x\"\n[child.tree.child.tree]\n\
[[child]]\nid = \"four\"\nstart = \"x\"\n[child.tree]\n";

/// All is started, in the order of the file; the pool itself is number 2, and nobody outside starts it. A crash then stops the other
/// one and starts both; at the second one the pool gives up, and its parent starts it anew.
const GIVES_UP: [Step; 13] = [
    (0, "", "0 start web serve #1;"),
    (0, "up 1", "1 start a work #3;"),
    (1, "up 3", "1 start b work #4;"),
    (1, "up 4", "0 ready;"),
    (0, "at 1000", ""),
    (1, "exit 3 error:x", "1 ask b work #4 until 1300;"),
    (1, "exit 4 shutdown", "1 start a work #5;"),
    (1, "up 5", "1 start b work #6;"),
    (1, "up 6", ""),
    (1, "exit 6 error:x", "1 ask a work #5 until 1300;"),
    (1, "exit 5 shutdown", "1 start a work #8;"),
    (1, "up 8", "1 start b work #9;"),
    (1, "up 9", ""),
];

/// The stop goes through the tree in reverse order; one that isn't gone at its deadline is killed.
const STOPS: [Step; 6] = [
    (0, "stop", "1 ask b work #9 until 1300;"),
    (0, "at 1299", ""),
    (0, "at 1300", "1 kill b work #9;"),
    (1, "exit 9 killed", "1 ask a work #8 until 1600;"),
    (1, "exit 8 shutdown", "0 ask web serve #1 until 6300;"),
    (0, "exit 1 shutdown", "0 end shutdown, asked;"),
];

fn a_pool(rt: &impl Abort, alloc: Global, session: &mut Session) {
    play(rt, alloc, session, &GIVES_UP);
    same(rt, "a deadline", session.driver.next_deadline(), None);
    play(rt, alloc, session, &STOPS);
}

#[test]
fn a_pool_gives_up_and_is_started_anew(rt: HostRuntime) {
    let mut session = open(&rt, rt.alloc(), SHOP);
    a_pool(&rt, rt.alloc(), &mut session);
    drop(session);
}

/// Nothing happens, and nobody reads the clock, for longer than the period and the time to shut down, before one of the pool crashes:
/// the other gets its whole time. What is told with an earlier reading happens at the last one. A crash more than the period later
/// is the first again, and the next one within it is one too many. A call and the stop have their own time too.
const LATE: [(u64, Step); 19] = [
    (0, (0, "", "0 start web serve #1;")),
    (0, (0, "up 1", "1 start a work #3;")),
    (0, (1, "up 3", "1 start b work #4;")),
    (0, (1, "up 4", "0 ready;")),
    (50000, (1, "exit 4 error:x", "1 ask a work #3 until 50300;")),
    (7, (1, "exit 3 shutdown", "1 start a work #5;")),
    (50100, (1, "up 5", "1 start b work #6;")),
    (50100, (1, "up 6", "")),
    (60001, (1, "exit 6 error:x", "1 ask a work #5 until 60301;")),
    (60200, (1, "exit 5 shutdown", "1 start a work #7;")),
    (60200, (1, "up 7", "1 start b work #8;")),
    (60200, (1, "up 8", "")),
    (70001, (1, "exit 8 error:x", "1 ask a work #7 until 70301;")),
    (70200, (1, "exit 7 shutdown", "1 start a work #10;")),
    (70200, (1, "up 10", "1 start b work #11;")),
    (70200, (1, "up 11", "")),
    (90000, (1, "terminate a", "1 ask a work #10 until 90300;")),
    (90100, (1, "exit 10 shutdown", "1 reply 1;")),
    (95000, (0, "stop", "1 ask b work #11 until 95300;")),
];

#[test]
fn what_happens_late_has_its_own_time(rt: HostRuntime) {
    let mut session = open(&rt, rt.alloc(), SHOP);
    play_at(&rt, rt.alloc(), &mut session, &LATE);
    same(&rt, "the clock", session.driver.reading(), 95000);
    drop(session);
}

/// The supervisor below can't start: that is a failed start of its parent's child, and the root's end.
const FAILS: [Step; 6] = [
    (0, "", "0 start web serve #1;"),
    (0, "up 1", "1 start a work #3;"),
    (1, "up 3", "1 start b work #4;"),
    (1, "fail 4 error:x", "1 ask a work #3 until 300;"),
    (1, "exit 3 shutdown", "0 ask web serve #1 until 5000;"),
    (
        0,
        "exit 1 shutdown",
        "0 end shutdown:failed_to_start_child/pool, no start of pool;",
    ),
];

#[test]
fn a_failed_start_below_is_the_parents(rt: HostRuntime) {
    plays(&rt, rt.alloc(), SHOP, &FAILS);
}

/// The parent and the id of the supervisor of this number.
fn link_at(driver: &Driver, number: usize) -> Option<(usize, Option<Name>)> {
    let link = driver.links().get(number)?;
    let id = match &link.child {
        None => None,
        Some(spec) => Some(spec.id),
    };
    Some((link.parent, id))
}

/// Each supervisor that is nested: its parent, and its id there.
const NESTED: [(usize, &[u8]); 4] = [(0, b"one"), (1, b"two"), (1, b"three"), (0, b"four")];

fn links_are(rt: &impl Abort, driver: &Driver) {
    same(rt, "how many there are", driver.links().len(), 5);
    same(rt, "of the root", link_at(driver, 0), Some((0, None)));
    for (place, nested) in NESTED.iter().enumerate() {
        let (parent, id) = *nested;
        let wanted = Some((parent, Some(named(rt, id))));
        let found = link_at(driver, place.saturating_add(1));
        same(rt, "whose child it is", found, wanted);
    }
}

#[test]
fn tables_know_their_parents(rt: HostRuntime) {
    let session = open(&rt, rt.alloc(), DEEP);
    links_are(&rt, &session.driver);
    drop(session);
}
