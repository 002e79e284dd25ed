//! A tree that goes on under another tree file: who keeps a process, which restarts count, and why it is refused.

use crate::fixtures::{Step, open, play, play_at, same, tree_of};
use otp_base::change::ChangeFault;
use otp_driver::{ChangeRefusal, Session, Unchanged};
use std::alloc::Global;
use std::process::Abort;

/// A worker, and a pool of two that bears one restart in ten seconds.
const SHOP: &[u8] = b"intensity = 1\nperiod = 10\n\
[[child]]\nid = \"web\"\nstart = \"serve\"\n\
[[child]]\nid = \"pool\"\nstart = \"pool\"\n\
[child.tree]\nintensity = 1\nperiod = 10\n\
[[child.tree.child]]\nid = \"a\"\nstart = \"work\"\nshutdown = 300\n\
[[child.tree.child]]\nid = \"b\"\nstart = \"work\"\nshutdown = 300\n";

/// Another supervisor, and the pool with another child before the worker, which has another start word.
const OTHER: &[u8] = b"intensity = 1\nperiod = 10\n\
[[child]]\nid = \"extra\"\nstart = \"extra\"\n\
[child.tree]\n\
[[child.tree.child]]\nid = \"x\"\nstart = \"x\"\n\
[[child]]\nid = \"pool\"\nstart = \"pool\"\n\
[child.tree]\nintensity = 1\nperiod = 10\n\
[[child.tree.child]]\nid = \"c\"\nstart = \"late\"\nshutdown = 300\n\
[[child.tree.child]]\nid = \"a\"\nstart = \"work\"\nshutdown = 700\n\
[[child.tree.child]]\nid = \"b\"\nstart = \"work\"\nshutdown = 300\n\
[[child]]\nid = \"web\"\nstart = \"new\"\n";

/// The pool alone.
const NO_WEB: &[u8] = b"[[child]]\nid = \"pool\"\nstart = \"pool\"\n\
[child.tree]\n\
[[child.tree.child]]\nid = \"a\"\nstart = \"work\"\n\
[[child.tree.child]]\nid = \"b\"\nstart = \"work\"\n";

/// The worker alone.
const NO_POOL: &[u8] = b"[[child]]\nid = \"web\"\nstart = \"serve\"\n";

/// The pool is a supervisor outside.
const POOL_OUTSIDE: &[u8] = b"[[child]]\nid = \"web\"\nstart = \"serve\"\n\
[[child]]\nid = \"pool\"\nstart = \"pool\"\ntype = \"supervisor\"\n";

/// The worker is a supervisor of the tree.
const WEB_INSIDE: &[u8] = b"[[child]]\nid = \"web\"\nstart = \"serve\"\n\
[child.tree]\n\
[[child]]\nid = \"pool\"\nstart = \"pool\"\n\
[child.tree]\n\
[[child.tree.child]]\nid = \"a\"\nstart = \"work\"\n\
[[child.tree.child]]\nid = \"b\"\nstart = \"work\"\n";

/// Children of one kind, which are added by calls.
const DYNAMIC: &[u8] = b"strategy = \"simple_one_for_one\"\n[[child]]\nid = \"w\"\nstart = \"w\"\n";

const NONE: &[u8] = b"";

/// Has the tree go on under a file, once more where memory was refused. Why it doesn't.
fn change(rt: &impl Abort, alloc: Global, session: &mut Session, text: &[u8]) -> Option<Unchanged> {
    let tree = tree_of(rt, alloc, text);
    let changed = match session.change(alloc, &tree) {
        Err(
            Unchanged {
                why: ChangeRefusal::OutOfMemory,
                ..
            },
        ) => session.change(alloc, &tree),
        changed => changed,
    };
    drop(tree);
    match changed {
        Ok(()) => None,
        Err(why) => Some(why),
    }
}

const BEGINS: [Step; 4] = [
    (0, "", "0 start web serve #1;"),
    (0, "up 1", "1 start a work #3;"),
    (1, "up 3", "1 start b work #4;"),
    (1, "up 4", "0 ready;"),
];

/// It was asked once before the change: what is asked after it comes with the next number.
const CRASHES: [Step; 3] = [
    (1, "exit 3 error:x", "1 start a work #5;"),
    (1, "up 5", ""),
    (0, "which", "0 reply 1;"),
];

/// A child of the pool that was added, and the supervisor that was, are started by calls. Those that there were go on: the child
/// has its new time to shut down. The second crash within the period is one too many, although the first came before the change.
const GOES_ON: [(u64, Step); 10] = [
    (100, (2, "restart c", "2 start c late #6;")),
    (100, (2, "up 6", "2 reply 2;")),
    (100, (0, "restart extra", "1 start x x #8;")),
    (100, (1, "up 8", "0 reply 3;")),
    (200, (2, "exit 5 error:x", "2 ask b work #4 until 500;")),
    (200, (2, "exit 4 shutdown", "2 ask c late #6 until 500;")),
    (200, (2, "exit 6 shutdown", "2 start c late #10;")),
    (200, (2, "up 10", "2 start a work #11;")),
    (200, (2, "up 11", "2 start b work #12;")),
    (200, (2, "up 12", "")),
];

/// The order of the new file holds for the stop, too.
const STOPS: [(u64, Step); 5] = [
    (300, (0, "stop", "0 ask web new #1 until 5300;")),
    (300, (0, "exit 1 shutdown", "2 ask b work #12 until 600;")),
    (300, (2, "exit 12 shutdown", "2 ask a work #11 until 1000;")),
    (300, (2, "exit 11 shutdown", "2 ask c late #10 until 600;")),
    (300, (2, "exit 10 shutdown", "1 ask x x #8 until 5300;")),
];

fn goes_on(rt: &impl Abort, alloc: Global, session: &mut Session) {
    play(rt, alloc, session, &BEGINS);
    play(rt, alloc, session, &CRASHES);
    same(rt, "another file", change(rt, alloc, session, OTHER), None);
    play_at(rt, alloc, session, &GOES_ON);
    play_at(rt, alloc, session, &STOPS);
}

#[test]
fn a_tree_goes_on_under_another_file(rt: HostRuntime) {
    let mut session = open(&rt, rt.alloc(), SHOP);
    goes_on(&rt, rt.alloc(), &mut session);
    drop(session);
}

/// Steps, a file, and why the tree doesn't go on under it then.
type Stage = (&'static [Step], &'static [u8], Option<Unchanged>);

const REFUSED: [Stage; 9] = [
    (
        &[],
        SHOP,
        Some(Unchanged {
            supervisor: 0,
            why: ChangeRefusal::OrdersWait,
        }),
    ),
    (
        &[(0, "", "0 start web serve #1;")],
        SHOP,
        Some(Unchanged {
            supervisor: 0,
            why: ChangeRefusal::Change(ChangeFault::Busy),
        }),
    ),
    (
        &[
            (0, "up 1", "1 start a work #3;"),
            (1, "up 3", "1 start b work #4;"),
            (1, "up 4", "0 ready;"),
        ],
        NO_WEB,
        Some(Unchanged {
            supervisor: 0,
            why: ChangeRefusal::Change(ChangeFault::Running),
        }),
    ),
    (
        &[],
        NO_POOL,
        Some(Unchanged {
            supervisor: 1,
            why: ChangeRefusal::Runs,
        }),
    ),
    (
        &[],
        POOL_OUTSIDE,
        Some(Unchanged {
            supervisor: 1,
            why: ChangeRefusal::Runs,
        }),
    ),
    (
        &[],
        WEB_INSIDE,
        Some(Unchanged {
            supervisor: 0,
            why: ChangeRefusal::Turns,
        }),
    ),
    // Once the worker has no process, it may be a supervisor.
    (
        &[
            (0, "terminate web", "0 ask web serve #1 until 5000;"),
            (0, "exit 1 shutdown", "0 reply 1;"),
        ],
        WEB_INSIDE,
        None,
    ),
    (
        &[
            (0, "terminate pool", "2 ask b work #4 until 5000;"),
            (2, "exit 4 shutdown", "2 ask a work #3 until 5000;"),
            (2, "exit 3 shutdown", "0 reply 2;"),
        ],
        DYNAMIC,
        Some(Unchanged {
            supervisor: 0,
            why: ChangeRefusal::Change(ChangeFault::Turned),
        }),
    ),
    (&[], NONE, None),
];

fn refused(rt: &impl Abort, alloc: Global, session: &mut Session) {
    for stage in &REFUSED {
        let (steps, text, why) = *stage;
        play(rt, alloc, session, steps);
        same(rt, "why", change(rt, alloc, session, text), why);
    }
    same(
        rt,
        "no child is left",
        change(rt, alloc, session, DYNAMIC),
        None,
    );
    play(rt, alloc, session, &[(0, "start", "0 start - w #5;")]);
}

#[test]
fn what_runs_is_not_lost(rt: HostRuntime) {
    let mut session = open(&rt, rt.alloc(), SHOP);
    refused(&rt, rt.alloc(), &mut session);
    drop(session);
}
