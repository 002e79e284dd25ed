//! Calls, their answers, and children that are put in the place of others.

use crate::fixtures::{Step, got, next, open, play, plays, same};
use otp_driver::Session;
use otp_rules::{CountsNow, Reply};
use std::alloc::Global;
use std::process::Abort;

const NESTED: &[u8] = b"[[child]]\nid = \"pool\"\nstart = \"pool\"\n[child.tree]\n\
[[child.tree.child]]\nid = \"a\"\nstart = \"a\"\n";

/// The answer that is kept: the call's number, and the counts.
fn counts_in(session: &Session) -> Option<(u64, CountsNow)> {
    let answered = session.answer.as_ref()?;
    match &answered.reply {
        Reply::Count(counts) => Some((answered.call, *counts)),
        _ => None,
    }
}

fn process_in(session: &Session) -> Option<(u64, u64)> {
    let answered = session.answer.as_ref()?;
    match &answered.reply {
        Reply::OkProcess(number) => Some((answered.call, *number)),
        _ => None,
    }
}

const UP: [Step; 2] = [(0, "", "1 start a a #2;"), (1, "up 2", "0 ready;")];

const TWO_CALLS: [Step; 2] = [(1, "count", "1 reply 1;"), (0, "count", "0 reply 2;")];

/// Answers come under the numbers of their calls, which rise over the whole tree, and stay until the next one.
fn answers(rt: &impl Abort, alloc: Global, session: &mut Session) {
    play(rt, alloc, session, &UP);
    same(rt, "no answer yet", counts_in(session), None);
    play(rt, alloc, session, &TWO_CALLS);
    has_counted(rt, session);
    let more = got(rt, "no order can be had", next(session));
    same(rt, "no order", more, None);
    has_counted(rt, session);
}

/// The answer that is kept is to the second call: the counts of the root.
fn has_counted(rt: &impl Abort, session: &Session) {
    let counts = CountsNow {
        specs: 1,
        active: 1,
        supervisors: 1,
        workers: 0,
    };
    let wanted = Some((2, counts));
    same(rt, "the counts of the root", counts_in(session), wanted);
}

#[test]
fn answers_are_kept_until_the_next(rt: HostRuntime) {
    let mut session = open(&rt, rt.alloc(), NESTED);
    answers(&rt, rt.alloc(), &mut session);
    drop(session);
}

/// The pool is shut down by a call, and started by another: it gets a new number, and so does its child.
const RESTARTED: [Step; 6] = [
    (0, "", "1 start a a #2;"),
    (1, "up 2", "0 ready;"),
    (0, "terminate pool", "1 ask a a #2 until 5000;"),
    (1, "exit 2 shutdown", "0 reply 1;"),
    (0, "restart pool", "1 start a a #4;"),
    (1, "up 4", "0 reply 2;"),
];

#[test]
fn a_nested_supervisor_is_terminated_and_restarted(rt: HostRuntime) {
    let mut session = open(&rt, rt.alloc(), NESTED);
    play(&rt, rt.alloc(), &mut session, &RESTARTED);
    let answer = process_in(&session);
    drop(session);
    same(&rt, "the pool's new number", answer, Some((2, 3)));
}

/// A worker of the same id in the pool's place is a process of the outside.
const REPLACED: [Step; 7] = [
    (0, "", "1 start a a #2;"),
    (1, "up 2", "0 ready;"),
    (0, "terminate pool", "1 ask a a #2 until 5000;"),
    (1, "exit 2 shutdown", "0 reply 1;"),
    (0, "delete pool", "0 reply 2;"),
    (
        0,
        "start pool pool permanent false 5000 worker",
        "0 start pool pool #3;",
    ),
    (0, "up 3", "0 reply 3;"),
];

#[test]
fn a_worker_in_a_supervisors_place_is_outside(rt: HostRuntime) {
    plays(&rt, rt.alloc(), NESTED, &REPLACED);
}
