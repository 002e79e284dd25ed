//! A supervisor's history that is cut, or that goes on from a checkpoint elsewhere: what is forgotten, and that nothing else changes.

use crate::driver::{Driver, ONE, Step, TWO, plays};
use crate::fixtures::write_numbered;
use otp_spec::MAX_CHILDREN;
use std::alloc::Global;
use std::process::Abort;

// A child crashes at 1,000 ms, and again later: a restart within 5 seconds of the first is one too many. Between the two the
// history is cut.
const CUT_EARLY: [Step; 8] = [
    ("up 1", "start a #1\nready\n"),
    ("at 1000", ""),
    ("exit 1 error:x", "start a #2\n"),
    ("up 2", ""),
    ("at 6000", ""),
    ("cut", ""),
    (
        "counts",
        "events 4+0 starts 2 restarts 1 kept 1 numbers 2 2 dropped none rows 1\n",
    ),
    ("exit 2 error:x", "end shutdown\n"),
];

#[test]
fn cut_forgets_no_restart_that_counts(rt: HostRuntime) {
    plays(&rt, rt.alloc(), ONE, &CUT_EARLY);
}

const CUT_LATE: [Step; 7] = [
    ("up 1", "start a #1\nready\n"),
    ("at 1000", ""),
    ("exit 1 error:x", "start a #2\n"),
    ("up 2", ""),
    ("at 6001", ""),
    ("cut", ""),
    ("exit 2 error:x", "start a #3\n"),
];

#[test]
fn restart_grows_old_over_a_cut(rt: HostRuntime) {
    plays(&rt, rt.alloc(), ONE, &CUT_LATE);
}

// A call is not gone while it waits or is carried out, though the answer to a later one was dropped.
const DROPPED: [Step; 15] = [
    ("up 1", "start a #1\nstart b #2\n"),
    ("up 2", "ready\n"),
    (
        "call 9 count",
        "reply 9 count specs 2 active 2 supervisors 0 workers 2\n",
    ),
    ("cut", ""),
    ("answer 9", "gone\n"),
    ("answer 10", "not yet\n"),
    (
        "counts",
        "events 4+0 starts 2 restarts 0 kept 0 numbers 2 2 dropped 9 rows 2\n",
    ),
    ("call 3 terminate a", "ask a #1\n"),
    ("call 4 count", ""),
    ("answer 3", "not yet\nopen\n"),
    ("answer 4", "not yet\nopen\n"),
    ("answer 5", "gone\n"),
    (
        "exit 1 shutdown",
        "reply 3 ok\nreply 4 count specs 2 active 1 supervisors 0 workers 2\n",
    ),
    ("answer 3", "reply 3 ok\n"),
    (
        "answer 4",
        "reply 4 count specs 2 active 1 supervisors 0 workers 2\n",
    ),
];

#[test]
fn cut_drops_answers(rt: HostRuntime) {
    plays(&rt, rt.alloc(), TWO, &DROPPED);
}

const ROOMS: [Step; 6] = [
    ("up 1", "start a #1\nstart b #2\n"),
    ("up 2", "ready\n"),
    ("room 4", ""),
    (
        "counts",
        "events 0+3 starts 2 restarts 0 kept 0 numbers 2 2 dropped none rows 2\n",
    ),
    ("room 3", ""),
    (
        "counts",
        "events 3+0 starts 2 restarts 0 kept 0 numbers 2 2 dropped none rows 2\n",
    ),
];

#[test]
fn room_is_made_under_a_limit(rt: HostRuntime) {
    plays(&rt, rt.alloc(), TWO, &ROOMS);
}

// As many children as there may be are told 256 times: then so many lines are kept as may be.
const FILLED: [Step; 9] = [
    ("ups 256", ""),
    ("asks 255", ""),
    ("room 65536", ""),
    (
        "counts",
        "events 0+512 starts 256 restarts 0 kept 0 numbers 256 256 dropped none rows 256\n",
    ),
    ("asks 1", ""),
    (
        "counts",
        "events 0+513 starts 256 restarts 0 kept 0 numbers 256 256 dropped none rows 256 full\n",
    ),
    ("room 65536", ""),
    (
        "counts",
        "events 513+0 starts 256 restarts 0 kept 0 numbers 256 256 dropped 256 rows 256\n",
    ),
    ("answer 256", "gone\n"),
];

// A tree file of as many children as there may be.
fn crowd(rt: &impl Abort, alloc: Global) -> String {
    let mut file = String::new(alloc);
    for number in 0..MAX_CHILDREN as u64 {
        let (before, behind) = ("[[child]]\nid = \"c", "\"\nstart = \"a\"\n");
        write_numbered(rt, &mut file, before, number, behind);
    }
    file
}

#[test]
fn lists_of_children_fill_a_core(rt: HostRuntime) {
    let file = crowd(&rt, rt.alloc());
    plays(&rt, rt.alloc(), file.as_str(), &FILLED);
    drop(file);
}

// What comes as with a cut, though no more is stored: of the checkpoint four events are counted, and none is stored.
const MOVED_EARLY: [Step; 8] = [
    ("up 1", "start a #1\nready\n"),
    ("at 1000", ""),
    ("exit 1 error:x", "start a #2\n"),
    ("up 2", ""),
    ("at 6000", ""),
    (
        "move on",
        "Counts { events: 4, starts: 2, restarts: 1, greatest_number: 2, greatest_call: None }\n",
    ),
    (
        "counts",
        "events 0+0 starts 0 restarts 1 kept 1 numbers 0 2 dropped none rows 1\n",
    ),
    ("exit 2 error:x", "end shutdown\n"),
];

#[test]
fn checkpoint_has_the_restarts_that_count(rt: HostRuntime) {
    plays(&rt, rt.alloc(), ONE, &MOVED_EARLY);
}

const MOVED_LATE: [Step; 7] = [
    ("up 1", "start a #1\nready\n"),
    ("at 1000", ""),
    ("exit 1 error:x", "start a #2\n"),
    ("up 2", ""),
    ("at 6001", ""),
    (
        "move on",
        "Counts { events: 4, starts: 2, restarts: 1, greatest_number: 2, greatest_call: None }\n",
    ),
    ("exit 2 error:x", "start a #3\n"),
];

#[test]
fn numbers_go_on_above_those_before(rt: HostRuntime) {
    plays(&rt, rt.alloc(), ONE, &MOVED_LATE);
}

// A child is stopped for a call, and two calls wait.
const MOVED_AT_WORK: [Step; 13] = [
    ("up 1", "start a #1\nstart b #2\n"),
    ("up 2", "ready\n"),
    (
        "call 9 count",
        "reply 9 count specs 2 active 2 supervisors 0 workers 2\n",
    ),
    ("call 3 terminate a", "ask a #1\n"),
    ("call 4 count", ""),
    ("call 5 count", ""),
    (
        "move on",
        "Counts { events: 7, starts: 2, restarts: 0, greatest_number: 2, greatest_call: Some(9) }\n",
    ),
    (
        "state",
        "Open(0) works true waits Some(Item(Call(4, CountChildren))) until Some(100)\n",
    ),
    ("answer 3", "not yet\nopen\n"),
    ("answer 5", "not yet\nopen\n"),
    ("answer 9", "gone\n"),
    ("answer 8", "gone\n"),
    (
        "exit 1 shutdown",
        "reply 3 ok\n\
reply 4 count specs 2 active 1 supervisors 0 workers 2\n\
reply 5 count specs 2 active 1 supervisors 0 workers 2\n",
    ),
];

#[test]
fn open_work_and_what_waits_go_on(rt: HostRuntime) {
    plays(&rt, rt.alloc(), TWO, &MOVED_AT_WORK);
}

// What a checkpoint of a checkpoint counts, it counts from the beginning.
const MOVED_TWICE: [Step; 7] = [
    ("up 1", "start a #1\nstart b #2\n"),
    ("up 2", "ready\n"),
    (
        "call 1 count",
        "reply 1 count specs 2 active 2 supervisors 0 workers 2\n",
    ),
    (
        "move on",
        "Counts { events: 4, starts: 2, restarts: 0, greatest_number: 2, greatest_call: Some(1) }\n",
    ),
    ("exit 2 error:x", "start b #3\n"),
    ("up 3", ""),
    (
        "move on",
        "Counts { events: 6, starts: 3, restarts: 1, greatest_number: 3, greatest_call: Some(1) }\n",
    ),
];

#[test]
fn counts_go_on(rt: HostRuntime) {
    plays(&rt, rt.alloc(), TWO, &MOVED_TWICE);
}
