// Which body goes with which process, and which comes back: bodies are numbers here, so that each can be told from others.
use crate::fixtures::{OWN, child, of_one_child, second, supervisor_of};
use crate::script::{Known, Sent, Step, plays};
use otp_reason::Reason;
use otp_spec::{Restart, Strategy, SupFlags, SupSpec};
use std::alloc::Global;
use std::process::Abort;

// Of two bodies that are at home together each goes to its own child: at the opening, and when both children are
// restarted, the first as it was alone and the second as it was asked to end.
const OWN_BODIES: [Step; 10] = [
    Step::Opens(1),
    Step::Puts(1, 0, 6),
    Step::Takes(Sent::Up(1), 1),
    Step::Puts(2, 1, 7),
    Step::Takes(Sent::Up(2), 1),
    Step::Takes(Sent::Crash(1, 8), 1),
    Step::Takes(Sent::Exit(2, Reason::Shutdown, 9), 1),
    Step::Puts(3, 0, 8),
    Step::Takes(Sent::Up(3), 1),
    Step::Puts(4, 1, 9),
];

// A temporary child is asked to end as its sibling is restarted: it is a child no more, and a new child, which gets its slot, has the
// body of its own call.
const GONE_SIBLING: [Step; 11] = [
    Step::Opens(1),
    Step::Puts(1, 0, 6),
    Step::Takes(Sent::Up(1), 1),
    Step::Puts(2, 1, 7),
    Step::Takes(Sent::Up(2), 1),
    Step::Takes(Sent::Crash(1, 8), 1),
    Step::Takes(Sent::Exit(2, Reason::Shutdown, 9), 1),
    Step::Puts(3, 0, 8),
    Step::Takes(Sent::Up(3), 0),
    Step::Takes(Sent::Second(40, 12), 1),
    Step::Puts(4, 1, 12),
];

// The child of a start_child doesn't start: it is a child no more, and the body that came with that note is the call's.
const FAILED_START: [Step; 10] = [
    Step::Opens(1),
    Step::Puts(1, 0, OWN),
    Step::Takes(Sent::Up(1), 1),
    Step::Takes(Sent::Second(40, 9), 1),
    Step::Puts(2, 1, 9),
    Step::GivesBack(40, None),
    Step::Takes(Sent::Failed(2, 10), 0),
    Step::Knows(40, Known::Refused),
    Step::GivesBack(40, Some(10)),
    Step::GivesBack(40, None),
];

// A temporary dynamic child ends while another one runs: its body is its call's again, and the next child, which gets
// its slot, has the body of its own call.
const GONE_CHILD: [Step; 14] = [
    Step::Opens(1),
    Step::Takes(Sent::Dynamic(40, 9), 1),
    Step::Puts(1, 0, 9),
    Step::Takes(Sent::Up(1), 0),
    Step::Takes(Sent::Dynamic(41, 10), 1),
    Step::Puts(2, 1, 10),
    Step::Takes(Sent::Up(2), 0),
    Step::GivesBack(40, None),
    Step::Takes(Sent::Exit(1, Reason::Normal, 11), 0),
    Step::Takes(Sent::Dynamic(42, 12), 1),
    Step::Puts(3, 0, 12),
    Step::GivesBack(40, Some(11)),
    Step::GivesBack(40, None),
    Step::HasStray(None),
];

#[test]
fn each_child_has_its_own_body(rt: HostRuntime) {
    let supervisor = one_for_all(&rt, rt.alloc(), Restart::Permanent);
    plays(&rt, rt.alloc(), supervisor, &[6, 7], &OWN_BODIES, 6);
}

#[test]
fn gone_sibling_lets_go_of_its_body(rt: HostRuntime) {
    let supervisor = one_for_all(&rt, rt.alloc(), Restart::Temporary);
    plays(&rt, rt.alloc(), supervisor, &[6, 7], &GONE_SIBLING, 7);
}

#[test]
fn failed_start_gives_its_body_back(rt: HostRuntime) {
    let supervisor = of_one_child(&rt, rt.alloc());
    plays(&rt, rt.alloc(), supervisor, &[OWN], &FAILED_START, 4);
}

#[test]
fn gone_child_gives_its_body_back(rt: HostRuntime) {
    let supervisor = temporary_children(&rt, rt.alloc());
    plays(&rt, rt.alloc(), supervisor, &[], &GONE_CHILD, 7);
}

// A supervisor of two children, which are stopped together where one is restarted; the second is of this restart type.
fn one_for_all(rt: &impl Abort, alloc: Global, restart: Restart) -> SupSpec {
    let flags = SupFlags {
        strategy: Strategy::OneForAll,
        ..SupFlags::default()
    };
    let mut other = second(rt);
    other.restart = restart;
    supervisor_of(rt, alloc, flags, &[child(rt), other])
}

// A supervisor of dynamic children, which aren't restarted.
fn temporary_children(rt: &impl Abort, alloc: Global) -> SupSpec {
    let flags = SupFlags {
        strategy: Strategy::SimpleOneForOne,
        ..SupFlags::default()
    };
    let mut spec = child(rt);
    spec.restart = Restart::Temporary;
    supervisor_of(rt, alloc, flags, &[spec])
}
