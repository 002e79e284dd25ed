// Which calls a subsystem gets.
use crate::fixtures::same;
use crate::jobs::run;
use crate::probes::{AnyBody, bridge_body, no_calls};
use otp_job::Body;
use otp_job::bridge::BridgePhase;
use otp_reason::{Note, Reason, Text};
use otp_signals::Signal;
use std::alloc::Global;
use std::process::Abort;
use std::sync::atomic::Ordering;

// A bridge whose main process ends so, if it does, and that sees this signal: its end, the calls so far, and its phase at home.
fn ends_so(
    rt: &impl Abort,
    alloc: Global,
    ended: Option<Reason>,
    signal: Signal,
    end: (Reason, u64, BridgePhase),
) {
    let calls = no_calls(rt, alloc);
    let body = bridge_body(rt, alloc, &calls, ended);
    let (note, body) = run(rt, alloc, body, &[Signal::None, signal]);
    let (reason, wanted, phase) = end;
    same(rt, "its note", note, Some(Note::Exit(7, reason)));
    same(rt, "its calls", calls.load(Ordering::SeqCst), wanted);
    starts_again(rt, alloc, body, phase);
    let called = calls.load(Ordering::SeqCst);
    drop(calls);
    let both = wanted.saturating_mul(10).saturating_add(1);
    same(rt, "the calls of both", called, both);
}

#[test]
fn each_end_of_a_bridge(rt: HostRuntime) {
    let x = Reason::Error(Text::joined(b"x", b""));
    let end = (x, 12, BridgePhase::MainEnded);
    ends_so(&rt, rt.alloc(), Some(x), Signal::None, end);
    let end = (Reason::Shutdown, 14, BridgePhase::Terminated);
    ends_so(&rt, rt.alloc(), None, Signal::Shutdown, end);
    let end = (Reason::Killed, 1, BridgePhase::Terminated);
    ends_so(&rt, rt.alloc(), None, Signal::Kill, end);
}

// The bridge came home in this phase. A second start calls `init` again.
fn starts_again(rt: &impl Abort, alloc: Global, body: Option<AnyBody>, phase: BridgePhase) {
    let Some(Body::Bridge(bridge)) = body else {
        panic!(rt; "the bridge didn't come home");
    };
    same(rt, "its phase", bridge.phase(), phase);
    let (note, body) = run(rt, alloc, Body::Bridge(bridge), &[Signal::None]);
    drop(body);
    same(rt, "the note of a second start", note, Some(Note::Up(7)));
}
