// Checkpoints: what a supervisor knows after one, and that a history that is full stops nobody.
use crate::driven::plays_under_lock;
use crate::fixtures::{OWN, childless, of_one_child};
use crate::script::{Known, Sent, Step, plays};
use otp_reason::{Note, Reason};
use otp_signals::Signal;
use otp_sup::{CutAnswer, TurnAnswer};

// No checkpoint is made while an order is to be sent. An answer before one is gone, one after it is kept. A restart
// before it still counts: the next crash within the period is one too many.
const GOES_ON: [Step; 17] = [
    Step::Turn(0, 0, Signal::None, Ok(TurnAnswer::Opened)),
    Step::Cuts(CutAnswer::Pending),
    Step::Sends(1),
    Step::Puts(1, 0, OWN),
    Step::Takes(Sent::Up(1), 1),
    Step::Takes(Sent::Count(1), 0),
    Step::Knows(1, Known::Counted),
    Step::Takes(Sent::Crash(1, 7), 1),
    Step::Puts(2, 0, 7),
    Step::Cuts(CutAnswer::Cut),
    Step::Knows(1, Known::Gone),
    Step::Knows(2, Known::NotYet),
    Step::Takes(Sent::Up(2), 0),
    Step::Takes(Sent::Count(2), 0),
    Step::Knows(2, Known::Counted),
    Step::Takes(Sent::Crash(2, 8), 1),
    Step::Tells(Note::Exit(0, Reason::Shutdown)),
];

// A call waits over a checkpoint that drops the answer to one with a greater number: it is not gone, and is answered.
const WAITS: [Step; 17] = [
    Step::Opens(1),
    Step::Puts(1, 0, OWN),
    Step::Takes(Sent::Up(1), 1),
    Step::Takes(Sent::Count(9), 0),
    Step::Knows(9, Known::Counted),
    Step::Takes(Sent::Crash(1, 7), 1),
    Step::Puts(2, 0, 7),
    Step::Takes(Sent::Count(5), 0),
    Step::Knows(5, Known::NotYet),
    Step::Cuts(CutAnswer::Cut),
    Step::Knows(9, Known::Gone),
    Step::Knows(5, Known::NotYet),
    Step::Knows(4, Known::Gone),
    Step::Takes(Sent::Up(2), 0),
    Step::Turn(0, 0, Signal::None, Ok(TurnAnswer::Resumed)),
    Step::Sends(0),
    Step::Knows(5, Known::Counted),
];

#[test]
fn supervisor_goes_on_after_a_checkpoint(rt: HostRuntime) {
    let supervisor = of_one_child(&rt, rt.alloc());
    plays(&rt, rt.alloc(), supervisor, &[OWN], &GOES_ON, 3);
}

#[test]
fn call_waits_over_a_checkpoint(rt: HostRuntime) {
    let supervisor = of_one_child(&rt, rt.alloc());
    plays(&rt, rt.alloc(), supervisor, &[OWN], &WAITS, 2);
}

// A supervisor without children fills its history: one turn makes the checkpoint, and the next finds the inbox empty.
// It goes on, and a stop passes.
const FULL: [Step; 6] = [
    Step::Turn(0, 0, Signal::None, Ok(TurnAnswer::Opened)),
    Step::Fills,
    Step::Turn(0, 0, Signal::None, Ok(TurnAnswer::Full)),
    Step::Turn(0, 0, Signal::None, Ok(TurnAnswer::Quiet)),
    Step::Turn(0, 0, Signal::Shutdown, Ok(TurnAnswer::Stopped)),
    Step::Turn(0, 0, Signal::None, Ok(TurnAnswer::Ended)),
];

#[test]
fn full_history_stops_nobody(rt: HostRuntime) {
    let supervisor = childless(&rt, rt.alloc());
    plays_under_lock(&rt, rt.alloc(), supervisor, &[], &FULL);
}
