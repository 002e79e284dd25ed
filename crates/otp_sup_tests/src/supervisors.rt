// Supervisors under a lock, driven by hand over a port in memory.
use crate::driven::plays_under_lock;
use crate::fixtures::{OWN, of_one_child};
use crate::script::{Known, Sent, Step};
use otp_reason::{Note, Reason};
use otp_signals::Signal;
use otp_sup::{TurnAnswer, TurnFault};

// Opened, restarted, stopped, killed and ended, line by line.
const ONE_CHILD: [Step; 24] = [
    // It opens under its number, and its child starts; a turn under another number is refused.
    Step::Opens(0),
    Step::Puts(1, 0, OWN),
    Step::Turn(0, 0, Signal::None, Ok(TurnAnswer::Quiet)),
    Step::Turn(3, 0, Signal::None, Err(TurnFault::WrongNumber)),
    Step::Takes(Sent::Up(1), 0),
    Step::Tells(Note::Up(0)),
    // Its child crashes, and is restarted with the body that came home.
    Step::Comes(Sent::Crash(1, 7)),
    Step::Turn(0, 1000, Signal::None, Ok(TurnAnswer::Took)),
    Step::Puts(2, 0, 7),
    Step::Comes(Sent::Up(2)),
    Step::Turn(0, 1000, Signal::None, Ok(TurnAnswer::Took)),
    // It is asked to stop, asks its child, kills it at the deadline, and ends. Its child sees what it posts.
    Step::Shows(2, Signal::None),
    Step::Turn(0, 1000, Signal::Shutdown, Ok(TurnAnswer::Stopped)),
    Step::Shows(2, Signal::Shutdown),
    Step::Turn(0, 6000, Signal::None, Ok(TurnAnswer::Ticked)),
    Step::Shows(2, Signal::Kill),
    Step::Comes(Sent::Exit(2, Reason::Killed, 8)),
    Step::Turn(0, 6000, Signal::None, Ok(TurnAnswer::Took)),
    Step::Tells(Note::Exit(0, Reason::Shutdown)),
    Step::Turn(0, 6000, Signal::None, Ok(TurnAnswer::Ended)),
    // Under a greater number it opens again, with the body that came home.
    Step::Turn(9, 6000, Signal::None, Ok(TurnAnswer::Opened)),
    Step::Puts(3, 0, 8),
    Step::Turn(0, 6000, Signal::None, Ok(TurnAnswer::Ended)),
    Step::PortIsEmpty,
];

// The body of a call that was refused, and one that came with a note of no process, can be had once.
const BODIES: [Step; 13] = [
    Step::Opens(0),
    Step::Takes(Sent::Up(1), 0),
    // A start_child of an id that runs is refused, and its body can be had under the call's number.
    Step::Comes(Sent::First(40, 7)),
    Step::GivesBack(40, None),
    Step::Turn(0, 0, Signal::None, Ok(TurnAnswer::Took)),
    Step::Knows(40, Known::Runs(1)),
    Step::GivesBack(40, Some(7)),
    Step::GivesBack(40, None),
    // A note of no process brings a body, which is nobody's.
    Step::Comes(Sent::Exit(5, Reason::Normal, 8)),
    Step::HasStray(None),
    Step::Turn(0, 0, Signal::None, Ok(TurnAnswer::Took)),
    Step::HasStray(Some(8)),
    Step::HasStray(None),
];

// A turn, a call and the sending of an order, to an end by the intensity: its note takes a copy of the end. Of
// `rt try --test --fail-alloc N` the least N refuse what is opened, which the test then tells; each of the next refuses one
// growth of these calls: nothing has happened, the body is back, and the same call with memory then does what it would have
// done.
const GROWTHS: [Step; 6] = [
    Step::Opens(0),
    Step::Puts(1, 0, OWN),
    Step::Takes(Sent::Up(1), 0),
    Step::Tells(Note::Up(0)),
    Step::Grows,
    Step::Tells(Note::Exit(0, Reason::Shutdown)),
];

#[test]
fn one_child(rt: HostRuntime) {
    let supervisor = of_one_child(&rt, rt.alloc());
    plays_under_lock(&rt, rt.alloc(), supervisor, &[OWN], &ONE_CHILD);
}

#[test]
fn bodies_come_back(rt: HostRuntime) {
    let supervisor = of_one_child(&rt, rt.alloc());
    plays_under_lock(&rt, rt.alloc(), supervisor, &[OWN], &BODIES);
}

#[test]
fn refused_growths(rt: HostRuntime) {
    let supervisor = of_one_child(&rt, rt.alloc());
    plays_under_lock(&rt, rt.alloc(), supervisor, &[OWN], &GROWTHS);
}
