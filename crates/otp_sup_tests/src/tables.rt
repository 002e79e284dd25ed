// What lies under a supervisor's lock, without the lock: a turn at a time, and an order at a time, over a port in memory.
ghost use Rattle.std.specs.Prelude.{◌≡◌, Some};

use crate::alone::make_table;
use crate::fixtures::{OWN, Post, got, of_one_child, open_parts, same};
use crate::script::{Known, Sent, Step, play, plays};
use otp_inbox::{InboxNaming, UnnamedInbox};
use otp_reason::{Note, Reason};
use otp_signals::counts::CountsPass;
use otp_signals::{OpenWords, Signal, WordsNaming};
use otp_spec::SupSpec;
use otp_sup::{Message, PlanNaming, TurnAnswer, TurnFault};
use std::alloc::Global;
use std::marker::Brand;
use std::process::Abort;
use std::sync::Wait;
use std::thread;
use std::thread::Threads;

// Opened, restarted, stopped, killed and ended: after each turn its orders are sent, and counted.
const BY_ORDERS: [Step; 32] = [
    // It opens, and starts its child; nothing else happens then.
    Step::Turn(0, 0, Signal::None, Ok(TurnAnswer::Opened)),
    Step::Turn(0, 0, Signal::None, Ok(TurnAnswer::Pending)),
    Step::Sends(1),
    Step::Puts(1, 0, OWN),
    Step::Turn(0, 0, Signal::None, Ok(TurnAnswer::Quiet)),
    Step::Sends(0),
    // A turn under another number is refused; its child runs, and its parent is told.
    Step::Turn(3, 0, Signal::None, Err(TurnFault::WrongNumber)),
    Step::Sends(0),
    Step::Takes(Sent::Up(1), 1),
    Step::Tells(Note::Up(0)),
    // Its child is killed, and is restarted with the body that came home.
    Step::Comes(Sent::Exit(1, Reason::Killed, 7)),
    Step::Turn(0, 1000, Signal::None, Ok(TurnAnswer::Took)),
    Step::Sends(1),
    Step::Puts(2, 0, 7),
    Step::Comes(Sent::Up(2)),
    Step::Turn(0, 1000, Signal::None, Ok(TurnAnswer::Took)),
    Step::Sends(0),
    // It is told to stop: its child sees the shutdown once the order was sent.
    Step::Turn(0, 1000, Signal::Shutdown, Ok(TurnAnswer::Stopped)),
    Step::Shows(2, Signal::None),
    Step::Sends(1),
    Step::Shows(2, Signal::Shutdown),
    // The deadline has come.
    Step::Turn(0, 6000, Signal::None, Ok(TurnAnswer::Ticked)),
    Step::Sends(1),
    Step::Shows(2, Signal::Kill),
    Step::Comes(Sent::Exit(2, Reason::Killed, 8)),
    Step::Turn(0, 6000, Signal::None, Ok(TurnAnswer::Took)),
    // Its child has ended: it has ended, and tells it.
    Step::Sends(1),
    Step::TellsAsked,
    Step::Tells(Note::Exit(0, Reason::Shutdown)),
    Step::Turn(0, 6000, Signal::None, Ok(TurnAnswer::Ended)),
    Step::Sends(0),
    Step::PortIsEmpty,
];

// A start_child of an id that runs orders nothing, and its body can be had back once, under the call's number.
const REFUSED_START: [Step; 6] = [
    Step::Opens(1),
    Step::Takes(Sent::Up(1), 1),
    Step::Takes(Sent::First(40, 9), 0),
    Step::Knows(40, Known::Runs(1)),
    Step::GivesBack(40, Some(9)),
    Step::GivesBack(40, None),
];

#[test]
fn one_child_by_orders(rt: HostRuntime) {
    let supervisor = of_one_child(&rt, rt.alloc());
    plays(&rt, rt.alloc(), supervisor, &[OWN], &BY_ORDERS, 7);
}

#[test]
fn refused_start_call(rt: HostRuntime) {
    let supervisor = of_one_child(&rt, rt.alloc());
    plays(&rt, rt.alloc(), supervisor, &[OWN], &REFUSED_START, 3);
}

// An order that the port refuses stays, and so does the body: nothing happens before it was sent. The first start is
// refused twice, and then sent, with the body that was handed in; that the child runs is told in vain, and then told.
const REFUSED_ORDER: [Step; 12] = [
    Step::Turn(0, 0, Signal::None, Ok(TurnAnswer::Opened)),
    Step::IsRefused,
    Step::Turn(0, 0, Signal::None, Ok(TurnAnswer::Pending)),
    Step::IsRefused,
    Step::Turn(0, 0, Signal::None, Ok(TurnAnswer::Pending)),
    Step::Sends(1),
    Step::Puts(1, 0, OWN),
    Step::Comes(Sent::Up(1)),
    Step::Turn(0, 0, Signal::None, Ok(TurnAnswer::Took)),
    Step::IsRefused,
    Step::Sends(1),
    Step::Tells(Note::Up(0)),
];

#[test]
fn refused_order(rt: HostRuntime) {
    let supervisor = of_one_child(&rt, rt.alloc());
    plays(&rt, rt.alloc(), supervisor, &[OWN], &REFUSED_ORDER, 2);
}

// How many children have a process, as a pass reads it in some thread.
fn active_in(mut pass: CountsPass) -> u64 {
    let active = pass.read().active;
    drop(pass);
    active
}

fn reads(rt: &impl Abort, pass: &mut CountsPass, active: u64) {
    same(rt, "the children that are up", pass.read().active, active);
}

// A pass reads after the opening, and again after the child is up. One that was split off then reads in another thread what was
// published before it was made. Whoever calls this picks the names, which the language allows for the traits alone that have them.
fn read_beside<N: WordsNaming + InboxNaming + PlanNaming, R: Threads + Wait + Abort>(
    rt: &R,
    alloc: Global,
    words: OpenWords,
    inbox: UnnamedInbox<Message, Post>,
    supervisor: SupSpec,
)
    requires words { words.words ≡ N.words }
    requires slots { words.slots ≡ 256 }
    requires inbox { inbox ≡ N.inbox 0 }
    requires plan { N.plan 0 ≡ Some supervisor }
{
    let mut one = make_table::<N, _>(rt, alloc, words, inbox, supervisor, &[OWN]);
    play(rt, alloc, &mut one, &[Step::Opens(1)]);
    let mut pass = one.pass(rt);
    reads(rt, &mut pass, 0);
    play(rt, alloc, &mut one, &[Step::Takes(Sent::Up(1), 1)]);
    drop(one);
    reads(rt, &mut pass, 1);
    let other = got(rt, "memory was refused", pass.split());
    let active = thread::join(rt, move || active_in(pass), move || active_in(other));
    same(rt, "what two threads read", active, (1, 1));
}

#[test]
fn counts_are_read_by_two_threads(rt: HostRuntime) {
    let (words, inbox) = open_parts(&rt, rt.alloc());
    let supervisor = of_one_child(&rt, rt.alloc());
    read_beside::<Brand, _>(&rt, rt.alloc(), words, inbox, supervisor);
}
