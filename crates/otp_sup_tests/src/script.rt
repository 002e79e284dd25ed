// What is done to a supervisor and what is seen of it, step by step: a test is a list of steps, and one player plays them all,
// on a table alone or on a supervisor under its lock.
//
// So what a step asks is proved once, and not for each test.
ghost use Rattle.std.specs.Prelude.{◌≡◌, ◌≤◌, ◌^◌, true, Some};
ghost use Rattle.otp_rules.specs.Homes.{is_start_call};

use crate::alone::{Alone, make_table};
use crate::fixtures::{Post, child, crash, got, open_parts, same, second};
use otp_core::ReplyAnswer;
use otp_inbox::{InboxNaming, UnnamedInbox};
use otp_reason::{Note, Reason};
use otp_rules::{Call, CallFault, Reply};
use otp_signals::{OpenWords, Signal, WordsNaming};
use otp_spec::{MAX_EVENTS, MAX_READING, SupSpec};
use otp_sup::{CutAnswer, Letter, Message, PlanNaming, SupNaming, TurnAnswer, TurnFault};
use std::alloc::Global;
use std::marker::Brand;
use std::process::Abort;
use std::sync::Wait;

// A step. Bodies are numbers, and each turn but that of `Turn` is at the reading 0, under the number 0.
#[derive(Clone, Copy)]
pub(crate) enum Step {
    // A turn under this number, at this reading, with this signal of the parent, and its answer.
    Turn(u64, u64, Signal, Result<TurnAnswer, TurnFault>),
    // It sends the orders that are left, which are as many. Under the lock a turn leaves none.
    Sends(u64),
    // It opens, and as many orders are left.
    Opens(u64),
    // This comes, and is not taken yet.
    Comes(Sent),
    // This comes and is taken, and as many orders are left.
    Takes(Sent, u64),
    // This is known of the answer to the call.
    Knows(u64, Known),
    // This process was put last: its number, its slot and its body.
    Puts(u64, usize, u64),
    // The parent was told this note last.
    Tells(Note),
    // The process in slot 0 has this number, and sees this signal.
    Shows(u64, Signal),
    // The port has nothing that wasn't looked at.
    PortIsEmpty,
    // The body of this call that can be had back now.
    GivesBack(u64, Option<u64>),
    // The body that is nobody's and can be had now.
    HasStray(Option<u64>),
    // Of a table alone: its first order is sent to a port that refuses it.
    IsRefused,
    // Of a table alone: a checkpoint, and its answer.
    Cuts(CutAnswer),
    // Of a table alone: the last note to the parent brings the end of a supervisor that was asked to stop.
    TellsAsked,
    // Under the lock: notes of no child are taken until as many events are stored as there may be.
    Fills,
    // Under the lock: a call starts a second child, the first one is restarted, and a second crash is one too many.
    Grows,
}

// What is sent to it.
#[derive(Clone, Copy)]
pub(crate) enum Sent {
    // The process runs.
    Up(u64),
    // The process crashes, and its body comes with its note.
    Crash(u64, u64),
    // The process ends so, and its body comes with its note.
    Exit(u64, Reason, u64),
    // The process says that it failed, and gives back a body.
    Failed(u64, u64),
    // The call of this number starts the child `a` with this body.
    First(u64, u64),
    // The call of this number starts the child `b` with this body.
    Second(u64, u64),
    // The call of this number starts a dynamic child with this body.
    Dynamic(u64, u64),
    // The call of this number asks how many children there are.
    Count(u64),
}

// What is known of the answer to a call.
#[derive(Clone, Copy, Debug, PartialEq, Eq)]
pub(crate) enum Known {
    Counted,
    Runs(u64),
    Started(u64),
    Refused,
    Other,
    Gone,
    NotYet,
}

pub(crate) fn known_of(reply: ReplyAnswer<&Reply>) -> Known {
    match reply {
        ReplyAnswer::Kept(Reply::Count(_)) => Known::Counted,
        ReplyAnswer::Kept(Reply::OkProcess(number)) => Known::Started(*number),
        ReplyAnswer::Kept(Reply::Refused(CallFault::AlreadyStarted(number))) => Known::Runs(
            *number,
        ),
        ReplyAnswer::Kept(Reply::Refused(_)) => Known::Refused,
        ReplyAnswer::Kept(_) => Known::Other,
        ReplyAnswer::Gone => Known::Gone,
        ReplyAnswer::NotYet => Known::NotYet,
    }
}

// What a script is played on.
pub(crate) trait Stand: Drop {
    // A turn.
    fn turn<R: Wait + Abort>(
        &mut self,
        rt: &R,
        number: u64,
        reading: u64,
        told: Signal,
    ) -> Result<TurnAnswer, TurnFault>
        requires { reading ≤ 2 ^ 62 };

    // Sends it a letter.
    fn send<R: Wait + Abort>(&mut self, rt: &R, letter: Post);

    // Sends the orders that are left, and answers how many there were.
    fn flush<R: Abort>(&mut self, rt: &R) -> u64;

    // The number, the slot and the body of the process that was put; the port has it no more.
    fn put<R: Wait + Abort>(&mut self, rt: &R) -> Option<(u64, usize, u64)>;

    // The note that the parent was told; the port has it no more.
    fn told<R: Wait + Abort>(&mut self, rt: &R) -> Option<Note>;

    // What the process of this number sees in slot 0.
    fn look<R: Abort>(&mut self, rt: &R, number: u64) -> Signal;

    // What is known of the answer to a call.
    fn known<R: Wait + Abort>(&self, rt: &R, call: u64) -> Known;

    // The body of a call; or else one that is nobody's.
    fn take_body<R: Wait + Abort>(&mut self, rt: &R, call: Option<u64>) -> Option<u64>;

    // Whether the port has nothing that wasn't looked at.
    fn has_empty_port(&self) -> bool;

    // A step that this stand alone has.
    fn acts<R: Wait + Abort>(&mut self, rt: &R, alloc: Global, step: Step);

    // Under the lock: a call that starts the child `b` with this body, and its number.
    fn call<R: Wait + Abort>(&mut self, rt: &R, body: u64) -> u64;

    // Under the lock: whether it has told its parent of an end by one restart too many, once its orders were sent.
    fn has_given_up<R: Wait + Abort>(&mut self, rt: &R) -> bool;
}

// The letter of a call with a body.
fn start_call(rt: &impl Abort, alloc: Global, number: u64, call: Call, body: u64) -> Post
    requires { true ≡ is_start_call call }
{
    got(
        rt,
        "memory was refused",
        Letter::call(alloc, number, call, Some(body)),
    )
}

fn count_call(rt: &impl Abort, alloc: Global, number: u64) -> Post {
    let letter = Letter::call(alloc, number, Call::CountChildren, None);
    got(rt, "memory was refused", letter)
}

fn letter_of(rt: &impl Abort, alloc: Global, sent: Sent) -> Post {
    match sent {
        Sent::Up(number) => Letter::note(Note::Up(number), None),
        Sent::Crash(number, body) => Letter::note(Note::Exit(number, crash()), Some(body)),
        Sent::Exit(number, reason, body) => Letter::note(Note::Exit(number, reason), Some(body)),
        Sent::Failed(number, body) => Letter::note(Note::Failed(number, crash()), Some(body)),
        Sent::First(number, body) => {
            start_call(rt, alloc, number, Call::StartChild(child(rt)), body)
        }
        Sent::Second(number, body) => {
            start_call(rt, alloc, number, Call::StartChild(second(rt)), body)
        }
        Sent::Dynamic(number, body) => start_call(rt, alloc, number, Call::StartDynamic, body),
        Sent::Count(number) => count_call(rt, alloc, number),
    }
}

// A turn with this answer, after which as many orders are left.
fn turns<S: Stand, R: Wait + Abort>(rt: &R, one: &mut S, wanted: TurnAnswer, orders: u64) {
    let answer = one.turn(rt, 0, 0, Signal::None);
    same(rt, "a turn", answer, Ok(wanted));
    same(rt, "the orders", one.flush(rt), orders);
}

// This comes and is taken, and as many orders are left.
fn takes<S: Stand, R: Wait + Abort>(rt: &R, alloc: Global, one: &mut S, sent: Sent, orders: u64) {
    one.send(rt, letter_of(rt, alloc, sent));
    turns(rt, one, TurnAnswer::Took, orders);
}

// What is done to it.
fn does<S: Stand, R: Wait + Abort>(rt: &R, alloc: Global, one: &mut S, step: Step) {
    match step {
        Step::Turn(number, reading, told, wanted) => {
            let answer = one.turn(rt, number, reading.min(MAX_READING), told);
            same(rt, "a turn", answer, wanted)
        }
        Step::Sends(orders) => same(rt, "the orders", one.flush(rt), orders),
        Step::Opens(orders) => turns(rt, one, TurnAnswer::Opened, orders),
        Step::Comes(sent) => one.send(rt, letter_of(rt, alloc, sent)),
        Step::Takes(sent, orders) => takes(rt, alloc, one, sent, orders),
        _ => sees(rt, alloc, one, step),
    }
}

// What is seen of it.
fn sees<S: Stand, R: Wait + Abort>(rt: &R, alloc: Global, one: &mut S, step: Step) {
    match step {
        Step::Knows(call, what) => same(rt, "of an answer", one.known(rt, call), what),
        Step::Puts(number, slot, body) => {
            same(rt, "the process", one.put(rt), Some((number, slot, body)))
        }
        Step::Tells(note) => same(rt, "the note", one.told(rt), Some(note)),
        Step::Shows(number, signal) => same(rt, "a signal", one.look(rt, number), signal),
        Step::PortIsEmpty => assert!(rt; one.has_empty_port()),
        Step::GivesBack(call, body) => {
            let taken = one.take_body(rt, Some(call));
            same(rt, "a call's body", taken, body)
        }
        Step::HasStray(body) => same(rt, "a stray body", one.take_body(rt, None), body),
        Step::Fills => fills(rt, alloc, one),
        Step::Grows => grows(rt, alloc, one),
        _ => one.acts(rt, alloc, step),
    }
}

// Takes notes of no child until it stores as many events as there may be.
fn fills<S: Stand, R: Wait + Abort>(rt: &R, alloc: Global, one: &mut S) {
    for _ in 1..MAX_EVENTS {
        takes(rt, alloc, one, Sent::Up(7), 0);
    }
}

// A call starts a second child, the first one is restarted, and a second crash is one too many: the other child is asked, and then
// the end is an order.
fn grows<S: Stand, R: Wait + Abort>(rt: &R, alloc: Global, one: &mut S) {
    let call = one.call(rt, 7);
    let child = starts(rt, alloc, one, call);
    let again = restarts(rt, alloc, one, child);
    takes(rt, alloc, one, Sent::Crash(again, 9), 0);
    takes(rt, alloc, one, Sent::Exit(child, Reason::Shutdown, 10), 0);
    assert!(rt; one.has_given_up(rt));
}

// The process that was put in this slot with this body runs: its number, which is above this one.
fn runs<S: Stand, R: Wait + Abort>(
    rt: &R,
    alloc: Global,
    one: &mut S,
    above: u64,
    place: (usize, u64),
) -> u64 {
    let number = match one.put(rt) {
        Some((number, slot, body)) => {
            same(rt, "its slot and body", (slot, body), place);
            number
        }
        None => 0,
    };
    assert!(rt; number > above);
    takes(rt, alloc, one, Sent::Up(number), 0);
    number
}

// The call starts a second child: the number of its process.
fn starts<S: Stand, R: Wait + Abort>(rt: &R, alloc: Global, one: &mut S, call: u64) -> u64 {
    let turned = one.turn(rt, 0, 0, Signal::None);
    same(rt, "the call", turned, Ok(TurnAnswer::Took));
    let child = runs(rt, alloc, one, 1, (1, 7));
    let known = one.known(rt, call);
    same(rt, "its answer", known, Known::Started(child));
    child
}

// The first child is restarted: the number of its new process.
fn restarts<S: Stand, R: Wait + Abort>(rt: &R, alloc: Global, one: &mut S, child: u64) -> u64 {
    takes(rt, alloc, one, Sent::Crash(1, 8), 0);
    runs(rt, alloc, one, child, (0, 8))
}

// All steps, one after the other.
pub(crate) fn play<S: Stand, R: Wait + Abort>(rt: &R, alloc: Global, one: &mut S, steps: &[Step]) {
    for step in steps {
        does(rt, alloc, one, *step);
    }
}

// As many events are stored at the end.
fn stores<N: SupNaming, R: Abort>(rt: &R, one: Alone<N>, events: usize) {
    let (office, taker, counts, ends) = one.into_table().into_parts();
    drop(taker);
    drop(counts);
    drop(ends);
    let (core, owner) = office.into_parts();
    drop(owner);
    same(rt, "the events", core.history().len(), events);
    drop(core);
}

// Whoever calls this picks the names, which the language allows for the traits alone that have them.
fn play_in<N: WordsNaming + InboxNaming + PlanNaming, R: Wait + Abort>(
    rt: &R,
    alloc: Global,
    words: OpenWords,
    inbox: UnnamedInbox<Message, Post>,
    supervisor: SupSpec,
    own: &[u64],
    steps: &[Step],
    events: usize,
)
    requires words { words.words ≡ N.words }
    requires slots { words.slots ≡ 256 }
    requires inbox { inbox ≡ N.inbox 0 }
    requires plan { N.plan 0 ≡ Some supervisor }
{
    let mut one = make_table::<N, _>(rt, alloc, words, inbox, supervisor, own);
    play(rt, alloc, &mut one, steps);
    stores(rt, one, events);
}

// Plays these steps on the table of a new supervisor with these bodies for its specifications. In the end it stores as many
// events.
pub(crate) fn plays<R: Wait + Abort>(
    rt: &R,
    alloc: Global,
    supervisor: SupSpec,
    own: &[u64],
    steps: &[Step],
    events: usize,
) {
    let (words, inbox) = open_parts(rt, alloc);
    play_in::<Brand, _>(rt, alloc, words, inbox, supervisor, own, steps, events);
}
