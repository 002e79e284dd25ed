// What no clause says: that calls succeed, that what a `take` finds is there, and that bodies come along.
ghost use Rattle.std.specs.Prelude.{◌≡◌, ◌<◌};

use crate::fixtures::{got, same};
use otp_inbox::{ALL_PARTS, COUNT_LIMIT, Inbox, InboxNaming, Mail, Sender, Taker, UnnamedInbox};
use std::alloc::Global;
use std::marker::Brand;
use std::process::Abort;
use std::sync::Wait;
use std::thread;
use std::thread::Threads;

const EACH: u64 = 100;

const TAKEN: u64 = 150;

// Its body is a number that no other letter has.
#[derive(Drop)]
struct Letter {
    from: u64,
    number: u64,
    body: u64,
}

struct Head {
    from: u64,
    number: u64,
}

impl Mail<Head> for Letter {
    ghost plain = { λ l. record { from = l.from; number = l.number } };
}

#[test]
fn two_senders_and_a_taker(rt: HostRuntime) {
    let first = letters_of(&rt, rt.alloc(), 0);
    let second = letters_of(&rt, rt.alloc(), 1);
    let inbox = UnnamedInbox::<Head, Letter>::open(rt.alloc());
    let inbox = got(&rt, "memory was refused", inbox);
    exchange::<Brand, _>(&rt, inbox, first, second, Vec::new(rt.alloc()));
}

// All letters of a sender.
fn letters_of(rt: &impl Abort, alloc: Global, from: u64) -> Vec<Letter> {
    let mut letters = Vec::new(alloc);
    for number in 0..EACH {
        let body = from.saturating_mul(EACH).saturating_add(number);
        assert!(rt; letters.push(Letter { from, number, body }).is_ok());
    }
    letters
}

// Sends all letters.
fn send_all<N: InboxNaming, R: Wait + Abort>(
    rt: &R,
    inbox: &Inbox<N, Head, Letter>,
    mut sender: Sender<N, Head, Letter>,
    letters: Vec<Letter>,
) -> Sender<N, Head, Letter> {
    for letter in letters {
        sends_one(rt, inbox, &mut sender, letter);
    }
    sender
}

fn sends_one<N: InboxNaming, R: Wait + Abort>(
    rt: &R,
    inbox: &Inbox<N, Head, Letter>,
    sender: &mut Sender<N, Head, Letter>,
    letter: Letter,
) {
    assert!(rt; sender.number() == inbox.number());
    assert!(rt; sender.parts() > 0);
    assert!(rt; inbox.send(rt, sender, letter).is_ok());
}

// The letter is the next one of its sender, and its body is its own.
fn check<R: Abort>(rt: &R, next: &mut [u64; 2], letter: Letter) {
    let Letter { from, number, body } = letter;
    assert!(rt; from < 2);
    let sender = from as usize;
    same(rt, "the next of its sender", number, next[sender]);
    assert!(rt; number < EACH);
    same(rt, "its body", body, number + from * EACH);
    next[sender] = number + 1;
}

// Takes some letters as they come, and says which ones come next.
fn take_some<N: InboxNaming, R: Wait + Abort>(
    rt: &R,
    inbox: &Inbox<N, Head, Letter>,
    mut taker: Taker<N, Head, Letter>,
) -> (Taker<N, Head, Letter>, [u64; 2]) {
    let mut next = [0; 2];
    for _ in rt.forever() {
        assert!(rt; taker.number() == inbox.number());
        if taker.taken_count() >= TAKEN {
            break;
        }
        match inbox.take(rt, &mut taker) {
            Some(letter) => check(rt, &mut next, letter),
            None => thread::yield_now(),
        }
    }
    (taker, next)
}

fn exchange<N: InboxNaming + Send + Sync, R: Threads + Wait + Abort + Sync>(
    rt: &R,
    inbox: UnnamedInbox<Head, Letter>,
    first_letters: Vec<Letter>,
    second_letters: Vec<Letter>,
    left: Vec<Letter>,
)
    requires { inbox ≡ N.inbox 7 }
{
    let (inbox, mut taker, mut first) = inbox.named::<N>(7);
    // The sender's pass goes through the taker's and back: both still send and take afterwards.
    inbox.credit(&mut taker, &mut first, 3, 5);
    let second = inbox.split(&mut first, 1);
    let shared = &inbox;
    let (senders, took) = thread::join(
        rt,
        move || {
            thread::join(
                rt,
                move || send_all(rt, shared, first, first_letters),
                move || send_all(rt, shared, second, second_letters),
            )
        },
        move || take_some(rt, shared, taker),
    );
    let ((first, second), (taker, next)) = (senders, took);
    settle(rt, &inbox, first, second, taker, next, left);
    drop(inbox);
}

// Puts the senders together, and takes what is left.
fn settle<N: InboxNaming, R: Wait + Abort>(
    rt: &R,
    inbox: &Inbox<N, Head, Letter>,
    mut first: Sender<N, Head, Letter>,
    second: Sender<N, Head, Letter>,
    taker: Taker<N, Head, Letter>,
    next: [u64; 2],
    mut left: Vec<Letter>,
) {
    assert!(rt; first.number() == inbox.number());
    assert!(rt; second.number() == inbox.number());
    assert!(rt; taker.number() == inbox.number());
    inbox.join(&mut first, second);
    let (sent, taken) = (first.sent_count(), taker.taken_count());
    assert!(rt; first.parts() == ALL_PARTS);
    assert!(rt; sent < COUNT_LIMIT);
    assert!(rt; taken <= sent);
    let Ok(()) = left.reserve((sent - taken) as usize) else {
        panic!(rt; "memory was refused");
    };
    inbox.drain_into(rt, taker, first, &mut left);
    are_the_rest(rt, left, next);
}

// These letters are all that weren't taken, of which these come next.
fn are_the_rest<R: Abort>(rt: &R, left: Vec<Letter>, mut next: [u64; 2]) {
    same(rt, "how many are left", left.len() as u64, 2 * EACH - TAKEN);
    for letter in left {
        check(rt, &mut next, letter);
    }
    same(rt, "the next of each sender", next, [EACH; 2]);
}

#[test]
fn refused_letter_comes_back(rt: HostRuntime) {
    let inbox = UnnamedInbox::<Head, Letter>::open(rt.alloc());
    let inbox = got(&rt, "memory was refused", inbox);
    refuse::<Brand, _>(&rt, inbox);
}

fn refuse<N: InboxNaming, R: Wait + Abort>(rt: &R, inbox: UnnamedInbox<Head, Letter>)
    requires { inbox ≡ N.inbox 0 }
{
    let (inbox, mut taker, mut sender) = inbox.named::<N>(0);
    send_numbers(rt, &inbox, &mut sender);
    // A `take` that always finds nothing fails here, as no clause can refuse it.
    for number in 0..EACH {
        let found = inbox.take(rt, &mut taker);
        let found = found.map(|letter| letter.number);
        same(rt, "what was taken", found, Some(number));
    }
    assert!(rt; inbox.take(rt, &mut taker).is_none());
    same(rt, "how many were taken", taker.taken_count(), EACH);
    drop(taker);
    drop(sender);
    drop(inbox);
}

// Sends letters alone, over several blocks of the queue. Under `rt try --test --fail-alloc N` a block is refused: the letter
// comes back as it was, nothing was sent, and it can be sent again.
fn send_numbers<N: InboxNaming, R: Wait + Abort>(
    rt: &R,
    inbox: &Inbox<N, Head, Letter>,
    sender: &mut Sender<N, Head, Letter>,
)
    requires belongs { sender.old.inbox ≡ inbox.now }
    requires may_send { 0 < sender.old.parts }
{
    for number in 0..EACH {
        let letter = Letter {
            from: 0,
            number,
            body: number,
        };
        if let Err(letter) = inbox.send(rt, sender, letter) {
            same(
                rt,
                "what came back",
                (letter.number, letter.body),
                (number, number),
            );
            same(rt, "how many were sent", sender.sent_count(), number);
            assert!(rt; inbox.send(rt, sender, letter).is_ok());
        }
        same(rt, "how many are sent", sender.sent_count(), number + 1);
    }
}
