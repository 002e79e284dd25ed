//! An inbox between two threads: one sends numbers, the other takes what is there meanwhile.
ghost use Rattle.std.specs.Prelude.{◌≡◌, ◌≤◌, [], map, vec_capacity, IfOk};
ghost use Rattle.otp_inbox.specs.Tokens.{first_sender, first_taker};
ghost use Rattle.otp_uses.specs.Numbers.{numbers_below, value_of, SentAll, TookSome};

use otp_inbox::{Inbox, InboxNaming, Mail, Sender, Taker, UnnamedInbox};
use std::alloc::{AllocError, Global};
use std::sync::Wait;
use std::thread;
use std::thread::Threads;

/// What is sent here: a number, of which contracts see all there is.
#[derive(Drop)]
pub struct Number {
    pub value: usize,
}

impl Mail<usize> for Number {
    ghost plain = { λ n. n.value };
}

/// The numbers from 0 to below `count`, which went through an inbox from one thread to another.
///
/// One thread sends them. The other looks as often as there are numbers, and takes what it finds. When both have
/// ended, what is left is taken too. So what came is what was sent, whichever thread ran first.
pub fn exchange<N: InboxNaming + Send + Sync, R: Threads + Wait + Sync>(
    rt: &R,
    alloc: Global,
    inbox: UnnamedInbox<usize, Number>,
    count: usize,
) -> Result<Vec<Number>, AllocError>
    requires name { inbox ≡ N.inbox 0 }
    ensures came { IfOk result (λ came. map value_of came.items ≡ numbers_below count) }
{
    let room = Vec::with_capacity(alloc, count)?;
    let (inbox, taker, sender) = inbox.named::<N>(0);
    let shared = &inbox;
    let (sent, (taker, came)) = thread::join(
        rt,
        move ||
            requires { sender ≡ first_sender shared.now }
            ensures { IfOk result (SentAll shared.entry.now count) }
        { send_numbers(rt, shared, sender, count) },
        move ||
            requires { (taker ≡ first_taker shared.now) × (room.items ≡ []) × (count ≤ vec_capacity room) }
            ensures { TookSome shared.entry.now count result.0 result.1.items × (vec_capacity result.1 ≡ vec_capacity room) }
        { take_some(rt, shared, taker, room, count) },
    );
    Ok(settle(rt, &inbox, sent?, taker, came, count))
}

// Sends the numbers, one after another. Where one is refused, none is sent after it.
fn send_numbers<N: InboxNaming, R: Wait>(
    rt: &R,
    inbox: &Inbox<N, usize, Number>,
    mut sender: Sender<N, usize, Number>,
    count: usize,
) -> Result<Sender<N, usize, Number>, AllocError>
    requires first { sender ≡ first_sender inbox.now }
    ensures sent { IfOk result (SentAll inbox.now count) }
{
    for value in 0..count {
        if let Err(_) = inbox.send(rt, &mut sender, Number { value }) {
            return Err(AllocError);
        }
    }
    Ok(sender)
}

// Takes what it finds, at most so many numbers.
fn take_some<N: InboxNaming, R: Wait>(
    rt: &R,
    inbox: &Inbox<N, usize, Number>,
    mut taker: Taker<N, usize, Number>,
    mut came: Vec<Number>,
    looks: usize,
) -> (Taker<N, usize, Number>, Vec<Number>)
    requires first { taker ≡ first_taker inbox.now }
    requires empty { came.items ≡ [] }
    requires room { looks ≤ vec_capacity came }
    ensures took { TookSome inbox.now looks result.0 result.1.items }
    ensures in_place { vec_capacity result.1 ≡ vec_capacity came }
{
    for _ in 0..looks {
        match inbox.take(rt, &mut taker) {
            Some(number) => came.push_reserved(number),
            None => thread::yield_now(),
        }
    }
    (taker, came)
}

// Takes what is left, behind what came: nobody sends any more, since this sender has all parts.
fn settle<N: InboxNaming, R: Wait>(
    rt: &R,
    inbox: &Inbox<N, usize, Number>,
    sender: Sender<N, usize, Number>,
    taker: Taker<N, usize, Number>,
    mut came: Vec<Number>,
    count: usize,
) -> Vec<Number>
    requires sent { SentAll inbox.now count sender }
    requires took { TookSome inbox.now count taker came.items }
    requires room { count ≤ vec_capacity came }
    ensures came { map value_of result.items ≡ numbers_below count }
{
    inbox.drain_into(rt, taker, sender, &mut came);
    came
}
