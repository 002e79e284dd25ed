// The inbox that threads share, and its steps.
ghost use Rattle.std.specs.Prelude.{◌≡◌, ◌+◌, ◌-◌, ◌<◌, ◌≤◌, [], ◌∷◌, ◌++◌, length, map, min, vec_len, vec_capacity, true, IsErr, IfErr, IfNone, IfSome, OnOk};
ghost use Rattle.crossbeam_queue.specs.SegTies.{IsSegPassOf};
ghost use Rattle.otp_inbox.specs.Lists.{AsOften, EachInOrder};
ghost use Rattle.otp_inbox.specs.Rule.{kept_of, cut_of, giver_of, credited_of, sending, taking, sent_by, Popped};
ghost use Rattle.otp_inbox.specs.Tokens.{all_parts, count_limit, no_shares, plus, all_sent, sent_lists, added};

use crate::mail::Mail;
use crate::naming::InboxNaming;
use crate::rule::{
    ALL_PARTS, COUNT_LIMIT, Credit, Credited, Cut, Drained, Held, Joined, Looked, Pass, Queue,
    SenderPiece, Sent, Spare, Taken,
};
use crate::sender::Sender;
use crate::taker::Taker;
use std::marker::{Brand, Model, PhantomData};
use std::mem;
use std::sync::Wait;

/// An inbox, which threads share. Contracts see its number.
///
/// A push takes memory for every 31st item, and is refused where there is none. The calls that push
/// or pop may spin behind a thread that has stalled within a step, so they take a handle with
/// `Wait`.
pub struct Inbox<N: InboxNaming, P, T: Mail<P>> {
    pub(crate) number: usize,
    pub(crate) queue: Queue<P, T>,
    pub(crate) of: PhantomData<N>,
}

impl<N: InboxNaming, P, T: Mail<P>> Model for Inbox<N, P, T> {
    ghost use Rattle.std.specs.Prelude.{◌≡◌, ℕ};

    ghost Value = { ℕ };

    ghost view = { λ i. i.number };

    ghost invariant = { λ i. i.queue ≡ N.inbox i.number };
}

impl<N: InboxNaming, P, T: Mail<P>> Inbox<N, P, T> {
    /// Its number.
    pub fn number(&self) -> usize
        ensures { result ≡ self.now }
    {
        self.number
    }

    /// Sends an item. A refused item comes back: where there is no memory for it, or after 2^62
    /// items of this sender and of those that it took in.
    pub fn send<R: Wait>(&self, rt: &R, sender: &mut Sender<N, P, T>, item: T) -> Result<(), T>
        requires belongs { sender.old.inbox ≡ self.now }
        requires may_send { 0 < sender.old.parts }
        ensures sent { OnOk result (sender.new ≡ record sender.old { sent = sender.old.sent ++ T.plain item ∷ [] }) }
        ensures refused { IfErr result (λ back. back ≡ item) }
        ensures unchanged { IfErr result (λ back. sender.new ≡ sender.old) }
        ensures limit { count_limit ≤ length (all_sent sender.old) → IsErr result }
    {
        if sender.count >= COUNT_LIMIT {
            return Err(item);
        }
        self.queue.push_as::<Sent, R>(rt, &mut sender.pass, item)?;
        sender.count += 1;
        Ok(())
    }

    /// Takes the item at the front. None where the inbox was empty at one moment of the call, which
    /// raises the taker's count of empty finds; nothing else does.
    pub fn take<R: Wait>(&self, rt: &R, taker: &mut Taker<N, P, T>) -> Option<T>
        requires { taker.old.inbox ≡ self.now }
        ensures found { IfSome result (λ item. taker.new ≡ record taker.old { taken = taker.old.taken ++ T.plain item ∷ [] }) }
        ensures empty { IfNone result (taker.new ≡ record taker.old { empty_finds = taker.old.empty_finds + 1 }) }
    {
        let Some(item) = self.queue.pop_as::<Taken, R>(rt, &mut taker.pass) else {
            taker.empty_finds.raise();
            return None;
        };
        taker.count = (taker.count + 1).min(COUNT_LIMIT);
        Some(item)
    }

    /// Whether it is empty, by a sender's pass. A hint: true only where it was empty at one moment of the call, which no
    /// contract can say of a queue that others share. Two loads; it waits for nobody and takes no memory.
    pub fn is_empty(&self, sender: &mut Sender<N, P, T>) -> bool
        requires { sender.old.inbox ≡ self.now }
        ensures { sender.new ≡ sender.old }
    {
        self.queue.is_empty_as::<Looked>(&mut sender.pass)
    }
}

impl<N: InboxNaming, P, T: Mail<P>> Inbox<N, P, T> {
    /// Another sender, with some of the parts of this one. A sender that has sent keeps some.
    pub fn split(&self, sender: &mut Sender<N, P, T>, parts: u64) -> Sender<N, P, T>
        requires belongs { sender.old.inbox ≡ self.now }
        requires has_parts { parts ≤ sender.old.parts }
        requires keeps_some { sender.old.parts ≡ parts → (all_sent sender.old ≡ []) × (sender.old.shares ≡ no_shares) }
        ensures kept { sender.new ≡ record sender.old { parts = sender.old.parts - parts } }
        ensures given { result ≡ record { inbox = self.now; parts = parts; sent = []; joined = []; shares = no_shares } }
    {
        let pass = self.cut_off::<Brand>(&mut sender.pass, parts);
        sender.parts -= parts;
        Sender {
            number: sender.number,
            parts,
            count: 0,
            pass,
            of: PhantomData,
        }
    }

    fn cut_off<C: SenderPiece>(&self, pass: &mut Pass<P, T>, _parts: u64) -> Pass<P, T>
        requires belongs { IsSegPassOf (N.inbox self.now) pass.old }
        requires has_parts { C.parts ≤ pass.old.me.view.client.parts }
        requires keeps_some { pass.old.me.view.client.parts ≡ C.parts → (sent_by pass.old.me.view.client ≡ []) × (pass.old.me.view.client.shares ≡ no_shares) }
        ensures kept { IsSegPassOf (N.inbox self.now) pass.new × (pass.new.me.view.client ≡ kept_of C.parts pass.old.me.view.client) }
        ensures given { IsSegPassOf (N.inbox self.now) result × (result.me.view.client ≡ cut_of C.parts pass.old.me.view.client) }
    {
        self.queue.another::<Cut<C>>(pass)
    }

    /// Takes another sender in: its parts, and what it and those that it took in sent. All senders
    /// of an inbox have 2^61 parts together, so the sum is no more than that.
    pub fn join(&self, sender: &mut Sender<N, P, T>, other: Sender<N, P, T>)
        requires belongs { sender.old.inbox ≡ self.now }
        requires other_belongs { other.inbox ≡ self.now }
        ensures parts { sender.new.parts ≡ min (sender.old.parts + other.parts) all_parts }
        ensures joined { sender.new.joined ≡ sender.old.joined ++ sent_lists other }
        ensures shares { sender.new.shares ≡ plus sender.old.shares other.shares }
        ensures own { (sender.new.inbox ≡ sender.old.inbox) × (sender.new.sent ≡ sender.old.sent) }
    {
        let Sender {
            number: _,
            parts,
            count,
            pass,
            of: _,
        } = other;
        self.queue.absorb::<Joined>(&mut sender.pass, pass);
        sender.parts = (sender.parts + parts).min(ALL_PARTS);
        sender.count = (sender.count + count).min(COUNT_LIMIT);
    }

    /// Gives a sender shares of what the taker's side did. It changes no item and takes no memory.
    pub fn credit(
        &self,
        taker: &mut Taker<N, P, T>,
        sender: &mut Sender<N, P, T>,
        starts: u64,
        turns: u64,
    )
        requires belongs { taker.old.inbox ≡ self.now }
        requires sender_belongs { sender.old.inbox ≡ self.now }
        requires may_send { 0 < sender.old.parts }
        ensures given { taker.new ≡ record taker.old { given = plus taker.old.given (record { starts = starts; turns = turns }) } }
        ensures credited { sender.new ≡ record sender.old { shares = plus sender.old.shares (record { starts = starts; turns = turns }) } }
    {
        let _ = &taker.count;
        let _ = &sender.count;
        self.pass_on::<Brand>(&mut taker.pass, &mut sender.pass, starts, turns);
    }

    // By way of the taker's pass, which holds the sender's between two steps: so no pass has shares and no parts.
    fn pass_on<C: Credit>(
        &self,
        taker: &mut Pass<P, T>,
        sender: &mut Pass<P, T>,
        _starts: u64,
        _turns: u64,
    )
        requires belongs { IsSegPassOf (N.inbox self.now) taker.old × IsSegPassOf (N.inbox self.now) sender.old }
        requires takes { taker.old.me.view.client ≡ taking taker.old.me.view.client.taken taker.old.me.view.client.given }
        requires sends { sender.old.me.view.client ≡ sending sender.old.me.view.client.parts sender.old.me.view.client.sent sender.old.me.view.client.joined sender.old.me.view.client.shares }
        requires parts { (0 < sender.old.me.view.client.parts) × (sender.old.me.view.client.parts ≤ all_parts) }
        ensures given { IsSegPassOf (N.inbox self.now) taker.new × (taker.new.me.view.client ≡ giver_of C.shares taker.old.me.view.client) }
        ensures credited { IsSegPassOf (N.inbox self.now) sender.new × (sender.new.me.view.client ≡ credited_of C.shares sender.old.me.view.client) }
    {
        let spare = self.queue.another::<Spare>(taker);
        let pass = mem::replace(sender, spare);
        self.queue.absorb::<Held>(taker, pass);
        *sender = self.queue.another::<Credited<C>>(taker);
    }

    /// Takes what is left, at the end of a list that has room for what was sent less what was
    /// taken, and so takes no memory. What was taken and then what is left is what was sent: each
    /// item as often, and each sender's list in its order.
    pub fn drain_into<R: Wait>(
        &self,
        rt: &R,
        taker: Taker<N, P, T>,
        sender: Sender<N, P, T>,
        left: &mut Vec<T>,
    )
        requires belongs { taker.inbox ≡ self.now }
        requires sender_belongs { sender.inbox ≡ self.now }
        requires whole { sender.parts ≡ all_parts }
        requires room { vec_len left.old + length (all_sent sender) ≤ vec_capacity left.old + length taker.taken }
        ensures kept { left.new.items ≡ left.old.items ++ added left.old.items left.new.items }
        ensures as_often { AsOften (all_sent sender) (taker.taken ++ map T.plain (added left.old.items left.new.items)) }
        ensures in_order { EachInOrder (sent_lists sender) (taker.taken ++ map T.plain (added left.old.items left.new.items)) }
        ensures shares { sender.shares ≡ taker.given }
        ensures in_place { vec_capacity left.new ≡ vec_capacity left.old }
    {
        let mut pass = taker.pass;
        self.queue.absorb::<Joined>(&mut pass, sender.pass);
        pop_all(rt, &self.queue, &mut pass, left);
    }
}

// Pops into the list, by a pass that has all parts, until nothing is left.
fn pop_all<P, T: Mail<P>, R: Wait>(
    rt: &R,
    queue: &Queue<P, T>,
    pass: &mut Pass<P, T>,
    left: &mut Vec<T>,
)
    requires belongs { IsSegPassOf queue.now pass.old }
    requires takes { pass.old.me.view.client.takes ≡ true }
    requires whole { pass.old.me.view.client.parts ≡ all_parts }
    requires room { vec_len left.old + length (sent_by pass.old.me.view.client) ≤ vec_capacity left.old + length pass.old.me.view.client.taken }
    ensures popped { Popped T.plain pass.old.me.view.client left.old.items left.new.items }
    ensures in_place { vec_capacity left.new ≡ vec_capacity left.old }
{
    for _ in rt.forever() {
        let Some(item) = queue.pop_as::<Drained, R>(rt, pass) else {
            return;
        };
        left.push_reserved(item);
    }
    unreachable!()
}

impl<N: InboxNaming, P, T: Mail<P>> Drop for Inbox<N, P, T> {
    fn drop(self) {
        let Inbox {
            number: _,
            queue,
            of: _,
        } = self;
        queue.destroy();
    }
}
