//! Senders to each supervisor of a tree.
ghost use Rattle.std.specs.Prelude.{◌≡◌, ◌+◌, ◌<◌, ◌≤◌, ◌++◌, ◌∷◌, [], is_some, length, min, ◌==◌, IfErr, IfSome, OnErr, OnOk, Some, slice_get, slice_set};
ghost use Rattle.otp_inbox.specs.Tokens.{SenderState, count_limit, no_shares};
ghost use Rattle.otp_spec.specs.declared.limits.TheConstants.{MAX_READING};
ghost use Rattle.otp_hand.specs.Begun.{starts_credited};
ghost use Rattle.otp_hand.specs.Ended.{end_of, end_share, ends_sent};
ghost use Rattle.otp_hand.specs.Sendings.{sent_at, parts_at, with_sender};
ghost use Rattle.otp_hand.specs.Seats.{Seated};
ghost use Rattle.otp_hand.specs.Standings.{IsSplitAt, parts_in};
ghost use Rattle.otp_rules.specs.declared.event.Item.TheVariants as item;
ghost use Rattle.otp_rules.specs.Homes.{is_start_call};
ghost use Rattle.otp_bodies.specs.declared.letter.Message.{Message};
ghost use Rattle.otp_bodies.specs.Messages.{message, plain_message};
ghost use Rattle.otp_sup.specs.Turns.{HadTurn, MayRest};

use crate::places::body_in;
use otp_inbox::{Inbox, InboxNaming, Sender};
use otp_rules::Call;
use otp_signals::{Signal, Words, WordsNaming};
use otp_sup::{Letter, Message, PlanNaming, Port, Sup, TurnAnswer, TurnFault};
use std::alloc::Global;
use std::marker::Model;
use std::sync::Wait;

/// A sender to each supervisor, in the order of their numbers.
#[derive(Drop)]
pub struct Senders<N: InboxNaming, B: Drop> {
    pub list: Vec<Sender<N, Message, Letter<B>>>,
}

impl<N: InboxNaming, B: Drop> Model for Senders<N, B> {
    ghost use Rattle.std.specs.Prelude.{List};
    ghost use Rattle.otp_inbox.specs.Tokens.{SenderState};
    ghost use Rattle.otp_bodies.specs.declared.letter.Message.{Message};
    ghost use Rattle.otp_hand.specs.Seats.{Seated};

    ghost Value = { List (SenderState Message) };

    ghost view = { λ s. s.list.items };

    ghost invariant = { λ s. Seated s.list.items };
}

impl<N: InboxNaming, B: Drop> Senders<N, B> {
    /// To how many supervisors it sends.
    pub fn len(&self) -> usize
        ensures { result ≡ length self.now }
    {
        self.list.len()
    }

    /// Whether it sends to none.
    pub fn is_empty(&self) -> bool
        ensures { result ≡ (length self.now == 0) }
    {
        self.list.is_empty()
    }

    /// Sends a letter to a supervisor, with the end that it tells. A refused letter comes back, and nothing changes.
    pub fn send<R: Wait>(
        &mut self,
        rt: &R,
        inbox: &Inbox<N, Message, Letter<B>>,
        letter: Letter<B>,
    ) -> Result<(), Letter<B>>
        requires { inbox.now < length self.old }
        ensures sent { (s : SenderState Message) → slice_get self.old inbox.now ≡ Some s →
            OnOk result (self.new ≡ slice_set self.old inbox.now (record s { sent = s.sent ++ message letter.item letter.end ∷ [] })) }
        ensures back { IfErr result (λ back. back ≡ letter) }
        ensures refused { OnErr result (self.new ≡ self.old) }
        ensures len { length self.new ≡ length self.old }
        ensures starts { starts_credited self.new ≡ starts_credited self.old }
        ensures ends { OnOk result (ends_sent self.new ≡ ends_sent self.old + end_of letter.item) }
        ensures parts { parts_in self.new ≡ parts_in self.old }
    {
        let place = inbox.number();
        inbox.send(rt, &mut self.list[place], letter)
    }

    /// A turn of a supervisor, whose orders go to this port. The sender to it is credited with what was done.
    pub fn turn<R: Wait, P: Port<B>>(
        &mut self,
        rt: &R,
        words: &Words<N>,
        sup: &Sup<N, B>,
        port: &mut P,
        number: u64,
        reading: u64,
        told: Signal,
    ) -> Result<TurnAnswer, TurnFault>
    where
        N: WordsNaming + PlanNaming,
        requires reaches { sup.now.inbox < length self.old }
        requires reading { reading ≤ MAX_READING }
        // A start was credited for each process that the port took, of which it keeps the rest as it was.
        ensures starts { starts_credited self.new + length (P.processes port.old) ≡ starts_credited self.old + length (P.processes port.new) }
        ensures beside { P.beside port.new ≡ P.beside port.old }
        // It sends nothing.
        ensures ends { ends_sent self.new ≡ ends_sent self.old }
        ensures parts { parts_in self.new ≡ parts_in self.old }
        // One table of this number had the turn, so told, numbered and timed.
        ensures turn { HadTurn N.plan sup.now.inbox number reading told result (P.processes port.old) (P.notes port.old) (P.refusals port.old) (P.processes port.new) (P.notes port.new) (P.refusals port.new) }
    {
        let place = sup.inbox().number();
        let sender = &mut self.list[place];
        sup.turn(rt, words, sender, port, number, reading, told)
    }

    /// Until when there is nothing to do for a turn of a supervisor: see [`Sup::rests_until`].
    pub fn rests_until<R: Wait>(
        &mut self,
        rt: &R,
        sup: &Sup<N, B>,
        number: u64,
        reading: u64,
        told: Signal,
    ) -> Option<Option<u64>>
    where
        N: WordsNaming + PlanNaming,
        requires { sup.now.inbox < length self.old }
        ensures settled { IfSome result (MayRest N.plan number reading told) }
        ensures same { self.new ≡ self.old }
    {
        let place = sup.inbox().number();
        sup.rests_until(rt, &mut self.list[place], number, reading, told)
    }

    /// Whether there is a letter in the inbox of a supervisor. A hint ([`Inbox::is_empty`]).
    pub fn has_letter(&mut self, inbox: &Inbox<N, Message, Letter<B>>) -> bool
        requires { inbox.now < length self.old }
        ensures { self.new ≡ self.old }
    {
        let place = inbox.number();
        !inbox.is_empty(&mut self.list[place])
    }

    /// Sends a call under this number to a supervisor. Where memory is refused its body comes back, and nothing changes.
    pub fn call<R: Wait>(
        &mut self,
        rt: &R,
        alloc: Global,
        inbox: &Inbox<N, Message, Letter<B>>,
        number: u64,
        call: Call,
        body: Option<B>,
    ) -> Result<(), Option<B>>
        requires reaches { inbox.now < length self.old }
        requires body { is_some body ≡ is_start_call call }
        ensures sent { (s : SenderState Message) → slice_get self.old inbox.now ≡ Some s →
            OnOk result (self.new ≡ slice_set self.old inbox.now (record s { sent = s.sent ++ plain_message (item.Call number call) ∷ [] })) }
        ensures back { IfErr result (λ back. back ≡ body) }
        ensures refused { OnErr result (self.new ≡ self.old) }
        ensures starts { starts_credited self.new ≡ starts_credited self.old }
        ensures ends { ends_sent self.new ≡ ends_sent self.old }
        ensures parts { parts_in self.new ≡ parts_in self.old }
    {
        let letter = match Letter::call(alloc, number, call, body) {
            Ok(letter) => letter,
            Err(body) => return Err(body),
        };
        match self.send(rt, inbox, letter) {
            Ok(()) => Ok(()),
            Err(letter) => Err(body_in(letter)),
        }
    }

    /// Its parts of the right to send to one supervisor.
    pub fn parts_at(&self, place: usize) -> u64
        ensures { result ≡ parts_at place self.now }
    {
        match self.list.get(place) {
            Some(sender) => sender.parts(),
            None => 0,
        }
    }

    /// How much its sender to one supervisor sent, with those that it took in. The count stops at 2^62.
    pub fn sent_count_at(&self, place: usize) -> u64
        ensures { result ≡ min (length (sent_at place self.now)) count_limit }
    {
        match self.list.get(place) {
            Some(sender) => sender.sent_count(),
            None => 0,
        }
    }

    /// The last sender, and those before it.
    pub fn into_last(
        self,
    ) -> (
        Vec<Sender<N, Message, Letter<B>>>,
        Sender<N, Message, Letter<B>>,
    )
        requires { 0 < length self }
        ensures all { result.0.items ++ result.1 ∷ [] ≡ self }
        ensures seated { Seated (result.0.items ++ result.1 ∷ []) }
    {
        let Senders { mut list } = self;
        match list.pop() {
            Some(last) => (list, last),
            None => unreachable!(),
        }
    }

    /// Takes in another sender to one of these supervisors.
    pub fn join_at(
        &mut self,
        inbox: &Inbox<N, Message, Letter<B>>,
        other: Sender<N, Message, Letter<B>>,
    )
        requires reaches { inbox.now < length self.old }
        requires belongs { other.inbox ≡ inbox.now }
        ensures joined { (s : SenderState Message) → slice_get self.old inbox.now ≡ Some s → self.new ≡ slice_set self.old inbox.now (with_sender other s) }
        ensures len { length self.new ≡ length self.old }
        ensures starts { starts_credited self.new ≡ starts_credited self.old + other.shares.starts }
        ensures ends { ends_sent self.new ≡ ends_sent self.old + end_share other }
    {
        let place = inbox.number();
        inbox.join(&mut self.list[place], other);
    }

    /// A sender to one supervisor, with so many parts of the right to send. None where not more are there.
    pub fn split_at(
        &mut self,
        inbox: &Inbox<N, Message, Letter<B>>,
        parts: u64,
    ) -> Option<Sender<N, Message, Letter<B>>>
        requires { 0 < parts }
        ensures new { IfSome result (λ s. s ≡ record { inbox = inbox.now; parts = parts; sent = []; joined = []; shares = no_shares }) }
        ensures len { length self.new ≡ length self.old }
        ensures split { IfSome result (λ _. IsSplitAt inbox.now parts self.old self.new) }
        ensures starts { starts_credited self.new ≡ starts_credited self.old }
        ensures ends { ends_sent self.new ≡ ends_sent self.old }
    {
        let place = inbox.number();
        if place >= self.list.len() {
            return None;
        }
        if self.list[place].parts() <= parts {
            return None;
        }
        Some(inbox.split(&mut self.list[place], parts))
    }
}
