//! A core with the seat that draws its numbers, and its orders on their way.
ghost use Rattle.std.specs.Prelude.{◌≡◌, ℕ, ◌+◌, ◌<◌, ◌≤◌, ◌^◌, ◌↔◌, [], true, false, length, Contains, IsTrue, IfSome, IfErr, OnErr, OnOk, MatchOption, None};
ghost use Rattle.otp_spec.specs.declared.limits.TheConstants.{MAX_CHILDREN, MAX_READING};
ghost use Rattle.otp_core.specs.View.{new_core, state_of, stored_of};
ghost use Rattle.otp_rules.specs.State.{is_over};
ghost use Rattle.otp_rules.specs.Counts.{counts_of};
ghost use Rattle.otp_core.specs.Replies.{IsReplyAnswer};
ghost use Rattle.otp_signals.specs.Words.{AreFew};
ghost use Rattle.otp_signals.specs.Lists.{EachBetween};
ghost use Rattle.otp_bodies.specs.Orders.{has_some, starts_in};
ghost use Rattle.otp_bodies.specs.Events.{item_of, IsOpening, is_told, may_open, due_kind, Happened, Readied, IsRefusal};
ghost use Rattle.otp_bodies.specs.Offices.{new_office, KeepsOffice};
ghost use Rattle.otp_bodies.specs.Cuts.{HasTooManyEvents, cut_office};
ghost use Rattle.otp_core.specs.Full.{is_full};
ghost use Rattle.otp_bodies.specs.Answers.{HasTurned, early_answer};
ghost use Rattle.otp_bodies.specs.Slots.{AreBelow};

use crate::office::draws::Draws;
use crate::office::orders::{count_orders, count_starts, first_order};
use crate::office::turns::{TurnAnswer, TurnFault};
use otp_core::{Core, CutFault, ReplyAnswer};
use otp_rules::{CountsNow, Kind, Phase, Reply, laws};
use otp_signals::{Owner, Signal, Words, WordsNaming};
use otp_spec::SupSpec;
use otp_table::Row;
use otp_tally::Tally;
use std::alloc::Global;
use std::marker::{Model, PhantomData};
use std::mem;

/// The core of a supervisor, with the seat that draws its process numbers and posts to its slots, and with its orders
/// on their way.
///
/// The orders stay among the core's effects until all are sent; `next` is how far they were. So the outbox takes no
/// memory of its own. How many orders were ever sent is a count that contracts alone read.
#[derive(Drop)]
pub struct Office<N: WordsNaming> {
    pub(crate) core: Core,
    pub(crate) owner: Owner<N>,
    /// The first effect that is still to be sent: an order, or behind all.
    pub(crate) next: usize,
    pub(crate) sent: Tally,
    /// The first of the slots to which it posts: one for each child that there can be.
    pub(crate) first_slot: usize,
    of: PhantomData<N>,
}

impl<N: WordsNaming> Model for Office<N> {
    ghost use Rattle.std.specs.Prelude.{◌≡◌, ◌≤◌, length, drop};
    ghost use Rattle.otp_bodies.specs.Offices.{OfficeView, IsOffice};
    ghost use Rattle.otp_bodies.specs.Orders.{orders_in};

    ghost Value = { OfficeView };

    ghost view = { λ o. record { core = o.core; owner = o.owner; outbox = orders_in (drop o.next o.core.effects); sent = o.sent.count; first_slot = o.first_slot } };

    ghost invariant = { λ o. IsOffice (record { core = o.core; owner = o.owner; outbox = orders_in (drop o.next o.core.effects); sent = o.sent.count; first_slot = o.first_slot }) };
}

fn is_told(signal: Signal) -> bool
    ensures { result ≡ is_told signal }
{
    !matches!(signal, Signal::None)
}

fn may_open(number: u64, phase: Phase) -> bool
    ensures { result ≡ may_open number phase }
{
    match phase {
        Phase::Unopened => true,
        Phase::Open(_) => false,
        Phase::Ended(own, _) => own < number,
    }
}

impl<N: WordsNaming> Office<N> {
    /// The office of a supervisor that was never opened, for children of these specifications. Its seat drew no number
    /// and posted nothing, and owns the slots from the first one on: [`MAX_CHILDREN`](otp_spec::MAX_CHILDREN), one for each child that there can
    /// be. Takes no memory.
    pub fn open(alloc: Global, supervisor: SupSpec, owner: Owner<N>, first_slot: usize) -> Self
        requires drawn { owner.drawn ≡ [] }
        requires posts { owner.posts ≡ [] }
        requires slots { EachBetween first_slot (first_slot + MAX_CHILDREN) (Contains owner.slots) }
        requires fits { first_slot + MAX_CHILDREN < 2 ^ 64 }
        ensures { result ≡ new_office supervisor.flags supervisor.specs owner first_slot }
    {
        Office {
            core: Core::of(alloc, supervisor),
            owner,
            next: 0,
            sent: Tally::new(),
            first_slot,
            of: PhantomData,
        }
    }

    /// The answer of a turn that changes nothing.
    #[tactic(auto, unfolding(crate::specs::Answers::early_answer))]
    pub fn early_answer(&self, number: u64) -> Option<Result<TurnAnswer, TurnFault>>
        ensures answer { result ≡ early_answer self.now number }
        ensures room { result ≡ None → is_full self.now.core ≡ false }
        ensures outbox { result ≡ None → self.now.outbox ≡ [] }
        ensures no_turn { IfSome result (λ early. (n : ℕ) → HasTurned early n n) }
    {
        let own = self.core.own_number();
        if number < own {
            return Some(Ok(TurnAnswer::Ended));
        }
        if own < number && !self.core.has_ended() {
            return Some(Err(TurnFault::WrongNumber));
        }
        if first_order(self.core.effects(), self.next) < self.core.effects().len() {
            return Some(Ok(TurnAnswer::Pending));
        }
        if self.core.is_full() {
            return Some(Ok(TurnAnswer::Full));
        }
        None
    }

    /// The event that is due whether or not an item can be taken: an opening, or else what the core does by itself
    /// ([`Core::next_kind`]).
    #[tactic(auto, unfolding(crate::specs::Events::due_kind))]
    pub fn due_kind(&self, number: u64, reading: u64, told: Signal) -> Option<Kind>
        ensures kind { result ≡ due_kind (state_of self.now.core) number reading told }
        ensures no_item { IfSome result (λ kind. item_of kind ≡ None) }
        ensures over { IfSome result (λ kind. IsOpening kind → is_over (state_of self.now.core).phase ≡ true) }
    {
        if may_open(number, self.core.phase()) {
            return Some(Kind::Opened(number));
        }
        self.core.next_kind(reading, is_told(told))
    }

    /// Its core, as the last event left it.
    pub fn core(&self) -> &Core
        ensures { result.now ≡ self.now.core }
    {
        &self.core
    }

    /// Whether the supervisor was never opened, or has ended.
    pub fn has_ended(&self) -> bool
        ensures { result ≡ is_over (state_of self.now.core).phase }
    {
        self.core.has_ended()
    }

    /// Whether the memory of the next event is there, and a number is left for it. Where they are, [`Office::prepare`] has
    /// nothing to take.
    pub fn is_prepared(&self) -> bool
        ensures prepared { IsTrue result → self.now.core.prepared ≡ true }
        ensures quota { IsTrue result → 0 < self.now.owner.quota }
    {
        self.core.is_prepared() && self.owner.quota() > 0
    }

    /// Takes the memory of the next event, and sees that a number is left for it. A refusal changes nothing.
    pub fn prepare(&mut self) -> Result<(), TurnFault>
        ensures readied { Readied self.old self.new }
        ensures refused { IfErr result (IsRefusal self.old) }
        ensures prepared { OnOk result (self.new.core.prepared ≡ true) }
        ensures quota { OnOk result (0 < self.new.owner.quota) }
    {
        if self.owner.quota() == 0 {
            return Err(TurnFault::Exhausted);
        }
        match self.core.prepare() {
            Ok(()) => Ok(()),
            Err(_) => Err(TurnFault::OutOfMemory),
        }
    }

    /// One event. Its number is drawn where it starts a child.
    pub fn happen(&mut self, words: &Words<N>, reading: u64, kind: Kind)
        requires prepared { IsTrue self.old.core.prepared }
        requires room { is_full self.old.core ≡ false }
        requires quota { 0 < self.old.owner.quota }
        requires reading { reading ≤ MAX_READING }
        requires outbox { self.old.outbox ≡ [] }
        ensures { Happened reading kind self.old self.new }
    {
        self.core.clear_effects();
        let mut draws = Draws {
            words,
            owner: &mut self.owner,
        };
        self.core.step_with(reading, &kind, &mut draws);
        self.next = 0;
    }

    /// What count_children would answer now (supervisor, count_children/1).
    pub fn counts(&self) -> CountsNow
        ensures counts { result ≡ counts_of (state_of self.now.core) }
        ensures few { AreFew result }
    {
        self.core.counts()
    }

    /// How many orders are still to be sent.
    pub fn unsent_orders(&self) -> u64
        ensures { result ≡ length self.now.outbox }
    {
        count_orders(self.core.effects(), self.next)
    }

    /// How many of the orders that are still to be sent start a child.
    pub fn unsent_starts(&self) -> u64
        ensures { result ≡ length (starts_in self.now.outbox) }
    {
        count_starts(self.core.effects(), self.next)
    }

    /// What is so whenever nobody is changing it.
    pub fn keeps_rules(&self)
        ensures { KeepsOffice self.now }
    {
        laws::number_starts_work();
        laws::slots_are_owned();
        laws::processes_are_owned();
        laws::slots_tell_processes();
        let _ = self.core.history();
        let _ = self.core.last_number();
        let _ = self.core.kept_restarts();
    }

    /// Whether no event has happened.
    #[tactic(auto, using(crate::proofs::Anew::nothing_happened))]
    pub fn is_unused(&self) -> bool
        ensures { IsTrue result ↔ (self.now.core.history ≡ []) }
    {
        self.core.events_cut() == 0 && self.core.history().len() == 0
    }

    /// The core of another supervisor that was never opened takes the place of this one's, which had no event. Takes no memory.
    pub fn plan_anew(&mut self, alloc: Global, supervisor: SupSpec)
        requires { self.old.core.history ≡ [] }
        ensures { self.new ≡ record self.old { core = new_core supervisor.flags supervisor.specs; outbox = [] } }
    {
        let old = mem::replace(&mut self.core, Core::of(alloc, supervisor));
        drop(old);
        self.next = 0;
    }

    /// Whether an order is still to be sent.
    pub fn is_pending(&self) -> bool
        ensures pending { result ≡ has_some self.now.outbox }
        ensures none { result ≡ false → self.now.outbox ≡ [] }
    {
        first_order(self.core.effects(), self.next) < self.core.effects().len()
    }

    /// Makes a checkpoint ([`Core::cut`]).
    pub fn cut(&mut self) -> Result<(), CutFault>
        requires { self.old.outbox ≡ [] }
        ensures ok { OnOk result (self.new ≡ cut_office self.old) }
        ensures err { OnErr result (self.new ≡ self.old) }
        ensures room { OnOk result (is_full self.new.core ≡ false) }
        ensures many { OnErr result (HasTooManyEvents self.old.core) }
    {
        if !self.core.can_cut() {
            return Err(CutFault::HistoryFull);
        }
        self.core.clear_effects();
        let Ok(()) = self.core.cut() else {
            unreachable!()
        };
        self.next = 0;
        Ok(())
    }

    /// How many events are stored.
    pub fn events(&self) -> usize
        ensures { result ≡ length (stored_of self.now.core) }
    {
        self.core.history().len()
    }

    /// Takes it apart, at the end: the core, and the seat that drew its process numbers.
    pub fn into_parts(self) -> (Core, Owner<N>)
        ensures core { result.0 ≡ self.core }
        ensures owner { result.1 ≡ self.owner }
    {
        let Office {
            core,
            owner,
            next: _,
            sent: _,
            first_slot: _,
            of: _,
        } = self;
        (core, owner)
    }

    /// The supervisor's children, in start order. Each has a slot of its own, of as many as there can be children.
    pub fn rows(&self) -> &[Row]
        ensures value { result.now ≡ (state_of self.now.core).rows }
        ensures limit { length result.now ≤ MAX_CHILDREN }
        ensures below { AreBelow result.now }
    {
        laws::slots_are_owned();
        let _ = self.core.history();
        self.core.rows()
    }

    /// The kept answer of the call with this number.
    pub fn reply(&self, call: u64) -> ReplyAnswer<&Reply>
        ensures { IsReplyAnswer (λ r. r.now) call self.now.core result }
    {
        self.core.reply(call)
    }
}
