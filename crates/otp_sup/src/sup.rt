//! A table under its lock, beside its inbox.
ghost use Rattle.std.specs.Prelude.{◌≡◌, ◌⊎◌, ◌+◌, ◌<◌, ◌≤◌, ◌↔◌, [], is_some, length, min, true, IsTrue, None, IfErr, IfOk, IfSome, OnErr, OnOk, Ok};
ghost use Rattle.otp_spec.specs.declared.limits.TheConstants.{MAX_READING};
ghost use Rattle.otp_inbox.specs.Tokens.{count_limit};
ghost use Rattle.otp_bodies.specs.Bodies.{are_ready, bodies_in, count_opened, is_left_of, is_stray};
ghost use Rattle.otp_sup.specs.Anew.{IsOccupied, PlannedUnder, ToldUnused};
ghost use Rattle.otp_sup.specs.Facts.{KeepsRules};
ghost use Rattle.otp_bodies.specs.Orders.{starts_in};
ghost use Rattle.otp_bodies.specs.Flushes.{FlushesTo, SentOrders, starts_flushed, was_sent};
ghost use Rattle.otp_bodies.specs.Offices.{slot_to_start};
ghost use Rattle.otp_bodies.specs.Ports.{TookMore, carried, taken_by};
ghost use Rattle.otp_sup.specs.Shares.{HasStarted, credited, gave, starts_of};
ghost use Rattle.otp_bodies.specs.Answers.{HasTurned};
ghost use Rattle.otp_sup.specs.Turns.{HadBody, HadTurn, HasDeadline, HasReply, KeepsReply, IsFlushed, IsOfAnother, MayRest, TurnedUnder};
ghost use Rattle.otp_bodies.specs.declared.office.turns.TurnAnswer.TheVariants as answer;

use crate::naming::SupNaming;
use crate::table::Table;
use otp_bodies::office::{TurnAnswer, TurnFault};
use otp_bodies::{Bodies, Flushed, Letter, Message, Port, ToldEnd};
use otp_core::{Core, ReplyAnswer};
use otp_inbox::{Inbox, InboxNaming, Sender, Taker};
use otp_rules::Reply;
use otp_signals::counts::Publisher;
use otp_signals::{Owner, Signal, Words, WordsNaming};
use otp_spec::SupSpec;
use std::alloc::{AllocError, Global};
use std::marker::Model;
use std::sync::{Mutex, Wait};

/// A supervisor that threads share: a table under its lock, beside its inbox, so that whoever sends to it doesn't wait
/// for the lock.
#[derive(Drop)]
pub struct Sup<N: SupNaming, B: Drop> {
    inbox: Inbox<N, Message, Letter<B>>,
    table: Mutex<Table<N, B>>,
}

impl<N: SupNaming, B: Drop> Sup<N, B> {
    /// Puts the table under a lock.
    pub fn new(inbox: Inbox<N, Message, Letter<B>>, table: Table<N, B>) -> Self
        requires { inbox ≡ table.taker.inbox }
        ensures { result.inbox ≡ inbox }
    {
        Sup {
            inbox,
            table: Mutex::new(table),
        }
    }

    /// Its inbox, to which clients and processes send.
    pub fn inbox(&self) -> &Inbox<N, Message, Letter<B>>
        ensures { result.now ≡ self.now.inbox }
    {
        &self.inbox
    }

    /// Takes the lock once, for a turn of the table ([`Table::turn`]) and then for its orders, until none is left or
    /// the port refuses.
    ///
    /// A turn that finds the core full answers [`TurnAnswer::Full`] and does nothing else; under the same lock a
    /// checkpoint is made ([`Table::cut`]). So the next turn isn't Full: it does what is due, a stop
    /// too. Only after more than 2^62 events no checkpoint is made, and each turn is Full.
    ///
    /// Of what lies under a lock a caller knows its type alone: that the table keeps OTP's rules
    /// ([`Table::keeps_rules`]). So contracts say that one such table had the turn, that the port took exactly what the
    /// first of its orders put and tell, and that it still keeps the rules; not that it was the table under this lock.
    ///
    /// What it did is credited to the sender of whoever gives the turn. So contracts say of the sender how many turns of
    /// the table there were, and how many starts were sent.
    pub fn turn<R: Wait, P: Port<B>>(
        &self,
        rt: &R,
        words: &Words<N>,
        sender: &mut Sender<N, Message, Letter<B>>,
        port: &mut P,
        number: u64,
        reading: u64,
        told: Signal,
    ) -> Result<TurnAnswer, TurnFault>
        requires sender { sender.old.inbox ≡ self.now.inbox }
        requires may_send { 0 < sender.old.parts }
        requires reading { reading ≤ MAX_READING }
        ensures turned { TurnedUnder N.plan self.now.inbox number reading told result ⊎ ((result ≡ Ok answer.Pending) × IsOfAnother N.plan self.now.inbox) }
        ensures flushed { IsFlushed N.plan (P.refusals port.old) (P.refusals port.new) ⊎ ((result ≡ Ok answer.Pending) × IsOfAnother N.plan self.now.inbox) }
        ensures port { TookMore (taken_by (P.processes port.old) (P.notes port.old)) (taken_by (P.processes port.new) (P.notes port.new)) (P.refusals port.old) (P.refusals port.new) }
        // The sender has a turn more exactly where the table had one,
        ensures turns { HasTurned result sender.old.shares.turns sender.new.shares.turns }
        // a start more for each process that the port took, and nothing else of it changed.
        ensures starts { sender.new.shares.starts + length (P.processes port.old) ≡ sender.old.shares.starts + length (P.processes port.new) }
        ensures sender { sender.new ≡ record sender.old { shares = sender.new.shares } }
        ensures beside { P.beside port.new ≡ P.beside port.old }
        // All of this of one table: it had the turn, then a checkpoint if that was Full, and then the port took what its
        // first orders put and tell.
        ensures one_table { HadTurn N.plan self.now.inbox number reading told result (P.processes port.old) (P.notes port.old) (P.refusals port.old) (P.processes port.new) (P.notes port.new) (P.refusals port.new) }
    {
        let mut guard = self.table.lock(rt);
        let table = &mut *guard;
        table.keeps_rules();
        // What lies under the lock is known by its type alone, which doesn't say the number of its inbox.
        if table.number() != self.inbox.number() {
            return Ok(TurnAnswer::Pending);
        }
        let answer = table.turn(rt, words, &self.inbox, sender, number, reading, told);
        if was_full(&answer) {
            // Such a turn left nothing to be sent.
            let _ = table.cut();
        }
        flush_all(table, words, &self.inbox, sender, port);
        table.keeps_rules();
        answer
    }

    /// What is known of the answer to the call with this number, with a copy of it where it is kept: since the last
    /// checkpoint ([`Table::cut`]) the call was answered. Gone or not given yet: see [`Table::reply`]. As of each answer
    /// from under a lock, contracts say that it is that of a table which keeps the rules.
    ///
    /// # Errors
    ///
    /// E0: there is no memory for the copy. Only of an answer that is kept.
    pub fn reply<R: Wait>(&self, rt: &R, call: u64) -> Result<ReplyAnswer<Reply>, AllocError>
        ensures found { IfOk result (HasReply N.plan call) }
        ensures refused { OnErr result (KeepsReply N.plan call) }
    {
        let guard = self.table.lock(rt);
        let table = &*guard;
        table.keeps_rules();
        match table.reply(call) {
            ReplyAnswer::Kept(reply) => Ok(ReplyAnswer::Kept(reply.try_clone()?)),
            ReplyAnswer::Gone => Ok(ReplyAnswer::Gone),
            ReplyAnswer::NotYet => Ok(ReplyAnswer::NotYet),
        }
    }

    /// The least deadline of its children: see [`Table::next_deadline`].
    pub fn next_deadline<R: Wait>(&self, rt: &R) -> Option<u64>
        ensures { HasDeadline N.plan result }
    {
        let guard = self.table.lock(rt);
        let table = &*guard;
        table.keeps_rules();
        table.next_deadline()
    }

    /// Until when there is nothing to do for a turn under this process number that would be so told at this reading: the least
    /// deadline of its children, if one has one. None where there is something already ([`Table::is_settled`]), or a letter waits.
    ///
    /// Whether one waits is a hint ([`Inbox::is_empty`]).
    pub fn rests_until<R: Wait>(
        &self,
        rt: &R,
        sender: &mut Sender<N, Message, Letter<B>>,
        number: u64,
        reading: u64,
        told: Signal,
    ) -> Option<Option<u64>>
        requires { sender.old.inbox ≡ self.now.inbox }
        ensures settled { IfSome result (MayRest N.plan number reading told) }
        ensures sender { sender.new ≡ sender.old }
    {
        if !self.inbox.is_empty(sender) {
            return None;
        }
        let guard = self.table.lock(rt);
        let table = &*guard;
        table.keeps_rules();
        if table.is_settled(number, reading, told) {
            Some(table.next_deadline())
        } else {
            None
        }
    }

    /// The body that the call with this number brought: see [`Table::take_box`].
    pub fn take_box<R: Wait>(&self, rt: &R, call: u64) -> Option<B>
        ensures { HadBody N.plan (is_left_of call) (is_some result) }
    {
        let mut guard = self.table.lock(rt);
        let table = &mut *guard;
        table.keeps_rules();
        table.take_box(call)
    }

    /// A body that came with a note that told nothing: see [`Table::take_stray`].
    pub fn take_stray<R: Wait>(&self, rt: &R) -> Option<B>
        ensures { HadBody N.plan is_stray (is_some result) }
    {
        let mut guard = self.table.lock(rt);
        let table = &mut *guard;
        table.keeps_rules();
        table.take_stray()
    }

    /// Whether the supervisor had no event: see [`Table::is_unused`].
    pub fn is_unused<R: Wait>(&self, rt: &R) -> bool
        ensures { ToldUnused N.plan result }
    {
        let guard = self.table.lock(rt);
        let table = &*guard;
        table.keeps_rules();
        table.is_unused()
    }

    /// The supervisor of this plan takes the place of the one under the lock, which had no event, with the bodies of its child
    /// specifications: see [`Table::plan_anew`]. Where that one had an event, nothing changes, and plan and bodies come back. They
    /// come back too where the table under the lock takes from another inbox, which doesn't happen.
    pub fn plan_anew<R: Wait>(
        &self,
        rt: &R,
        alloc: Global,
        supervisor: SupSpec,
        bodies: Bodies<B>,
    ) -> Result<(), (SupSpec, Bodies<B>)>
        requires free { N.plan self.now.inbox ≡ None }
        requires bodies { are_ready (count_opened supervisor.flags supervisor.specs) bodies.kept ≡ true }
        ensures planned { OnOk result (PlannedUnder N.plan self.now.inbox supervisor bodies.kept) }
        ensures back { IfErr result (λ back. (back.0 ≡ supervisor) × (back.1 ≡ bodies)) }
        ensures occupied { OnErr result (IsOccupied N.plan self.now.inbox) }
    {
        let mut guard = self.table.lock(rt);
        let table = &mut *guard;
        table.keeps_rules();
        // What lies under the lock is known by its type alone, which doesn't say the number of its inbox.
        if table.number() != self.inbox.number() || !table.is_unused() {
            return Err((supervisor, bodies));
        }
        table.plan_anew(alloc, supervisor, bodies);
        table.keeps_rules();
        Ok(())
    }

    /// Takes the table out of its lock, as the last turn left it. [`Unlocked::lock`] puts it back.
    pub fn unlock(self) -> Unlocked<N, B>
        ensures inbox { result.inbox ≡ self.inbox }
        ensures rules { KeepsRules N.plan result.table }
    {
        let Sup { inbox, table } = self;
        let table = table.into_inner();
        table.keeps_rules();
        Unlocked { inbox, table }
    }
}

/// What shows that the lock of the supervisor with one inbox held a table that takes from another. Only
/// [`Unlocked::find_displaced`] makes one: so it can't be said of a supervisor that has its own table.
#[derive(Clone, Copy, Debug, PartialEq, Eq)]
pub struct Displaced {
    inbox: usize,
    takes: usize,
}

impl Displaced {
    /// The number of the supervisor's inbox.
    pub fn inbox(self) -> usize {
        self.inbox
    }

    /// The number of the inbox from which the table takes.
    pub fn takes(self) -> usize {
        self.takes
    }
}

/// A supervisor that is out of its lock: its inbox, and its table as the last turn left it.
#[derive(Drop)]
pub struct Unlocked<N: SupNaming, B: Drop> {
    inbox: Inbox<N, Message, Letter<B>>,
    table: Table<N, B>,
}

impl<N: SupNaming, B: Drop> Model for Unlocked<N, B> {
    ghost use Rattle.otp_sup.specs.Facts.{UnlockedView};

    ghost Value = { UnlockedView };

    ghost view = { λ u. record { inbox = u.inbox; table = u.table } };
}

/// What a supervisor is taken apart into.
#[derive(Drop)]
pub struct SupParts<N: WordsNaming + InboxNaming, B: Drop> {
    pub inbox: Inbox<N, Message, Letter<B>>,
    /// Its core, with its history since the last checkpoint.
    pub core: Core,
    /// The seat that drew its process numbers.
    pub owner: Owner<N>,
    /// The taker of its inbox.
    pub taker: Taker<N, Message, Letter<B>>,
    /// The right to publish its counts, which knows all that were published ([`Publisher::compare`]).
    pub counts: Publisher,
    /// The ends of supervisors that it was told since the last checkpoint, in their order.
    pub ends_told: Vec<ToldEnd>,
}

impl<N: SupNaming, B: Drop> Unlocked<N, B> {
    /// Its inbox.
    pub fn inbox(&self) -> &Inbox<N, Message, Letter<B>>
        ensures { result.now ≡ self.now.inbox }
    {
        &self.inbox
    }

    /// What shows that the table takes from another inbox than this one, if it does. What lies under a lock is known by its type
    /// alone, which doesn't say it.
    pub fn find_displaced(&self) -> Option<Displaced>
        ensures { result ≡ None ↔ (self.now.table.taker.inbox ≡ self.now.inbox) }
    {
        let (inbox, takes) = (self.inbox.number(), self.table.number());
        if takes == inbox {
            return None;
        }
        Some(Displaced { inbox, takes })
    }

    /// How many items it took from its inbox. The count stops at 2^62.
    pub fn taken_count(&self) -> u64
        ensures { result ≡ min (length self.now.table.taker.taken) count_limit }
    {
        self.table.taken_count()
    }

    /// What is so of its table ([`Table::keeps_rules`]).
    pub fn keeps_rules(&self)
        ensures { KeepsRules N.plan self.now.table }
    {
        self.table.keeps_rules();
    }

    /// How many orders are still to be sent: the last ones of its history.
    pub fn unsent_orders(&self) -> u64
        ensures { result ≡ length self.now.table.office.outbox }
    {
        self.table.unsent_orders()
    }

    /// How many of the orders that are still to be sent start a child: one at most.
    pub fn unsent_starts(&self) -> u64
        ensures value { result ≡ length (starts_in self.now.table.office.outbox) }
        ensures few { result ≤ 1 }
    {
        self.table.unsent_starts()
    }

    /// Puts the table under a lock again.
    pub fn lock(self) -> Sup<N, B>
        ensures { result.inbox ≡ self.inbox }
    {
        let Unlocked { inbox, table } = self;
        Sup {
            inbox,
            table: Mutex::new(table),
        }
    }

    /// Takes it apart. The bodies that it has are dropped.
    pub fn into_parts(self) -> SupParts<N, B>
        ensures inbox { result.inbox ≡ self.inbox }
        ensures core { result.core ≡ self.table.office.core }
        ensures owner { result.owner ≡ self.table.office.owner }
        ensures taker { result.taker ≡ self.table.taker }
        ensures counts { result.counts ≡ self.table.counts }
        ensures ends { result.ends_told.items ≡ self.table.ends_told }
    {
        let Unlocked { inbox, table } = self;
        let (office, taker, counts, ends_told) = table.into_parts();
        let (core, owner) = office.into_parts();
        SupParts {
            inbox,
            core,
            owner,
            taker,
            counts,
            ends_told,
        }
    }
}

/// Whether a turn with this answer found the core full.
fn was_full(said: &Result<TurnAnswer, TurnFault>) -> bool
    ensures { IsTrue result ↔ (said.now ≡ Ok answer.Full) }
{
    matches!(said, Ok(TurnAnswer::Full))
}

fn was_sent(flushed: Flushed) -> bool
    ensures { result ≡ was_sent flushed }
{
    matches!(flushed, Flushed::Sent)
}

/// Sends orders until none is left or the port refuses.
fn flush_all<N: SupNaming, B: Drop, P: Port<B>>(
    table: &mut Table<N, B>,
    words: &Words<N>,
    inbox: &Inbox<N, Message, Letter<B>>,
    sender: &mut Sender<N, Message, Letter<B>>,
    port: &mut P,
)
    requires inbox { inbox.now ≡ table.old.taker.inbox }
    requires sender { sender.old.inbox ≡ inbox.now }
    requires may_send { 0 < sender.old.parts }
    ensures more { TookMore (taken_by (P.processes port.old) (P.notes port.old)) (taken_by (P.processes port.new) (P.notes port.new)) (P.refusals port.old) (P.refusals port.new) }
    ensures sent { (table.new.office.outbox ≡ []) ⊎ (P.refusals port.old < P.refusals port.new) }
    ensures orders { SentOrders table.old.office table.new.office (taken_by (P.processes port.old) (P.notes port.old)) (taken_by (P.processes port.new) (P.notes port.new)) }
    ensures taker { table.new.taker ≡ record table.old.taker { given = table.new.taker.given } }
    ensures given { HasStarted (length (P.processes port.old)) (length (P.processes port.new)) table.old.taker.given table.new.taker.given }
    ensures sender { sender.new ≡ record sender.old { shares = sender.new.shares } }
    ensures credited { HasStarted (length (P.processes port.old)) (length (P.processes port.new)) sender.old.shares sender.new.shares }
    ensures beside { P.beside port.new ≡ P.beside port.old }
    ensures counts { table.new.counts ≡ table.old.counts }
    ensures ends { table.new.ends_told ≡ table.old.ends_told }
    ensures count { bodies_in table.new.bodies + carried (P.processes port.new) ≡ bodies_in table.old.bodies + carried (P.processes port.old) }
{
    let mut flushed = flush_next(table, words, inbox, sender, port);
    while was_sent(flushed) {
        flushed = flush_next(table, words, inbox, sender, port);
    }
}

/// Sends the first order that is still to be sent ([`Table::flush_one`]), if there is one.
fn flush_next<N: SupNaming, B: Drop, P: Port<B>>(
    table: &mut Table<N, B>,
    words: &Words<N>,
    inbox: &Inbox<N, Message, Letter<B>>,
    sender: &mut Sender<N, Message, Letter<B>>,
    port: &mut P,
) -> Flushed
    requires inbox { inbox.now ≡ table.old.taker.inbox }
    requires sender { sender.old.inbox ≡ inbox.now }
    requires may_send { 0 < sender.old.parts }
    ensures flushed { FlushesTo result table.old.office table.new.office (P.processes port.old) (P.notes port.old) (P.refusals port.old) (P.processes port.new) (P.notes port.new) (P.refusals port.new) }
    ensures taker { table.new.taker ≡ gave (starts_of (starts_flushed result (slot_to_start table.old.office))) table.old.taker }
    ensures sender { sender.new ≡ credited (starts_of (starts_flushed result (slot_to_start table.old.office))) sender.old }
    ensures put { length (P.processes port.new) ≡ length (P.processes port.old) + starts_flushed result (slot_to_start table.old.office) }
    ensures beside { P.beside port.new ≡ P.beside port.old }
    ensures counts { table.new.counts ≡ table.old.counts }
    ensures ends { table.new.ends_told ≡ table.old.ends_told }
    ensures count { bodies_in table.new.bodies + carried (P.processes port.new) ≡ bodies_in table.old.bodies + carried (P.processes port.old) }
{
    if !table.has_orders() {
        return Flushed::Empty;
    }
    table.flush_one(words, inbox, sender, port)
}
