//! What lies under a supervisor's lock.
ghost use Rattle.otp_bodies.specs.Letters.{one_if};
ghost use Rattle.std.specs.Prelude.{◌≡◌, ◌∷◌, ◌+◌, ◌≤◌, ◌<◌, ◌↔◌, [], true, false, is_some, length, min, IfErr, IfOk, IsTrue, None, OnOk, Some, vec_capacity};
ghost use Rattle.otp_inbox.specs.Tokens.{count_limit, no_shares};
ghost use Rattle.std.specs.List.{list_any};
ghost use Rattle.otp_spec.specs.declared.limits.TheConstants.{MAX_READING};
ghost use Rattle.otp_core.specs.View.{state_of};
ghost use Rattle.otp_rules.specs.Counts.{counts_of};
ghost use Rattle.otp_rules.specs.Next.{next_deadline};
ghost use Rattle.otp_core.specs.Replies.{IsReplyAnswer};
ghost use Rattle.otp_signals.specs.Counts.{fresh_pass};
ghost use Rattle.otp_bodies.specs.Bodies.{are_ready, bodies_in, bodies_sent, is_left_of, is_stray, settled, without_first, count_opened};
ghost use Rattle.otp_sup.specs.Cuts.{WasCut};
ghost use Rattle.otp_sup.specs.Facts.{KeepsRules};
ghost use Rattle.otp_sup.specs.Plans.{IsBegunBy};
ghost use Rattle.otp_sup.specs.Anew.{IsPlannedAnew};
ghost use Rattle.otp_bodies.specs.Offices.{slot_to_start};
ghost use Rattle.otp_bodies.specs.Orders.{starts_in};
ghost use Rattle.otp_bodies.specs.Flushes.{FlushesTo, starts_flushed};
ghost use Rattle.otp_bodies.specs.Ports.{carried};
ghost use Rattle.otp_bodies.specs.Answers.{HasTurned, early_answer};
ghost use Rattle.otp_sup.specs.Shares.{credited, gave, starts_of};
ghost use Rattle.otp_bodies.specs.Events.{IsRefusal, Readied};
ghost use Rattle.otp_sup.specs.Turns.{IsSettled, Turned};

use crate::cut::CutAnswer;
use crate::moves::{happen, take_back};
use crate::naming::SupNaming;
use otp_bodies::office::{Office, TurnAnswer, TurnFault, answer_of};
use otp_bodies::{Bodies, Flushed, Letter, Message, Port, ToldEnd, keep_end};
use otp_core::{CutFault, ReplyAnswer};
use otp_inbox::{Inbox, Sender, Taker};
use otp_rules::{Kind, Reply};
use otp_signals::counts::{CountsPass, Publisher};
use otp_signals::{Signal, Words, WordsNaming};
use otp_spec::SupSpec;
use std::alloc::{AllocError, Global};
use std::marker::{Model, PhantomData};
use std::mem;
use std::sync::Wait;

/// What lies under a supervisor's lock: its core with seat and orders, the taker of its inbox, the bodies that it keeps,
/// the right to publish its counts, and the ends of supervisors that it was told.
#[derive(Drop)]
pub struct Table<N: SupNaming, B: Drop> {
    office: Office<N>,
    taker: Taker<N, Message, Letter<B>>,
    bodies: Bodies<B>,
    counts: Publisher,
    ends: Vec<ToldEnd>,
    of: PhantomData<N>,
}

impl<N: SupNaming, B: Drop> Model for Table<N, B> {
    ghost use Rattle.otp_sup.specs.Facts.{TableView, IsTable};

    ghost Value = { TableView };

    ghost view = { λ t. record { office = t.office; taker = t.taker; bodies = t.bodies.kept; counts = t.counts; ends_told = t.ends.items } };

    ghost invariant = { λ t. IsTable N.plan (record { office = t.office; taker = t.taker; bodies = t.bodies.kept; counts = t.counts; ends_told = t.ends.items }) };
}

impl<N: SupNaming, B: Drop> Table<N, B> {
    /// The table of a supervisor that was never opened, with the bodies of its child specifications: one at least for
    /// each child that an opening makes ([`Bodies::are_ready`], [`count_opened`]). Published of it is
    /// what it counts now, and nothing before ([`Office::counts`]).
    pub fn new(
        alloc: Global,
        office: Office<N>,
        taker: Taker<N, Message, Letter<B>>,
        mut bodies: Bodies<B>,
        counts: Publisher,
    ) -> Self
        requires plan { IsBegunBy (N.plan taker.inbox) office.core.base }
        requires history { office.core.history ≡ [] }
        requires taken { taker.taken ≡ [] }
        requires unused { (taker.empty_finds ≡ 0) × (taker.given ≡ no_shares) }
        requires bodies { are_ready (count_opened office.core.base.flags office.core.base.specs) bodies.kept ≡ true }
        requires counts { counts.published ≡ counts_of (state_of office.core) ∷ [] }
        ensures { result ≡ record { office = office; taker = taker; bodies = settled [] false bodies.kept; counts = counts; ends_told = [] } }
    {
        office.keeps_rules();
        bodies.has_one_each();
        // No child has any of them yet, and no call waits.
        bodies.settle(&[], false);
        Table {
            office,
            taker,
            bodies,
            counts,
            ends: Vec::new(alloc),
            of: PhantomData,
        }
    }

    /// Whenever a supervisor's lock is free, its children, restart times, kept replies and sent orders are what OTP's rules give for the
    /// history that it stores; that history holds each signal taken from its queue once, in order; no period in it has more restarts than the
    /// intensity unless the supervisor is ending; and no process number is a child's in two supervisors.
    ///
    /// The last part is what `close_tree` of otp_tree says, which gets all seats back: this call says of it that its process
    /// numbers are those that its own seat drew. Sent orders are those that it sent, followed by those still to be sent. Signals
    /// are the items of its inbox. The period is one since it was last opened (of all openings the law `restart_rate` says it). A
    /// supervisor that is ending takes, or took, the one restart too many.
    ///
    /// Each child has one body, at home or away. It is at home exactly where the child has no process, where a note of its
    /// process's end waits, and where its start is still to be sent; else it is away with the process. A body at home or away
    /// is that of a child that there is. Of each child specification one body at most is kept, and it is no other
    /// child's than that in the slot of the specification's place. Each start call that waits has its body with it, in their order.
    ///
    /// Besides, the words that it posted are those of the orders that were sent, in their order; a start is posted again where a
    /// port refused it. No two of its children have one slot, or one process. The counts that were published are those of its
    /// children before the first event and after each one; where the name has no plan they come behind what the place counted
    /// before ([`Table::plan_anew`]). Each end of a supervisor that it was told came with a note of its history, for the note's
    /// reason, and is shown. Whoever serves it was credited with a start for each one that it sent, and with a turn for each event
    /// and each time that its inbox was found empty.
    ///
    /// A checkpoint ([`Table::cut`]) drops the events so far. All of this is still said of the whole history, with the
    /// events that were dropped: those stand in contracts alone. Only the ends that it was told are those since then.
    pub fn keeps_rules(&self)
        ensures { KeepsRules N.plan self.now }
    {
        let _ = &self.taker;
        self.office.keeps_rules();
    }

    /// The number of its inbox.
    pub fn number(&self) -> usize
        ensures { result ≡ self.now.taker.inbox }
    {
        self.taker.number()
    }

    /// Whether it had no event.
    pub fn is_unused(&self) -> bool
        ensures { IsTrue result ↔ (self.now.office.core.history ≡ []) }
    {
        let _ = &self.taker;
        self.office.is_unused()
    }

    /// The supervisor of this plan takes the place of this one, which had no event ([`Table::is_unused`]), with the bodies of its
    /// child specifications: one at least for each child that an opening makes. What it counts is published. The seat stays, and so
    /// does the inbox with what stands in it. Takes no memory; the bodies that were there are dropped.
    pub fn plan_anew(&mut self, alloc: Global, supervisor: SupSpec, mut bodies: Bodies<B>)
        requires history { self.old.office.core.history ≡ [] }
        // The name has no plan for it: of one that has a plan all that was published is counted along its history.
        requires free { N.plan self.old.taker.inbox ≡ None }
        requires bodies { are_ready (count_opened supervisor.flags supervisor.specs) bodies.kept ≡ true }
        ensures { IsPlannedAnew supervisor bodies.kept self.old self.new }
    {
        let _ = &self.taker;
        bodies.has_one_each();
        // No child has any of them yet, and no call waits.
        bodies.settle(&[], false);
        self.office.plan_anew(alloc, supervisor);
        self.office.keeps_rules();
        let old = mem::replace(&mut self.bodies, bodies);
        drop(old);
        self.counts.publish(self.office.counts());
    }

    /// One turn of the supervisor, under the process number that it is to have, at this reading of the clock in
    /// milliseconds, with the signal that its parent posted for it. It does the first of these that applies:
    ///
    /// 1. The number is below its own: [`TurnAnswer::Ended`].
    /// 2. The number is above its own, and it hasn't ended: [`TurnFault::WrongNumber`] (E18).
    /// 3. Orders are still to be sent: [`TurnAnswer::Pending`].
    /// 4. The core is full ([`otp_core::Core::is_full`]): [`TurnAnswer::Full`]. After a checkpoint ([`Table::cut`]) it isn't.
    /// 5. Memory is refused, or no number is left: [`TurnFault::OutOfMemory`] (E0), [`TurnFault::Exhausted`] (E9).
    /// 6. It was never opened, or has ended and the number is greater: it opens.
    /// 7. A deadline has come: children are killed.
    /// 8. A signal was posted, no work is open and it hasn't ended: it stops.
    /// 9. No work is open and an item waits: that is taken up.
    /// 10. An item is in the inbox: it is taken.
    /// 11. [`TurnAnswer::Ended`] if it has ended, else [`TurnAnswer::Quiet`].
    ///
    /// Cases 6 to 10 are one event each; in all others nothing changes, but that in case 11 one look more has found the
    /// inbox empty. A turn keeps one body more exactly where the item that it took brought one, and each body is then where
    /// the definitions put it. With an event the counts after it are published, and nothing is published otherwise. An end
    /// that came with the item is the last of those that the supervisor was told.
    ///
    /// The sender is that of whoever gives the turn. It is credited with one turn in cases 6 to 11, after what was done.
    pub fn turn<R: Wait>(
        &mut self,
        rt: &R,
        words: &Words<N>,
        inbox: &Inbox<N, Message, Letter<B>>,
        sender: &mut Sender<N, Message, Letter<B>>,
        number: u64,
        reading: u64,
        told: Signal,
    ) -> Result<TurnAnswer, TurnFault>
        requires inbox { inbox.now ≡ self.old.taker.inbox }
        requires sender { sender.old.inbox ≡ inbox.now }
        requires may_send { 0 < sender.old.parts }
        requires reading { reading ≤ MAX_READING }
        ensures turned { Turned number reading told self.old self.new result }
        // Beyond cases 1 to 4 nothing is done without a number for the next start.
        ensures quota { early_answer self.old.office number ≡ None → OnOk result (0 < self.old.office.owner.quota) }
        // The sender has a turn more where there was one, which the taker gave; and nothing else of it changed.
        ensures turns { HasTurned result sender.old.shares.turns sender.new.shares.turns }
        ensures given { sender.new.shares.turns + self.old.taker.given.turns ≡ sender.old.shares.turns + self.new.taker.given.turns }
        ensures sender { sender.new ≡ record sender.old { shares = record sender.old.shares { turns = sender.new.shares.turns } } }
    {
        if let Some(early) = self.office.early_answer(number) {
            return early;
        }
        // A turn that did nothing has left this memory for the next one.
        if !is_ready(&self.office, &self.bodies, &self.ends) {
            make_ready(&mut self.office, &mut self.bodies, &mut self.ends)?;
        }
        if let Some(kind) = self.office.due_kind(number, reading, told) {
            happen(
                &mut self.office,
                &mut self.bodies,
                words,
                reading,
                kind,
                None,
            );
            self.counts.publish(self.office.counts());
            inbox.credit(&mut self.taker, sender, 0, 1);
            return Ok(answer_of(kind));
        }
        let Some(letter) = inbox.take(rt, &mut self.taker) else {
            inbox.credit(&mut self.taker, sender, 0, 1);
            return Ok(if self.office.has_ended() {
                TurnAnswer::Ended
            } else {
                TurnAnswer::Quiet
            });
        };
        let (item, body, end) = letter.into_parts();
        let event = self.office.events();
        let kind = Kind::Took(item);
        happen(
            &mut self.office,
            &mut self.bodies,
            words,
            reading,
            kind,
            body,
        );
        self.counts.publish(self.office.counts());
        inbox.credit(&mut self.taker, sender, 0, 1);
        if let Some(end) = end {
            keep_end(&mut self.ends, event, item, Some(end));
        }
        Ok(TurnAnswer::Took)
    }

    /// Whether a turn under this process number, at this reading, so told, has nothing to do but for an item of the inbox: it would be
    /// [`TurnAnswer::Quiet`] where there is none, and memory isn't refused.
    pub fn is_settled(&self, number: u64, reading: u64, told: Signal) -> bool
        ensures { IsTrue result ↔ IsSettled number reading told self.now }
    {
        let _ = &self.taker;
        self.office.early_answer(number).is_none()
            && self.office.due_kind(number, reading, told).is_none()
            && !self.office.has_ended()
    }

    /// A pass, with which others read its counts without the lock ([`CountsPass::read`]). Takes no memory.
    ///
    /// Refused only where there are as many passes as a machine word counts.
    pub fn pass(&mut self) -> Result<CountsPass, AllocError>
        ensures same { self.new ≡ self.old }
        ensures pass { IfOk result (λ pass. pass ≡ fresh_pass self.old.counts.word) }
    {
        let _ = &self.taker;
        self.counts.pass()
    }

    /// Sends the first order that is still to be sent. A start posts the process's number to its child's slot and puts
    /// the process, with the child's body; an ask and a kill post. That all have started, and the end, are told to the
    /// parent. Where the port refuses, the order stays, and so does the body; what it posts may be posted again.
    ///
    /// The sender, of whoever serves, is credited with a start where one was sent.
    pub fn flush_one<P: Port<B>>(
        &mut self,
        words: &Words<N>,
        inbox: &Inbox<N, Message, Letter<B>>,
        sender: &mut Sender<N, Message, Letter<B>>,
        port: &mut P,
    ) -> Flushed
        requires inbox { inbox.now ≡ self.old.taker.inbox }
        requires sender { sender.old.inbox ≡ inbox.now }
        requires may_send { 0 < sender.old.parts }
        ensures flushed { FlushesTo result self.old.office self.new.office (P.processes port.old) (P.notes port.old) (P.refusals port.old) (P.processes port.new) (P.notes port.new) (P.refusals port.new) }
        // A start was given and credited exactly where one was sent.
        ensures taker { self.new.taker ≡ gave (starts_of (starts_flushed result (slot_to_start self.old.office))) self.old.taker }
        ensures sender { sender.new ≡ credited (starts_of (starts_flushed result (slot_to_start self.old.office))) sender.old }
        ensures put { length (P.processes port.new) ≡ length (P.processes port.old) + starts_flushed result (slot_to_start self.old.office) }
        ensures beside { P.beside port.new ≡ P.beside port.old }
        ensures counts { self.new.counts ≡ self.old.counts }
        ensures ends { self.new.ends_told ≡ self.old.ends_told }
        // The body that the table doesn't keep any more is that of the child whose process was put: it went with the process
        // that the port took.
        ensures bodies { self.new.bodies ≡ bodies_sent result (slot_to_start self.old.office) self.old.bodies }
        ensures count { bodies_in self.new.bodies + carried (P.processes port.new) ≡ bodies_in self.old.bodies + carried (P.processes port.old) }
    {
        self.office.keeps_rules();
        let slot = self.office.starting_slot();
        let bodies = &mut self.bodies;
        let at = bodies.find_home(slot);
        let body = match (slot, at) {
            (Some(slot), Some(at)) => bodies.leave(at, slot),
            _ => None,
        };
        let (flushed, back) = self.office.flush_one(words, body, port);
        if let Some(body) = back {
            // The port didn't take it.
            take_back(bodies, slot, at, body);
        }
        if is_start_sent(flushed, slot) {
            inbox.credit(&mut self.taker, sender, 1, 0);
        }
        flushed
    }

    /// Whether an order is still to be sent.
    pub fn has_orders(&self) -> bool
        ensures { result ≡ false ↔ (self.now.office.outbox ≡ []) }
    {
        let _ = &self.taker;
        self.office.is_pending()
    }

    /// How many items it took from its inbox. The count stops at 2^62.
    pub fn taken_count(&self) -> u64
        ensures { result ≡ min (length self.now.taker.taken) count_limit }
    {
        self.taker.taken_count()
    }

    /// How many orders are still to be sent.
    pub fn unsent_orders(&self) -> u64
        ensures { result ≡ length self.now.office.outbox }
    {
        self.office.unsent_orders()
    }

    /// How many of the orders that are still to be sent start a child: one at most.
    pub fn unsent_starts(&self) -> u64
        ensures value { result ≡ length (starts_in self.now.office.outbox) }
        ensures few { result ≤ 1 }
    {
        let _ = &self.taker;
        self.office.unsent_starts()
    }

    /// Takes it apart, at the end: its office, the taker of its inbox, the right to publish its counts, and the ends that it was
    /// told. The bodies that it has are dropped.
    pub fn into_parts(
        self,
    ) -> (
        Office<N>,
        Taker<N, Message, Letter<B>>,
        Publisher,
        Vec<ToldEnd>,
    )
        ensures office { result.0 ≡ self.office }
        ensures taker { result.1 ≡ self.taker }
        ensures counts { result.2 ≡ self.counts }
        ensures ends { result.3.items ≡ self.ends_told }
    {
        let Table {
            office,
            taker,
            bodies: _,
            counts,
            ends,
            of: _,
        } = self;
        (office, taker, counts, ends)
    }

    /// The least deadline in milliseconds of the children that were told to shut down: once the clock has come to it, a
    /// turn kills those of them whose deadline has come. None where no child has one.
    pub fn next_deadline(&self) -> Option<u64>
        ensures { result ≡ next_deadline (state_of self.now.office.core).rows }
    {
        let _ = &self.taker;
        self.office.core().next_deadline()
    }

    /// Makes a checkpoint: the events so far are stored no longer, nor what they kept: the answers to calls, the ends of
    /// this supervisor, and the ends of others that it was told. Nothing that comes depends on those
    /// ([`otp_core::Core::cut`]). While
    /// an order is still to be sent the answer is Pending, and nothing changes.
    ///
    /// Calls that wait, bodies, restart times, and the shares that were given stay. The memory is kept for what comes.
    ///
    /// # Errors
    ///
    /// E8: there were more than 2^62 events in all ([`MAX_EVENTS_IN_ALL`](otp_core::MAX_EVENTS_IN_ALL)). Then nothing changes.
    pub fn cut(&mut self) -> Result<CutAnswer, CutFault>
        ensures { WasCut result self.old self.new }
    {
        let _ = &self.taker;
        if self.office.is_pending() {
            return Ok(CutAnswer::Pending);
        }
        self.office.cut()?;
        self.ends.clear();
        Ok(CutAnswer::Cut)
    }

    /// What is known of the answer to the call with this number.
    ///
    /// It is kept where it was given since the last checkpoint ([`Table::cut`]). Else it is gone where a checkpoint dropped
    /// the answer to this call or to one with a greater number, and this call is not still to be answered: it doesn't wait,
    /// and no open work is for it. Else it was not given yet. So of a call that is still in the inbox the answer may be
    /// Gone, and Kept later.
    pub fn reply(&self, call: u64) -> ReplyAnswer<&Reply>
        ensures { IsReplyAnswer (λ r. r.now) call self.now.office.core result }
    {
        self.office.reply(call)
    }

    /// The body that the call with this number brought, once the call was answered and no child has the body: after a
    /// refusal, or when the child is gone.
    pub fn take_box(&mut self, call: u64) -> Option<B>
        ensures table { self.new ≡ record self.old { bodies = self.new.bodies } }
        ensures bodies { self.new.bodies ≡ without_first (is_left_of call) self.old.bodies }
        ensures found { is_some result ≡ list_any (is_left_of call) self.old.bodies }
    {
        let _ = &self.taker;
        self.bodies.take_of_call(call)
    }

    /// A body that came with a note of a process that no child has, with one that told nothing new, or for a child
    /// that had its body already.
    pub fn take_stray(&mut self) -> Option<B>
        ensures table { self.new ≡ record self.old { bodies = self.new.bodies } }
        ensures bodies { self.new.bodies ≡ without_first is_stray self.old.bodies }
        ensures found { is_some result ≡ list_any is_stray self.old.bodies }
    {
        let _ = &self.taker;
        self.bodies.take_of_nobody()
    }
}

/// Whether the memory of the next event is there, and a number is left for it. A turn that finds nothing to do leaves them
/// there.
fn is_ready<N: WordsNaming, B: Drop>(
    office: &Office<N>,
    bodies: &Bodies<B>,
    ends: &Vec<ToldEnd>,
) -> bool
    ensures prepared { IsTrue result → office.now.core.prepared ≡ true }
    ensures quota { IsTrue result → 0 < office.now.owner.quota }
    ensures space { IsTrue result → 0 < bodies.now.room }
    ensures room { IsTrue result → length ends.now.items < vec_capacity ends.now }
{
    ends.len() < ends.capacity() && bodies.has_room() && office.is_prepared()
}

/// Takes the memory of the next event, and sees that a number is left for it. A refusal changes nothing that contracts
/// see.
fn make_ready<N: WordsNaming, B: Drop>(
    office: &mut Office<N>,
    bodies: &mut Bodies<B>,
    ends: &mut Vec<ToldEnd>,
) -> Result<(), TurnFault>
    ensures readied { Readied office.old office.new }
    ensures refused { IfErr result (IsRefusal office.old) }
    ensures prepared { OnOk result (office.new.core.prepared ≡ true) }
    ensures quota { OnOk result (0 < office.new.owner.quota) }
    ensures kept { bodies.new.kept ≡ bodies.old.kept }
    ensures space { OnOk result (0 < bodies.new.room) }
    ensures ends { ends.new.items ≡ ends.old.items }
    ensures room { OnOk result (length ends.new.items < vec_capacity ends.new) }
{
    if bodies.prepare().is_err() || ends.reserve(1).is_err() {
        return Err(TurnFault::OutOfMemory);
    }
    office.prepare()
}

/// Whether an order was sent that starts the child of this slot.
fn is_start_sent(flushed: Flushed, slot: Option<usize>) -> bool
    ensures { starts_flushed flushed slot ≡ one_if result }
{
    matches!((flushed, slot), (Flushed::Sent, Some(_)))
}
