//! How a hand serves a tree: a turn at a time.
ghost use Rattle.std.specs.Prelude.{◌+◌, ◌≤◌, ◌<◌, ◌≡◌, IsTrue, IfSome, None, Ok, Some, is_some, length, true};
ghost use Rattle.otp_spec.specs.declared.limits.TheConstants.{MAX_READING};
ghost use Rattle.otp_bodies.specs.declared.office.turns.TurnAnswer.TheVariants.{Quiet};
ghost use Rattle.otp_system.specs.Servings.{SentOrKept, WentOrStayed, is_served};
ghost use Rattle.otp_hand.specs.Begun.{NoneBegan, starts_credited};
ghost use Rattle.otp_hand.specs.Ended.{ends_held, ends_sent};
ghost use Rattle.otp_hand.specs.Standings.{parts_in, standing_of};
ghost use Rattle.otp_system.specs.Supervised.{GaveTurn, HadTurnOut, IsServed, IsTurned, IsWorked, KeptAll, WasTold};

use crate::clock::Millis;
use crate::happening::happening_of;
use crate::listener::{Listener, Nobody};
use crate::system::System;
use otp_hand::places::put_into;
use otp_hand::waiting::Resting;
use otp_hand::{Hand, Senders, TreeNaming, Unsent};
use otp_job::bridge::Subsystem;
use otp_job::{Body, Job, Ticket};
use otp_reason::Note;
use otp_run::RunNaming;
use otp_signals::Signal;
use otp_sup::{Letter, Sup, SupNaming, TurnAnswer, TurnFault};
use std::sync::Wait;

impl<N: SupNaming, J: Job, S: Subsystem> System<N, J, S> {
    /// Gives a hand so many turns, in the thread that calls.
    ///
    /// A turn first sends a note that was refused before. Then it takes the process that the hand has out, or one that waited and
    /// was told something, or the next of the run queue: a worker's or a bridge's has one turn ([`otp_job::one_turn`]), a supervisor's one too
    /// ([`otp_sup::Sup::turn`]). Where there is no process, the turn does nothing.
    pub fn serve<R: Wait, M: Millis>(
        &self,
        rt: &R,
        hand: &mut Hand<N, J, S>,
        clock: &mut M,
        turns: u64,
    )
    where
        N: RunNaming,
        // It reads no counts.
        ensures passes { hand.new.passes ≡ hand.old.passes }
        // The hand keeps its place among all hands, and its parts of the right to send.
        ensures standing { standing_of hand.new ≡ standing_of hand.old }
    {
        for _ in 0..turns {
            let reading = clock.now();
            self.turn(rt, hand, reading);
        }
    }

    /// One turn of a hand, at this reading of the clock in milliseconds. False where it found nothing to do, or memory was refused: for
    /// a letter, or to the supervisor whose turn it was, which has it again.
    pub fn turn<R: Wait>(&self, rt: &R, hand: &mut Hand<N, J, S>, reading: u64) -> bool
    where
        N: RunNaming,
        requires { reading ≤ MAX_READING }
        ensures passes { hand.new.passes ≡ hand.old.passes }
        ensures standing { standing_of hand.new ≡ standing_of hand.old }
        ensures turn { IsTurned J.started S.inited J.is_trapping J.turned S.polled S.terminated N.plan self.now.slots self.now.tables reading result hand.old hand.new }
    {
        self.turn_heard(rt, hand, reading, &Nobody)
    }

    /// A turn, of which a listener is told.
    pub fn turn_heard<R: Wait, L: Listener>(
        &self,
        rt: &R,
        hand: &mut Hand<N, J, S>,
        reading: u64,
        listener: &L,
    ) -> bool
    where
        N: RunNaming,
        requires { reading ≤ MAX_READING }
        ensures passes { hand.new.passes ≡ hand.old.passes }
        ensures standing { standing_of hand.new ≡ standing_of hand.old }
        // The process that was out had a turn at this reading. A supervisor's was under the number of its process, told what its parent
        // had posted for that number.
        ensures turn { IsTurned J.started S.inited J.is_trapping J.turned S.polled S.terminated N.plan self.now.slots self.now.tables reading result hand.old hand.new }
    {
        if !self.is_ready(rt, hand, reading, listener) {
            return false;
        }
        let served = self.give_turn(rt, hand, reading, listener);
        self.end_turn(rt, hand, listener);
        served
    }

    /// Whether a hand has nothing left to send, and a process whose turn it is: it sends and looks for them.
    fn is_ready<R: Wait, L: Listener>(
        &self,
        rt: &R,
        hand: &mut Hand<N, J, S>,
        reading: u64,
        listener: &L,
    ) -> bool
    where
        N: RunNaming,
        ensures found { IsTrue result → is_some hand.new.turning ≡ true }
        ensures unsent { IsTrue result → hand.new.unsent ≡ None }
        ensures begun { NoneBegan hand.old.scheduler hand.new.scheduler }
        ensures passes { hand.new.passes ≡ hand.old.passes }
        ensures standing { standing_of hand.new ≡ standing_of hand.old }
    {
        self.send_unsent(rt, hand, listener) && self.find(hand, reading)
    }

    /// Sends what a turn gave the hand to send. Once that was sent, the process that it has out goes back to the run queue.
    fn end_turn<R: Wait, L: Listener>(&self, rt: &R, hand: &mut Hand<N, J, S>, listener: &L)
    where
        N: RunNaming,
        ensures begun { NoneBegan hand.old.scheduler hand.new.scheduler }
        ensures passes { hand.new.passes ≡ hand.old.passes }
        ensures standing { standing_of hand.new ≡ standing_of hand.old }
    {
        if self.send_unsent(rt, hand, listener) {
            hand.runner.hand_back();
        }
    }

    /// The process that the hand has out has its turn, at this reading. False where it is a supervisor to which memory was refused.
    fn give_turn<R: Wait, L: Listener>(
        &self,
        rt: &R,
        hand: &mut Hand<N, J, S>,
        reading: u64,
        listener: &L,
    ) -> bool
    where
        N: RunNaming,
        requires reading { reading ≤ MAX_READING }
        requires unsent { hand.old.unsent ≡ None }
        ensures passes { hand.new.passes ≡ hand.old.passes }
        ensures standing { standing_of hand.new ≡ standing_of hand.old }
        ensures turn { IfSome hand.old.turning (λ p. HadTurnOut J.started S.inited J.is_trapping J.turned S.polled S.terminated N.plan self.now.slots self.now.tables reading p result hand.old hand.new) }
    {
        let parent = hand.runner.parent();
        match hand.runner.nested() {
            Some((table, number)) => {
                let told = self.look(hand);
                self.supervise(rt, hand, table, number, reading, told, parent, listener)
            }
            None => {
                self.work(rt, hand, reading, parent, listener);
                true
            }
        }
    }

    /// What the process that a hand has out is told by its supervisor.
    fn look(&self, hand: &mut Hand<N, J, S>) -> Signal
    where
        N: RunNaming,
        ensures same { hand.new ≡ hand.old }
        ensures told { IfSome hand.old.turning (λ p. WasTold self.now.slots p.ticket result) }
    {
        hand.runner.look(&self.shared.words)
    }

    /// The worker or the bridge that a hand has out has its turn, and what it tells its supervisor is sent.
    fn work<R: Wait, L: Listener>(
        &self,
        rt: &R,
        hand: &mut Hand<N, J, S>,
        reading: u64,
        parent: usize,
        listener: &L,
    )
    where
        N: RunNaming,
        requires { hand.old.unsent ≡ None }
        ensures passes { hand.new.passes ≡ hand.old.passes }
        ensures standing { standing_of hand.new ≡ standing_of hand.old }
        ensures turn { IfSome hand.old.turning (λ p. IsWorked J.started S.inited J.is_trapping J.turned S.polled S.terminated self.now.slots self.now.tables reading p hand.old hand.new) }
    {
        let before = hand.runner.waiting.len();
        let told = hand.runner.work_as_told(&self.shared.words, reading);
        if before < hand.runner.waiting.len() {
            listener.waits(parent);
        }
        let _sent = self.send_told(
            rt,
            &mut hand.senders,
            &mut hand.runner.resting,
            &mut hand.runner.unsent,
            told,
            listener,
        );
    }

    /// Looks for something to do, for letters, signals and deadlines of **all** that wait in this hand, and in the run queue as a
    /// turn does. True where the hand's next turn has something to do; false where there was nothing for each that waits at one
    /// moment of the call.
    pub fn look_at_all(&self, hand: &mut Hand<N, J, S>, reading: u64) -> bool
    where
        N: RunNaming,
        ensures passes { hand.new.passes ≡ hand.old.passes }
        ensures standing { standing_of hand.new ≡ standing_of hand.old }
    {
        if hand.runner.unsent.is_some() {
            return true;
        }
        hand.runner.look_at_all();
        self.find(hand, reading)
    }

    /// A turn of this supervisor, whose process a hand has out. Where it finds nothing to do, the process waits from then on, until
    /// the least deadline of its children at most. False where memory was refused to it in this turn, or before for an order that was still
    /// to be sent: whoever serves makes a pause then.
    fn supervise<R: Wait, L: Listener>(
        &self,
        rt: &R,
        hand: &mut Hand<N, J, S>,
        table: usize,
        number: u64,
        reading: u64,
        told: Signal,
        parent: usize,
        listener: &L,
    ) -> bool
    where
        N: RunNaming,
        requires { reading ≤ MAX_READING }
        ensures passes { hand.new.passes ≡ hand.old.passes }
        ensures standing { standing_of hand.new ≡ standing_of hand.old }
        ensures turn { IsServed N.plan self.now.tables table number reading told result hand.old hand.new }
    {
        let Some(sup) = self.sup(table) else {
            return false;
        };
        // A hand of this tree has a sender to each supervisor; without one it can't serve it.
        if sup.inbox().number() >= hand.senders.len() {
            listener.served(table);
            return false;
        }
        let answer = self.give_to(rt, hand, sup, number, reading, told);
        if is_quiet(&answer) {
            rest(rt, hand, sup, table, told);
            listener.rests(table, parent);
            // Where memory for its wait is refused it is still out.
            return hand.runner.turning.is_none();
        }
        listener.served(table);
        hear_posts(hand);
        let served = is_served(&answer);
        if rest_at_once(rt, hand, sup, table, number, reading, told, served) {
            listener.rests(table, parent);
        }
        served
    }

    /// The turn of this supervisor, which gives its orders to this hand.
    fn give_to<R: Wait>(
        &self,
        rt: &R,
        hand: &mut Hand<N, J, S>,
        sup: &Sup<N, Body<J, S>>,
        number: u64,
        reading: u64,
        told: Signal,
    ) -> Result<TurnAnswer, TurnFault>
    where
        N: RunNaming,
        requires reading { reading ≤ MAX_READING }
        requires reaches { sup.now.inbox < length hand.old.senders }
        ensures passes { hand.new.passes ≡ hand.old.passes }
        ensures standing { standing_of hand.new ≡ standing_of hand.old }
        ensures turn { GaveTurn N.plan sup.now.inbox number reading told result hand.old hand.new }
    {
        hand.senders.turn(
            rt,
            &self.shared.words,
            sup,
            &mut hand.runner,
            number,
            reading,
            told,
        )
    }

    /// Sends the letter that a hand still has to send. False where it was refused again.
    fn send_unsent<R: Wait, L: Listener>(
        &self,
        rt: &R,
        hand: &mut Hand<N, J, S>,
        listener: &L,
    ) -> bool
    where
        N: RunNaming,
        ensures sent { IsTrue result → hand.new.unsent ≡ None }
        // It is the letter that the hand had kept, to the supervisor for which it was kept; a refused one stays as it is.
        ensures letter { SentOrKept result self.now.tables hand.old.unsent hand.old hand.new }
        ensures begun { NoneBegan hand.old.scheduler hand.new.scheduler }
        ensures passes { hand.new.passes ≡ hand.old.passes }
        ensures standing { standing_of hand.new ≡ standing_of hand.old }
    {
        // Most often there is none; to take none costs as much as to take one.
        if hand.runner.unsent.is_none() {
            return true;
        }
        let unsent = hand.runner.unsent.take();
        self.send_told(
            rt,
            &mut hand.senders,
            &mut hand.runner.resting,
            &mut hand.runner.unsent,
            unsent,
            listener,
        )
    }

    /// Sends a letter of a hand, if there is one. Where it is refused the hand keeps it, and the answer is false.
    fn send_told<R: Wait, L: Listener>(
        &self,
        rt: &R,
        senders: &mut Senders<N, Body<J, S>>,
        resting: &mut Resting<J, S>,
        kept: &mut Option<Unsent<J, S>>,
        told: Option<Unsent<J, S>>,
        listener: &L,
    ) -> bool
        requires { kept.old ≡ None }
        ensures sent { IsTrue result → kept.new ≡ None }
        ensures letter { WentOrStayed result self.now.tables told senders.old senders.new kept.new }
        ensures resting { resting.new ≡ resting.old }
        ensures starts { starts_credited senders.new ≡ starts_credited senders.old }
        ensures ends { ends_sent senders.new + ends_held kept.new ≡ ends_sent senders.old + ends_held told }
        ensures parts { parts_in senders.new ≡ parts_in senders.old }
    {
        let Some(
            Unsent {
                ticket,
                letter,
                note,
            },
        ) = told
        else {
            return true;
        };
        let inbox = self.shared.inbox_of(ticket.table);
        if inbox.number() >= senders.len() {
            keep_unsent(kept, ticket, letter, note);
            return false;
        }
        let what = happening_of(note, letter.end(), ticket.again);
        match senders.send(rt, inbox, letter) {
            Ok(()) => {
                resting.call(ticket.table);
                listener.sent(&ticket, what);
                true
            }
            Err(letter) => {
                keep_unsent(kept, ticket, letter, note);
                false
            }
        }
    }
}

/// The supervisor's process that a hand has out waits from now on, until the least deadline of its children at most.
fn rest<N: SupNaming + RunNaming, J: Drop, S: Drop, R: Wait>(
    rt: &R,
    hand: &mut Hand<N, J, S>,
    sup: &Sup<N, Body<J, S>>,
    table: usize,
    told: Signal,
)
    ensures passes { hand.new.passes ≡ hand.old.passes }
    ensures standing { standing_of hand.new ≡ standing_of hand.old }
    ensures kept { KeptAll hand.old hand.new }
{
    let due = sup.next_deadline(rt);
    hand.runner.rest(table, told, due);
}

/// The supervisor's process that a hand has out waits from now on, where a turn more would find nothing to do. False where it doesn't:
/// one that wasn't served has a turn more.
///
/// Where the hand has something to send for it, or other hands might take it, its process goes into the deque and has a turn more.
fn rest_at_once<N: SupNaming + RunNaming, J: Drop, S: Drop, R: Wait>(
    rt: &R,
    hand: &mut Hand<N, J, S>,
    sup: &Sup<N, Body<J, S>>,
    table: usize,
    number: u64,
    reading: u64,
    told: Signal,
    served: bool,
) -> bool
    requires { sup.now.inbox < length hand.old.senders }
    ensures passes { hand.new.passes ≡ hand.old.passes }
    ensures standing { standing_of hand.new ≡ standing_of hand.old }
    ensures kept { KeptAll hand.old hand.new }
{
    let is_wanted = hand.runner.resting.is_wanted() || hand.runner.around.is_crowd();
    if !served || is_wanted || hand.runner.unsent.is_some() || hand.runner.turning.is_none() {
        return false;
    }
    let Some(due) = hand.senders.rests_until(rt, sup, number, reading, told) else {
        return false;
    };
    hand.runner.rest(table, told, due);
    hand.runner.turning.is_none()
}

/// A hand notes what was posted in a supervisor's turn. What is posted while nobody waits stays noted: those that wait later are
/// then looked at in vain once.
fn hear_posts<N: TreeNaming, J: Drop, S: Drop>(hand: &mut Hand<N, J, S>)
    ensures passes { hand.new.passes ≡ hand.old.passes }
    ensures standing { standing_of hand.new ≡ standing_of hand.old }
    ensures kept { KeptAll hand.old hand.new }
{
    if hand.runner.waiting.len() > 0 {
        let posted = hand.runner.around.take_posted();
        hand.runner.waiting.notice_posted(posted);
    }
}

/// Whether a turn with this answer found nothing to do.
fn is_quiet(answer: &Result<TurnAnswer, TurnFault>) -> bool
    ensures { IsTrue result → answer.now ≡ Ok Quiet }
{
    matches!(answer, Ok(TurnAnswer::Quiet))
}

/// Whether a turn with this answer was served: nothing was refused to it, nor to an earlier one whose orders were left over.
fn is_served(answer: &Result<TurnAnswer, TurnFault>) -> bool
    ensures { result ≡ is_served answer.now }
{
    !matches!(answer, Ok(TurnAnswer::Pending) | Err(_))
}

/// Keeps a letter that was refused.
fn keep_unsent<J: Drop, S: Drop>(
    place: &mut Option<Unsent<J, S>>,
    ticket: Ticket,
    letter: Letter<Body<J, S>>,
    note: Note,
)
    ensures { place.new ≡ Some (record { ticket = ticket; letter = letter; note = note }) }
{
    let unsent = Unsent {
        ticket,
        letter,
        note,
    };
    put_into(place, Some(unsent));
}
