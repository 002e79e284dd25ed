//! What a hand runs processes with.
ghost use Rattle.std.specs.Prelude.{◌≡◌, ◌+◌, ◌<◌, ◌++◌, ◌∷◌, [], None, Some, is_some, option_copied, OnErr, OnOk, IfErr, IfSome, MatchOption, length};
ghost use Rattle.otp_bodies.specs.Ports.{launched, told};
ghost use Rattle.otp_bodies.specs.Letters.{Comes, carries_body, is_end_note};
ghost use Rattle.otp_rules.specs.declared.event.Item.TheVariants as item;
ghost use Rattle.otp_hand.specs.Begun.{NoneBegan};
ghost use Rattle.otp_hand.specs.Ended.{NoneEnded, ends_held};
ghost use Rattle.otp_hand.specs.Hands.{one_if};
ghost use Rattle.otp_hand.specs.Turns.{IsTold, Rests, WorkedAsTold, nested_by, table_above, table_nested};

use crate::places::put_into;
use crate::waiting::{Around, Rested, Resting, Waiting};
use otp_job::bridge::Subsystem;
use otp_job::{After, Body, EndNote, Job, Process, Spent, TableNo, Ticket, one_turn_at};
use otp_reason::Note;
use otp_rules::SupEnd;
use otp_run::{RunNaming, SHARE_LIMIT, Scheduler};
use otp_signals::{Signal, Viewer, Words, WordsNaming};
use otp_sup::{Letter, NewProcess, Port, Sup, evidence_of};
use otp_tally::Tally;
use std::alloc::Global;
use std::marker::Model;

/// A letter that was not sent yet, of the process with this ticket, to whose supervisor it goes, and the note that it brings.
#[derive(Drop)]
pub struct Unsent<J: Drop, S: Drop> {
    pub ticket: Ticket,
    pub letter: Letter<Body<J, S>>,
    pub note: Note,
}

/// What a hand runs processes with: a scheduler, and a viewer of the signals. Supervisors give their orders to it.
///
/// It has out the process whose turn it is; where that can't be given back for want of memory it stays here and comes
/// first. So does a note that was refused. Out are also those of its processes that wait: jobs until they are told something
/// or woken ([`Turn::Wait`](otp_job::Turn::Wait)), and supervisors with nothing left to do until something comes for them. They
/// take no turns, and no other hand gets them.
#[derive(Drop)]
pub struct Runner<N: WordsNaming + RunNaming, J: Drop, S: Drop> {
    pub scheduler: Scheduler<N, J, S>,
    pub viewer: Viewer<N>,
    pub turning: Option<Process<J, S>>,
    pub waiting: Waiting<J, S>,
    pub resting: Resting<J, S>,
    pub unsent: Option<Unsent<J, S>>,
    pub refusals: Tally,
    pub around: Around,
    pub alloc: Global,
}

impl<N: WordsNaming + RunNaming, J: Drop, S: Drop> Model for Runner<N, J, S> {
    ghost use Rattle.std.specs.Prelude.{◌≡◌, ◌+◌, is_some, length};
    ghost use Rattle.otp_run.specs.Schedulers.{out};
    ghost use Rattle.otp_hand.specs.Hands.{RunnerView, one_if};

    ghost Value = { RunnerView J S };

    ghost view = { λ r. record { scheduler = r.scheduler; turning = r.turning; waiting = r.waiting; resting = r.resting; unsent = r.unsent; refusals = r.refusals.count; looks = r.viewer } };

    ghost invariant = { λ r. out r.scheduler ≡ one_if (is_some r.turning) + length r.waiting + length r.resting };
}

impl<N: WordsNaming + RunNaming, J: Drop, S: Drop> Port<Body<J, S>> for Runner<N, J, S> {
    ghost use Rattle.std.specs.Prelude.{map};
    ghost use Rattle.otp_hand.specs.Ended.{beside_of};
    ghost use Rattle.otp_hand.specs.Hands.{launched_of, notes_by};

    ghost processes = { λ r. map launched_of r.scheduler.own.puts };

    ghost notes = { λ r. notes_by r };

    ghost refusals = { λ r. r.refusals };

    ghost beside = { λ r. beside_of r };

    fn put(&mut self, process: NewProcess<Body<J, S>>) -> Result<(), NewProcess<Body<J, S>>>
        ensures took { OnOk result (map launched_of self.new.scheduler.own.puts ≡ map launched_of self.old.scheduler.own.puts ++ launched process.number process.slot process.id process.again (is_some process.body) ∷ []) }
        ensures kept { OnErr result (map launched_of self.new.scheduler.own.puts ≡ map launched_of self.old.scheduler.own.puts) }
        ensures refused { OnErr result (self.old.refusals < self.new.refusals) }
        ensures counted { OnOk result (self.new.refusals ≡ self.old.refusals) }
        ensures back { IfErr result (λ back. back ≡ process) }
        ensures notes { notes_by self.new ≡ notes_by self.old }
        ensures beside { beside_of self.new ≡ beside_of self.old }
        // The process belongs to the supervisor whose turn it is.
        ensures table { OnOk result (self.new.scheduler.own.puts ≡ self.old.scheduler.own.puts ++ record { number = process.number; slot = process.slot; table = table_nested self.old.turning; id = process.id; again = process.again } ∷ []) }
    {
        let NewProcess {
            number,
            slot,
            id,
            again,
            body,
        } = process;
        let Some(body) = body else {
            self.refusals.raise();
            return Err(NewProcess {
                number,
                slot,
                id,
                again,
                body: None,
            });
        };
        let table = nested_in(&self.turning);
        let ticket = Ticket {
            number,
            slot,
            table,
            id,
            again,
        };
        let body = match Process::of(self.alloc, ticket, body) {
            Ok(process) => match self.scheduler.put(process) {
                Ok(()) => {
                    self.around.gained();
                    return Ok(());
                }
                Err(process) => process.into_body(),
            },
            Err(body) => Some(body),
        };
        self.refusals.raise();
        Err(NewProcess {
            number,
            slot,
            id,
            again,
            body,
        })
    }

    fn send(&mut self, note: Note, end: Option<&SupEnd>) -> Result<(), Note>
        requires comes { Comes (item.Note note) (option_copied end) }
        requires whole { is_some (option_copied end) ≡ is_end_note note }
        ensures took { OnOk result (notes_by self.new ≡ notes_by self.old ++ told note (option_copied end.entry) ∷ []) }
        ensures kept { OnErr result (notes_by self.new ≡ notes_by self.old) }
        ensures refused { OnErr result (self.old.refusals < self.new.refusals) }
        ensures counted { OnOk result (self.new.refusals ≡ self.old.refusals) }
        ensures processes { map launched_of self.new.scheduler.own.puts ≡ map launched_of self.old.scheduler.own.puts }
        ensures beside { beside_of self.new ≡ beside_of self.old }
        // The letter is for the supervisor to which the process belongs whose turn it is.
        ensures table { OnOk result (IfSome self.new.unsent (λ u. u.ticket.table ≡ table_above self.old.turning)) }
    {
        if self.unsent.is_none() {
            if let Some(unsent) = self.letter_of(note, end) {
                put_into(&mut self.unsent, Some(unsent));
                return Ok(());
            }
        }
        self.refusals.raise();
        Err(note)
    }

    /// A signal wakes the process for which it was posted, as a waker does.
    fn posted(&self, slot: usize) {
        self.around.wake(slot);
    }
}

/// The number of the supervisor that runs in the process that is out: its children's notes go to it.
fn nested_in<J: Drop, S: Drop>(turning: &Option<Process<J, S>>) -> usize
    ensures { result ≡ table_nested turning.now }
{
    let Some(process) = turning else {
        return usize::MAX;
    };
    match process.nested_table() {
        Some(table) => table,
        None => usize::MAX,
    }
}

/// The number of the supervisor that ran in a process, and what is left of the process: it has ended. A process in which no
/// supervisor runs comes back.
fn end_nested<J: Drop, S: Drop>(
    mut process: Process<J, S>,
) -> Result<(TableNo, Spent), Process<J, S>>
    ensures { IfErr result (λ back. back ≡ process) }
{
    let Some(table) = process.take_table() else {
        return Err(process);
    };
    match process.retire() {
        Ok(spent) => Ok((table, spent)),
        Err(_) => unreachable!(),
    }
}

impl<N: WordsNaming + RunNaming, J: Drop, S: Drop> Runner<N, J, S> {
    /// The letter that tells the parent of the supervisor whose turn it is of its start, or its end with what shows it. With
    /// its end its number goes home, and its process ends. None, and nothing changes, where it has gone already, or where
    /// memory is refused.
    fn letter_of(&mut self, note: Note, end: Option<&SupEnd>) -> Option<Unsent<J, S>>
        requires comes { Comes (item.Note note) (option_copied end) }
        requires whole { is_some (option_copied end) ≡ is_end_note note }
        ensures item { IfSome result (λ u. u.letter.item ≡ item.Note note) }
        // It goes to the supervisor to which the process belongs.
        ensures table { IfSome result (λ u. u.ticket.table ≡ table_above self.old.turning) }
        ensures end { IfSome result (λ u. u.letter.end ≡ option_copied end.entry) }
        // Where it brings the supervisor's number home it has its end, and else it has none.
        ensures home { IfSome result (λ u. is_some u.letter.end ≡ is_some u.letter.body) }
        ensures unsent { self.new.unsent ≡ self.old.unsent }
        ensures refusals { self.new.refusals ≡ self.old.refusals }
        ensures puts { self.new.scheduler.own ≡ self.old.scheduler.own }
        ensures count { self.new.scheduler.count ≡ self.old.scheduler.count }
        ensures begun { self.new.scheduler.begun ≡ self.old.scheduler.begun }
        ensures ended { self.new.scheduler.ended ≡ self.old.scheduler.ended + ends_held result }
    {
        let process = self.turning.take()?;
        let ticket = process.ticket();
        let Ok(end) = evidence_of(self.alloc, note, end) else {
            put_into(&mut self.turning, Some(process));
            return None;
        };
        if let Note::Up(_) = note {
            put_into(&mut self.turning, Some(process));
            let letter = Letter::with_end(note, None, end);
            return Some(Unsent {
                ticket,
                letter,
                note,
            });
        }
        if self.scheduler.share().ended >= SHARE_LIMIT {
            put_into(&mut self.turning, Some(process));
            return None;
        }
        match end_nested(process) {
            Ok((number, remains)) => {
                self.scheduler.finish(remains);
                let letter = Letter::with_end(note, Some(Body::Sup(number)), end);
                let unsent = Unsent {
                    ticket,
                    letter,
                    note,
                };
                Some(unsent)
            }
            Err(process) => {
                put_into(&mut self.turning, Some(process));
                None
            }
        }
    }
}

impl<N: WordsNaming + RunNaming, J: Drop, S: Drop> Runner<N, J, S> {
    /// Gives its turn to the supervisor's process that waits at this place, if there is one.
    pub fn wake(&mut self, place: Option<usize>)
        requires free { self.old.turning ≡ None }
        requires there { IfSome place (λ place. place < length self.old.resting) }
        ensures unsent { self.new.unsent ≡ self.old.unsent }
        ensures begun { NoneBegan self.old.scheduler self.new.scheduler }
        ensures ended { NoneEnded self.old.scheduler self.new.scheduler }
    {
        let Some(place) = place else {
            return;
        };
        let rested = self.resting.take_at(place);
        put_into(&mut self.turning, Some(rested.process));
    }

    /// Gives its turn to the supervisor to which a letter has just gone, if that waits here.
    pub fn wake_called(&mut self)
        requires { self.old.turning ≡ None }
        ensures unsent { self.new.unsent ≡ self.old.unsent }
        ensures begun { NoneBegan self.old.scheduler self.new.scheduler }
        ensures ended { NoneEnded self.old.scheduler self.new.scheduler }
    {
        if let Some(called) = self.resting.take_called() {
            put_into(&mut self.turning, Some(called.process));
        }
    }

    /// Gives its turn to a job that waits, or stands aside, and was told something, if it is one of those that are looked at now. In a
    /// crowd the first goes into the deque, where other hands find it, and it is the next one's turn.
    pub fn wake_told(&mut self, words: &Words<N>)
        requires { self.old.turning ≡ None }
        ensures unsent { self.new.unsent ≡ self.old.unsent }
        ensures begun { NoneBegan self.old.scheduler self.new.scheduler }
        ensures ended { NoneEnded self.old.scheduler self.new.scheduler }
    {
        self.take_told(words);
        if self.around.is_crowd() {
            self.offer();
            if self.turning.is_none() {
                self.take_told(words);
            }
        }
    }

    /// Puts the process that it has out, if there is one, into its deque. Where it can't be put, it stays.
    fn offer(&mut self)
        ensures unsent { self.new.unsent ≡ self.old.unsent }
        ensures begun { NoneBegan self.old.scheduler self.new.scheduler }
        ensures ended { NoneEnded self.old.scheduler self.new.scheduler }
    {
        let Some(process) = self.turning.take() else {
            return;
        };
        match self.scheduler.give_back(process) {
            Ok(()) => self.around.gained(),
            Err(process) => put_into(&mut self.turning, Some(process)),
        }
    }

    /// Gives its turn to a job that waits, or stands aside, and was told something, if it is one of those that are looked at now.
    fn take_told(&mut self, words: &Words<N>)
        requires { self.old.turning ≡ None }
        ensures unsent { self.new.unsent ≡ self.old.unsent }
        ensures begun { NoneBegan self.old.scheduler self.new.scheduler }
        ensures ended { NoneEnded self.old.scheduler self.new.scheduler }
    {
        let told = self
            .waiting
            .take_told(words, &mut self.viewer, &self.around);
        put_into(&mut self.turning, told);
        if self.turning.is_none() {
            let told = self
                .waiting
                .take_told_aside(words, &mut self.viewer, &self.around);
            put_into(&mut self.turning, told);
        }
    }

    /// Gives its turn to the next process, if there is one: of its own deque, of those that stand aside, or else of the other deques, but
    /// for a while after those had none.
    pub fn take_next(&mut self)
        requires { self.old.turning ≡ None }
        ensures unsent { self.new.unsent ≡ self.old.unsent }
        ensures begun { NoneBegan self.old.scheduler self.new.scheduler }
        ensures ended { NoneEnded self.old.scheduler self.new.scheduler }
    {
        if self.waiting.has_aside() {
            self.take_own();
            return;
        }
        let tries_others = self.around.tries_others();
        let next = if tries_others {
            self.scheduler.next()
        } else {
            self.scheduler.next_own()
        };
        put_into(&mut self.turning, next);
        let has_found = self.turning.is_some();
        self.around.tried_own(has_found);
        if has_found {
            return;
        }
        if tries_others {
            self.around.tried_in_vain();
        } else {
            self.around.spared_others();
        }
    }

    /// Gives its turn to the first process of its own deque, or else to the next that stands aside.
    pub fn take_own(&mut self)
        requires { self.old.turning ≡ None }
        ensures unsent { self.new.unsent ≡ self.old.unsent }
        ensures begun { NoneBegan self.old.scheduler self.new.scheduler }
        ensures ended { NoneEnded self.old.scheduler self.new.scheduler }
    {
        let next = self.scheduler.next_own();
        put_into(&mut self.turning, next);
        let has_found = self.turning.is_some();
        self.around.tried_own(has_found);
        if !has_found {
            let aside = self.waiting.take_aside();
            put_into(&mut self.turning, aside);
        }
    }

    /// Lets the supervisor's process that it has out wait, until there is a letter or another signal than this one, or the reading
    /// of the clock has come to this deadline. Where memory is refused it goes on.
    pub fn rest(&mut self, table: usize, told: Signal, due: Option<u64>)
        // What it waits for is kept with it.
        ensures rests { IfSome self.old.turning (λ p. Rests (record { process = p; table = table; told = told; due = due }) self.old self.new) }
        ensures scheduler { self.new.scheduler ≡ self.old.scheduler }
        ensures refusals { self.new.refusals ≡ self.old.refusals }
        ensures unsent { self.new.unsent ≡ self.old.unsent }
        ensures begun { NoneBegan self.old.scheduler self.new.scheduler }
        ensures ended { NoneEnded self.old.scheduler self.new.scheduler }
    {
        let Some(process) = self.turning.take() else {
            return;
        };
        // Whoever posts a signal for it from now on finds this hand. One that was posted in its turn is found by this hand's look.
        let _unwoken = self
            .around
            .begins_to_wait(process.slot(), self.scheduler.index());
        let rested = Rested {
            process,
            table,
            told,
            due,
        };
        let unkept = keep_resting(&mut self.resting, rested);
        put_into(&mut self.turning, unkept);
    }

    /// Puts the process that it has out back into its deque, or aside where that has enough of them; a supervisor's never stands
    /// aside. Where it can't be put, it stays.
    pub fn hand_back(&mut self)
        ensures unsent { self.new.unsent ≡ self.old.unsent }
        ensures begun { NoneBegan self.old.scheduler self.new.scheduler }
        ensures ended { NoneEnded self.old.scheduler self.new.scheduler }
    {
        let Some(process) = self.turning.take() else {
            return;
        };
        let has_enough = self.waiting.has_aside() || self.around.has_enough();
        if has_enough && process.nested_table().is_none() {
            let back = self.waiting.set_aside(process);
            put_into(&mut self.turning, back);
            self.bring_back();
            return;
        }
        match self.scheduler.give_back(process) {
            Ok(()) => self.around.gained(),
            Err(process) => put_into(&mut self.turning, Some(process)),
        }
    }

    /// Puts one of those that stand aside back into the deque, if one is to come back.
    fn bring_back(&mut self)
        ensures unsent { self.new.unsent ≡ self.old.unsent }
        ensures begun { NoneBegan self.old.scheduler self.new.scheduler }
        ensures ended { NoneEnded self.old.scheduler self.new.scheduler }
    {
        if self.turning.is_some() || !self.around.is_to_come_back() {
            return;
        }
        if let Some(aside) = self.waiting.take_aside() {
            put_into(&mut self.turning, Some(aside));
            self.offer();
        }
    }

    /// Gives the processes that wait back to the run queue, as far as there is memory.
    pub fn rouse(&mut self)
        ensures unsent { self.new.unsent ≡ self.old.unsent }
        ensures begun { NoneBegan self.old.scheduler self.new.scheduler }
        ensures ended { NoneEnded self.old.scheduler self.new.scheduler }
    {
        for _ in 0..self.waiting.len() {
            self.rouse_one();
        }
        for _ in 0..self.resting.len() {
            self.rouse_supervisor();
        }
    }

    /// Gives back one of its supervisors, if one waits.
    fn rouse_supervisor(&mut self)
        ensures unsent { self.new.unsent ≡ self.old.unsent }
        ensures begun { NoneBegan self.old.scheduler self.new.scheduler }
        ensures ended { NoneEnded self.old.scheduler self.new.scheduler }
    {
        if self.turning.is_some() {
            return;
        }
        let Some(rested) = self.resting.pop() else {
            return;
        };
        if let Err(process) = self.scheduler.give_back(rested.process) {
            put_into(&mut self.turning, Some(process));
        }
    }

    /// Gives one back, if one waits. Where memory is refused it has the hand's next turn, and no other is given back before.
    fn rouse_one(&mut self)
        ensures unsent { self.new.unsent ≡ self.old.unsent }
        ensures begun { NoneBegan self.old.scheduler self.new.scheduler }
        ensures ended { NoneEnded self.old.scheduler self.new.scheduler }
    {
        if self.turning.is_some() {
            return;
        }
        let Some(process) = self.waiting.pop() else {
            return;
        };
        if let Err(process) = self.scheduler.give_back(process) {
            put_into(&mut self.turning, Some(process));
        }
    }

    /// The next search looks at all that wait.
    pub fn look_at_all(&mut self)
        ensures turning { self.new.turning ≡ self.old.turning }
        ensures unsent { self.new.unsent ≡ self.old.unsent }
        ensures begun { NoneBegan self.old.scheduler self.new.scheduler }
        ensures ended { NoneEnded self.old.scheduler self.new.scheduler }
    {
        self.waiting.look_at_all();
    }

    /// The number of the supervisor to which the process that it has out belongs.
    pub fn parent(&self) -> usize
        ensures { result ≡ table_above self.now.turning }
    {
        match &self.turning {
            Some(process) => process.table(),
            None => usize::MAX,
        }
    }

    /// The supervisor that runs in the process that it has out, and that process's number.
    pub fn nested(&self) -> Option<(usize, u64)>
        ensures { result ≡ nested_by self.now.turning }
    {
        let process = self.turning.as_ref()?;
        let table = process.nested_table()?;
        Some((table, process.number()))
    }

    /// What the process that it has out is told by its supervisor: what the word of its slot says for its number.
    pub fn look(&mut self, words: &Words<N>) -> Signal
        ensures told { IfSome self.old.turning (λ p. IsTold words.now p.ticket result self.old.looks self.new.looks) }
        ensures same { self.new ≡ record self.old { looks = self.new.looks } }
        ensures turning { self.new.turning ≡ self.old.turning }
        ensures unsent { self.new.unsent ≡ self.old.unsent }
        ensures begun { NoneBegan self.old.scheduler self.new.scheduler }
        ensures ended { NoneEnded self.old.scheduler self.new.scheduler }
    {
        let Some(process) = &self.turning else {
            return Signal::None;
        };
        let (slot, number) = (process.slot(), process.number());
        if slot >= words.slots() {
            return Signal::None;
        }
        words.look(&mut self.viewer, slot, number)
    }
}

impl<N: WordsNaming + RunNaming, J: Job, S: Subsystem> Runner<N, J, S> {
    /// A turn of the worker or the bridge that it has out ([`one_turn_at`]), at this reading of the clock. It is told what its
    /// supervisor has posted for it. The letter in which it tells its supervisor something comes out, if there is one.
    pub fn work_as_told(&mut self, words: &Words<N>, reading: u64) -> Option<Unsent<J, S>>
        requires { self.old.unsent ≡ None }
        ensures begun { NoneBegan self.old.scheduler self.new.scheduler }
        // It ended exactly where its end note is to be sent.
        ensures ended { self.new.scheduler.ended ≡ self.old.scheduler.ended + ends_held result }
        ensures unsent { self.new.unsent ≡ None }
        // With what is to be sent now.
        ensures turn { IfSome self.old.turning (λ p. WorkedAsTold J.started S.inited J.is_trapping J.turned S.polled S.terminated words.now reading p self.old (record self.new { unsent = result })) }
    {
        let told = self.look(words);
        let process = self.turning.take()?;
        if !process.is_runnable() || self.scheduler.share().ended >= SHARE_LIMIT {
            put_into(&mut self.turning, Some(process));
            return None;
        }
        let ticket = process.ticket();
        // The turn that it has now is the one for which it was woken, if it was.
        if let Some(post) = &self.around.post {
            post.take(ticket.slot);
        }
        let after = one_turn_at(process, told, &self.around.site(reading));
        match after {
            After::Again(process) => {
                put_into(&mut self.turning, Some(process));
                None
            }
            After::Waits(process) => {
                let hand = self.scheduler.index();
                let back = keep_waiting(&mut self.waiting, &self.around, hand, process);
                put_into(&mut self.turning, back);
                None
            }
            After::Begun(process, note) => {
                put_into(&mut self.turning, Some(process));
                Some(unsent_to(ticket, note, None))
            }
            After::Done(end, spent) => {
                self.scheduler.finish(spent);
                let EndNote { note, body } = end;
                Some(unsent_to(ticket, note, Some(body)))
            }
        }
    }
}

/// Lets a job's process wait. It comes back where the job was woken meanwhile, or memory is refused.
fn keep_waiting<J: Drop, S: Drop>(
    waiting: &mut Waiting<J, S>,
    around: &Around,
    hand: usize,
    process: Process<J, S>,
) -> Option<Process<J, S>>
    ensures { MatchOption result (waiting.new ≡ waiting.old ++ process ∷ []) (λ back. (back ≡ process) × (waiting.new ≡ waiting.old)) }
{
    if around.begins_to_wait(process.slot(), hand) {
        waiting.keep(process)
    } else {
        Some(process)
    }
}

/// Lets a supervisor's process wait. It comes back where memory is refused.
fn keep_resting<J: Drop, S: Drop>(
    resting: &mut Resting<J, S>,
    rested: Rested<J, S>,
) -> Option<Process<J, S>>
    ensures { MatchOption result (resting.new ≡ resting.old ++ rested ∷ []) (λ back. (back ≡ rested.process) × (resting.new ≡ resting.old)) }
{
    match resting.keep(rested) {
        Some(back) => Some(back.process),
        None => None,
    }
}

/// The letter by which a process tells its supervisor this note. That of its end brings the body home.
fn unsent_to<J: Drop, S: Drop>(ticket: Ticket, note: Note, body: Option<Body<J, S>>) -> Unsent<J, S>
    requires { carries_body (item.Note note) ≡ is_some body }
    ensures letter { result ≡ record { ticket = ticket; letter = record { item = item.Note note; body = body; end = None }; note = note } }
    ensures ends { ends_held (Some result) ≡ one_if (is_some body) }
{
    let letter = Letter::note(note, body);
    Unsent {
        ticket,
        letter,
        note,
    }
}
