//! Supervisors' processes that wait until something comes for them.
ghost use Rattle.std.specs.Prelude.{◌≡◌, ◌<◌, ◌≤◌, ◌++◌, ◌∷◌, [], length, IfSome, MatchOption};
ghost use Rattle.otp_hand.specs.Deadlines.{earlier, least_due};
ghost use Rattle.otp_hand.specs.Waitings.{IsTaken};

use otp_job::Process;
use otp_signals::Signal;
use std::alloc::Global;
use std::marker::Model;

/// How many of them are looked at in each turn, one after the other.
const FEW: usize = 2;

/// For so many supervisors, those with the least numbers, is noted where each began to wait.
const NOTED: usize = 64;

/// A supervisor's process that waits, the signal that it knew of when it began to, and the least deadline of its children.
#[derive(Drop)]
pub struct Rested<J: Drop, S: Drop> {
    pub process: Process<J, S>,
    /// The number of its supervisor.
    pub table: usize,
    pub told: Signal,
    pub due: Option<u64>,
}

/// The processes of a hand whose supervisors were left nothing to do by their last turn: no letter, no deadline that has come, no
/// signal that is news. They take no turns until a letter or another signal has come, or the reading of the clock has come to a deadline.
#[derive(Drop)]
pub struct Resting<J: Drop, S: Drop> {
    list: Vec<Rested<J, S>>,
    // The place of the first that is looked at in the next turn.
    next: usize,
    // The supervisor to which the hand has just sent a letter.
    called: Option<usize>,
    // Where the supervisor with each number waits most likely: there is looked first.
    places: [u8; NOTED],
    // Whether another hand has nothing to do.
    is_wanted: bool,
}

impl<J: Drop, S: Drop> Model for Resting<J, S> {
    ghost use Rattle.std.specs.Prelude.{List};
    ghost use Rattle.otp_hand.specs.declared.waiting.resting.Rested.{Rested};

    ghost Value = { List (Rested J S) };

    ghost view = { λ r. r.list.items };
}

impl<J: Drop, S: Drop> Resting<J, S> {
    /// None waits.
    pub fn new(alloc: Global) -> Self
        ensures { result ≡ [] }
    {
        Resting {
            list: Vec::new(alloc),
            next: 0,
            called: None,
            places: [0; NOTED],
            is_wanted: false,
        }
    }

    /// How many wait.
    pub fn len(&self) -> usize
        ensures { result ≡ length self.now }
    {
        self.list.len()
    }

    /// Those that wait.
    pub fn as_slice(&self) -> &[Rested<J, S>]
        ensures { result.now ≡ self.now }
    {
        self.list.as_slice()
    }

    /// Lets one wait. It comes back where memory is refused.
    pub fn keep(&mut self, rested: Rested<J, S>) -> Option<Rested<J, S>>
        ensures { MatchOption result (self.new ≡ self.old ++ rested ∷ []) (λ back. (back ≡ rested) × (self.new ≡ self.old)) }
    {
        if self.list.reserve(1).is_err() {
            return Some(rested);
        }
        note_place(&mut self.places, rested.table, self.list.len());
        self.list.push_reserved(rested);
        None
    }

    /// Notes whether another hand has nothing to do.
    pub fn note_wanted(&mut self, is_wanted: bool)
        ensures { self.new ≡ self.old }
    {
        self.is_wanted = is_wanted;
    }

    /// Whether a supervisor that has nothing left to do is to go into the deque before it waits, since another hand may take it there.
    pub fn is_wanted(&self) -> bool {
        self.is_wanted
    }

    /// Takes out the one that began to wait last.
    pub fn pop(&mut self) -> Option<Rested<J, S>>
        ensures { MatchOption result (self.new ≡ self.old) (λ rested. self.old ≡ self.new ++ rested ∷ []) }
    {
        self.list.pop()
    }

    /// Takes out the one at this place, for which something has come. Those behind it are looked at next: so none is passed over because
    /// something has come for one before it, time and again.
    pub fn take_at(&mut self, place: usize) -> Rested<J, S>
        requires { place < length self.old }
        ensures { IsTaken result self.old self.new }
    {
        self.next = place.saturating_add(1);
        self.take_out(place)
    }

    /// Takes out the one at this place. The last takes its place.
    fn take_out(&mut self, place: usize) -> Rested<J, S>
        requires { place < length self.old }
        ensures { IsTaken result self.old self.new }
    {
        let rested = self.list.swap_remove(place);
        if place < self.list.len() {
            note_place(&mut self.places, self.list[place].table, place);
        }
        rested
    }

    /// Notes that a letter has just gone to the supervisor with this number: its process has the hand's next turn, if it
    /// waits here.
    pub fn call(&mut self, table: usize)
        ensures { self.new ≡ self.old }
    {
        self.called = Some(table);
    }

    /// Takes out the one to which a letter has just gone, if it waits here. It is told once.
    pub fn take_called(&mut self) -> Option<Rested<J, S>>
        ensures { MatchOption result (self.new ≡ self.old) (λ rested. IsTaken rested self.old self.new) }
    {
        let table = self.called.take()?;
        let place = find_noted(self.list.as_slice(), &self.places, table)?;
        Some(self.take_out(place))
    }

    /// The least of the deadlines for which they wait.
    pub fn next_due(&self) -> Option<u64>
        ensures { result ≡ least_due self.now }
    {
        least_due(self.list.as_slice())
    }

    /// The places that are looked at in this turn, from the first up to the second: a few, one after the other.
    pub fn next_places(&mut self) -> (usize, usize)
        ensures same { self.new ≡ self.old }
        ensures places { result.1 ≤ length self.old }
    {
        let len = self.list.len();
        let from = if self.next < len { self.next } else { 0 };
        let to = from.saturating_add(FEW).min(len);
        self.next = if to < len { to } else { 0 };
        (from, to)
    }
}

/// The least of their deadlines.
fn least_due<J: Drop, S: Drop>(resting: &[Rested<J, S>]) -> Option<u64>
    ensures { result ≡ least_due resting.now }
{
    let mut least = None;
    for rested in resting {
        least = earlier(least, rested.due);
    }
    least
}

/// The earlier of two deadlines.
fn earlier(one: Option<u64>, other: Option<u64>) -> Option<u64>
    ensures { result ≡ earlier one other }
{
    match (one, other) {
        (Some(one), Some(other)) => Some(one.min(other)),
        (Some(one), None) => Some(one),
        (None, other) => other,
    }
}

/// Notes that the process of the supervisor with this number stands at this place.
fn note_place(places: &mut [u8; NOTED], table: usize, place: usize) {
    if table < NOTED {
        places[table] = (place % 256) as u8;
    }
}

/// The place of the process of the supervisor with this number: where it was noted, if it stands there, and else what a walk finds.
fn find_noted<J: Drop, S: Drop>(
    resting: &[Rested<J, S>],
    places: &[u8; NOTED],
    table: usize,
) -> Option<usize>
    ensures { IfSome result (λ place. place < length resting.now) }
{
    if table < NOTED {
        let place = places[table] as usize;
        if place < resting.len() && resting[place].table == table {
            return Some(place);
        }
    }
    find_table(resting, table)
}

/// The place of the process of the supervisor with this number.
fn find_table<J: Drop, S: Drop>(resting: &[Rested<J, S>], table: usize) -> Option<usize>
    ensures { IfSome result (λ place. place < length resting.now) }
{
    for place in 0..resting.len() {
        if resting[place].table == table {
            return Some(place);
        }
    }
    None
}
