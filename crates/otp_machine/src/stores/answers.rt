//! The answers to calls, kept. A list of children that says the same as the one told last is not kept again, so that a
//! supervisor that is asked for its children again and again, while nothing happens to them, keeps one list.

ghost use Rattle.std.specs.Prelude.{◌≡◌, ◌+◌, ◌<◌, ◌≤◌, ◌++◌, ◌∷◌, ◌↔◌, ℕ, [], All, AllPairs, List, None, Some, get_or, length, map, nat_le, IsTrue, IsFalse, MatchOption, OnOk, IfSome, vec_len, vec_capacity};
ghost use Rattle.otp_rules.specs.declared.call.Reply.{Reply};
ghost use Rattle.otp_rules.specs.declared.call.Reply.TheVariants as reply;
ghost use Rattle.otp_rules.specs.Counts.{lines_in, lines_told, which_of};
ghost use Rattle.otp_rules.specs.Run.{reply_of};
ghost use Rattle.otp_rules.specs.Cuts.{greater_of, greatest_call};
ghost use Rattle.otp_machine.specs.declared.stores.answers.StoredAnswer.{StoredAnswer};
ghost use Rattle.otp_machine.specs.AnswersInside.{answer_in, list_at};
ghost use Rattle.otp_machine.specs.Kept.{list_after};

use crate::decisions::counts::are_lines;
use otp_rules::Reply;
use otp_table::Row;
use std::alloc::{AllocError, Global};
use std::marker::Model;

/// An answer: the call's number, and the place of the reply.
#[derive(Clone, Copy, Debug)]
pub struct StoredAnswer {
    pub call: u64,
    pub place: usize,
}

/// The answers given, in their order.
#[derive(Drop)]
pub struct Answers {
    told: Vec<StoredAnswer>,
    replies: Vec<Reply>,
    /// Where the last list of children stands, if one was told.
    children: usize,
    /// Whether each call's number is above those answered before it: then an answer is found without a walk.
    is_rising: bool,
    /// How many lines all lists of children have that were told, or 2^64 - 1 where they have more.
    lines: usize,
    /// How many more answers the memory is known to hold.
    room: usize,
}

impl Model for Answers {
    ghost use Rattle.otp_machine.specs.Kept.{Kept};

    ghost Value = { Kept };

    ghost use Rattle.otp_machine.specs.AnswersInside.{kept_of, IsKept};

    ghost view = { kept_of };

    ghost invariant = { IsKept };
}

impl Answers {
    /// No answers, and no room: takes no memory.
    pub fn new(alloc: Global) -> Self
        ensures answers { result.answers ≡ [] }
        ensures list { result.last_list ≡ None }
    {
        Answers {
            told: Vec::new(alloc),
            replies: Vec::new(alloc),
            children: 0,
            is_rising: true,
            lines: 0,
            room: 0,
        }
    }

    /// Takes the memory of the next `n` answers. Where the lists have grown there is room for more.
    pub fn reserve(&mut self, n: usize) -> Result<(), AllocError>
        ensures answers { self.new.answers ≡ self.old.answers }
        ensures list { self.new.last_list ≡ self.old.last_list }
        ensures ok { OnOk result (n ≤ self.new.room) }
    {
        self.told.reserve(n)?;
        self.replies.reserve(n)?;
        let told = self.told.capacity() - self.told.len();
        let replies = self.replies.capacity() - self.replies.len();
        self.room = told.min(replies);
        Ok(())
    }

    /// How many more answers the memory is known to hold.
    pub fn room(&self) -> usize
        ensures { result ≡ self.now.room }
    {
        self.room
    }

    /// For how many more answers there is memory: at least for those that were reserved.
    pub fn spare(&self) -> usize
        ensures { self.now.room ≤ result }
    {
        let told = self.told.capacity() - self.told.len();
        let replies = self.replies.capacity() - self.replies.len();
        told.max(replies)
    }

    /// Adds an answer.
    pub fn push(&mut self, call: u64, reply: Reply)
        requires { 0 < self.old.room }
        ensures answers { self.new.answers ≡ self.old.answers ++ record { call = call; reply = reply } ∷ [] }
        ensures list { self.new.last_list ≡ list_after reply self.old.last_list }
        ensures room { self.new.room + 1 ≡ self.old.room }
    {
        let place = self.replies.as_slice().len();
        self.lines = self.lines.saturating_add(lines_in(&reply));
        self.children = place_of_list(&self.replies, &reply, self.children);
        self.replies.push_reserved(reply);
        self.is_rising = add_told(&mut self.told, self.is_rising, call, place);
        self.room -= 1;
    }

    /// Adds the list of these children as an answer, if it is the list that was told last; else nothing changes.
    pub fn push_again(&mut self, call: u64, rows: &[Row]) -> bool
        requires { 0 < self.old.room }
        ensures same { IsTrue result ↔ (self.old.last_list ≡ Some (which_of rows.now)) }
        ensures answers { IsTrue result → self.new.answers ≡ self.old.answers ++ record { call = call; reply = reply.Which (which_of rows.now) } ∷ [] }
        ensures list { self.new.last_list ≡ self.old.last_list }
        ensures room { IsTrue result → self.new.room + 1 ≡ self.old.room }
        ensures other { IsFalse result → self.new ≡ self.old }
    {
        let place = self.children;
        if !tells(&self.replies, place, rows) {
            return false;
        }
        self.is_rising = add_told(&mut self.told, self.is_rising, call, place);
        self.lines = self.lines.saturating_add(rows.len());
        self.room -= 1;
        true
    }

    /// Forgets all answers; their memory is kept for others.
    pub fn clear(&mut self)
        ensures { self.new ≡ record { answers = []; last_list = None; room = self.old.room } }
    {
        self.told.clear();
        self.replies.clear();
        self.children = 0;
        self.is_rising = true;
        self.lines = 0;
    }

    /// Whether the lists of children that were told have this many lines: a list that was told again counts again, though it
    /// is kept once.
    pub fn has_lines(&self, limit: usize) -> bool
        ensures { result ≡ nat_le limit (lines_told self.now.answers) }
    {
        limit <= self.lines
    }

    /// The greatest number of a call that was answered.
    pub fn greatest(&self) -> Option<u64>
        ensures { result ≡ greatest_call self.now.answers }
    {
        greatest_told(&self.told)
    }

    /// The last answer to this call. Where calls were answered in the order of their numbers, no walk is made.
    pub fn find(&self, call: u64) -> Option<&Reply>
        ensures { MatchOption result (reply_of call self.now.answers ≡ None) (λ r. reply_of call self.now.answers ≡ Some r.now) }
    {
        match find_told(&self.told, self.is_rising, call) {
            None => None,
            Some(place) => Some(reply_at(&self.replies, place)),
        }
    }
}

fn reply_at(replies: &[Reply], place: usize) -> &Reply
    requires { place < length replies.now }
    ensures { result.now ≡ get_or replies.now place reply.Ok }
{
    &replies[place]
}

/// Where the last list of children stands once this reply is added to these.
fn place_of_list(replies: &[Reply], reply: &Reply, last: usize) -> usize
    ensures { list_at (replies.now ++ reply.now ∷ []) result ≡ list_after reply.now (list_at replies.now last) }
{
    match reply {
        Reply::Which(_) => replies.len(),
        _ => last,
    }
}

/// Whether the reply at the place is the list of these children.
fn tells(replies: &[Reply], place: usize, rows: &[Row]) -> bool
    ensures inside { IsTrue result → place < length replies.now }
    ensures reply { IsTrue result → get_or replies.now place reply.Ok ≡ reply.Which (which_of rows.now) }
    ensures list { IsTrue result ↔ (list_at replies.now place ≡ Some (which_of rows.now)) }
{
    if place >= replies.len() {
        return false;
    }
    is_list(&replies[place], rows)
}

/// Whether the reply is the list of these children.
fn is_list(told: &Reply, rows: &[Row]) -> bool
    ensures { IsTrue result ↔ (told.now ≡ reply.Which (which_of rows.now)) }
{
    match told {
        Reply::Which(lines) => are_lines(lines.as_slice(), rows),
        _ => false,
    }
}

/// Adds an answer to a list with room. Whether the numbers of all calls rise, if those before did so.
fn add_told(told: &mut Vec<StoredAnswer>, is_rising: bool, call: u64, place: usize) -> bool
    requires room { vec_len told.old < vec_capacity told.old }
    requires rising { IsTrue is_rising → AllPairs (λ one later. one.call < later.call) told.old.items }
    ensures items { told.new.items ≡ told.old.items ++ record { call = call; place = place } ∷ [] }
    ensures len { vec_len told.new ≡ vec_len told.old + 1 }
    ensures capacity { vec_capacity told.new ≡ vec_capacity told.old }
    ensures rising { IsTrue result → AllPairs (λ one later. one.call < later.call) told.new.items }
{
    let rises = is_rising && is_above(told, call);
    told.push_reserved(StoredAnswer { call, place });
    rises
}

/// Whether the number is above those of these calls, which rise.
fn is_above(told: &[StoredAnswer], call: u64) -> bool
    requires { AllPairs (λ one later. one.call < later.call) told.now }
    ensures { IsTrue result → (k : ℕ) (d : StoredAnswer) → k < length told.now → (get_or told.now k d).call < call }
{
    told.is_empty() || told[told.len() - 1].call < call
}

/// How many lines the answer has, where it is a list of children.
fn lines_in(reply: &Reply) -> usize
    ensures { result ≡ lines_in reply.now }
{
    match reply {
        Reply::Which(lines) => lines.as_slice().len(),
        _ => 0,
    }
}

/// The greater of two numbers, where there are two.
pub fn greater_of(one: Option<u64>, other: Option<u64>) -> Option<u64>
    ensures { result ≡ greater_of one other }
{
    match (one, other) {
        (None, _) => other,
        (Some(_), None) => one,
        (Some(one), Some(other)) => Some(one.max(other)),
    }
}

/// The greatest number of these calls.
fn greatest_told(told: &[StoredAnswer]) -> Option<u64>
    ensures { (replies : List Reply) → result ≡ greatest_call (map (answer_in replies) told.now) }
{
    let mut greatest = None;
    for answer in told {
        greatest = greater_of(greatest, Some(answer.call));
    }
    greatest
}

/// Where the reply of the last answer to this call stands.
fn find_told(told: &[StoredAnswer], is_rising: bool, call: u64) -> Option<usize>
    requires { IsTrue is_rising → AllPairs (λ one later. one.call < later.call) told.now }
    ensures none { result ≡ None → (replies : List Reply) → reply_of call (map (answer_in replies) told.now) ≡ None }
    ensures some { IfSome result (λ place. (replies : List Reply) → reply_of call (map (answer_in replies) told.now) ≡ Some (get_or replies place reply.Ok)) }
    ensures inside { IfSome result (λ place. (n : ℕ) → All (λ t. t.place < n) told.now → place < n) }
{
    // The answer that was given last is the one that is mostly asked for.
    if is_rising && !is_last(told, call) {
        find_rising(told, call)
    } else {
        find_last(told, call)
    }
}

/// Whether this call was answered last.
fn is_last(told: &[StoredAnswer], call: u64) -> bool {
    !told.is_empty() && told[told.len() - 1].call == call
}

/// Where the reply of the answer to this call stands, where the calls' numbers rise: found by halving.
fn find_rising(told: &[StoredAnswer], call: u64) -> Option<usize>
    requires { AllPairs (λ one later. one.call < later.call) told.now }
    ensures none { result ≡ None → (replies : List Reply) → reply_of call (map (answer_in replies) told.now) ≡ None }
    ensures some { IfSome result (λ place. (replies : List Reply) → reply_of call (map (answer_in replies) told.now) ≡ Some (get_or replies place reply.Ok)) }
    ensures inside { IfSome result (λ place. (n : ℕ) → All (λ t. t.place < n) told.now → place < n) }
{
    let first = first_from(told, call);
    if first < told.len() && told[first].call == call {
        Some(told[first].place)
    } else {
        None
    }
}

/// The first place from which on the calls' numbers, which rise, are this one or above it.
fn first_from(told: &[StoredAnswer], call: u64) -> usize
    requires { AllPairs (λ one later. one.call < later.call) told.now }
    ensures inside { result ≤ length told.now }
    ensures before { (k : ℕ) (d : StoredAnswer) → k < result → (get_or told.now k d).call < call }
    ensures after { (k : ℕ) (d : StoredAnswer) → result ≤ k → k < length told.now → call ≤ (get_or told.now k d).call }
{
    told.partition_point(|answer| answer.call < call)
}

/// Where the reply of the last answer to this call stands, found by a walk from the end, where a fresh answer is.
fn find_last(told: &[StoredAnswer], call: u64) -> Option<usize>
    ensures none { result ≡ None → (replies : List Reply) → reply_of call (map (answer_in replies) told.now) ≡ None }
    ensures some { IfSome result (λ place. (replies : List Reply) → reply_of call (map (answer_in replies) told.now) ≡ Some (get_or replies place reply.Ok)) }
    ensures inside { IfSome result (λ place. (n : ℕ) → All (λ t. t.place < n) told.now → place < n) }
{
    let mut place = told.len();
    while place > 0 {
        place -= 1;
        if told[place].call == call {
            return Some(told[place].place);
        }
    }
    None
}
