//! What waits until no work is open, kept. Few of these items are calls, so what a call asks stands beside them: an item
//! takes 96 bytes, and 216 more where it is a call. Calls leave in the order in which they came; of the items between others only
//! ends of processes are taken, which ask nothing.

ghost use Rattle.std.specs.Prelude.{◌≡◌, ◌+◌, ◌^◌, ◌<◌, ◌≤◌, ◌==◌, ◌++◌, ◌∷◌, [], IsTrue, IfOk, MatchOption, OnErr, OnOk, Some, cond, drop, count_by, length, position, remove, slice_get, vec_len, vec_capacity};
ghost use Rattle.std.specs.List.{filter_map, list_any};
ghost use Rattle.otp_rules.specs.Cuts.{is_call_of};
ghost use Rattle.std.specs.VecDeque.{deque_len, deque_capacity};
ghost use Rattle.otp_rules.specs.Ends.{refusal, refused};
ghost use Rattle.otp_rules.specs.Stops.{is_exit};
ghost use Rattle.otp_machine.specs.WaitsInside.{calls_behind, calls_of, is_call, short_item, whole_item, whole_items};

use crate::stores::answers::Answers;
use otp_reason::Note;
use otp_rules::{Call, Effect, Item, Reply, Waiting};
use std::alloc::{AllocError, Global};
use std::collections::VecDeque;
use std::marker::Model;

/// What waits, without what a call asks.
#[derive(Clone, Copy, Debug)]
pub(crate) enum ShortItem {
    Note(Note),
    /// A call by its number.
    Call(u64),
    Retry(u64),
}

/// What waits, in its order. Contracts see the list.
#[derive(Drop)]
pub struct Waits {
    items: VecDeque<ShortItem>,
    /// What the calls among them ask, in their order.
    calls: VecDeque<Call>,
    /// How many more items the memory is known to hold, whatever they are.
    room: usize,
}

impl Model for Waits {
    ghost use Rattle.otp_machine.specs.Queued.{Queued};

    ghost Value = { Queued };

    ghost use Rattle.otp_machine.specs.WaitsInside.{queued_of, IsQueue};

    ghost view = { queued_of };

    ghost invariant = { IsQueue };
}

impl Waits {
    /// Nothing waits, and there is no room: takes no memory.
    pub fn new(alloc: Global) -> Self
        ensures { result.items ≡ [] }
    {
        Waits {
            items: VecDeque::new(alloc),
            calls: VecDeque::new(alloc),
            room: 0,
        }
    }

    /// How many items wait.
    #[tactic(auto, using(crate::proofs::Queues::length_whole))]
    pub fn len(&self) -> usize
        ensures len { result ≡ length self.now.items }
        ensures limit { result < 2 ^ 63 }
    {
        self.items.len()
    }

    #[tactic(auto, using(crate::proofs::Queues::length_whole))]
    pub fn is_empty(&self) -> bool
        ensures { result ≡ (length self.now.items == 0) }
    {
        self.items.is_empty()
    }

    /// What waits first.
    pub fn first(&self) -> Option<Waiting>
        ensures { result ≡ slice_get self.now.items 0 }
    {
        let item = self.items.front()?;
        Some(whole_item(item, &self.calls))
    }

    /// Takes the memory of the next `n` items, whatever they are. An `Err` leaves what waits, and the room, as they were.
    pub fn reserve(&mut self, n: usize) -> Result<(), AllocError>
        ensures items { self.new.items ≡ self.old.items }
        ensures ok { OnOk result (n ≤ self.new.room) }
        ensures err { OnErr result (self.new ≡ self.old) }
    {
        self.items.reserve(n)?;
        self.calls.reserve(n)?;
        let items = self.items.capacity().saturating_sub(self.items.len());
        let calls = self.calls.capacity().saturating_sub(self.calls.len());
        self.room = items.min(calls);
        Ok(())
    }

    /// How many more items the memory is known to hold, whatever they are.
    pub fn room(&self) -> usize
        ensures { result ≡ self.now.room }
    {
        self.room
    }

    /// The item waits last.
    #[tactic(auto, using(crate::proofs::Queues::pushed, crate::proofs::Queues::calls_pushed))]
    pub fn push_back(&mut self, item: Waiting)
        requires { 0 < self.old.room }
        ensures items { self.new.items ≡ self.old.items ++ item ∷ [] }
        ensures room { self.new.room + 1 ≡ self.old.room }
    {
        put_call(&item, &mut self.calls);
        self.items.push_back_reserved(short_item(&item));
        self.room -= 1;
    }

    /// Takes what waits first.
    pub fn pop_front(&mut self) -> Option<Waiting>
        ensures item { MatchOption result ((self.old.items ≡ []) × (self.new ≡ self.old)) (λ x. self.old.items ≡ x ∷ self.new.items) }
        ensures room { self.new.room ≡ self.old.room }
    {
        let item = self.items.pop_front()?;
        let whole = whole_item(&item, &self.calls);
        drop_call(&item, &mut self.calls);
        Some(whole)
    }

    /// The place of the first waiting end of this process.
    pub fn find_exit(&self, number: u64) -> Option<usize>
        ensures { result ≡ position (is_exit number) self.now.items }
    {
        find_short_exit(&self.items, number)
    }

    /// How many ends of this process wait.
    pub fn count_exits(&self, number: u64) -> usize
        ensures count { result ≡ count_by (is_exit number) self.now.items }
        ensures limit { result < 2 ^ 63 }
    {
        count_short_exits(&self.items, number)
    }

    /// Whether this call waits.
    pub fn has_call(&self, number: u64) -> bool
        ensures { result ≡ list_any (is_call_of number) self.now.items }
    {
        has_short_call(&self.items, number)
    }

    /// Takes the first waiting end of this process, which stands at the place.
    pub fn remove_exit(&mut self, number: u64, place: usize)
        requires { position (is_exit number) self.old.items ≡ Some place }
        ensures items { self.new.items ≡ remove self.old.items place }
        ensures room { self.new.room ≡ self.old.room }
    {
        self.items.remove(place);
    }

    /// Answers noproc to the calls that wait, in order.
    #[tactic(auto, using(crate::proofs::Queues::length_whole))]
    pub fn refuse_calls(&self, replies: &mut Answers, orders: &mut Vec<Effect>)
        requires replies { length self.now.items ≤ replies.old.room }
        requires orders { vec_len orders.old + length self.now.items ≤ vec_capacity orders.old }
        ensures replies { replies.new.answers ≡ replies.old.answers ++ filter_map refused self.now.items }
        ensures orders { orders.new.items ≡ orders.old.items ++ filter_map refusal self.now.items }
        ensures len { vec_len orders.new ≤ vec_len orders.old + length self.now.items }
        ensures capacity { vec_capacity orders.old ≤ vec_capacity orders.new }
    {
        let (front, back) = self.items.as_slices();
        refuse_items(front, replies, orders);
        refuse_items(back, replies, orders);
    }

    /// A list of what waits, in its order, for whoever keeps it.
    ///
    /// # Errors
    ///
    /// Where memory is refused.
    pub fn to_vec(&self, alloc: Global) -> Result<Vec<Waiting>, AllocError>
        ensures { IfOk result (λ list. list.items ≡ self.now.items) }
    {
        whole_items(alloc, &self.items, &self.calls)
    }

    /// Nothing waits any more.
    pub fn clear(&mut self)
        ensures items { self.new.items ≡ [] }
        ensures room { self.new.room ≡ self.old.room }
    {
        self.items.clear();
        self.calls.clear();
    }
}

/// The item, which has the first of these calls if it is one.
fn whole_item(item: &ShortItem, calls: &VecDeque<Call>) -> Waiting
    requires { IsTrue (is_call item.now) → 0 < deque_len calls.now }
    ensures { result ≡ whole_item item.now calls.now.items }
{
    match item {
        ShortItem::Note(note) => Waiting::Item(Item::Note(*note)),
        ShortItem::Call(number) => Waiting::Item(Item::Call(*number, calls[0])),
        ShortItem::Retry(kept) => Waiting::Retry(*kept),
    }
}

/// The items, each call among them with the next of these.
fn whole_items(
    alloc: Global,
    items: &VecDeque<ShortItem>,
    calls: &VecDeque<Call>,
) -> Result<Vec<Waiting>, AllocError>
    requires { count_by is_call items.now.items ≡ length calls.now.items }
    ensures { IfOk result (λ list. list.items ≡ whole_items items.now.items calls.now.items) }
{
    let mut list = Vec::with_capacity(alloc, items.len())?;
    let mut place = 0;
    let mut asked = 0;
    while place < items.len() {
        let item = &items[place];
        list.push_reserved(whole_at(item, calls, asked));
        asked += calls_in(item);
        place += 1;
    }
    Ok(list)
}

/// The item, which has the call at this place if it is one.
fn whole_at(item: &ShortItem, calls: &VecDeque<Call>, place: usize) -> Waiting
    requires { IsTrue (is_call item.now) → place < deque_len calls.now }
    ensures { result ≡ whole_item item.now (drop place calls.now.items) }
{
    match item {
        ShortItem::Note(note) => Waiting::Item(Item::Note(*note)),
        ShortItem::Call(number) => Waiting::Item(Item::Call(*number, calls[place])),
        ShortItem::Retry(kept) => Waiting::Retry(*kept),
    }
}

/// 1 for a call, 0 for another item.
fn calls_in(item: &ShortItem) -> usize
    ensures { result ≡ cond (is_call item.now) 1 0 }
{
    match item {
        ShortItem::Call(_) => 1,
        _ => 0,
    }
}

fn short_item(item: &Waiting) -> ShortItem
    ensures { result ≡ short_item item.now }
{
    match item {
        Waiting::Item(Item::Note(note)) => ShortItem::Note(*note),
        Waiting::Item(Item::Call(number, _)) => ShortItem::Call(*number),
        Waiting::Retry(kept) => ShortItem::Retry(*kept),
    }
}

/// Puts what the item asks last, if it is a call.
fn put_call(item: &Waiting, calls: &mut VecDeque<Call>)
    requires { deque_len calls.old < deque_capacity calls.old }
    ensures calls { calls.new.items ≡ calls.old.items ++ calls_of item.now }
    ensures len { deque_len calls.new ≤ deque_len calls.old + 1 }
    ensures capacity { deque_capacity calls.new ≡ deque_capacity calls.old }
{
    if let Waiting::Item(Item::Call(_, call)) = item {
        calls.push_back_reserved(*call);
    }
}

/// Drops the first of these calls, if it was the item's.
fn drop_call(item: &ShortItem, calls: &mut VecDeque<Call>)
    ensures calls { calls.new.items ≡ calls_behind item.now calls.old.items }
    ensures len { deque_len calls.new ≤ deque_len calls.old }
    ensures capacity { deque_capacity calls.new ≡ deque_capacity calls.old }
{
    if let ShortItem::Call(_) = item {
        calls.pop_front();
    }
}

/// Whether the item is the end of this process.
fn is_exit(item: &ShortItem, number: u64) -> bool
    ensures { result ≡ is_exit number (whole_item item.now []) }
{
    match item {
        ShortItem::Note(Note::Exit(p, _)) => *p == number,
        _ => false,
    }
}

fn find_short_exit(items: &VecDeque<ShortItem>, number: u64) -> Option<usize>
    ensures { result ≡ position (λ x. is_exit number (whole_item x [])) items.now.items }
{
    items.iter().position(|item| is_exit(item, number))
}

/// Whether the item is this call.
fn is_call_of(item: &ShortItem, number: u64) -> bool
    ensures { result ≡ is_call_of number (whole_item item.now []) }
{
    match item {
        ShortItem::Call(call) => *call == number,
        _ => false,
    }
}

fn has_short_call(items: &VecDeque<ShortItem>, number: u64) -> bool
    ensures { result ≡ list_any (λ x. is_call_of number (whole_item x [])) items.now.items }
{
    items.iter().any(|item| is_call_of(item, number))
}

fn count_short_exits(items: &VecDeque<ShortItem>, number: u64) -> usize
    ensures count { result ≡ count_by (λ x. is_exit number (whole_item x [])) items.now.items }
    ensures limit { result ≤ deque_len items.now }
{
    items.iter().filter(|item| is_exit(item, number)).count()
}

fn refuse_items(items: &[ShortItem], replies: &mut Answers, orders: &mut Vec<Effect>)
    requires replies { length items.now ≤ replies.old.room }
    requires orders { vec_len orders.old + length items.now ≤ vec_capacity orders.old }
    ensures replies { replies.new.answers ≡ replies.old.answers ++ filter_map (λ x. refused (whole_item x [])) items.now }
    ensures orders { orders.new.items ≡ orders.old.items ++ filter_map (λ x. refusal (whole_item x [])) items.now }
    ensures room { replies.old.room ≤ replies.new.room + length items.now }
    ensures len { vec_len orders.new ≤ vec_len orders.old + length items.now }
    ensures capacity { vec_capacity orders.old ≤ vec_capacity orders.new }
{
    for item in items {
        if let ShortItem::Call(call) = item {
            replies.push(*call, Reply::NoProc);
            orders.push_reserved(Effect::Reply(*call));
        }
    }
}
