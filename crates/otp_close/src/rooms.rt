//! Room for what is left in the inboxes, made before a tree is taken apart.
ghost use Rattle.std.specs.Prelude.{◌≡◌, ◌<◌, ◌≤◌, List, [], length, vec_capacity, IfErr, IfOk, IfSome, OnOk};
ghost use Rattle.otp_inbox.specs.Tokens.{count_limit};
ghost use Rattle.otp_run.specs.Schedulers.{SchedulerState};
ghost use Rattle.otp_close.specs.Closes.{all_senders};
ghost use Rattle.otp_close.specs.Gathers.{IsHandsRefused};
ghost use Rattle.otp_hand.specs.Sendings.{sent_to};
ghost use Rattle.otp_close.specs.Settlings.{AreRooms, IsLastRoom, IsRoom, IsRoomAt};

use crate::closing::Refusal;
use otp_hand::{Hand, TreeClient, TreeNaming};
use otp_inbox::COUNT_LIMIT;
use otp_job::Body;
use otp_rules::Item;
use otp_sup::{Letter, Unlocked};
use std::alloc::{AllocError, Global};

/// Room for what is left in one inbox: for the letters, and for what they say.
#[derive(Drop)]
pub(crate) struct LeftRoom<B: Drop> {
    pub letters: Vec<Letter<B>>,
    pub items: Vec<Item>,
}

impl<B: Drop> LeftRoom<B> {
    fn reserve(alloc: Global, count: usize) -> Result<LeftRoom<B>, AllocError>
        ensures letters { IfOk result (λ r. (r.letters.items ≡ []) × (count ≤ vec_capacity r.letters)) }
        ensures items { IfOk result (λ r. (r.items.items ≡ []) × (count ≤ vec_capacity r.items)) }
    {
        Ok(LeftRoom {
            letters: Vec::with_capacity(alloc, count)?,
            items: Vec::with_capacity(alloc, count)?,
        })
    }

    /// Room for what is left where so much was sent and so much taken. None where there is no memory for it, as for 2^62
    /// items and more.
    fn between(alloc: Global, sent: u64, taken: u64) -> Option<LeftRoom<B>>
        ensures few { IfSome result (λ r. sent < count_limit) }
        ensures room { IfSome result (IsRoom sent taken) }
    {
        if sent >= COUNT_LIMIT {
            return None;
        }
        LeftRoom::reserve(alloc, sent.saturating_sub(taken) as usize).ok()
    }
}

/// How much the client and the hands sent to one supervisor, where that is less than 2^62.
fn count_sent<N: TreeNaming, J: Drop, S: Drop>(
    place: usize,
    hands: &[Hand<N, J, S>],
    client: &TreeClient<N, Body<J, S>>,
) -> u64
    ensures { result < count_limit → length (sent_to place (all_senders client.now hands.now)) ≡ result }
{
    let mut count = client.senders.sent_count_at(place);
    for hand in hands {
        count = count.saturating_add(hand.senders.sent_count_at(place));
    }
    count
}

/// Room for what is left in the inbox of one supervisor.
fn room_for<N: TreeNaming, J: Drop, S: Drop>(
    alloc: Global,
    place: usize,
    sup: &Unlocked<N, Body<J, S>>,
    hands: &[Hand<N, J, S>],
    client: &TreeClient<N, Body<J, S>>,
) -> Result<LeftRoom<Body<J, S>>, Refusal>
    ensures room { IfOk result (IsRoomAt (all_senders client.now hands.now) place sup.now) }
    ensures cause { IfErr result (λ why. (schedulers : List SchedulerState) → IsHandsRefused schedulers why) }
{
    match sup.find_displaced() {
        Some(found) => Err(Refusal::Misplaced(found)),
        None => room_of(alloc, place, sup, hands, client),
    }
}

/// Room for what is left in the inbox of a supervisor that takes from its own inbox.
fn room_of<N: TreeNaming, J: Drop, S: Drop>(
    alloc: Global,
    place: usize,
    sup: &Unlocked<N, Body<J, S>>,
    hands: &[Hand<N, J, S>],
    client: &TreeClient<N, Body<J, S>>,
) -> Result<LeftRoom<Body<J, S>>, Refusal>
    requires takes { sup.now.table.taker.inbox ≡ sup.now.inbox }
    ensures room { IfOk result (IsRoomAt (all_senders client.now hands.now) place sup.now) }
    ensures cause { IfErr result (λ why. (schedulers : List SchedulerState) → IsHandsRefused schedulers why) }
{
    match LeftRoom::between(alloc, count_sent(place, hands, client), sup.taken_count()) {
        Some(room) => Ok(room),
        None => Err(Refusal::OutOfMemory),
    }
}

/// Room for what is left in the inbox of each supervisor.
pub(crate) fn make_rooms<N: TreeNaming, J: Drop, S: Drop>(
    alloc: Global,
    sups: &[Unlocked<N, Body<J, S>>],
    hands: &[Hand<N, J, S>],
    client: &TreeClient<N, Body<J, S>>,
    rooms: &mut Vec<LeftRoom<Body<J, S>>>,
) -> Result<(), Refusal>
    requires none { rooms.old.items ≡ [] }
    requires space { length sups.now ≤ vec_capacity rooms.old }
    ensures many { OnOk result (length rooms.new.items ≡ length sups.now) }
    ensures rooms { OnOk result (AreRooms (all_senders client.now hands.now) sups.now rooms.new.items) }
    ensures cause { IfErr result (λ why. (schedulers : List SchedulerState) → IsHandsRefused schedulers why) }
{
    for place in 0..sups.len() {
        match room_for(alloc, place, &sups[place], hands, client) {
            Ok(room) => rooms.push_reserved(room),
            Err(cause) => return Err(cause),
        }
    }
    Ok(())
}

/// Room for what is left in the inbox of whoever opened the tree.
pub(crate) fn last_room<N: TreeNaming, J: Drop, S: Drop>(
    alloc: Global,
    tables: usize,
    hands: &[Hand<N, J, S>],
    client: &TreeClient<N, Body<J, S>>,
) -> Option<LeftRoom<Body<J, S>>>
    ensures { IfSome result (IsLastRoom (all_senders client.now hands.now) tables client.now.waiter) }
{
    let waiter = client.waiter.as_ref()?;
    LeftRoom::between(
        alloc,
        count_sent(tables, hands, client),
        waiter.taken_count(),
    )
}
