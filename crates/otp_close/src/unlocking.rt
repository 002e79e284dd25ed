//! A tree whose supervisors are out of their locks, ready to be taken apart, and back again.
ghost use Rattle.std.specs.Prelude.{◌≡◌, ◌≤◌, List, [], length, vec_capacity, IfErr, IfOk};
ghost use Rattle.otp_run.specs.Lists.{AllAt};
ghost use Rattle.otp_run.specs.Schedulers.{SchedulerState};
ghost use Rattle.otp_close.specs.Closes.{all_senders};
ghost use Rattle.otp_close.specs.Gathers.{IsHandsRefused};
ghost use Rattle.otp_close.specs.Settlings.{ArePlaced, IsLoose};

use crate::closing::Refusal;
use crate::report::TableReport;
use crate::rooms::{LeftRoom, last_room, make_rooms};
use otp_hand::{Hand, Shared, TreeClient, TreeNaming};
use otp_inbox::Inbox;
use otp_job::Body;
use otp_signals::Words;
use otp_sup::{Letter, Message, Sup, SupNaming, Unlocked};
use std::alloc::{AllocError, Global};

/// A tree whose supervisors are out of their locks, with all the memory that taking it apart needs, and that for putting
/// them back.
#[derive(Drop)]
pub(crate) struct Loose<N: SupNaming, J: Drop, S: Drop> {
    pub words: Words<N>,
    pub sups: Vec<Unlocked<N, Body<J, S>>>,
    pub outer: Inbox<N, Message, Letter<Body<J, S>>>,
    pub rooms: Vec<LeftRoom<Body<J, S>>>,
    pub last: LeftRoom<Body<J, S>>,
    pub tables: Vec<TableReport>,
    pub back: Vec<Sup<N, Body<J, S>>>,
}

impl<N: SupNaming, J: Drop, S: Drop> Loose<N, J, S> {
    /// The tree as it was.
    pub(crate) fn lock(self) -> Shared<N, J, S>
        requires placed { ArePlaced self.sups.items self.outer }
        requires none { self.back.items ≡ [] }
        requires room { length self.sups.items ≤ vec_capacity self.back }
        ensures { result ≡ record { slots = self.words; tables = length self.sups.items } }
    {
        let Loose {
            words,
            sups,
            outer,
            rooms,
            last,
            tables,
            back,
        } = self;
        drop(rooms);
        drop(last);
        drop(tables);
        lock_all(words, outer, sups, back)
    }
}

/// A tree that can't be taken apart, as it was.
#[derive(Drop)]
pub(crate) struct Unready<N: SupNaming, J: Drop, S: Drop> {
    pub cause: Refusal,
    pub shared: Shared<N, J, S>,
}

/// The memory for it, but that for what is left.
#[derive(Drop)]
struct Space<N: SupNaming, J: Drop, S: Drop> {
    sups: Vec<Unlocked<N, Body<J, S>>>,
    rooms: Vec<LeftRoom<Body<J, S>>>,
    tables: Vec<TableReport>,
    back: Vec<Sup<N, Body<J, S>>>,
}

impl<N: SupNaming, J: Drop, S: Drop> Space<N, J, S> {
    fn reserve(alloc: Global, count: usize) -> Result<Space<N, J, S>, AllocError>
        ensures sups { IfOk result (λ s. (s.sups.items ≡ []) × (count ≤ vec_capacity s.sups)) }
        ensures rooms { IfOk result (λ s. (s.rooms.items ≡ []) × (count ≤ vec_capacity s.rooms)) }
        ensures tables { IfOk result (λ s. (s.tables.items ≡ []) × (count ≤ vec_capacity s.tables)) }
        ensures back { IfOk result (λ s. (s.back.items ≡ []) × (count ≤ vec_capacity s.back)) }
    {
        let sups = Vec::with_capacity(alloc, count)?;
        let Ok(rooms) = Vec::with_capacity(alloc, count) else {
            drop(sups);
            return Err(AllocError);
        };
        let Ok(tables) = Vec::with_capacity(alloc, count) else {
            drop(sups);
            drop(rooms);
            return Err(AllocError);
        };
        let Ok(back) = Vec::with_capacity(alloc, count) else {
            drop(sups);
            drop(rooms);
            drop(tables);
            return Err(AllocError);
        };
        Ok(Space {
            sups,
            rooms,
            tables,
            back,
        })
    }
}

/// Takes all supervisors out of their locks, and makes room for all that is left in their inboxes. Where memory is refused
/// the tree comes back as it was.
pub(crate) fn loosen<N: TreeNaming, J: Drop, S: Drop>(
    alloc: Global,
    shared: Shared<N, J, S>,
    hands: &[Hand<N, J, S>],
    client: &TreeClient<N, Body<J, S>>,
) -> Result<Loose<N, J, S>, Unready<N, J, S>>
    ensures loose { IfOk result (IsLoose client.now (all_senders client.now hands.now)) }
    ensures shared { IfOk result (λ l. shared ≡ record { slots = l.words; tables = length l.sups.items }) }
    ensures same { IfErr result (λ u. u.shared ≡ shared) }
    ensures cause { IfErr result (λ u. (schedulers : List SchedulerState) → IsHandsRefused schedulers u.cause) }
{
    let tables = shared.tables();
    let Ok(space) = Space::reserve(alloc, tables) else {
        return Err(make_unready(Refusal::OutOfMemory, shared));
    };
    let Some(last) = last_room(alloc, tables, hands, client) else {
        drop(space);
        return Err(make_unready(Refusal::OutOfMemory, shared));
    };
    let Shared { words, sups, outer } = shared;
    let Space {
        sups: room,
        mut rooms,
        tables,
        back,
    } = space;
    let sups = unlock_all(sups, room);
    match make_rooms(alloc, sups.as_slice(), hands, client, &mut rooms) {
        Ok(()) => Ok(Loose {
            words,
            sups,
            outer,
            rooms,
            last,
            tables,
            back,
        }),
        Err(cause) => {
            drop(rooms);
            drop(last);
            drop(tables);
            let shared = lock_all(words, outer, sups, back);
            Err(Unready { cause, shared })
        }
    }
}

fn make_unready<N: SupNaming, J: Drop, S: Drop>(
    cause: Refusal,
    shared: Shared<N, J, S>,
) -> Unready<N, J, S>
    ensures cause { result.cause ≡ cause }
    ensures shared { result.shared ≡ shared }
{
    Unready { cause, shared }
}

/// Takes all supervisors out of their locks.
fn unlock_all<N: SupNaming, B: Drop>(
    sups: Vec<Sup<N, B>>,
    mut unlocked: Vec<Unlocked<N, B>>,
) -> Vec<Unlocked<N, B>>
    requires placed { AllAt (λ k sup. sup.inbox ≡ k) sups.items }
    requires none { unlocked.items ≡ [] }
    requires room { length sups.items ≤ vec_capacity unlocked }
    ensures placed { AllAt (λ k u. u.inbox ≡ k) result.items }
    ensures many { length result.items ≡ length sups.items }
{
    for sup in sups {
        unlocked.push_reserved(sup.unlock());
    }
    unlocked
}

/// Puts all supervisors back under their locks.
fn lock_all<N: SupNaming, J: Drop, S: Drop>(
    words: Words<N>,
    outer: Inbox<N, Message, Letter<Body<J, S>>>,
    sups: Vec<Unlocked<N, Body<J, S>>>,
    mut back: Vec<Sup<N, Body<J, S>>>,
) -> Shared<N, J, S>
    requires placed { ArePlaced sups.items outer }
    requires none { back.items ≡ [] }
    requires room { length sups.items ≤ vec_capacity back }
    ensures { result ≡ record { slots = words; tables = length sups.items } }
{
    for sup in sups {
        back.push_reserved(sup.lock());
    }
    Shared {
        words,
        sups: back,
        outer,
    }
}
