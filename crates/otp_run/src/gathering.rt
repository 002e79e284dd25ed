// The run queue is taken apart, once all its schedulers are back.
ghost use Rattle.std.specs.Prelude.{◌≡◌, ◌↔◌, ◌+◌, ◌*◌, ◌<◌, ◌≤◌, ◌++◌, ◌∷◌, [], length, map, sum_by, vec_len, vec_capacity, IsTrue, IfOk, IfErr, OnOk};
ghost use Rattle.otp_run.specs.Gathers.{IsAll, IsLiveTotal, IsAwaiting, IsHome, IsCounted, IsKept, IsRoomFor, IsRefused, Absorbed, DrainedInto, own_of, all_ways, put_count, taken_count, begun_of, ended_of};
ghost use Rattle.otp_run.specs.Lists.{AllAt, Each};
ghost use Rattle.otp_run.specs.Rule.{all_parts, ticket_of};
ghost use Rattle.otp_run.specs.Schedulers.{IsPlaced};

use crate::deque::{OwnDeque, Victim};
use crate::naming::RunNaming;
use crate::scheduler::{Scheduler, Share};
use otp_job::Process;
use std::alloc::{AllocError, Global};

/// A run queue has at most so many schedulers.
const MOST_SCHEDULERS: usize = 8;

/// What a run queue held at its end.
#[derive(Drop)]
pub struct LiveTotal<J: Drop, S: Drop> {
    /// How many processes more began than ended: those that are left, and those that schedulers have out.
    pub live: u64,
    /// How many processes began, at all schedulers.
    pub begun: u64,
    /// How many processes ended, at all schedulers.
    pub ended: u64,
    /// The processes that are left in the deques.
    pub left: Vec<Process<J, S>>,
}

/// Why a run queue was not taken apart. The schedulers come back as they were.
#[derive(Drop)]
pub enum GatherFault<N: RunNaming, J: Drop, S: Drop> {
    /// They are not all schedulers of the run queue, in the order of their indexes.
    Missing(Vec<Scheduler<N, J, S>>),
    /// There is no memory.
    OutOfMemory(Vec<Scheduler<N, J, S>>),
}

/// Whether these are all schedulers of a run queue, in the order of their indexes. None is never all: each run queue has
/// one at least.
pub fn is_all<N: RunNaming, J: Drop, S: Drop>(schedulers: &[Scheduler<N, J, S>]) -> bool
    ensures all { IsTrue result ↔ IsAll schedulers.now }
    ensures placed { IsTrue result → AllAt (λ index s. IsPlaced s) schedulers.now }
{
    if schedulers.is_empty() {
        return false;
    }
    for index in 0..schedulers.len() {
        if !schedulers[index].stands_at(index, schedulers.len()) {
            return false;
        }
    }
    true
}

/// Takes the run queue apart, once all its schedulers are back: each process that was put was found by a scheduler or
/// is left, and `live` is what began less what ended.
///
/// The memory for it is taken first. Where there is none, or where a scheduler is missing, all of them come back as
/// they were.
pub fn gather<N: RunNaming, J: Drop, S: Drop>(
    alloc: Global,
    schedulers: Vec<Scheduler<N, J, S>>,
) -> Result<LiveTotal<J, S>, GatherFault<N, J, S>>
    ensures all { OnOk result (IsAll schedulers.items) }
    ensures total { IfOk result (λ total. IsLiveTotal schedulers.items total.live (map ticket_of total.left.items)) }
    ensures begun { IfOk result (λ total. total.begun ≡ sum_by begun_of schedulers.items) }
    ensures ended { IfOk result (λ total. total.ended ≡ sum_by ended_of schedulers.items) }
    ensures refused { IfErr result (λ fault. IsRefused schedulers.items fault) }
{
    if !is_all(schedulers.as_slice()) {
        return Err(GatherFault::Missing(schedulers));
    }
    let Ok(room) = Room::reserve(alloc, schedulers.as_slice()) else {
        return Err(GatherFault::OutOfMemory(schedulers));
    };
    Ok(gather_into(schedulers, room))
}

// The memory that it takes, and how many processes began and ended.
struct Room<N: RunNaming, J: Drop, S: Drop> {
    homes: Vec<OwnDeque<N, J, S>>,
    ways: Vec<Victim<N, J, S>>,
    left: Vec<Process<J, S>>,
    share: Share,
}

impl<N: RunNaming, J: Drop, S: Drop> Room<N, J, S> {
    fn reserve(
        alloc: Global,
        schedulers: &[Scheduler<N, J, S>],
    ) -> Result<Room<N, J, S>, AllocError>
        requires { length schedulers.now ≤ all_parts }
        ensures { IfOk result (λ room. IsRoomFor schedulers.now room) }
    {
        let share = total_share(schedulers);
        let live = share.begun.saturating_sub(share.ended);
        Ok(Room {
            homes: Vec::with_capacity(alloc, MOST_SCHEDULERS)?,
            ways: Vec::with_capacity(alloc, MOST_SCHEDULERS * MOST_SCHEDULERS)?,
            left: Vec::with_capacity(alloc, live as usize)?,
            share,
        })
    }
}

fn gather_into<N: RunNaming, J: Drop, S: Drop>(
    schedulers: Vec<Scheduler<N, J, S>>,
    room: Room<N, J, S>,
) -> LiveTotal<J, S>
    requires all { IsAll schedulers.items }
    requires placed { AllAt (λ index s. IsPlaced s) schedulers.items }
    requires room { IsRoomFor schedulers.items room }
    ensures total { IsLiveTotal schedulers.items result.live (map ticket_of result.left.items) }
    ensures begun { result.begun ≡ sum_by begun_of schedulers.items }
    ensures ended { result.ended ≡ sum_by ended_of schedulers.items }
{
    let Room {
        mut homes,
        mut ways,
        mut left,
        share,
    } = room;
    take_all_apart(schedulers, &mut homes, &mut ways);
    absorb_all(&mut homes, ways);
    count_all(&mut homes);
    drain_all(homes, &mut left);
    LiveTotal {
        live: share.begun - share.ended,
        begun: share.begun,
        ended: share.ended,
        left,
    }
}

// All schedulers are taken apart.
fn take_all_apart<N: RunNaming, J: Drop, S: Drop>(
    schedulers: Vec<Scheduler<N, J, S>>,
    homes: &mut Vec<OwnDeque<N, J, S>>,
    ways: &mut Vec<Victim<N, J, S>>,
)
    requires placed { Each IsPlaced schedulers.items }
    requires room { vec_len homes.old + length schedulers.items ≤ vec_capacity homes.old }
    requires room_for_ways { vec_len ways.old + all_parts * length schedulers.items ≤ vec_capacity ways.old }
    ensures kept { Each IsKept schedulers.items }
    ensures homes { homes.new.items ≡ homes.old.items ++ map own_of schedulers.items }
    ensures ways { ways.new.items ≡ ways.old.items ++ all_ways schedulers.items }
{
    for scheduler in schedulers {
        take_apart(scheduler, homes, ways);
    }
}

// How many processes began, and how many ended, at all of them.
fn total_share<N: RunNaming, J: Drop, S: Drop>(schedulers: &[Scheduler<N, J, S>]) -> Share
    requires { length schedulers.now ≤ all_parts }
    ensures begun { result.begun ≡ sum_by begun_of schedulers.now }
    ensures ended { result.ended ≡ sum_by ended_of schedulers.now }
{
    let mut begun = 0;
    let mut ended = 0;
    for scheduler in schedulers {
        let share = scheduler.share();
        begun += share.begun;
        ended += share.ended;
    }
    Share { begun, ended }
}

// One scheduler is taken apart: its own deque, and its ways to the others.
fn take_apart<N: RunNaming, J: Drop, S: Drop>(
    scheduler: Scheduler<N, J, S>,
    homes: &mut Vec<OwnDeque<N, J, S>>,
    ways: &mut Vec<Victim<N, J, S>>,
)
    requires placed { IsPlaced scheduler }
    requires room { vec_len homes.old < vec_capacity homes.old }
    requires room_for_ways { vec_len ways.old + all_parts ≤ vec_capacity ways.old }
    ensures kept { IsKept scheduler }
    ensures homes { homes.new.items ≡ homes.old.items ++ scheduler.own ∷ [] }
    ensures ways { ways.new.items ≡ ways.old.items ++ scheduler.others }
    ensures in_place { (vec_capacity homes.new ≡ vec_capacity homes.old) × (vec_capacity ways.new ≡ vec_capacity ways.old) }
    ensures few { vec_len ways.new ≤ vec_len ways.old + all_parts }
{
    let Scheduler {
        own,
        others,
        count: _,
        share: _,
        empty_finds: _,
    } = scheduler;
    homes.push_reserved(own);
    for way in others {
        ways.push_reserved(way);
    }
}

// Each way comes home.
fn absorb_all<N: RunNaming, J: Drop, S: Drop>(
    homes: &mut Vec<OwnDeque<N, J, S>>,
    ways: Vec<Victim<N, J, S>>,
)
    requires awaiting { AllAt (IsAwaiting ways.items) homes.old.items }
    requires inside { Each (λ way. way.index < length homes.old.items) ways.items }
    ensures home { AllAt IsHome homes.new.items }
    ensures absorbed { Absorbed homes.old.items ways.items homes.new.items }
{
    for way in ways {
        let index = way.index;
        homes[index].absorb(way);
    }
}

// Each deque tells how many processes are left in it, and so that no more were taken than put.
fn count_all<N: RunNaming, J: Drop, S: Drop>(homes: &mut Vec<OwnDeque<N, J, S>>)
    requires { AllAt IsHome homes.old.items }
    ensures same { homes.new.items ≡ homes.old.items }
    ensures counted { AllAt IsCounted homes.new.items }
{
    for index in 0..homes.len() {
        let _ = homes[index].count();
    }
}

// Each deque is emptied into the list.
fn drain_all<N: RunNaming, J: Drop, S: Drop>(
    homes: Vec<OwnDeque<N, J, S>>,
    left: &mut Vec<Process<J, S>>,
)
    requires counted { Each (IsCounted 0) homes.items }
    requires room { put_count homes.items + vec_len left.old ≤ taken_count homes.items + vec_capacity left.old }
    ensures { DrainedInto homes.items left.old.items left.new.items }
{
    for home in homes {
        home.drain_into(left);
    }
}
