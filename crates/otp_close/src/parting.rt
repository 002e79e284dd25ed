//! Hands are parted into their schedulers and the rest, and joined again.
ghost use Rattle.std.specs.Prelude.{◌≡◌, ◌+◌, ◌≤◌, [], length, map, sum_by, vec_capacity, IfOk, IfErr, OnOk};
ghost use Rattle.otp_run.specs.Gathers.{IsAll, IsLiveTotal, begun_of, ended_of};
ghost use Rattle.otp_run.specs.Rule.{ticket_of};
ghost use Rattle.otp_hand.specs.Begun.{starts_credited};
ghost use Rattle.otp_hand.specs.Ended.{ends_sent, held_by};
ghost use Rattle.otp_close.specs.Gathers.{IsHandsRefused};
ghost use Rattle.otp_hand.specs.Hands.{senders_of};
ghost use Rattle.otp_close.specs.Partings.{joined, schedulers_of, ArePaired};
ghost use Rattle.otp_close.specs.Settlings.{held_in, senders_in};

use crate::closing::Refusal;
use otp_hand::places::next_of;
use otp_hand::waiting::{Around, Resting, Waiting};
use otp_hand::{Hand, Runner, Senders, TreeNaming, Unsent};
use otp_inbox::InboxNaming;
use otp_job::{Body, Process};
use otp_run::{GatherFault, LiveTotal, Scheduler, gather};
use otp_signals::counts::CountsPass;
use otp_signals::{Viewer, WordsNaming};
use otp_tally::Tally;
use std::alloc::{AllocError, Global};

/// What a hand has beside its scheduler.
#[derive(Drop)]
pub(crate) struct Rest<N: WordsNaming + InboxNaming, J: Drop, S: Drop> {
    pub viewer: Viewer<N>,
    pub senders: Senders<N, Body<J, S>>,
    pub turning: Option<Process<J, S>>,
    pub waiting: Waiting<J, S>,
    pub resting: Resting<J, S>,
    pub unsent: Option<Unsent<J, S>>,
    pub refusals: Tally,
    pub passes: Vec<CountsPass>,
    pub around: Around,
    pub alloc: Global,
}

/// The hands that were not taken apart, as they were.
#[derive(Drop)]
pub(crate) struct HandsFault<N: TreeNaming, J: Drop, S: Drop> {
    pub cause: Refusal,
    pub hands: Vec<Hand<N, J, S>>,
}

/// Hands that were taken apart: the ledger of all schedulers, and what the hands had beside them.
#[derive(Drop)]
pub(crate) struct Gathered<N: WordsNaming + InboxNaming, J: Drop, S: Drop> {
    pub total: LiveTotal<J, S>,
    pub rests: Vec<Rest<N, J, S>>,
}

/// The memory for it.
struct Room<N: TreeNaming, J: Drop, S: Drop> {
    schedulers: Vec<Scheduler<N, J, S>>,
    rests: Vec<Rest<N, J, S>>,
    hands: Vec<Hand<N, J, S>>,
}

impl<N: TreeNaming, J: Drop, S: Drop> Room<N, J, S> {
    fn reserve(alloc: Global, count: usize) -> Result<Room<N, J, S>, AllocError>
        ensures schedulers { IfOk result (λ r. (r.schedulers.items ≡ []) × (count ≤ vec_capacity r.schedulers)) }
        ensures rests { IfOk result (λ r. (r.rests.items ≡ []) × (count ≤ vec_capacity r.rests)) }
        ensures hands { IfOk result (λ r. (r.hands.items ≡ []) × (count ≤ vec_capacity r.hands)) }
    {
        let schedulers = Vec::with_capacity(alloc, count)?;
        let Ok(rests) = Vec::with_capacity(alloc, count) else {
            drop(schedulers);
            return Err(AllocError);
        };
        let Ok(hands) = Vec::with_capacity(alloc, count) else {
            drop(schedulers);
            drop(rests);
            return Err(AllocError);
        };
        Ok(Room {
            schedulers,
            rests,
            hands,
        })
    }
}

/// Takes all hands apart: what is left in the run queue, and how many processes more began than ended, and the rest of each
/// hand. Where a hand is missing or memory is refused, all of them come back as they were.
pub(crate) fn gather_hands<N: TreeNaming, J: Drop, S: Drop>(
    alloc: Global,
    hands: Vec<Hand<N, J, S>>,
) -> Result<Gathered<N, J, S>, HandsFault<N, J, S>>
    ensures all { OnOk result (IsAll (schedulers_of hands.items)) }
    ensures total { IfOk result (λ g. IsLiveTotal (schedulers_of hands.items) g.total.live (map ticket_of g.total.left.items)) }
    ensures begun { IfOk result (λ g. g.total.begun ≡ sum_by begun_of (schedulers_of hands.items)) }
    // They are all hands, so one of them had the root's process.
    ensures starts { IfOk result (λ g. g.total.begun ≡ 1 + sum_by starts_credited (map senders_in g.rests.items)) }
    ensures ended { IfOk result (λ g. g.total.ended ≡ sum_by ended_of (schedulers_of hands.items)) }
    // The notes of what ended were sent, or are still to be sent.
    ensures ends { IfOk result (λ g. g.total.ended ≡ sum_by ends_sent (map senders_in g.rests.items) + sum_by held_in g.rests.items) }
    ensures senders { IfOk result (λ g. map senders_in g.rests.items ≡ map senders_of hands.items) }
    ensures held { IfOk result (λ g. sum_by held_in g.rests.items ≡ sum_by held_by hands.items) }
    ensures refused { IfErr result (λ fault. fault.hands.items ≡ hands.items) }
    ensures missing { IfErr result (λ fault. IsHandsRefused (schedulers_of hands.items) fault.cause) }
{
    let Ok(room) = Room::reserve(alloc, hands.len()) else {
        return Err(HandsFault {
            cause: Refusal::OutOfMemory,
            hands,
        });
    };
    let Room {
        mut schedulers,
        mut rests,
        hands: mut back,
    } = room;
    part_all(hands, &mut schedulers, &mut rests);
    match gather(alloc, schedulers) {
        Ok(total) => {
            drop(back);
            Ok(Gathered { total, rests })
        }
        Err(GatherFault::Missing(schedulers)) => {
            rejoin_all(schedulers, rests, &mut back);
            Err(HandsFault {
                cause: Refusal::Missing,
                hands: back,
            })
        }
        Err(GatherFault::OutOfMemory(schedulers)) => {
            rejoin_all(schedulers, rests, &mut back);
            Err(HandsFault {
                cause: Refusal::OutOfMemory,
                hands: back,
            })
        }
    }
}

/// Parts all hands.
fn part_all<N: TreeNaming, J: Drop, S: Drop>(
    hands: Vec<Hand<N, J, S>>,
    schedulers: &mut Vec<Scheduler<N, J, S>>,
    rests: &mut Vec<Rest<N, J, S>>,
)
    requires schedulers { schedulers.old.items ≡ [] }
    requires rests { rests.old.items ≡ [] }
    requires room { length hands.items ≤ vec_capacity schedulers.old }
    requires room_for_rests { length hands.items ≤ vec_capacity rests.old }
    ensures hands { joined schedulers.new.items rests.new.items ≡ hands.items }
    ensures paired { ArePaired schedulers.new.items rests.new.items }
    ensures many { length schedulers.new.items ≡ length rests.new.items }
    ensures same { schedulers_of hands.items ≡ schedulers.new.items }
    ensures senders { map senders_in rests.new.items ≡ map senders_of hands.items }
    ensures held { sum_by held_in rests.new.items ≡ sum_by held_by hands.items }
    ensures count { length schedulers.new.items ≡ length hands.items }
{
    for hand in hands {
        let Hand {
            runner,
            senders,
            passes,
        } = hand;
        let Runner {
            scheduler,
            viewer,
            turning,
            waiting,
            resting,
            unsent,
            refusals,
            around,
            alloc,
        } = runner;
        schedulers.push_reserved(scheduler);
        rests.push_reserved(Rest {
            viewer,
            senders,
            turning,
            waiting,
            resting,
            unsent,
            refusals,
            passes,
            around,
            alloc,
        });
    }
}

/// Joins them again.
fn rejoin_all<N: TreeNaming, J: Drop, S: Drop>(
    schedulers: Vec<Scheduler<N, J, S>>,
    rests: Vec<Rest<N, J, S>>,
    hands: &mut Vec<Hand<N, J, S>>,
)
    requires hands { hands.old.items ≡ [] }
    requires room { length schedulers.items ≤ vec_capacity hands.old }
    requires paired { ArePaired schedulers.items rests.items }
    ensures { hands.new.items ≡ joined schedulers.items rests.items }
{
    let mut rests = rests.into_iter();
    for scheduler in schedulers {
        let rest = next_of(&mut rests);
        let Rest {
            viewer,
            senders,
            turning,
            waiting,
            resting,
            unsent,
            refusals,
            passes,
            around,
            alloc,
        } = rest;
        let runner = Runner {
            scheduler,
            viewer,
            turning,
            waiting,
            resting,
            unsent,
            refusals,
            around,
            alloc,
        };
        hands.push_reserved(Hand {
            runner,
            senders,
            passes,
        });
    }
}
