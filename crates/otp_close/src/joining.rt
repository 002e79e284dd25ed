//! The senders of all hands come home to the client's.
ghost use Rattle.std.specs.Prelude.{◌≡◌, ℕ, ◌+◌, ◌-◌, ◌^◌, ◌<◌, ◌≤◌, ◌∷◌, length, map, min, sum_by};
ghost use Rattle.otp_inbox.specs.Tokens.{all_parts};
ghost use Rattle.otp_run.specs.Lists.{AllAt};
ghost use Rattle.otp_hand.specs.Begun.{starts_credited};
ghost use Rattle.otp_hand.specs.Ended.{ends_sent};
ghost use Rattle.otp_hand.specs.Sendings.{parts_to};
ghost use Rattle.otp_close.specs.Settlings.{ArePlaced, HasGained, HasJoined, HasLists, HasShares, IsJoined, IsWhole, held_in, senders_in};

use crate::parting::Rest;
use otp_hand::Senders;
use otp_hand::ending::count_held;
use otp_inbox::Inbox;
use otp_job::Body;
use otp_sup::{Letter, Message, SupNaming, Unlocked};

/// The inbox of the supervisor at this place, or of whoever opened the tree.
fn inbox_at<'a, N: SupNaming, B: Drop>(
    sups: &'a [Unlocked<N, B>],
    outer: &'a Inbox<N, Message, Letter<B>>,
    place: usize,
) -> &'a Inbox<N, Message, Letter<B>>
    requires { ArePlaced sups.now outer.now }
    ensures { place ≤ length sups.now → result.now ≡ place }
{
    match sups.get(place) {
        Some(sup) => sup.inbox(),
        None => outer,
    }
}

/// Joins a hand's senders to these, each to that of its supervisor.
fn join_senders<N: SupNaming, B: Drop>(
    sups: &[Unlocked<N, B>],
    outer: &Inbox<N, Message, Letter<B>>,
    senders: &mut Senders<N, B>,
    others: Senders<N, B>,
)
    requires placed { ArePlaced sups.now outer.now }
    requires reach { length senders.old ≡ length sups.now + 1 }
    requires bounded { AllAt (λ k s. s.parts ≤ all_parts) senders.old }
    requires as_far { length others ≡ length senders.old }
    ensures starts { starts_credited senders.new ≡ starts_credited senders.old + starts_credited others }
    ensures ends { ends_sent senders.new ≡ ends_sent senders.old + ends_sent others }
    ensures joined { AllAt (IsJoined senders.old others) senders.new }
    ensures lists { AllAt (HasJoined senders.old others) senders.new }
    ensures shares { AllAt (HasGained senders.old others) senders.new }
    ensures len { length senders.new ≡ length senders.old }
{
    for sender in others.list {
        let place = sender.number();
        if place < senders.len() {
            senders.join_at(inbox_at(sups, outer, place), sender);
        }
    }
}

/// Senders that know all that was sent, and how many end notes hands had still to send: 2^64 - 1 where they would be more.
#[derive(Drop)]
pub(crate) struct Joined<N: SupNaming, J: Drop, S: Drop> {
    pub senders: Senders<N, Body<J, S>>,
    pub held: u64,
}

/// Joins the senders of all hands to the client's, so that each knows all that was sent to its supervisor.
pub(crate) fn join_all<N: SupNaming, J: Drop, S: Drop>(
    sups: &[Unlocked<N, Body<J, S>>],
    outer: &Inbox<N, Message, Letter<Body<J, S>>>,
    mut senders: Senders<N, Body<J, S>>,
    rests: Vec<Rest<N, J, S>>,
) -> Joined<N, J, S>
    requires placed { ArePlaced sups.now outer.now }
    requires reach { length senders ≡ length sups.now + 1 }
    requires whole { (place : ℕ) → place < length senders → parts_to place (senders ∷ map senders_in rests.items) ≡ all_parts }
    requires as_far { AllAt (λ _ others. length others ≡ length senders) (map senders_in rests.items) }
    ensures starts { starts_credited result.senders ≡ starts_credited senders + sum_by starts_credited (map senders_in rests.items) }
    ensures ends { ends_sent result.senders ≡ ends_sent senders + sum_by ends_sent (map senders_in rests.items) }
    ensures held { result.held ≡ min (sum_by held_in rests.items) (2 ^ 64 - 1) }
    ensures whole { AllAt (IsWhole (senders ∷ map senders_in rests.items)) result.senders }
    ensures lists { AllAt (HasLists (senders ∷ map senders_in rests.items)) result.senders }
    ensures shares { AllAt (HasShares (senders ∷ map senders_in rests.items)) result.senders }
    ensures len { length result.senders ≡ length senders }
{
    let mut held: u64 = 0;
    for rest in rests {
        let Rest {
            viewer,
            senders: others,
            turning,
            waiting,
            resting,
            unsent,
            refusals: _,
            passes,
            around,
            alloc: _,
        } = rest;
        drop(viewer);
        drop(turning);
        drop(waiting);
        drop(resting);
        drop(passes);
        drop(around);
        join_senders(sups, outer, &mut senders, others);
        held = held.saturating_add(count_held(unsent));
    }
    Joined { senders, held }
}
