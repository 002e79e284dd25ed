//! Whether all parts of a tree are there.
ghost use Rattle.std.specs.Prelude.{◌≡◌, ◌↔◌, ℕ, ◌+◌, ◌<◌, ◌-◌, ◌^◌, length, min, IsTrue};
ghost use Rattle.otp_inbox.specs.Tokens.{all_parts};
ghost use Rattle.otp_close.specs.Closes.{IsReached, all_senders};
ghost use Rattle.otp_run.specs.Lists.{AllAt};
ghost use Rattle.otp_hand.specs.Hands.{senders_of};
ghost use Rattle.otp_hand.specs.Sendings.{parts_to};

use otp_hand::{Hand, TreeClient, TreeNaming};
use otp_inbox::{ALL_PARTS, InboxNaming};
use otp_job::Body;
use otp_signals::WordsNaming;

/// Whether the client is the one that a tree of so many supervisors was opened with, and it and the hands together have
/// the whole right to send to each supervisor, and to whoever opened the tree, and to nobody else.
pub(crate) fn is_reached<N: TreeNaming, J: Drop, S: Drop>(
    tables: usize,
    hands: &[Hand<N, J, S>],
    client: &TreeClient<N, Body<J, S>>,
) -> bool
    ensures { IsTrue result ↔ IsReached tables client.now (all_senders client.now hands.now) }
{
    if !client.waits_at(tables) {
        return false;
    }
    if !reaches(client, tables) {
        return false;
    }
    if !reach_as_far(hands, client.senders.len()) {
        return false;
    }
    has_all_parts(hands, client)
}

/// Whether the client sends to so many supervisors, and to whoever opened the tree.
fn reaches<N: WordsNaming + InboxNaming, B: Drop>(client: &TreeClient<N, B>, tables: usize) -> bool
    ensures { IsTrue result ↔ (length client.now.senders ≡ tables + 1) }
{
    let count = client.senders.len();
    count > tables && count - tables == 1
}

/// Whether each hand has so many senders.
fn reach_as_far<N: TreeNaming, J: Drop, S: Drop>(hands: &[Hand<N, J, S>], count: usize) -> bool
    ensures { IsTrue result ↔ AllAt (λ _ hand. length (senders_of hand) ≡ count) hands.now }
{
    for place in 0..hands.len() {
        if !sends_to(&hands[place], count) {
            return false;
        }
    }
    true
}

/// Whether the hand has so many senders.
fn sends_to<N: TreeNaming, J: Drop, S: Drop>(hand: &Hand<N, J, S>, count: usize) -> bool
    ensures { IsTrue result ↔ (length (senders_of hand.now) ≡ count) }
{
    hand.senders.len() == count
}

/// Whether hands and client together have the whole right to send to each of those to which the client sends.
fn has_all_parts<N: TreeNaming, J: Drop, S: Drop>(
    hands: &[Hand<N, J, S>],
    client: &TreeClient<N, Body<J, S>>,
) -> bool
    ensures { IsTrue result ↔ ((place : ℕ) → place < length client.now.senders → parts_to place (all_senders client.now hands.now) ≡ all_parts) }
{
    for place in 0..client.senders.len() {
        if parts_to(place, hands, client) != ALL_PARTS {
            return false;
        }
    }
    true
}

/// The parts of the right to send to one supervisor that hands and client have together; 2^64 - 1 where they would be more.
fn parts_to<N: TreeNaming, J: Drop, S: Drop>(
    place: usize,
    hands: &[Hand<N, J, S>],
    client: &TreeClient<N, Body<J, S>>,
) -> u64
    ensures { result ≡ min (parts_to place (all_senders client.now hands.now)) (2 ^ 64 - 1) }
{
    let mut parts = client.senders.parts_at(place);
    for hand in hands {
        parts = parts.saturating_add(hand.senders.parts_at(place));
    }
    parts
}
