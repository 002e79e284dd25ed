//! The inboxes of a tree are emptied, once all that sends to them is in one hand.
ghost use Rattle.std.specs.Prelude.{◌≡◌, ◌≤◌, ◌++◌, [], length, map, vec_capacity};
ghost use Rattle.otp_inbox.specs.Lists.{AsOften, EachInOrder};
ghost use Rattle.otp_inbox.specs.Tokens.{all_parts, all_sent, sent_lists};
ghost use Rattle.otp_bodies.specs.Messages.{items_in};
ghost use Rattle.otp_close.specs.Leavings.{IsLeft};
ghost use Rattle.otp_close.specs.Settlings.{IsRoom};

use crate::rooms::LeftRoom;
use otp_hand::places::said_in;
use otp_inbox::{Inbox, InboxNaming, Sender, Taker};
use otp_rules::Item;
use otp_sup::{Letter, Message};
use std::sync::Wait;

/// What letters say. The bodies that they bring are dropped.
fn items_of<B: Drop>(letters: Vec<Letter<B>>, mut items: Vec<Item>) -> Vec<Item>
    requires none { items.items ≡ [] }
    requires room { length letters.items ≤ vec_capacity items }
    ensures { result.items ≡ map (λ l. l.item) letters.items }
{
    for letter in letters {
        items.push_reserved(said_in(letter));
    }
    items
}

/// Takes what is left in an inbox: with what was taken, it is what was sent.
pub(crate) fn settle<N: InboxNaming, B: Drop, R: Wait>(
    rt: &R,
    inbox: &Inbox<N, Message, Letter<B>>,
    taker: Taker<N, Message, Letter<B>>,
    sender: Sender<N, Message, Letter<B>>,
    room: LeftRoom<B>,
) -> Vec<Item>
    requires takes { taker.inbox ≡ inbox.now }
    requires sends { sender.inbox ≡ inbox.now }
    requires whole { sender.parts ≡ all_parts }
    requires room { IsRoom (length (all_sent sender)) (length taker.taken) room }
    ensures left { AsOften (items_in (all_sent sender)) (items_in taker.taken ++ result.items) }
    // Each sender's items stand there in the order in which it sent them.
    ensures order { EachInOrder (map items_in (sent_lists sender)) (items_in taker.taken ++ result.items) }
    // They are what is left of the messages, each of which was sent with the end that it tells.
    ensures messages { IsLeft (all_sent sender) taker.taken result.items }
    // What the sender was credited with is what the taker gave.
    ensures shares { sender.shares ≡ taker.given }
{
    let LeftRoom { mut letters, items } = room;
    inbox.drain_into(rt, taker, sender, &mut letters);
    items_of(letters, items)
}
