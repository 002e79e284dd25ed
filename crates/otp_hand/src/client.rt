//! Who calls the supervisors of a tree from outside.
ghost use Rattle.std.specs.Prelude.{◌≡◌, ◌↔◌, ◌≤◌, [], Contains, Some, is_some, length, vec_capacity, IfNone, IfSome, IsTrue, MatchOption};
ghost use Rattle.otp_inbox.specs.Tokens.{no_shares};
ghost use Rattle.otp_signals.specs.Holdings.{after_post};
ghost use Rattle.otp_signals.specs.Signals.{word_of};
ghost use Rattle.otp_signals.specs.declared.signal.Signal.TheVariants.{Shutdown};
ghost use Rattle.otp_hand.specs.declared.client.TheConstants.{ROOT_NUMBER, ROOT_SLOT};
ghost use Rattle.otp_hand.specs.Begun.{starts_credited};
ghost use Rattle.otp_hand.specs.Ended.{ends_sent};
ghost use Rattle.otp_hand.specs.Readings.{AreRead};

use crate::reading::read_each;
use crate::senders::Senders;
use otp_inbox::{InboxNaming, Taker};
use otp_rules::CountsNow;
use otp_signals::counts::CountsPass;
use otp_signals::{Owner, Signal, Words, WordsNaming};
use otp_sup::{Letter, Message};
use std::marker::Model;

/// The number of the root's process, which no seat draws: so the first child of a tree is process 1.
pub const ROOT_NUMBER: u64 = 0;

/// The slot of the root's signal word.
pub const ROOT_SLOT: usize = 0;

/// What a user of the tree needs: numbers for calls, a sender to each supervisor, and the first client's right to stop
/// the root. It sends no note of an end.
#[derive(Drop)]
pub struct TreeClient<N: WordsNaming + InboxNaming, B: Drop> {
    pub owner: Owner<N>,
    pub senders: Senders<N, B>,
    /// What the first client takes the root's notes by. It alone can stop the root.
    pub waiter: Option<Taker<N, Message, Letter<B>>>,
    /// How many ends of the root it took by that.
    pub heard: u64,
}

impl<N: WordsNaming + InboxNaming, B: Drop> Model for TreeClient<N, B> {
    ghost use Rattle.std.specs.Prelude.{◌≡◌, Contains, IfSome};
    ghost use Rattle.otp_hand.specs.declared.client.TheConstants.{ROOT_SLOT};
    ghost use Rattle.otp_inbox.specs.Tokens.{no_shares};
    ghost use Rattle.otp_hand.specs.Begun.{starts_credited};
    ghost use Rattle.otp_hand.specs.Ended.{CountsHeard, ends_sent};
    ghost use Rattle.otp_hand.specs.Hands.{TreeClientView};

    ghost Value = { TreeClientView };

    ghost view = { λ c. record { owner = c.owner; senders = c.senders; waiter = c.waiter } };

    ghost invariant = { λ c. IfSome c.waiter (λ _. Contains c.owner.slots ROOT_SLOT) × (starts_credited c.senders ≡ 0) × IfSome c.waiter (λ w. w.given ≡ no_shares) × (ends_sent c.senders ≡ 0) × IfSome c.waiter (CountsHeard c.heard) };
}

impl<N: WordsNaming + InboxNaming, B: Drop> TreeClient<N, B> {
    /// The first client, which can stop the root, and takes the root's notes by this.
    pub fn first(
        owner: Owner<N>,
        senders: Senders<N, B>,
        waiter: Taker<N, Message, Letter<B>>,
    ) -> Self
        requires slot { Contains owner.slots ROOT_SLOT }
        requires starts { starts_credited senders ≡ 0 }
        requires ends { ends_sent senders ≡ 0 }
        requires given { waiter.given ≡ no_shares }
        requires taken { waiter.taken ≡ [] }
        ensures { result ≡ record { owner = owner; senders = senders; waiter = Some waiter } }
    {
        TreeClient {
            owner,
            senders,
            waiter: Some(waiter),
            heard: 0,
        }
    }

    /// Whether it is the client that the tree was opened with, which alone can stop it.
    pub fn is_first(&self) -> bool
        ensures { result ≡ is_some self.now.waiter }
    {
        self.waiter.is_some()
    }

    /// Whether it is the first client, and takes the root's notes from the inbox with this number.
    pub fn waits_at(&self, table: usize) -> bool
        ensures { IsTrue result ↔ MatchOption self.now.waiter ⊥ (λ w. w.inbox ≡ table) }
    {
        match &self.waiter {
            Some(waiter) => waiter.number() == table,
            None => false,
        }
    }

    /// Reads the counts of each supervisor by these passes, in their order, before it has asked the root to shut down.
    pub fn read_before_stop(&self, passes: &mut [CountsPass], counts: &mut Vec<CountsNow>)
        requires unasked { self.now.owner.posts ≡ [] }
        requires none { counts.old.items ≡ [] }
        requires room { length passes.old ≤ vec_capacity counts.old }
        ensures many { length counts.new.items ≡ length passes.old }
        ensures read { AreRead counts.new.items passes.old passes.new }
    {
        read_each(passes, counts);
    }

    /// Asks the root to shut down. False, and nothing changes, where it isn't the first client.
    pub fn stop(&mut self, words: &Words<N>) -> bool
        ensures told { result ≡ is_some self.old.waiter }
        ensures posted { IfSome self.old.waiter (λ _. self.new ≡ record self.old { owner = after_post ROOT_SLOT (word_of ROOT_NUMBER Shutdown) self.old.owner }) }
        ensures same { IfNone self.old.waiter (self.new ≡ self.old) }
    {
        let Some(_) = &self.waiter else {
            return false;
        };
        words.post(&mut self.owner, ROOT_SLOT, ROOT_NUMBER, Signal::Shutdown);
        true
    }
}
