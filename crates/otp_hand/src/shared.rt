//! What all hands of a tree share.
ghost use Rattle.std.specs.Prelude.{◌≡◌, ◌≤◌, length};

use otp_inbox::Inbox;
use otp_job::Body;
use otp_signals::Words;
use otp_sup::{Letter, Message, Sup, SupNaming};
use std::marker::Model;

/// The signal words and the supervisors of a tree, which all hands share, and the inbox of whoever opened it.
#[derive(Drop)]
pub struct Shared<N: SupNaming, J: Drop, S: Drop> {
    pub words: Words<N>,
    /// In the order of their numbers, the root first.
    pub sups: Vec<Sup<N, Body<J, S>>>,
    /// To which the root's notes go.
    pub outer: Inbox<N, Message, Letter<Body<J, S>>>,
}

impl<N: SupNaming, J: Drop, S: Drop> Model for Shared<N, J, S> {
    ghost use Rattle.std.specs.Prelude.{◌≡◌, length};
    ghost use Rattle.otp_run.specs.Lists.{AllAt};
    ghost use Rattle.otp_hand.specs.Hands.{SystemView};

    ghost Value = { SystemView };

    ghost view = { λ s. record { slots = s.words; tables = length s.sups.items } };

    ghost invariant = { λ s. AllAt (λ k sup. sup.inbox ≡ k) s.sups.items × (s.outer ≡ length s.sups.items) };
}

impl<N: SupNaming, J: Drop, S: Drop> Shared<N, J, S> {
    /// How many supervisors the tree has.
    pub fn tables(&self) -> usize
        ensures { result ≡ self.now.tables }
    {
        self.sups.len()
    }

    /// The inbox of the supervisor with this number, or of whoever opened the tree.
    pub fn inbox_of(&self, table: usize) -> &Inbox<N, Message, Letter<Body<J, S>>>
        ensures { table ≤ self.now.tables → result.now ≡ table }
    {
        match self.sups.get(table) {
            Some(sup) => sup.inbox(),
            None => &self.outer,
        }
    }
}
