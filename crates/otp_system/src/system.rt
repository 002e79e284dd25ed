//! The tree: its supervisors, which the hands share.
ghost use Rattle.std.specs.Prelude.{◌≡◌, ◌↔◌, ◌<◌, ◌≤◌, ℕ, None, is_some, length, true, IfNone, IfSome, IsTrue};
ghost use Rattle.otp_signals.specs.Holdings.{after_post};
ghost use Rattle.otp_signals.specs.Signals.{word_of};
ghost use Rattle.otp_signals.specs.declared.signal.Signal.TheVariants.{Shutdown};
ghost use Rattle.otp_hand.specs.declared.client.TheConstants.{ROOT_NUMBER, ROOT_SLOT};
ghost use Rattle.otp_hand.specs.Hands.{Heard};
ghost use Rattle.otp_hand.specs.Readings.{HasRead};
ghost use Rattle.otp_hand.specs.Standings.{reach_of};
ghost use Rattle.otp_system.specs.Hearings.{HeardNothing};

use crate::growth::Growth;
use otp_hand::ending::count_end;
use otp_hand::places::said_in;
use otp_hand::{Hand, Shared, TreeClient};
use otp_job::Body;
use otp_reason::Note;
use otp_rules::{CountsNow, Item};
use otp_run::RunNaming;
use otp_sup::{Sup, SupNaming};
use std::marker::Model;
use std::sync::Wait;

/// A tree, for whoever opened it: what all hands share, with all that can be done with it.
#[derive(Drop)]
pub struct System<N: SupNaming, J: Drop, S: Drop> {
    pub(crate) shared: Shared<N, J, S>,
    /// None where no supervisor can be added.
    growth: Option<Growth<N>>,
}

impl<N: SupNaming, J: Drop, S: Drop> Model for System<N, J, S> {
    ghost use Rattle.otp_hand.specs.Hands.{SystemView};

    ghost Value = { SystemView };

    ghost view = { λ s. s.shared };
}

/// For whoever opens a tree, adds supervisors to it, or takes it apart, as `otp_tree` does. Whoever uses a tree needs none of these.
impl<N: SupNaming, J: Drop, S: Drop> System<N, J, S> {
    /// A tree of what its hands share. Supervisors can be added where it has a [`Growth`]: the one that was opened for this tree, since
    /// places are to be given out at one desk alone.
    pub fn of_parts(shared: Shared<N, J, S>, growth: Option<Growth<N>>) -> Self
        ensures { result ≡ shared }
    {
        System { shared, growth }
    }

    /// Both, as they are.
    pub fn into_parts(self) -> (Shared<N, J, S>, Option<Growth<N>>)
        ensures { result.0 ≡ self }
    {
        let System { shared, growth } = self;
        (shared, growth)
    }

    /// What its hands share.
    pub fn shared(&self) -> &Shared<N, J, S>
        ensures { result.now ≡ self.now }
    {
        &self.shared
    }

    /// By what supervisors are added. None where that can't be.
    pub fn growth(&self) -> Option<&Growth<N>> {
        self.growth.as_ref()
    }
}

impl<N: SupNaming, J: Drop, S: Drop> System<N, J, S> {
    /// How many supervisors the tree can have: so many places there are.
    pub fn places(&self) -> usize
        ensures { result ≡ self.now.tables }
    {
        self.shared.tables()
    }

    /// How many supervisors the tree has: those that it was opened with, and those that were added, as far as a walk over what was
    /// added meets them.
    pub fn tables(&self) -> usize
        ensures { result ≤ self.now.tables }
    {
        let places = self.shared.tables();
        match &self.growth {
            None => places,
            Some(growth) => growth.count().min(places),
        }
    }

    /// Whether the tree has the supervisor with this number.
    pub fn has_table(&self, table: usize) -> bool
        ensures within { IsTrue result → table < self.now.tables }
        ensures planned { is_some (N.plan table) ≡ true → table < self.now.tables → IsTrue result }
    {
        if table >= self.shared.tables() {
            return false;
        }
        match &self.growth {
            None => true,
            Some(growth) => growth.has(table),
        }
    }

    /// The supervisor with this number, if the tree has it.
    pub(crate) fn sup(&self, table: usize) -> Option<&Sup<N, Body<J, S>>>
        ensures of { IfSome result (λ sup. sup.now.inbox ≡ table) }
        ensures none { IfNone result (is_some (N.plan table) ≡ true → table < self.now.tables → ⊥) }
    {
        if self.has_table(table) {
            self.shared.sups.get(table)
        } else {
            None
        }
    }

    /// How many of its places have a supervisor, at least: no other had a plan when the tree got its name.
    pub fn known<R: Wait>(&self, rt: &R) -> usize
        ensures { (k : ℕ) → result ≤ k → k < self.now.tables → N.plan k ≡ None }
    {
        match &self.growth {
            None => self.shared.tables(),
            Some(growth) => growth.known(rt),
        }
    }

    /// Asks the root to shut down: it stops its children, and ends. False, and nothing happens, where this isn't the
    /// client that the tree was opened with.
    pub fn stop(&self, client: &mut TreeClient<N, Body<J, S>>) -> bool
        ensures told { result ≡ is_some client.old.waiter }
        // The shutdown was posted to the root's slot, for its number.
        ensures posted { IfSome client.old.waiter (λ _. client.new ≡ record client.old { owner = after_post ROOT_SLOT (word_of ROOT_NUMBER Shutdown) client.old.owner }) }
        ensures same { IfNone client.old.waiter (client.new ≡ client.old) }
        ensures reach { reach_of client.new ≡ reach_of client.old }
    {
        client.stop(&self.shared.words)
    }

    /// The next thing that the root told: `Up` once all its children have started, `Exit` when it has ended. None where
    /// there is nothing new, or this isn't the client that the tree was opened with.
    pub fn root_note<R: Wait>(&self, rt: &R, client: &mut TreeClient<N, Body<J, S>>) -> Option<Note>
        ensures heard { IfSome result (λ note. Heard note client.old client.new) }
        // Where nothing is told the inbox was found empty: no note is lost.
        ensures nothing { IfNone result (HeardNothing self.now.tables client.old client.new) }
        ensures owner { client.new.owner ≡ client.old.owner }
        ensures senders { client.new.senders ≡ client.old.senders }
        ensures reach { reach_of client.new ≡ reach_of client.old }
    {
        let waiter = client.waiter.as_mut()?;
        if waiter.number() != self.shared.outer.number() {
            return None;
        }
        let letter = self.shared.outer.take(rt, waiter)?;
        match said_in(letter) {
            Item::Note(note) => {
                client.heard = client.heard.saturating_add(count_end(note));
                Some(note)
            }
            Item::Call(_, _) => None,
        }
    }

    /// What a supervisor published last of its children: what count_children would have answered after its last event, or, if
    /// it has had none, before it was opened (supervisor, count_children/1). None where the tree has no supervisor of this
    /// number.
    ///
    /// It is read by the hand's pass, without the supervisor's lock: one load, which waits for nobody and takes no memory.
    /// So it can be older than what the supervisor does meanwhile, but never older than what this hand read of it before.
    pub fn counts(&self, hand: &mut Hand<N, J, S>, table: usize) -> Option<CountsNow>
    where
        N: RunNaming,
        // The last of what had been published, which begins with all that the hand's pass had seen.
        ensures read { IfSome result (λ now. HasRead table now hand.old hand.new) }
        ensures none { IfNone result (hand.new ≡ hand.old) }
        ensures there { is_some result ≡ true ↔ (table < self.now.tables) × (table < length hand.old.passes) }
    {
        if table >= self.shared.sups.len() {
            return None;
        }
        hand.read_counts(table)
    }
}
