//! The words and their tokens.
ghost use Rattle.std.specs.Prelude.{◌≡◌, ℕ, ◌+◌, ◌-◌, ◌*◌, ◌<◌, ◌≤◌, ◌⊎◌, ◌↔◌, List, [], ◌∷◌, ◌++◌, length, true, All, Contains, IsTrue, IfOk, OnOk, OnErr};
ghost use Rattle.otp_signals.specs.declared.signal.TheConstants.{NUMBER_LIMIT};
ghost use Rattle.otp_signals.specs.Lists.{numbers_to, AsOften, AllIn, NoneInBoth, NeverFalls, EachBetween, StayBelow, StayFrom, has, words_at};
ghost use Rattle.otp_signals.specs.declared.signal.Signal.TheVariants.{None};
ghost use Rattle.otp_signals.specs.Signals.{word_of, signal_of, Looked, WerePosted, SignalsWerePosted};
ghost use Rattle.otp_signals.specs.Holdings.{first_holding, after_draw, after_post, kept_of, cut_of, joined, IsWhole};
ghost use Rattle.otp_signals.specs.Rules.{first_view, kept_view, cut_view, Ended};

use crate::signal::{NUMBER_LIMIT, Signal};
use crate::steps::{
    Apart, BothRules, Cut, Draw, GiveBack, Learn, Lend, Look, Merge, OwnerPiece, Post, Witness,
};
use crate::view::SignalsView;
use atomic_table::{Seat, Table};
use std::alloc::{AllocError, Global};
use std::marker::{Brand, Model, PhantomData};
use std::mem;
use std::ops::Range;
use thiserror::Error;

/// How many numbers there are to draw: all below the limit but 0.
const FIRST_QUOTA: u64 = NUMBER_LIMIT - 1;

/// Which words a value belongs to. The call that names the words picks it.
pub trait WordsNaming {
    ghost use Rattle.atomic_table.specs.Seated.{TableId};

    ghost words: { TableId };
}

impl WordsNaming for Brand {
    ghost words = { record { words = 0; slots = 0; views_name = 0; atom = 0; block = 0; offset = 0; slot_names = [] } };
}

/// E9: the quota is smaller than what is asked of it.
#[derive(Clone, Copy, Debug, PartialEq, Eq, Error)]
#[error("the quota is too small")]
pub struct Exhausted;

/// Words that have no name yet, with the owner of all numbers and slots.
///
/// A value that belongs to named words can't leave the call that picked their name. So a program opens the words
/// here and hands them to one function that is generic in the name, where it calls `named`.
#[derive(Drop)]
pub struct OpenWords {
    table: Table<u8, SignalsView, usize, BothRules, Global>,
    seat: Seat<u8, SignalsView>,
}

impl Model for OpenWords {
    ghost use Rattle.std.specs.Prelude.{◌≡◌, []};
    ghost use Rattle.otp_signals.specs.Opens.{Opening, IsSized};
    ghost use Rattle.otp_signals.specs.Rules.{first_view};

    ghost Value = { Opening };

    ghost view = { λ o. record { words = o.table.shared.table_id; slots = o.table.shared.key } };

    ghost invariant = { λ o.
        IsSized o.table.shared.table_id o.table.shared.key
        × (o.seat.table_id ≡ o.table.shared.table_id)
        × (o.seat.me ≡ (first_view o.table.shared.key, [])) };
}

/// The words, which threads share. Contracts see their number of slots.
#[derive(Drop)]
pub struct Words<N: WordsNaming> {
    table: Table<u8, SignalsView, usize, BothRules, Global>,
    of: PhantomData<N>,
}

impl<N: WordsNaming> Model for Words<N> {
    ghost use Rattle.std.specs.Prelude.{◌≡◌, ℕ};
    ghost use Rattle.otp_signals.specs.Opens.{IsSized};

    ghost Value = { ℕ };

    ghost view = { λ w. w.table.shared.key };

    ghost invariant = { λ w.
        (w.table.shared.table_id ≡ N.words)
        × IsSized w.table.shared.table_id w.table.shared.key };
}

/// The right to draw numbers, as many as its quota says, and to post to its slots. It lies in one thread at a time.
#[derive(Drop)]
pub struct Owner<N: WordsNaming> {
    seat: Seat<u8, SignalsView>,
    quota: u64,
    // How many numbers it drew.
    drawn: u64,
    of: PhantomData<N>,
}

impl<N: WordsNaming> Model for Owner<N> {
    ghost use Rattle.std.specs.Prelude.{◌≡◌, [], length};
    ghost use Rattle.otp_signals.specs.Rules.{Fits};
    ghost use Rattle.otp_signals.specs.declared.view.Holding.{Holding};

    ghost Value = { Holding };

    ghost view = { λ o. o.seat.me.0.holding };

    ghost invariant = { λ o.
        (o.seat.table_id ≡ N.words)
        × (o.seat.me.1 ≡ [])
        × (o.quota ≡ o.seat.me.0.holding.quota)
        × (o.drawn ≡ length o.seat.me.0.holding.drawn)
        × Fits N.words.words o.seat.me.0.holding
        × (o.seat.me.0.looks ≡ []) };
}

/// The right to look at signals. Contracts see the words that it loaded in order, each behind its slot.
#[derive(Drop)]
pub struct Viewer<N: WordsNaming> {
    seat: Seat<u8, SignalsView>,
    of: PhantomData<N>,
}

impl<N: WordsNaming> Model for Viewer<N> {
    ghost use Rattle.std.specs.Prelude.{◌≡◌, ℕ, List, []};
    ghost use Rattle.otp_signals.specs.Holdings.{no_holding};

    ghost Value = { List (ℕ × ℕ) };

    ghost view = { λ v. v.seat.me.0.looks };

    ghost invariant = { λ v. (v.seat.table_id ≡ N.words) × (v.seat.me.1 ≡ []) × (v.seat.me.0.holding ≡ no_holding) };
}

impl OpenWords {
    /// Words with so many slots, numbered from 0. No number is drawn yet, and nothing is posted.
    ///
    /// Fails only where memory is refused; there is none for 2^64 words.
    pub fn open(alloc: Global, slots: usize) -> Result<OpenWords, AllocError>
        ensures { IfOk result (λ opened. opened.slots ≡ slots) }
    {
        if slots == usize::MAX {
            return Err(AllocError);
        }
        let mut words = Vec::from_elem(alloc, 0, slots + 1)?;
        words[0] = 1;
        let (table, seat) = Table::<u8, SignalsView, usize, BothRules, Global>::of_words(
            alloc,
            words.as_slice(),
            &slots,
        )?;
        Ok(OpenWords { table, seat })
    }

    /// The words under a name, and their first owner.
    pub fn named<N: WordsNaming>(self) -> (Words<N>, Owner<N>)
        requires { self.words ≡ N.words }
        ensures words { result.0 ≡ self.slots }
        ensures owner { result.1 ≡ first_holding self.slots }
        ensures slots { EachBetween 0 self.slots (Contains result.1.slots) }
    {
        let OpenWords { table, seat } = self;
        let words = Words {
            table,
            of: PhantomData,
        };
        let owner = Owner {
            seat,
            quota: FIRST_QUOTA,
            drawn: 0,
            of: PhantomData,
        };
        (words, owner)
    }
}

impl<N: WordsNaming> Owner<N> {
    /// How many more numbers it may draw.
    pub fn quota(&self) -> u64
        ensures { result ≡ self.now.quota }
    {
        self.quota
    }

    /// Whether it has the whole first quota, drawn or to draw: then no other owner drew a number or may draw one.
    pub fn is_whole(&self) -> bool
        ensures { IsTrue result ↔ IsWhole self.now }
    {
        self.drawn + self.quota == FIRST_QUOTA
    }
}

impl<N: WordsNaming> Words<N> {
    /// How many slots there are.
    pub fn slots(&self) -> usize
        ensures { result ≡ self.now }
    {
        self.table.word_count() - 1
    }

    /// Draws a number: a new one, above all that this owner drew. By its code one atomic step that takes no memory.
    ///
    /// Refused (E9) exactly where the quota is 0.
    pub fn draw(&self, owner: &mut Owner<N>) -> Result<u64, Exhausted>
        ensures drawn { IfOk result (λ number. owner.new ≡ after_draw number owner.old) }
        ensures stands { IfOk result (Contains owner.new.drawn) }
        ensures kept { AllIn owner.old.drawn owner.new.drawn }
        ensures first { IfOk result (λ number. 1 ≤ number) }
        ensures last { IfOk result (λ number. number < NUMBER_LIMIT) }
        ensures above { IfOk result (λ number. All (λ earlier. earlier < number) owner.old.drawn) }
        ensures some_quota { OnOk result (0 < owner.old.quota) }
        ensures exhausted { OnErr result (owner.old.quota ≡ 0) }
        ensures err { OnErr result (owner.new ≡ owner.old) }
    {
        if owner.quota == 0 {
            return Err(Exhausted);
        }
        let number = self.table.shared.fetch_add::<Draw>(&mut owner.seat, 0, 1);
        owner.quota -= 1;
        owner.drawn += 1;
        Ok(number)
    }

    /// Posts a signal for a number to a slot: the slot's word becomes the greater of what it was and this word.
    /// By its code one atomic step that takes no memory.
    pub fn post(&self, owner: &mut Owner<N>, slot: usize, number: u64, signal: Signal)
        requires slot { Contains owner.old.slots slot }
        requires number { (number ≡ 0) ⊎ Contains owner.old.drawn number }
        ensures { owner.new ≡ after_post slot (word_of number signal) owner.old }
    {
        let _ = &owner.quota;
        let word = signal.word(number);
        self.table
            .shared
            .fetch_max::<Post>(&mut owner.seat, slot + 1, word);
    }

    /// Loads the word of a slot, and answers its signal where it is the word of this number, else none. A signal
    /// that is answered stands as its word among those that the viewer saw.
    /// By its code one atomic step that takes no memory.
    pub fn look(&self, viewer: &mut Viewer<N>, slot: usize, number: u64) -> Signal
        requires { slot < self.now }
        ensures looked { Looked viewer.old viewer.new slot number result }
        ensures seen { (result ≡ None) ⊎ Contains viewer.new (slot, word_of number result) }
    {
        let word = self.table.shared.load::<Look>(&mut viewer.seat, slot + 1);
        Signal::of_word(word, number)
    }

    // Cuts off what P names, which is what the other arguments say.
    fn cut<P: OwnerPiece>(
        &self,
        seat: &mut Seat<u8, SignalsView>,
        _from: usize,
        _to: usize,
        _quota: u64,
    ) -> Seat<u8, SignalsView>
        requires seat { (seat.old.table_id ≡ N.words) × (seat.old.me.1 ≡ []) }
        requires quota { P.quota ≤ seat.old.me.0.holding.quota }
        requires slots { EachBetween P.from P.to (λ slot. has slot seat.old.me.0.holding.slots ≡ true) }
        requires unposted { EachBetween P.from P.to (λ slot. words_at slot seat.old.me.0.holding.posts ≡ []) }
        ensures old { (seat.new.table_id ≡ N.words) × (seat.new.me ≡ (kept_view P.from P.to P.quota seat.old.me.0, [])) }
        ensures new { (result.table_id ≡ N.words) × (result.me ≡ (cut_view P.from P.to P.quota seat.old.me.0, [])) }
    {
        self.table.shared.split_seat::<Cut<P>>(seat)
    }

    /// Cuts a new owner off, with these slots and this quota. It changes no word and takes no memory.
    ///
    /// Refused (E9) exactly where the owner's quota is smaller.
    pub fn split(
        &self,
        owner: &mut Owner<N>,
        slots: Range<usize>,
        quota: u64,
    ) -> Result<Owner<N>, Exhausted>
        requires slots { EachBetween slots.start slots.end (Contains owner.old.slots) }
        requires unposted { EachBetween slots.start slots.end (λ slot. words_at slot owner.old.posts ≡ []) }
        ensures ok { OnOk result (owner.new ≡ kept_of slots.start slots.end quota owner.old) }
        ensures new { IfOk result (λ new. new ≡ cut_of slots.start slots.end quota owner.old) }
        ensures moved { IfOk result (λ new. EachBetween slots.start slots.end (Contains new.slots)) }
        ensures lower { OnOk result (StayBelow slots.start owner.old.slots owner.new.slots) }
        ensures upper { OnOk result (StayFrom slots.end owner.old.slots owner.new.slots) }
        ensures enough { OnOk result (quota ≤ owner.old.quota) }
        ensures exhausted { OnErr result (owner.old.quota < quota) }
        ensures err { OnErr result (owner.new ≡ owner.old) }
    {
        if owner.quota < quota {
            return Err(Exhausted);
        }
        let seat = self.cut::<Brand>(&mut owner.seat, slots.start, slots.end, quota);
        owner.quota -= quota;
        Ok(Owner {
            seat,
            quota,
            drawn: 0,
            of: PhantomData,
        })
    }

    /// Takes another owner in: its numbers, its quota, its slots and what it posted. It changes no word and takes
    /// no memory.
    pub fn join(&self, owner: &mut Owner<N>, other: Owner<N>)
        ensures joined { owner.new ≡ joined owner.old other }
        ensures numbers { AsOften owner.new.drawn (owner.old.drawn ++ other.drawn) }
        ensures kept { AllIn owner.old.drawn owner.new.drawn }
        ensures gained { AllIn other.drawn owner.new.drawn }
        // No number was drawn by two owners.
        ensures apart { NoneInBoth owner.old.drawn other.drawn }
    {
        let Owner {
            seat,
            quota,
            drawn,
            of: _,
        } = other;
        self.table.shared.join_seat::<Merge>(&mut owner.seat, seat);
        // This load tells that the sums fit: all quotas and numbers drawn together are below [`NUMBER_LIMIT`].
        self.table.shared.load::<Learn>(&mut owner.seat, 0);
        owner.quota += quota;
        owner.drawn += drawn;
    }

    /// Splits a viewer off an owner. It changes no word and takes no memory.
    pub fn viewer(&self, owner: &mut Owner<N>) -> Viewer<N>
        ensures same { owner.new ≡ owner.old }
        ensures new { result ≡ [] }
    {
        Viewer {
            seat: self.table.shared.split_seat::<Apart>(&mut owner.seat),
            of: PhantomData,
        }
    }

    /// Splits another viewer off a viewer. It changes no word and takes no memory.
    pub fn split_viewer(&self, viewer: &mut Viewer<N>) -> Viewer<N>
        ensures same { viewer.new ≡ viewer.old }
        ensures new { result ≡ [] }
    {
        Viewer {
            seat: self.table.shared.split_seat::<Apart>(&mut viewer.seat),
            of: PhantomData,
        }
    }

    /// Tells what an owner and a viewer know of each other: each word that the viewer loaded at a slot of this owner
    /// is 0 or was posted there by it, and these words never fall. So a shutdown or a kill that was seen for a
    /// number was posted for that number. It changes no word, no list and takes no memory.
    pub fn compare(&self, owner: &mut Owner<N>, viewer: &mut Viewer<N>)
        ensures owner { owner.new ≡ owner.old }
        ensures viewer { viewer.new ≡ viewer.old }
        ensures posted { WerePosted owner.old.slots owner.old.posts viewer.old }
        ensures signals { SignalsWerePosted owner.old.slots owner.old.posts viewer.old }
        ensures rising { (slot : ℕ) → Contains owner.old.slots slot → NeverFalls (words_at slot viewer.old) }
    {
        let _ = &owner.quota;
        let spare = self.table.shared.split_seat::<Apart>(&mut viewer.seat);
        let seat = mem::replace(&mut viewer.seat, spare);
        self.table.shared.join_seat::<Lend>(&mut owner.seat, seat);
        self.table.shared.load::<Witness>(&mut owner.seat, 0);
        viewer.seat = self.table.shared.split_seat::<GiveBack>(&mut owner.seat);
    }

    /// Takes the words apart, with all owners joined to one, and answers the number that would have come next.
    pub fn close(self, owner: Owner<N>) -> u64
        requires { IsWhole owner }
        ensures numbers { owner.drawn ≡ numbers_to (length owner.drawn) }
        ensures next { result ≡ length owner.drawn + 1 }
        ensures rules { Ended self owner result }
    {
        let Words { table, of: _ } = self;
        let Owner {
            seat,
            quota: _,
            drawn: _,
            of: _,
        } = owner;
        let closed = table.close_with(seat);
        let next = closed.word(0);
        closed.free();
        next
    }
}
