//! Who publishes counts, and who reads them.
ghost use Rattle.std.specs.Prelude.{◌≡◌, [], ◌∷◌, ◌++◌, IfOk};
ghost use Rattle.otp_signals.specs.Counts.{IsBeginning, IsRead, after_publish, fresh_pass};
ghost use Rattle.otp_signals.specs.Words.{AreFew};

use crate::counts::steps::{Apart, GiveBack, LastStands, Lend, Publish, Read, Witness};
use crate::counts::view::CountsView;
use crate::counts::word::{counts_in, word_of};
use atomic_table::{Seat, Table};
use otp_rules::CountsNow;
use std::alloc::{AllocError, Global};
use std::marker::Model;
use std::mem;
use std::sync::Arc;

/// The word, which all who publish or read share.
type Word = Arc<Table<u8, CountsView, u64, LastStands, Global>, Global>;

/// The right to publish the counts of a supervisor. There is one for each, and it lies beside what it counts, under the
/// same lock. Contracts see the counts that were published, in order.
#[derive(Drop)]
pub struct Publisher {
    word: Word,
    seat: Seat<u8, CountsView>,
}

impl Model for Publisher {
    ghost use Rattle.std.specs.Prelude.{◌≡◌, ◌<◌, [], length, map};
    ghost use Rattle.std.specs.Arc.{arc_value};
    ghost use Rattle.otp_signals.specs.Counts.{Publishing, IsOfWord};
    ghost use Rattle.otp_signals.specs.Words.{counts_in};

    ghost Value = { Publishing };

    ghost view = { λ p. record { word = p.seat.table_id; published = map counts_in p.seat.me.0.published } };

    ghost invariant = { λ p.
        IsOfWord p.seat.table_id (arc_value p.word).shared.table_id p.seat.me.1
        × (0 < length p.seat.me.0.published)
        × (p.seat.me.0.seen ≡ [])
        × (p.seat.me.0.reads ≡ 0) };
}

/// The right to read the counts of a supervisor, in one thread at a time. Contracts see the counts that had been published
/// when it read last, in order, and how often it read.
#[derive(Drop)]
pub struct CountsPass {
    word: Word,
    seat: Seat<u8, CountsView>,
}

impl Model for CountsPass {
    ghost use Rattle.std.specs.Prelude.{◌≡◌, [], map};
    ghost use Rattle.std.specs.Arc.{arc_value};
    ghost use Rattle.otp_signals.specs.Counts.{Reading, IsOfWord};
    ghost use Rattle.otp_signals.specs.Words.{counts_in};

    ghost Value = { Reading };

    ghost view = { λ p. record { word = p.seat.table_id; seen = map counts_in p.seat.me.0.seen; reads = p.seat.me.0.reads } };

    ghost invariant = { λ p.
        IsOfWord p.seat.table_id (arc_value p.word).shared.table_id p.seat.me.1
        × (p.seat.me.0.published ≡ []) };
}

impl Publisher {
    /// Counts that stand so at first, and the right to publish later ones.
    ///
    /// Refused only where there is no memory.
    pub fn open(alloc: Global, first: CountsNow) -> Result<Publisher, AllocError>
        requires { AreFew first }
        ensures { IfOk result (λ publisher. publisher.published ≡ first ∷ []) }
    {
        let word = word_of(first);
        let (table, seat) = Table::<u8, CountsView, u64, LastStands, Global>::of_words(
            alloc,
            &[word],
            &word,
        )?;
        Ok(Publisher {
            word: Arc::new(alloc, table)?,
            seat,
        })
    }

    /// Publishes these counts: whoever reads from now on gets them, or later ones. One swap; takes no memory.
    pub fn publish(&mut self, counts: CountsNow)
        requires { AreFew counts }
        ensures { self.new ≡ after_publish counts self.old }
    {
        let word = word_of(counts);
        self.word.shared.swap::<Publish>(&mut self.seat, 0, word);
    }

    /// A pass that has read nothing yet. Takes no memory.
    ///
    /// Refused only where there are as many passes as a machine word counts.
    pub fn pass(&mut self) -> Result<CountsPass, AllocError>
        ensures same { self.new ≡ self.old }
        ensures pass { IfOk result (λ pass. pass ≡ fresh_pass self.old.word) }
    {
        let word = Arc::try_clone(&self.word)?;
        let seat = self.word.shared.split_seat::<Apart>(&mut self.seat);
        Ok(CountsPass { word, seat })
    }

    /// Tells what the one who publishes and a pass know of each other: what the pass saw is a beginning of what was
    /// published. One load, which changes nothing and takes no memory.
    pub fn compare(&mut self, pass: &mut CountsPass)
        requires { self.old.word ≡ pass.old.word }
        ensures same { self.new ≡ self.old }
        ensures same_pass { pass.new ≡ pass.old }
        ensures beginning { IsBeginning pass.old.seen self.old.published }
    {
        let shared = &self.word.shared;
        let spare = shared.split_seat::<Apart>(&mut pass.seat);
        let lent = mem::replace(&mut pass.seat, spare);
        shared.join_seat::<Lend>(&mut self.seat, lent);
        shared.load::<Witness>(&mut self.seat, 0);
        pass.seat = shared.split_seat::<GiveBack>(&mut self.seat);
    }
}

impl CountsPass {
    /// Another pass, which has read nothing yet. Takes no memory.
    ///
    /// Refused only where there are as many passes as a machine word counts.
    pub fn split(&mut self) -> Result<CountsPass, AllocError>
        ensures same { self.new ≡ self.old }
        ensures pass { IfOk result (λ pass. pass ≡ fresh_pass self.old.word) }
    {
        let word = Arc::try_clone(&self.word)?;
        let seat = self.word.shared.split_seat::<Apart>(&mut self.seat);
        Ok(CountsPass { word, seat })
    }

    /// The counts that were published last. One load; takes no memory.
    pub fn read(&mut self) -> CountsNow
        ensures { IsRead self.old self.new result }
    {
        let word = self.word.shared.load::<Read>(&mut self.seat, 0);
        counts_in(word)
    }
}
