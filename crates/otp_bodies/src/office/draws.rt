//! The numbers of a core's events, drawn by a seat of words that threads share.
ghost use Rattle.std.specs.Prelude.{◌≡◌, ◌<◌, All};
ghost use Rattle.otp_signals.specs.Holdings.{after_draw};

use otp_core::Numbers;
use otp_signals::{Owner, Words, WordsNaming};

/// Words with an owner that is lent, as a source of numbers.
///
/// That the owner stays the same one from number to number is part of what it gives, by the ghost name of the loan: so
/// whoever lent it knows afterwards what was drawn.
#[derive(Drop)]
pub(crate) struct Draws<'a, N: WordsNaming> {
    pub(crate) words: &'a Words<N>,
    pub(crate) owner: &'a mut Owner<N>,
}

impl<'a, N: WordsNaming> Numbers for Draws<'a, N> {
    ghost can_give = { λ draws. 0 < draws.owner.now.quota };

    ghost gives = { λ draws n after.
        All (λ m. m < n) draws.owner.now.drawn
        × (after.owner.now ≡ after_draw n draws.owner.now)
        × (after.owner.ghost_name ≡ draws.owner.ghost_name) };

    fn next(&mut self) -> u64 {
        match self.words.draw(self.owner) {
            Ok(number) => number,
            Err(_) => unreachable!(),
        }
    }
}
