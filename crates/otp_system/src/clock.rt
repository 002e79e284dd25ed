//! Where a hand's readings of the clock come from, and who is told how far a run is.
ghost use Rattle.std.specs.Prelude.{◌≤◌};
ghost use Rattle.otp_spec.specs.declared.limits.TheConstants.{MAX_READING};

use otp_rules::CountsNow;

/// A clock. Its readings are whole milliseconds since any moment.
pub trait Millis {
    /// The time now, at most 2^62.
    fn now(&mut self) -> u64
        ensures { result ≤ MAX_READING };
}

/// What is asked before each turn of a hand, in the hand's own thread; and what is told how far a run is.
pub trait Gate {
    /// The reading of the clock for this hand's next turn, in milliseconds, at most 2^62.
    fn before_turn(&self, hand: usize) -> u64
        ensures { result ≤ MAX_READING };

    /// Told after a turn of this hand in which it found nothing to do, where no other hand found something in its last one; in
    /// the hand's own thread, so a gate may sleep there. It needn't be written.
    fn idle(&self, _hand: usize) {}

    /// Told now and then by `run_tree_counted` of `otp_tree`, while no hand makes a turn: how many turns each hand has made, of how
    /// many in all, and what each supervisor published last of its children. It needn't be written.
    fn saw(&self, _made: u64, _of: u64, _counts: &[CountsNow]) {}
}
