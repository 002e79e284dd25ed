//! What is kept of a run.

use crate::TryEnd;
use otp_text::timeline::Moment;
use otp_trial::Trial;
use otp_trial::steps::Outcome;

/// A line of a script that was played, and what came of it.
#[derive(Drop)]
pub struct Played {
    /// Its number, counted from 1; 0 for the opening of the tree.
    pub number: u64,
    /// Its text.
    pub line: Vec<u8>,
    /// The lines of the orders that followed from it.
    pub told: Vec<u8>,
    /// What became of it.
    pub outcome: Outcome,
    /// How the supervisors stood then.
    pub moment: Moment,
}

/// A script that was played on a tree, to its end or to the line that ended the run.
#[derive(Drop)]
pub struct Account {
    pub opening: Played,
    /// The lines that said something, in their order.
    pub lines: Vec<Played>,
    /// The tree as it stands in the end.
    pub trial: Trial,
    pub end: TryEnd,
}
