//! A clock that stands still.

use otp_tree::Gate;

/// A clock that stands still, for a tree in which no time is to pass: no deadline comes.
#[derive(Clone, Copy, Debug, PartialEq, Eq)]
pub struct Still;

impl Gate for Still {
    fn before_turn(&self, _hand: usize) -> u64 {
        0
    }
}
