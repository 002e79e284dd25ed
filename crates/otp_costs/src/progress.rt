//! Who sees how far it is while the children of a tree are played.

use otp_trial::TriedSupervisor;

/// Who sees how far it is where all children of a tree are played: where hardly two of them are alike that may take minutes.
pub trait Progress {
    /// The children of so many of so many supervisors have been played.
    fn saw(&self, made: usize, of: usize);
}

/// Nobody sees it.
#[derive(Drop)]
pub struct Unseen;

impl Progress for Unseen {
    fn saw(&self, _made: usize, _of: usize) {}
}

/// Shows that the children of the supervisor at this place are next.
pub(crate) fn see<P: Progress>(progress: &P, place: usize, seats: &[TriedSupervisor]) {
    progress.saw(place, seats.len());
}
