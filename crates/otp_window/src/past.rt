//! All stamps of an opening, as contracts alone see them.

ghost use Rattle.std.specs.Prelude.{◌≡◌, ◌++◌, ◌∷◌, [], List, ℕ};
ghost use Rattle.std.specs.Coded.{coded_list, coded_ℕ};
ghost use base.Fml.{ftrue};

use std::marker::{Model, PhantomData};

/// A list of stamps that only clauses read. It has no bytes, and its methods do nothing at run time.
pub struct PastStamps {
    marker: PhantomData<()>,
    pub ghost stamps: { List ℕ } by { coded_list coded_ℕ },
}

impl Model for PastStamps {
    ghost also_owns = { λ _. ftrue };
}

impl PastStamps {
    /// No stamps.
    pub fn new() -> PastStamps
        ensures none { result.stamps ≡ [] }
    {
        PastStamps {
            marker: PhantomData,
        }
    }
}

impl Drop for PastStamps {
    fn drop(self) {
        let Self { marker: _ } = self;
    }
}

// It has no bytes and owns nothing.
unsafe impl Send for PastStamps {}

unsafe impl Sync for PastStamps {}

/// Stamps, and the one that comes next.
pub struct Next {
    pub past: PastStamps,
    pub stamp: u64,
}

impl Next {
    // All of them.
    fn all(&self) -> PastStamps
        ensures one_more { result.stamps ≡ self.now.past.stamps ++ self.now.stamp ∷ [] }
    {
        PastStamps {
            marker: PhantomData,
        }
    }
}

impl Drop for Next {
    fn drop(self) {
        let Self { past: _, stamp: _ } = self;
    }
}

/// The stamps with one more, the last.
pub fn with_stamp(past: PastStamps, stamp: u64) -> PastStamps
    ensures { result.stamps ≡ past.stamps ++ stamp ∷ [] }
{
    let next = Next { past, stamp };
    next.all()
}
