//! Where the process numbers of children come from.

ghost use Rattle.std.specs.Prelude.{ℕ, ◌≡◌, ◌+◌, ◌<◌, ◌^◌, Some, IsTrue, is_some};

/// A source of process numbers. A step asks it exactly where it starts a child.
pub trait Numbers {
    /// The source has a number to give.
    ghost can_give: { Self → Type 0 };

    /// The source may give this number, and becomes this by it.
    ghost gives: { Self → ℕ → Self → Type 0 };

    /// The next number.
    fn next(&mut self) -> u64
        requires { can_give self.old }
        ensures { gives self.old result self.new };
}

/// A number that was drawn beforehand, or none.
#[derive(Clone, Copy, Debug, PartialEq, Eq)]
pub struct Given {
    pub number: Option<u64>,
}

impl Numbers for Given {
    ghost can_give = { λ given. IsTrue (is_some given.number) };

    ghost gives = { λ given n after. given.number ≡ Some n };

    fn next(&mut self) -> u64 {
        self.number.unwrap_or(0)
    }
}

/// Counted numbers: each is the next after the last one.
#[derive(Clone, Copy, Debug, PartialEq, Eq)]
pub struct Counter {
    pub last: u64,
}

impl Numbers for Counter {
    ghost can_give = { λ counter. counter.last + 1 < 2 ^ 64 };

    ghost gives = { λ counter n after. (n ≡ counter.last + 1) × (after ≡ record { last = counter.last + 1 }) };

    fn next(&mut self) -> u64 {
        self.last += 1;
        self.last
    }
}
