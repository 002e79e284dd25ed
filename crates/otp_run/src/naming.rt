use std::marker::Brand;

/// Which deques they are. The call that names a run queue picks it.
pub trait RunNaming {
    ghost use Rattle.std.specs.Prelude.{ℕ};
    ghost use Rattle.otp_run.specs.Names.{DequeId};

    // The deque of each scheduler, by its index.
    ghost deque: { ℕ → DequeId };
}

impl RunNaming for Brand {
    ghost use Rattle.otp_run.specs.Names.{no_deque};

    ghost deque = { λ index. no_deque };
}
