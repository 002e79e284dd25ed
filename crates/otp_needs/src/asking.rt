//! Whether an event needs a process number, asked of a core.

ghost use Rattle.std.specs.Prelude.{ℕ, Bool, ◌≡◌};
ghost use Rattle.otp_rules.specs.Needs.{needs_number};
ghost use Rattle.otp_rules.specs.declared.event.Kind.{Kind};
ghost use Rattle.otp_core.specs.View.{state_of};

use crate::needs;
use otp_core::Core;
use otp_rules::{Kind, laws};

/// What tells beforehand which events start a child.
pub trait NeedsNumber {
    /// Whether an event of this kind at this reading starts a child.
    ghost starts: { Self → ℕ → Kind → Bool };

    /// Whether an event at this reading (milliseconds) would start a child, so that `Core::step` wants a process number for
    /// it. By its code it takes no memory.
    fn needs_number(&self, reading: u64, kind: &Kind) -> bool
        ensures { result ≡ starts self.now reading kind.now };
}

impl NeedsNumber for Core {
    ghost starts = { λ core. needs_number (state_of core) };

    fn needs_number(&self, reading: u64, kind: &Kind) -> bool {
        laws::cuts_agree();
        laws::runs_are_joined();
        needs::needs_number(self.machine(), reading, kind)
    }
}
