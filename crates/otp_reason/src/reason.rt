ghost use Rattle.std.specs.Prelude.{◌≡◌};
ghost use Rattle.otp_reason.specs.Quiet.{is_quiet};

use crate::text::Text;

/// Why a process ended, or is asked to end.
#[derive(Clone, Copy, Debug, PartialEq, Eq)]
pub enum Reason {
    /// It had done its work.
    Normal,
    /// It was asked to shut down, or chose to.
    Shutdown,
    /// A shutdown that says more: `{shutdown, Term}`.
    ShutdownWith(Text),
    /// The signal that no process can trap. A process that it hits ends with `Killed`.
    Kill,
    /// It was killed.
    Killed,
    /// There is no such process.
    NoProc,
    /// It failed.
    Error(Text),
}

impl Reason {
    /// Whether a transient child that ends with this reason is left alone: `normal`, `shutdown` and
    /// `{shutdown, Term}` (Supervisor Behaviour, "Child Specification", `restart`).
    pub fn is_quiet(&self) -> bool
        ensures { result ≡ is_quiet self.now }
    {
        match self {
            Reason::Normal | Reason::Shutdown | Reason::ShutdownWith(_) => true,
            Reason::Kill | Reason::Killed | Reason::NoProc | Reason::Error(_) => false,
        }
    }
}
