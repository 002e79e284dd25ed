use otp_reason::{Reason, Started};
use std::alloc::Global;

/// What a bridge stands before: something that is started, looked after and ended in its own way, as a device, a
/// store or a library with threads of its own (`supervisor_bridge`, callbacks `init` and `terminate`).
///
/// # What an implementer owes
///
/// - Every call returns soon. The bridge takes its turns on a thread that it shares with other processes, so a call
///   that waits keeps all of them waiting. Whatever takes long is begun in one call and looked at in a later `poll`.
/// - `init` brings the subsystem up from whatever state it is in. After the bridge's end its supervisor may start the
///   same value again, also after a kill, which called nothing.
/// - `terminate` takes everything down that `init` brought up; nothing is called after it but another `init`.
///
/// # What it is told, and how often
///
/// Each start calls `init` once. After `init` answered [`Started::Up`], each turn makes one of these calls:
/// `poll` where there is no signal; `terminate` once, with [`Reason::Shutdown`], where the supervisor asks it to shut
/// down; none where it is killed. Once `poll` has answered a reason the subsystem is gone, and `terminate` is not
/// called. Where `init` answered anything but `Up`, nothing else is called.
///
/// # The relations
///
/// `inited`, `polled` and `terminated` say what a call did: that the subsystem `before`, in one call, gave this
/// answer and was left as `after`. They are for contracts alone, and their default says nothing. A contract above
/// that speaks of one such fact can be met by one call, and by no more and no fewer.
pub trait Subsystem: Send + Drop {
    ghost use Rattle.std.specs.Prelude.{⊤, Option};
    ghost use Rattle.otp_reason.specs.declared.note.Started.{Started};
    ghost use Rattle.otp_reason.specs.declared.reason.Reason.{Reason};

    ghost inited: { Self → Started → Self → Type 0 } = { λ before answer after. ⊤ };

    ghost polled: { Self → Option Reason → Self → Type 0 } = { λ before answer after. ⊤ };

    ghost terminated: { Self → Reason → Self → Type 0 } = { λ before reason after. ⊤ };

    /// Brings it up.
    fn init(&mut self) -> Started
        ensures { inited self.old result self.new };

    /// Looks whether it still runs; the reason, once it has ended by itself.
    fn poll(&mut self) -> Option<Reason>
        ensures { polled self.old result self.new };

    /// Takes it down.
    fn terminate(&mut self, reason: Reason)
        ensures { terminated self.old reason self.new };
}

/// Any subsystem.
pub type BoxedSubsystem = Box<dyn Subsystem, Global>;
