ghost use Rattle.std.specs.Prelude.{◌≡◌};
ghost use Rattle.otp_reason.specs.Delivery.{delivery_of};

use crate::reason::Reason;

/// What an exit signal does to the process that it reaches.
#[derive(Clone, Copy, Debug, PartialEq, Eq)]
pub enum Delivery {
    /// Nothing.
    Ignored,
    /// The process ends with this reason.
    Dies(Reason),
    /// The process goes on and finds this reason in its mailbox.
    Message(Reason),
}

/// What an exit signal with this reason, sent by another process, does to a process that traps exits or
/// does not (Erlang Reference Manual, "Processes", "Receiving Exit Signals").
///
/// `Kill` ends each process, with `Killed`. Any other reason is a message to a process that traps; one that
/// does not ignores `Normal` and dies of every other.
pub fn deliver(reason: Reason, traps: bool) -> Delivery
    ensures { result ≡ delivery_of reason traps }
{
    match reason {
        Reason::Kill => Delivery::Dies(Reason::Killed),
        _ if traps => Delivery::Message(reason),
        Reason::Normal => Delivery::Ignored,
        _ => Delivery::Dies(reason),
    }
}
