//! What a turn of a supervisor answers.
ghost use Rattle.std.specs.Prelude.{◌≡◌, ℕ, ◌+◌, Ok};
ghost use Rattle.otp_bodies.specs.Answers.{HasTurned, answer_of};

use otp_rules::Kind;

/// What a turn did. The first five are one event of the supervisor each; after the others nothing has happened.
#[derive(Clone, Copy, Debug, PartialEq, Eq)]
pub enum TurnAnswer {
    /// The supervisor was opened under the number that was handed in.
    Opened,
    /// A deadline had come: children that didn't shut down in time are killed.
    Ticked,
    /// The parent's signal was obeyed: the children are being stopped.
    Stopped,
    /// The first item that waited was taken up.
    Resumed,
    /// An item was taken from the inbox.
    Took,
    /// The inbox was found empty.
    Quiet,
    /// The supervisor has ended, and the inbox was found empty; or the number is one of an earlier opening.
    Ended,
    /// Orders are still to be sent.
    Pending,
    /// The core is full ([`Core::is_full`](otp_core::Core::is_full)): nothing happens before a checkpoint
    /// ([`Office::cut`](crate::office::Office::cut)), which a supervisor under its lock makes by itself.
    Full,
}

/// Why a turn did nothing.
#[derive(Clone, Copy, Debug, PartialEq, Eq)]
pub enum TurnFault {
    /// E0: memory was refused.
    OutOfMemory,
    /// E9: the seat may draw no more process numbers.
    Exhausted,
    /// E18: the supervisor runs under a lower number.
    WrongNumber,
}

/// The answer of a turn that was an event of this kind.
pub fn answer_of(kind: Kind) -> TurnAnswer
    ensures answer { result ≡ answer_of kind }
    ensures turn { (n : ℕ) → HasTurned (Ok result) n (n + 1) }
{
    match kind {
        Kind::Opened(_) => TurnAnswer::Opened,
        Kind::Took(_) => TurnAnswer::Took,
        Kind::Resumed => TurnAnswer::Resumed,
        Kind::Ticked => TurnAnswer::Ticked,
        Kind::Stopped => TurnAnswer::Stopped,
    }
}
