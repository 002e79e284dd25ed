//! How a run ends that is not concluded.

ghost use Rattle.std.specs.Prelude.{◌≡◌};
ghost use Rattle.otp_try.specs.Pages.{end_of};

use crate::play::TryEnd;
use otp_reason::Text;
use otp_script::ScriptFault;
use otp_trial::{ActionEnd, Halt};

/// How a run ends early: each end of a run but the good one.
#[derive(Clone, Copy, Debug, PartialEq, Eq)]
pub(crate) enum EarlyEnd {
    /// The line with this number can't be read.
    LineRefused(u64, ScriptFault),
    /// The line with this number could do nothing; the child with this path may have been meant.
    LineMissed(u64, ActionEnd, Option<Text>),
    /// There were 2^62 events, as many as a supervisor has in its life.
    HistoryFull,
    InputFailed,
    OutputFailed,
    OutOfMemory,
}

impl EarlyEnd {
    /// As it is told to whoever wanted the run.
    #[tactic(auto, unfolding(crate::specs::Pages::end_of))]
    pub fn told(self) -> TryEnd
        ensures { result ≡ end_of self }
    {
        match self {
            EarlyEnd::LineRefused(line, why) => TryEnd::LineRefused(line, why),
            EarlyEnd::LineMissed(line, why, near) => TryEnd::LineMissed(line, why, near),
            EarlyEnd::HistoryFull => TryEnd::HistoryFull,
            EarlyEnd::InputFailed => TryEnd::InputFailed,
            EarlyEnd::OutputFailed => TryEnd::OutputFailed,
            EarlyEnd::OutOfMemory => TryEnd::OutOfMemory,
        }
    }
}

impl From<Halt> for EarlyEnd {
    ghost use Rattle.otp_try.specs.Pages.{IsHalt};

    ghost from_gives = { λ _ end. IsHalt end };

    fn from(halt: Halt) -> Self {
        match halt {
            Halt::HistoryFull => EarlyEnd::HistoryFull,
            Halt::OutOfMemory => EarlyEnd::OutOfMemory,
        }
    }
}
