//! What a person may ask of the prompt itself.

ghost use Rattle.std.specs.Prelude.{◌≡◌};
ghost use Rattle.otp_try.specs.Asked.{asked_by};

use otp_script::{is_text, next_word};

/// What a person may ask of the prompt itself.
#[derive(Clone, Copy, Debug, PartialEq, Eq)]
pub(crate) enum Asked {
    /// What may be written.
    Help,
    /// How the supervisors stand.
    Status,
    /// That the last line was not written.
    Undo,
    /// The beginning.
    Reset,
    /// The end.
    Quit,
}

impl Asked {
    /// What a word asks, if it does.
    #[tactic(auto, unfolding(crate::specs::Asked::asked_by))]
    fn by(word: &[u8]) -> Option<Self>
        ensures { result ≡ asked_by word.now }
    {
        if is_text(word, b"help") || is_text(word, b"?") {
            Some(Asked::Help)
        } else if is_text(word, b"status") {
            Some(Asked::Status)
        } else if is_text(word, b"undo") {
            Some(Asked::Undo)
        } else if is_text(word, b"reset") {
            Some(Asked::Reset)
        } else if is_text(word, b"quit") {
            Some(Asked::Quit)
        } else {
            None
        }
    }
}

/// What a line asks of the prompt itself, if it does.
pub(crate) fn read_asked(line: &[u8]) -> Option<Asked> {
    let (word, rest) = next_word(line)?;
    if is_text(word, b"exit") && next_word(rest).is_none() {
        // With no child behind it somebody wants to leave.
        return Some(Asked::Quit);
    }
    Asked::by(word)
}
