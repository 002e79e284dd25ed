//! What a line is about.

ghost use Rattle.std.specs.Prelude.{◌≡◌};
ghost use Rattle.otp_text.specs.Lines.{verb_of};

use crate::word::is_text;

/// The first word of a line.
#[derive(Clone, Copy, Debug, PartialEq, Eq)]
pub enum Verb {
    At,
    Up,
    Ignore,
    Fail,
    Exit,
    Stop,
    Start,
    Restart,
    Delete,
    Terminate,
    Get,
    Which,
    Count,
}

impl Verb {
    /// The verb that is spelled so, if there is one. The two that most lines begin with are found by their bytes.
    #[tactic(auto, unfolding(crate::specs::Lines::verb_of))]
    pub fn of_word(word: &[u8]) -> Option<Self>
        ensures { result ≡ verb_of word.now }
    {
        match word {
            b"up" => Some(Verb::Up),
            b"exit" => Some(Verb::Exit),
            _ => Verb::of_any(word),
        }
    }

    /// The verb that is spelled so, found by one comparison after another.
    #[tactic(auto, unfolding(crate::specs::Lines::verb_of))]
    fn of_any(word: &[u8]) -> Option<Self>
        ensures { result ≡ verb_of word.now }
    {
        if is_text(word, b"at") {
            Some(Verb::At)
        } else if is_text(word, b"up") {
            Some(Verb::Up)
        } else if is_text(word, b"ignore") {
            Some(Verb::Ignore)
        } else if is_text(word, b"fail") {
            Some(Verb::Fail)
        } else if is_text(word, b"exit") {
            Some(Verb::Exit)
        } else if is_text(word, b"stop") {
            Some(Verb::Stop)
        } else if is_text(word, b"start") {
            Some(Verb::Start)
        } else if is_text(word, b"restart") {
            Some(Verb::Restart)
        } else if is_text(word, b"delete") {
            Some(Verb::Delete)
        } else if is_text(word, b"terminate") {
            Some(Verb::Terminate)
        } else if is_text(word, b"get") {
            Some(Verb::Get)
        } else if is_text(word, b"which") {
            Some(Verb::Which)
        } else if is_text(word, b"count") {
            Some(Verb::Count)
        } else {
            None
        }
    }
}
