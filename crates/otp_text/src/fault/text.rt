//! Why a line has no form, and in which words that is told.

ghost use Rattle.std.specs.Prelude.{◌≡◌};
ghost use Rattle.otp_text.specs.LineFaults.{line_fault_text};

use super::letter::Letter;

/// Why a line has no form that is read: its first fault from the left.
#[derive(Clone, Copy, Debug, PartialEq, Eq)]
pub enum LineFault {
    /// It has more than 512 bytes.
    TooLong,
    /// A word has a letter that only looks like one of `a-z`.
    Alike(Letter),
    /// A word has another byte outside of ASCII.
    StrangeLetter,
    /// A word has a CR.
    HasReturn,
    /// A word is empty, or has a tab.
    OtherBlank,
    /// It begins as comments do.
    Comment,
    /// It begins with a word of scripts.
    OfScript,
    /// It begins with no verb.
    UnknownVerb,
    /// A number was wanted, and the line ends there.
    MissingNumber,
    /// A clock's reading was wanted.
    BadReading,
    /// A process number was wanted.
    BadNumber,
    /// A number stands behind `#`.
    SignedNumber,
    /// A number is past the limit.
    LargeNumber,
    /// A reason was wanted, and the line ends there.
    MissingReason,
    /// A reason was wanted.
    BadReason,
    /// The text of a reason is empty, too long or not printable.
    BadTerm,
    /// An id was wanted, and the line ends there.
    MissingName,
    /// An id or a module was wanted.
    BadName,
    /// A child was wanted: an id, or a process number behind `#`.
    BadChild,
    /// A word of a specification was wanted, and the line ends there.
    MissingKey,
    /// A restart type was wanted.
    BadRestart,
    /// `true` or `false` was wanted.
    BadSignificant,
    /// A shutdown was wanted.
    BadShutdown,
    /// A type was wanted.
    BadType,
    /// There are more words than the line may have.
    TooManyWords,
}

impl LineFault {
    /// What is wrong, and what would be read.
    #[tactic(auto, unfolding(crate::specs::LineFaults::line_fault_text))]
    pub fn text(self) -> &'static str
        ensures { result.now ≡ line_fault_text self }
    {
        match self {
            LineFault::TooLong => "more than 512 bytes",
            LineFault::Alike(letter) => letter.text(),
            LineFault::StrangeLetter => "a word has a letter outside of ASCII",
            LineFault::HasReturn => "a CR stands in it: save with LF alone",
            LineFault::OtherBlank =>
                "one space stands between two words: no tab, none twice, none at an end",
            LineFault::Comment => "event lines have no comments: leave it out",
            LineFault::OfScript => "a word of scripts, which otp try FILE SCRIPT plays",
            LineFault::UnknownVerb =>
                "unknown word: write at, up, ignore, fail, exit, stop, start, restart, delete, terminate, get, which or count",
            LineFault::MissingNumber => "a number is missing, as in at 1500 or up 1",
            LineFault::BadReading =>
                "not a time: write milliseconds in digits alone, as in at 1500",
            LineFault::BadNumber =>
                "not a process number: write digits alone, with no zero in front, as in up 1",
            LineFault::SignedNumber => "write the number without #, as in up 1",
            LineFault::LargeNumber => "too large a number: write at most 4611686018427387904",
            LineFault::MissingReason =>
                "a reason is missing: write one like normal, shutdown, kill or error:TEXT",
            LineFault::BadReason =>
                "not a reason: write normal, shutdown, shutdown:TEXT, kill, killed, noproc or error:TEXT",
            LineFault::BadTerm =>
                "behind error: and shutdown: stand 1 to 64 printable bytes, none of them a space",
            LineFault::MissingName =>
                "a child's id is missing: write 1 to 32 bytes of a-z A-Z 0-9 _ - .",
            LineFault::BadName => "not a name: write 1 to 32 bytes of a-z A-Z 0-9 _ - .",
            LineFault::BadChild => "not a child: write its id, or a process number like #3",
            LineFault::MissingKey =>
                "words are missing: write start ID START RESTART SIGNIFICANT SHUTDOWN TYPE",
            LineFault::BadRestart => "not a restart type: write permanent, transient or temporary",
            LineFault::BadSignificant => "significant is true or false",
            LineFault::BadShutdown =>
                "not a shutdown: write milliseconds, at most 4294967295, brutal_kill or infinity",
            LineFault::BadType => "not a type: write worker or supervisor",
            LineFault::TooManyWords => "more words than the line may have",
        }
    }
}
