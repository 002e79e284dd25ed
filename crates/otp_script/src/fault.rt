//! Why a line of a script is refused.

ghost use Rattle.std.specs.Prelude.{◌≡◌};
ghost use Rattle.otp_script.specs.Faults.{fault_text, meant_text};

use otp_text::Letter;
use std::fmt;

/// A word that a line may begin with, or that a person may write at the prompt.
#[derive(Clone, Copy, Debug, PartialEq, Eq)]
pub enum Word {
    At,
    Every,
    Crash,
    Exit,
    Fail,
    Ignore,
    Init,
    Hang,
    Slow,
    Expect,
    Stop,
    Start,
    Restart,
    Delete,
    Terminate,
    Get,
    Which,
    Count,
    Help,
    Quit,
    Status,
    Undo,
    Reset,
}

/// Why a line is refused, in words that say what would be read.
#[derive(Clone, Copy, Debug, PartialEq, Eq)]
pub enum ScriptFault {
    /// It begins with no word of a line.
    UnknownWord,
    /// It begins with a word that is nearly this one.
    Misspelt(Word),
    /// It begins with a word that has this letter, which looks like one of `a-z`.
    Alike(Letter),
    /// It begins with a word that has another letter outside of ASCII.
    StrangeLetter,
    /// It is no UTF-8 text.
    NotText,
    /// It begins as comments of other languages do.
    OtherComment,
    /// It begins with a time, or with a word of other languages for one.
    TimeAlone,
    /// It begins with a date, as a line of a log does.
    LineOfLog,
    /// It begins with a child or a path, and the word stands behind that.
    WordBehind,
    /// Something stands behind `stop`.
    StopAlone,
    /// A time was wanted.
    BadTime,
    /// A time is larger than one may say.
    LargeTime,
    /// How often a line happens was wanted.
    BadTimes,
    /// A child was wanted, and the line ends there.
    MissingChild,
    /// A child was wanted.
    BadChild,
    /// A child was wanted, and the word has a `:` or a `,`.
    SignedChild,
    /// A child's id was wanted, and the line ends there.
    MissingName,
    /// A child's id was wanted.
    BadName,
    /// A reason was wanted, and the line ends there.
    MissingReason,
    /// A reason was wanted.
    BadReason,
    /// The text of a reason has more bytes than one may have.
    LongReason,
    /// What is expected was wanted.
    BadExpected,
    /// The words of the call are others.
    BadCall,
    /// The words behind `start` say no child that is new.
    BadStart,
    /// There are more words than the line may have.
    TooManyWords,
    /// It has more than 512 bytes.
    TooLong,
}

impl ScriptFault {
    /// What would be read.
    #[tactic(auto, unfolding(crate::specs::Faults::fault_text))]
    pub fn text(self) -> &'static str
        ensures { result.now ≡ fault_text self }
    {
        match self {
            ScriptFault::UnknownWord =>
                "unknown word; otp help script lists the words, and help does at the prompt",
            ScriptFault::Misspelt(word) => word.question(),
            ScriptFault::Alike(letter) => letter.text(),
            ScriptFault::StrangeLetter => "unknown word: it has a letter outside of ASCII",
            ScriptFault::NotText => "not UTF-8: save the file as UTF-8",
            ScriptFault::OtherComment => "unknown word; a comment begins with #",
            ScriptFault::TimeAlone =>
                "unknown word; a time is written at 5s, or +5s for so long after the line before",
            ScriptFault::LineOfLog =>
                "unknown word; this looks like a line of a log, which otp replay FILE LOG plays",
            ScriptFault::WordBehind =>
                "unknown word; what happens comes first, as in crash db, or behind a path, as in pool/ stop",
            ScriptFault::StopAlone =>
                "stop stands alone; terminate ID stops a child, and PATH/ stop the supervisor there",
            ScriptFault::BadTime =>
                "not a time: write one like 10s, 1.5s, 500ms, 2m, 1h, or 500 (milliseconds)",
            ScriptFault::LargeTime => "too large a time: write at most 1000000000000s",
            ScriptFault::BadTimes =>
                "behind every TIME stands how often, 1 to 10000: every 2s 20 times crash ID",
            ScriptFault::MissingChild =>
                "a child is missing: write its id, or a process number like #3",
            ScriptFault::BadChild =>
                "not a child: write its id, or a process number like #3, and a space behind it",
            ScriptFault::SignedChild =>
                "not a child: no : or , stands behind it; a reason follows behind a space, as in crash db error:TEXT",
            ScriptFault::MissingName =>
                "a child's id is missing: write 1 to 32 bytes of a-z A-Z 0-9 _ - .",
            ScriptFault::BadName => "not a child's id: write 1 to 32 bytes of a-z A-Z 0-9 _ - .",
            ScriptFault::MissingReason =>
                "a reason is missing: write one like normal, shutdown, kill or error:TEXT",
            ScriptFault::BadReason =>
                "not a reason: write normal, shutdown, shutdown:TEXT, kill, killed, noproc or error:TEXT",
            ScriptFault::LongReason =>
                "too long a reason: behind error: or shutdown: stand 1 to 64 bytes",
            ScriptFault::BadExpected =>
                "not expected so: write expect up, expect end, both also with ID, or expect restarts ID N",
            ScriptFault::BadCall =>
                "other words stand behind this call; write which, count, get ID, restart ID, terminate ID, delete ID or start ID START RESTART SIGNIFICANT SHUTDOWN TYPE",
            ScriptFault::BadStart =>
                "start adds a child: start ID START RESTART SIGNIFICANT SHUTDOWN TYPE; restart ID starts one that has ended",
            ScriptFault::TooManyWords =>
                "more words than the line may have; a comment begins with # after a blank",
            ScriptFault::TooLong => "more than 512 bytes",
        }
    }
}

impl Word {
    /// The word.
    pub fn text(self) -> &'static str {
        match self {
            Word::At => "at",
            Word::Every => "every",
            Word::Crash => "crash",
            Word::Exit => "exit",
            Word::Fail => "fail",
            Word::Ignore => "ignore",
            Word::Init => "init",
            Word::Hang => "hang",
            Word::Slow => "slow",
            Word::Expect => "expect",
            Word::Stop => "stop",
            Word::Start => "start",
            Word::Restart => "restart",
            Word::Delete => "delete",
            Word::Terminate => "terminate",
            Word::Get => "get",
            Word::Which => "which",
            Word::Count => "count",
            Word::Help => "help",
            Word::Quit => "quit",
            Word::Status => "status",
            Word::Undo => "undo",
            Word::Reset => "reset",
        }
    }

    /// Whether this word was meant.
    #[tactic(auto, unfolding(crate::specs::Faults::meant_text))]
    pub fn question(self) -> &'static str
        ensures { result.now ≡ meant_text self }
    {
        match self {
            Word::At => "unknown word: did you mean at?",
            Word::Every => "unknown word: did you mean every?",
            Word::Crash => "unknown word: did you mean crash?",
            Word::Exit => "unknown word: did you mean exit?",
            Word::Fail => "unknown word: did you mean fail?",
            Word::Ignore => "unknown word: did you mean ignore?",
            Word::Init => "unknown word: did you mean init?",
            Word::Hang => "unknown word: did you mean hang?",
            Word::Slow => "unknown word: did you mean slow?",
            Word::Expect => "unknown word: did you mean expect?",
            Word::Stop => "unknown word: did you mean stop?",
            Word::Start => "unknown word: did you mean start?",
            Word::Restart => "unknown word: did you mean restart?",
            Word::Delete => "unknown word: did you mean delete?",
            Word::Terminate => "unknown word: did you mean terminate?",
            Word::Get => "unknown word: did you mean get?",
            Word::Which => "unknown word: did you mean which?",
            Word::Count => "unknown word: did you mean count?",
            Word::Help => "unknown word: did you mean help?",
            Word::Quit => "unknown word: did you mean quit?",
            Word::Status => "unknown word: did you mean status?",
            Word::Undo => "unknown word: did you mean undo?",
            Word::Reset => "unknown word: did you mean reset?",
        }
    }
}

impl fmt::Display for ScriptFault {
    fn fmt<W: fmt::Write>(&self, f: &mut fmt::Formatter<W>) -> fmt::Result {
        f.write_str(self.text())
    }
}
