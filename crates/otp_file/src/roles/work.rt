//! What a worked job does, and the word for it.
ghost use Rattle.std.specs.Prelude.{◌≡◌, Some};
ghost use Rattle.otp_file.specs.Roles.{work_of, work_word};

/// What a worked job does with its starts and turns.
#[derive(Clone, Copy, Debug, PartialEq, Eq)]
pub enum JobWork {
    /// It works on until it is ended.
    Steady,
    /// It ends normally in the first turn after each start.
    Once,
    /// It crashes in the first turn after each start.
    Crash,
    /// It crashes in the first turn after its first start, and works on after each later one.
    CrashOnce,
    /// Its starts are ignored: there is nothing to run.
    Ignore,
    /// Its starts fail.
    Refuse,
    /// It traps exits and works on, whatever it is told: only a kill ends it.
    Stubborn,
}

impl JobWork {
    /// Its word, as `start` of a tree file has it.
    #[tactic(auto, unfolding(crate::specs::Roles::work_word, crate::specs::Roles::work_of))]
    pub fn word(self) -> &'static str
        ensures word { result.now ≡ work_word self }
        ensures read_back { work_of result.now ≡ Some self }
    {
        match self {
            JobWork::Steady => "steady",
            JobWork::Once => "once",
            JobWork::Crash => "crash",
            JobWork::CrashOnce => "crash_once",
            JobWork::Ignore => "ignore",
            JobWork::Refuse => "refuse",
            JobWork::Stubborn => "stubborn",
        }
    }

    /// The work of a word, if it is the word of one.
    #[tactic(auto, unfolding(crate::specs::Roles::work_of))]
    pub fn of_word(word: &[u8]) -> Option<JobWork>
        ensures { result ≡ work_of word.now }
    {
        if is_word(word, JobWork::Steady.word()) {
            Some(JobWork::Steady)
        } else if is_word(word, JobWork::Once.word()) {
            Some(JobWork::Once)
        } else if is_word(word, JobWork::Crash.word()) {
            Some(JobWork::Crash)
        } else if is_word(word, JobWork::CrashOnce.word()) {
            Some(JobWork::CrashOnce)
        } else if is_word(word, JobWork::Ignore.word()) {
            Some(JobWork::Ignore)
        } else if is_word(word, JobWork::Refuse.word()) {
            Some(JobWork::Refuse)
        } else if is_word(word, JobWork::Stubborn.word()) {
            Some(JobWork::Stubborn)
        } else {
            None
        }
    }
}

ghost use Rattle.std.specs.Str.{bytes_eq};

/// Whether the bytes are this word.
pub(crate) fn is_word(bytes: &[u8], word: &str) -> bool
    ensures { result ≡ bytes_eq bytes.now word.now }
{
    bytes == word.as_bytes()
}
