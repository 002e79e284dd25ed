//! Which program wrote a log.

ghost use Rattle.std.specs.Prelude.{◌≡◌};
ghost use Rattle.otp_logs.specs.Formats.{behind_time, is_daemon_word, is_elixirs, is_level, is_of_daemon, is_of_elixir, is_of_journal, is_otps, is_own_word, is_plain, is_seconds, is_supervisords, is_systemds, log_format, sign_behind, sign_of, sign_of_object};
ghost use Rattle.otp_logs.specs.Translated.{format_text};

use crate::keys::{message_of, value_of};
use crate::lines::{behind_line, line_end};
use crate::times::{
    behind_clock, behind_moment, behind_stamp, fits, is_clock, is_moment, is_stamp,
};
use crate::words::{begins, behind, behind_bytes, behind_word, has, is_text, strip, word_of};

/// Which program wrote a log, and how.
#[derive(Clone, Copy)]
pub enum Format {
    /// OTP's logger.
    Otp,
    /// Elixir's Logger.
    Elixir,
    Supervisord,
    /// The journal of systemd, as `journalctl` prints it, or `journalctl -o short-iso`.
    Journal,
    /// The journal of systemd, as `journalctl -o json` prints it.
    JournalObjects,
    /// Erlang's or Elixir's logger, with a formatter of JSON.
    Objects,
    /// `otp-procs`, as text.
    Daemon,
    /// `otp-procs`, with `--json`.
    DaemonObjects,
}

impl Format {
    /// What the log is.
    #[tactic(auto, unfolding(crate::specs::Translated::format_text))]
    pub fn text(self) -> &'static str
        ensures { result.now ≡ format_text self }
    {
        match self {
            Format::Otp => "reports of OTP's supervisors",
            Format::Elixir => "a log of Elixir",
            Format::Supervisord => "a log of supervisord",
            Format::Journal => "a journal of systemd",
            Format::JournalObjects => "a journal of systemd in JSON",
            Format::Objects => "a log of Erlang or Elixir in JSON",
            Format::Daemon => "a log of otp-procs",
            Format::DaemonObjects => "a log of otp-procs in JSON",
        }
    }
}

/// What a line says of the format of its log.
#[derive(Clone, Copy)]
enum Sign {
    Nothing,
    /// It is one that a replay takes as it stands.
    Own,
    Of(Format),
}

/// Whether a word says what happened in a line that a replay takes as it stands.
#[tactic(auto, unfolding(crate::specs::Formats::is_own_word))]
fn is_own_word(word: &[u8]) -> bool
    ensures { result ≡ is_own_word word.now }
{
    is_text(word, b"crash")
        || is_text(word, b"exit")
        || is_text(word, b"up")
        || is_text(word, b"stop")
}

/// What stands behind a time, which is a date and a time of the day, or else a word.
#[tactic(auto, unfolding(crate::specs::Formats::behind_time))]
fn behind_time(words: &[u8]) -> &[u8]
    ensures { result.now ≡ behind_time words.now }
{
    if is_moment(words) {
        strip(behind_moment(words))
    } else {
        behind_word(words)
    }
}

/// Whether a line reads as one of a log that a replay takes as it stands: behind its time it begins so.
#[tactic(auto, unfolding(crate::specs::Formats::is_plain))]
pub(crate) fn is_plain(line: &[u8]) -> bool
    ensures { result ≡ is_plain line.now }
{
    is_own_word(word_of(behind_time(strip(line))))
}

/// Whether Elixir says so of a child.
#[tactic(auto, unfolding(crate::specs::Formats::is_elixirs))]
fn is_elixirs(message: &[u8]) -> bool
    ensures { result ≡ is_elixirs message.now }
{
    if begins(message, b"Child ") {
        has(message, b" of Supervisor ")
    } else {
        begins(message, b"GenServer ") && has(message, b" terminating")
    }
}

/// Whether a supervisor of OTP says so of a child, on one line or several.
#[tactic(auto, unfolding(crate::specs::Formats::is_otps))]
fn is_otps(text: &[u8]) -> bool
    ensures { result ≡ is_otps text.now }
{
    let words = behind(text, b"upervisor: ");
    has(words, b"ontext: ") || has(words, b"tarted: ")
}

/// Whether Elixir's Logger writes so of a child, behind the time.
#[tactic(auto, unfolding(crate::specs::Formats::is_of_elixir))]
fn is_of_elixir(text: &[u8]) -> bool
    ensures { result ≡ is_of_elixir text.now }
{
    is_elixirs(behind(text, b"] "))
}

/// Whether a level of supervisord stands behind a time.
#[tactic(auto, unfolding(crate::specs::Formats::is_level))]
fn is_level(text: &[u8]) -> bool
    ensures { result ≡ is_level text.now }
{
    begins(text, b" INFO ")
        || begins(text, b" WARN ")
        || begins(text, b" CRIT ")
        || begins(text, b" DEBG ")
        || begins(text, b" ERRO ")
        || begins(text, b" TRAC ")
        || begins(text, b" BLAT ")
}

/// Whether supervisord says so, behind its level.
#[tactic(auto, unfolding(crate::specs::Formats::is_supervisords))]
fn is_supervisords(words: &[u8]) -> bool
    ensures { result ≡ is_supervisords words.now }
{
    begins(words, b"spawned: \'")
        || begins(words, b"exited: ")
        || begins(words, b"success: ")
        || begins(words, b"stopped: ")
        || begins(words, b"gave up: ")
        || begins(words, b"received SIG")
        || begins(words, b"supervisord started with pid ")
}

/// Whether a word is seconds with milliseconds, as `3.211`.
#[tactic(auto, unfolding(crate::specs::Formats::is_seconds))]
fn is_seconds(word: &[u8]) -> bool
    ensures { result ≡ is_seconds word.now }
{
    fits(word, b"0") && fits(behind_bytes(word, word.len().saturating_sub(4)), b".000")
}

/// Whether `otp-procs` begins a line so, behind its times.
#[tactic(auto, unfolding(crate::specs::Formats::is_daemon_word))]
fn is_daemon_word(word: &[u8]) -> bool
    ensures { result ≡ is_daemon_word word.now }
{
    is_text(word, b"began")
        || is_text(word, b"start")
        || is_text(word, b"up")
        || is_text(word, b"ask")
        || is_text(word, b"exit")
}

/// Whether `otp-procs` writes so, behind the time: seconds, and what it is.
#[tactic(auto, unfolding(crate::specs::Formats::is_of_daemon))]
fn is_of_daemon(words: &[u8]) -> bool
    ensures { result ≡ is_of_daemon words.now }
{
    is_seconds(word_of(words)) && is_daemon_word(word_of(behind_word(words)))
}

/// Whether systemd says so, behind a time.
#[tactic(auto, unfolding(crate::specs::Formats::is_systemds))]
fn is_systemds(text: &[u8]) -> bool
    ensures { result ≡ is_systemds text.now }
{
    has(text, b" systemd[")
}

/// Whether systemd says so, behind a day without its year.
#[tactic(auto, unfolding(crate::specs::Formats::is_of_journal))]
fn is_of_journal(line: &[u8]) -> bool
    ensures { result ≡ is_of_journal line.now }
{
    is_stamp(line) && is_systemds(behind_stamp(line))
}

/// What a line says behind a date and a time.
#[tactic(auto, unfolding(crate::specs::Formats::sign_behind))]
fn sign_behind(text: &[u8]) -> Sign
    ensures { result ≡ sign_behind text.now }
{
    let words = strip(text);
    if is_level(text) && is_supervisords(behind_word(words)) {
        Sign::Of(Format::Supervisord)
    } else if is_of_daemon(words) {
        Sign::Of(Format::Daemon)
    } else if is_systemds(text) {
        Sign::Of(Format::Journal)
    } else if is_otps(text) {
        Sign::Of(Format::Otp)
    } else if is_of_elixir(text) {
        Sign::Of(Format::Elixir)
    } else {
        Sign::Nothing
    }
}

/// What a line says that is an object of JSON.
#[tactic(auto, unfolding(crate::specs::Formats::sign_of_object))]
fn sign_of_object(line: &[u8]) -> Sign
    ensures { result ≡ sign_of_object line.now }
{
    let message = message_of(line);
    if begins(line, b"{\"time\":\"") && has(line, b",\"ms\":") {
        Sign::Of(Format::DaemonObjects)
    } else if begins(value_of(line, b"\"__REALTIME_TIMESTAMP\""), b"\"") {
        Sign::Of(Format::JournalObjects)
    } else if is_elixirs(message) || is_otps(message) {
        Sign::Of(Format::Objects)
    } else {
        Sign::Nothing
    }
}

/// What a line says of the format of its log.
#[tactic(auto, unfolding(crate::specs::Formats::sign_of))]
fn sign_of(line: &[u8]) -> Sign
    ensures { result ≡ sign_of line.now }
{
    if begins(line, b"{") {
        sign_of_object(line)
    } else if begins(line, b"=") && has(line, b" REPORT==== ") {
        Sign::Of(Format::Otp)
    } else if begins(line, b"    supervisor: ") {
        Sign::Of(Format::Otp)
    } else if is_plain(line) {
        Sign::Own
    } else if is_moment(line) {
        sign_behind(behind_moment(line))
    } else if is_clock(line) && is_of_elixir(behind_clock(line)) {
        Sign::Of(Format::Elixir)
    } else if is_of_journal(line) {
        Sign::Of(Format::Journal)
    } else {
        Sign::Nothing
    }
}

/// Which program wrote a log; none where a replay takes it as it stands, or it isn't known.
#[tactic(auto, unfolding(crate::specs::Formats::log_format))]
pub(crate) fn format_of(text: &[u8]) -> Option<Format>
    ensures { result ≡ log_format text.now }
{
    let mut rest = text;
    while let Some(end) = line_end(rest) {
        match sign_of(&rest[..end]) {
            Sign::Nothing => {}
            Sign::Own => return None,
            Sign::Of(format) => return Some(format),
        }
        rest = behind_line(rest, end);
    }
    match sign_of(rest) {
        Sign::Of(format) => Some(format),
        _ => None,
    }
}
