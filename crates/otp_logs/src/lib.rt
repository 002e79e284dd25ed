//! Logs of other programs as lines that a replay takes: reports of OTP's supervisors, Elixir's Logger, supervisord's log, the
//! journal of systemd, and the log of `otp-procs`.
//!
//! Bytes come in; as many lines go out. Each says what the line in its place says of a child of a tree, or nothing. No device is
//! touched.
//!
//! - Which program wrote a log is decided in `format.rt`, by its words (`keys.rt`, `lines.rt`, `times.rt`, `words.rt`).
//! - `translating.rt` hands each line to the file of that program: `otp.rt`, `elixir.rt`, `supervisord.rt`, `journal.rt`, `daemon.rt`.
//!   These seek in the text by places (`seeking.rt`, `values.rt`).
//! - What they find is told by `log.rt`: of which child (`ids.rt`, `known.rt`), when (`moment.rt`) and why (`reason.rt`).
#![tactic(auto)]

mod daemon;
mod elixir;
mod format;
mod ids;
mod journal;
mod keys;
mod known;
mod lines;
mod log;
mod moment;
mod objects;
mod otp;
mod reason;
mod seeking;
mod supervisord;
mod times;
mod translating;
mod values;
mod words;

pub use format::Format;
pub use translating::{LogWords, Translation, translate_log};
