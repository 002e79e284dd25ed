//! What happens to the processes of a tree.
ghost use Rattle.std.specs.Prelude.{◌≡◌, option_copied};
ghost use Rattle.otp_system.specs.Happenings.{exited_by, happening_of};

use otp_reason::{Note, Reason};
use otp_rules::{Cause, SupEnd};
use otp_spec::SupFlags;

/// What happened to a process, a child of some supervisor. The first `u64` is its number, which no other process of the tree has.
#[derive(Clone, Copy, Debug, PartialEq, Eq)]
pub enum Happening {
    /// It started: of a supervisor, all its children have.
    Started(u64),
    /// It started by a restart, also that of another child, or by `restart_child`: its child had a process before. Where a supervisor
    /// starts again, its own children start anew.
    Restarted(u64),
    /// Its start answered `ignore`.
    Ignored(u64),
    /// Its start failed, for this reason.
    Failed(u64, Reason),
    /// It ended after it had started, for this reason. A supervisor's end is one of the three below.
    Exited(u64, Reason),
    /// It is a supervisor that had been asked to shut down, and has: its children ended before it.
    Stopped(u64),
    /// It is a supervisor that gave up: there would have been more restarts than the intensity of these flags within their period.
    GaveUp(u64, SupFlags),
    /// It is a supervisor that shut down by itself, since its significant child with the second number had ended.
    ShutDown(u64, u64),
}

/// What a note says has happened, which came with this end where it is that of a supervisor, to the process of a child that had one
/// before or not.
pub(crate) fn happening_of(note: Note, end: Option<&SupEnd>, again: bool) -> Happening
    ensures { result ≡ happening_of note (option_copied end.entry) again }
{
    match note {
        Note::Up(number) if again => Happening::Restarted(number),
        Note::Up(number) => Happening::Started(number),
        Note::Ignored(number) => Happening::Ignored(number),
        Note::Failed(number, reason) => Happening::Failed(number, reason),
        Note::Exit(number, reason) => match end {
            None => Happening::Exited(number, reason),
            Some(end) => exited_by(number, reason, &end.cause),
        },
    }
}

/// What the end of a supervisor is by its cause.
fn exited_by(number: u64, reason: Reason, cause: &Cause) -> Happening
    ensures { result ≡ exited_by number reason cause.now }
{
    match cause {
        Cause::Asked => Happening::Stopped(number),
        Cause::Intensity { flags, .. } => Happening::GaveUp(number, *flags),
        Cause::Significant(child) => Happening::ShutDown(number, *child),
        // Such an end is told by a note that the start failed.
        Cause::InitFailed(_) => Happening::Exited(number, reason),
    }
}
