//! A worked job as a worker.
ghost use Rattle.std.specs.Prelude.{◌≡◌, codes};
ghost use Rattle.otp_reason.specs.Texts.{text_of};
ghost use Rattle.otp_reason.specs.declared.reason.Reason.TheVariants as reason;
ghost use Rattle.otp_jobs.specs.Jobs.{answer_of, crash, fresh_job, life_after, turn_of};

use otp_file::roles::JobWork;
use otp_job::{Job, Told, Turn};
use otp_reason::{Reason, Started, Text};

/// How far a job has come in its starts.
#[derive(Clone, Copy, Debug, PartialEq, Eq)]
pub enum Life {
    /// It was never started.
    Unstarted,
    /// It was started once.
    First,
    /// It was started again.
    Later,
}

impl Life {
    /// How far it has come after one start more.
    fn after_start(self) -> Life
        ensures { result ≡ life_after self }
    {
        match self {
            Life::Unstarted => Life::First,
            Life::First | Life::Later => Life::Later,
        }
    }
}

/// A job that does what its word says. It goes home with the note of its end, and knows at its next start that it was
/// started before.
#[derive(Clone, Copy, Debug, PartialEq, Eq)]
pub struct WorkedJob {
    pub work: JobWork,
    pub life: Life,
}

impl WorkedJob {
    /// A job that was never started.
    pub fn new(work: JobWork) -> WorkedJob
        ensures { result ≡ fresh_job work }
    {
        WorkedJob {
            work,
            life: Life::Unstarted,
        }
    }
}

/// The reason `error:crash`.
fn crash() -> Reason
    ensures { result ≡ crash }
{
    Reason::Error(Text::joined(b"crash", b""))
}

/// The reason `error:refused`.
fn refused() -> Reason
    ensures { result ≡ reason.Error (text_of (codes "refused")) }
{
    Reason::Error(Text::joined(b"refused", b""))
}

/// What a start answers.
fn answer(work: JobWork) -> Started
    ensures { result ≡ answer_of work }
{
    match work {
        JobWork::Ignore => Started::Ignore,
        JobWork::Refuse => Started::Fail(refused()),
        _ => Started::Up,
    }
}

/// What a turn answers, in this life.
fn outcome(work: JobWork, life: Life) -> Turn
    ensures { result ≡ turn_of work life }
{
    match (work, life) {
        (JobWork::Once, _) => Turn::End(Reason::Normal),
        (JobWork::Crash, _) | (JobWork::CrashOnce, Life::First) => Turn::End(crash()),
        _ => Turn::Again,
    }
}

impl Job for WorkedJob {
    ghost use Rattle.otp_jobs.specs.Jobs.{traps};

    ghost is_trapping = { λ job. traps job.work };

    ghost started = { λ before place answer after.
        (answer ≡ answer_of before.work) × (after ≡ record before { life = life_after before.life }) };

    ghost turned = { λ before told answer after. (answer ≡ turn_of before.work before.life) × (after ≡ before) };

    fn traps(&self) -> bool {
        matches!(self.work, JobWork::Stubborn)
    }

    fn start(&mut self, _number: u64) -> Started {
        self.life = self.life.after_start();
        answer(self.work)
    }

    fn turn(&mut self, _told: Told) -> Turn {
        outcome(self.work, self.life)
    }
}
