//! The body of a child by what the word of its start stands for.
ghost use Rattle.std.specs.Prelude.{◌≡◌};
ghost use Rattle.otp_jobs.specs.Jobs.{body_of};

use crate::worker::WorkedJob;
use otp_file::roles::Role;
use otp_job::Body;
use otp_job::bridge::{Bridge, Subsystem};
use otp_reason::{Reason, Started};

/// What stands behind a worked bridge: it comes up, and never ends by itself.
#[derive(Clone, Copy, Debug, PartialEq, Eq)]
pub struct Calm;

impl Subsystem for Calm {
    ghost use Rattle.std.specs.Prelude.{◌≡◌, None};
    ghost use Rattle.otp_reason.specs.declared.note.Started.TheVariants.{Up};

    ghost inited = { λ before answer after. answer ≡ Up };

    ghost polled = { λ before answer after. answer ≡ None };

    fn init(&mut self) -> Started {
        Started::Up
    }

    fn poll(&mut self) -> Option<Reason> {
        None
    }

    fn terminate(&mut self, _reason: Reason) {}
}

/// What a child runs.
pub type WorkedBody = Body<WorkedJob, Calm>;

/// The body of a child that runs this, which was never started.
pub fn body_of(role: Role) -> WorkedBody
    ensures { result ≡ body_of role }
{
    match role {
        Role::Worker(work) => Body::Worker(WorkedJob::new(work)),
        Role::Bridge => Body::Bridge(Bridge::new(Calm)),
    }
}
