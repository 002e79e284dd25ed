//! A worked job that waits where it has nothing to do.
ghost use Rattle.std.specs.Prelude.{◌≡◌};
ghost use Rattle.otp_jobs.specs.Jobs.{answer_of, life_after, traps, turn_of};
ghost use Rattle.otp_jobs.specs.Patient.{patient_body, patient_turn};

use crate::{Calm, WorkedBody, WorkedJob};
use otp_job::{Body, Job, Told, Turn};
use otp_reason::Started;

/// What a turn is answered where a job would work on: it waits.
fn patient_turn(turn: Turn) -> Turn
    ensures { result ≡ patient_turn turn }
{
    match turn {
        Turn::Again => Turn::Wait,
        turn => turn,
    }
}

/// A worked job that does what its word says, but waits where it would work on, until it is told something.
#[derive(Clone, Copy, Debug, PartialEq, Eq)]
pub struct PatientJob {
    pub job: WorkedJob,
}

impl Job for PatientJob {
    ghost is_trapping = { λ patient. traps patient.job.work };

    ghost started = { λ before place answer after.
        (answer ≡ answer_of before.job.work) × (after.job ≡ record before.job { life = life_after before.job.life }) };

    ghost turned = { λ before told answer after.
        (answer ≡ patient_turn (turn_of before.job.work before.job.life)) × (after ≡ before) };

    fn traps(&self) -> bool {
        self.job.traps()
    }

    fn start(&mut self, number: u64) -> Started {
        self.job.start(number)
    }

    fn turn(&mut self, told: Told) -> Turn {
        patient_turn(self.job.turn(told))
    }
}

/// This body, whose job waits where it would work on.
pub(crate) fn patient_body(body: WorkedBody) -> Body<PatientJob, Calm>
    ensures { result ≡ patient_body body }
{
    match body {
        Body::Worker(job) => Body::Worker(PatientJob { job }),
        Body::Bridge(bridge) => Body::Bridge(bridge),
        Body::Sup(number) => Body::Sup(number),
    }
}
