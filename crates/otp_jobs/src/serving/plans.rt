//! The plans of a tree whose jobs wait.
ghost use Rattle.std.specs.Prelude.{◌≡◌, IfOk, length, map};
ghost use Rattle.otp_jobs.specs.Patient.{patient_body, patient_of, patient_seen};

use crate::serving::patient::{PatientJob, patient_body};
use crate::{Calm, WorkedBody, WorkedPlan};
use otp_job::Body;
use otp_tree::TablePlan;
use std::alloc::{AllocError, Global};

/// One supervisor of a tree whose jobs wait.
pub type PatientPlan = TablePlan<PatientJob, Calm>;

/// These bodies, whose jobs wait.
fn patient_bodies(
    alloc: Global,
    bodies: Vec<WorkedBody>,
) -> Result<Vec<Body<PatientJob, Calm>>, AllocError>
    ensures { IfOk result (λ all. all.items ≡ map patient_body bodies.items) }
{
    let mut all = Vec::new(alloc);
    for body in bodies {
        all.push(patient_body(body)).map_err(|_| AllocError)?;
    }
    Ok(all)
}

/// This supervisor, whose jobs wait.
fn patient_plan(alloc: Global, plan: WorkedPlan) -> Result<PatientPlan, AllocError>
    ensures { IfOk result (λ patient. patient_seen patient ≡ patient_of plan) }
{
    let TablePlan { supervisor, bodies } = plan;
    let bodies = patient_bodies(alloc, bodies)?;
    Ok(TablePlan { supervisor, bodies })
}

/// These supervisors, whose jobs wait.
///
/// # Errors
///
/// Where memory is refused.
pub fn patient_plans(alloc: Global, plans: Vec<WorkedPlan>) -> Result<Vec<PatientPlan>, AllocError>
    ensures plans { IfOk result (λ all. map patient_seen all.items ≡ map patient_of plans.items) }
    ensures count { IfOk result (λ all. length all.items ≡ length plans.items) }
{
    let mut all = Vec::new(alloc);
    for plan in plans {
        let patient = patient_plan(alloc, plan)?;
        all.push(patient).map_err(|_| AllocError)?;
    }
    Ok(all)
}
