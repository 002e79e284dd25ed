//! The tree of a file on threads that sleep: it is run with worked jobs for a time, then shut down in order, and a report says what
//! came of it.
//!
//! A worked job of `otp_jobs` that works on takes turn after turn. Here it waits in the place of that ([`PatientJob`]), so a tree in
//! which nothing happens takes no time of the processor.

mod patient;
mod plans;
mod serve;

pub use patient::PatientJob;
pub use plans::{PatientPlan, patient_plans};
pub use serve::{PatientReport, serve_worked};
