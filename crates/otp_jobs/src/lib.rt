//! Worked jobs, each known by a word: what the child of a tree file runs whose `start` is that word, and the report of a
//! tree that was run with them.
//!
//! Each does one thing that a supervisor has to cope with: it works on, it crashes after each start or after the first
//! alone, its start is ignored or fails, it can't be asked to end. `docs/FORMATS.md` has the words.
#![tactic(auto)]

pub mod body;
pub mod plan;
pub mod report;
pub mod run;
pub mod serving;
pub mod worker;

pub use body::{Calm, WorkedBody, body_of};
pub use plan::{WorkedPlan, plan_tree};
pub use report::{TableLine, write_counts, write_report};
pub use run::{FileRunFault, WorkedRun, fault_of, run_worked};
pub use worker::{Life, WorkedJob};
