//! The least intensity, or the greatest period, with which a supervisor survives crashes of a child.

ghost use Rattle.std.specs.Prelude.{◌≡◌, ◌≤◌, ◌<◌, ◌^◌, ◌-◌, IfErr, IfOk};
ghost use Rattle.otp_costs.specs.declared.limits.steady.Verdict.TheVariants.{Falls, Lasts};
ghost use Rattle.otp_spec.specs.declared.limits.TheConstants.{MAX_PERIOD};
ghost use Rattle.otp_trial.specs.declared.trial.Halt.TheVariants.{HistoryFull, OutOfMemory};
ghost use Rattle.otp_suggest.specs.Courses.{IsCourse};
ghost use Rattle.otp_suggest.specs.Edges.{AreBounds, IsEdge, IsEdgeless, IsJudgedAt, last_step, turned, value_at};
ghost use Rattle.otp_costs.specs.Costs.{IsUnknown};

use crate::course::{Course, judge_course};
use crate::dial::Dial;
use otp_costs::limits::Verdict;
use otp_reason::Name;
use otp_spec::{SupSpec, copy_specs};
use otp_trial::{Clock, Halt};
use std::alloc::Global;

/// The last value of a flag with which crashes of a child are survived.
#[derive(Clone, Copy, Debug, PartialEq, Eq)]
pub enum Edge {
    /// Each value survives them.
    Any,
    /// This one does, and the next one doesn't: an intensity of one less, or a period of a second more.
    At(u64),
    /// No value survives them.
    Nowhere,
}

/// Between which steps the edge lies: at the long one the crashes are survived, and at the short one they aren't.
#[derive(Clone, Copy)]
pub(crate) struct Bounds {
    pub short: u64,
    pub long: u64,
}

/// A supervisor with another value of a flag.
pub(crate) fn with_value(
    alloc: Global,
    supervisor: &SupSpec,
    dial: Dial,
    value: u64,
) -> Result<SupSpec, Halt>
    ensures ok { IfOk result (λ other. other ≡ record { flags = turned dial value supervisor.now.flags; specs = supervisor.now.specs }) }
    ensures err { IfErr result (λ halt. halt ≡ OutOfMemory) }
{
    let specs = copy_specs(alloc, supervisor.specs())?;
    let flags = dial.turned(value, supervisor.flags());
    match SupSpec::check(flags, specs) {
        Ok(other) => Ok(other),
        // Neither flag decides whether specifications are lawful, and each of its values is.
        Err(_) => Err(Halt::OutOfMemory),
    }
}

/// Plays crashes of a child that come so, where a flag of its supervisor has the value of this step.
fn judge_at(
    alloc: Global,
    supervisor: &SupSpec,
    clock: Clock,
    id: &Name,
    course: Course,
    dial: Dial,
    step: u64,
) -> Result<Verdict, Halt>
    requires course { IsCourse course }
    requires step { step ≤ MAX_PERIOD }
    ensures ok { IfOk result (IsJudgedAt dial clock supervisor.now.flags supervisor.now.specs id.now course step) }
    ensures full { IfErr result (λ halt. halt ≡ HistoryFull → IsUnknown (turned dial (value_at dial step) supervisor.now.flags) supervisor.now.specs id.now) }
{
    let other = with_value(alloc, supervisor, dial, dial.value_at(step))?;
    let verdict = judge_course(alloc, &other, clock, id, course);
    drop(other);
    verdict
}

/// The bounds once crashes were played at a step between them.
fn narrow(
    alloc: Global,
    supervisor: &SupSpec,
    clock: Clock,
    id: &Name,
    course: Course,
    dial: Dial,
    bounds: Bounds,
    step: u64,
) -> Result<Bounds, Halt>
    requires course { IsCourse course }
    requires bounds { AreBounds dial clock supervisor.now.flags supervisor.now.specs id.now course bounds }
    requires inside { (bounds.short < step) × (step < bounds.long) }
    ensures bounds { IfOk result (AreBounds dial clock supervisor.now.flags supervisor.now.specs id.now course) }
    ensures narrower { IfOk result (λ after. after.long - after.short < bounds.long - bounds.short) }
    ensures full { IfErr result (λ halt. halt ≡ HistoryFull → IsEdgeless dial supervisor.now.flags supervisor.now.specs id.now) }
{
    match judge_at(alloc, supervisor, clock, id, course, dial, step)? {
        Verdict::Lasts => Ok(Bounds {
            short: bounds.short,
            long: step,
        }),
        Verdict::Falls => Ok(Bounds {
            short: step,
            long: bounds.long,
        }),
    }
}

/// Finds the edge by halving.
#[tactic(auto, unfolding(crate::specs::Edges::IsEdge))]
fn search(
    alloc: Global,
    supervisor: &SupSpec,
    clock: Clock,
    id: &Name,
    course: Course,
    dial: Dial,
) -> Result<Edge, Halt>
    requires course { IsCourse course }
    requires falls { IsJudgedAt dial clock supervisor.now.flags supervisor.now.specs id.now course 0 Falls }
    requires lasts { IsJudgedAt dial clock supervisor.now.flags supervisor.now.specs id.now course (last_step dial) Lasts }
    ensures ok { IfOk result (IsEdge dial clock supervisor.now.flags supervisor.now.specs id.now course) }
    ensures full { IfErr result (λ halt. halt ≡ HistoryFull → IsEdgeless dial supervisor.now.flags supervisor.now.specs id.now) }
{
    let mut bounds = Bounds {
        short: 0,
        long: dial.last_step(),
    };
    'halving: while bounds.long - bounds.short > 1 {
        let middle = bounds.short + (bounds.long - bounds.short) / 2;
        bounds = narrow(alloc, supervisor, clock, id, course, dial, bounds, middle)?;
    }
    Ok(Edge::At(dial.value_at(bounds.long)))
}

/// The last value of a flag with which a supervisor survives crashes of a child that come so.
///
/// # Errors
///
/// Where memory is refused, or a supervisor has 2^62 events before the last crash of a run.
#[tactic(auto, unfolding(crate::specs::Edges::IsEdge))]
pub fn find_edge(
    alloc: Global,
    supervisor: &SupSpec,
    clock: Clock,
    id: &Name,
    course: Course,
    dial: Dial,
) -> Result<Edge, Halt>
    requires course { IsCourse course }
    ensures ok { IfOk result (IsEdge dial clock supervisor.now.flags supervisor.now.specs id.now course) }
    ensures full { IfErr result (λ halt. halt ≡ HistoryFull → IsEdgeless dial supervisor.now.flags supervisor.now.specs id.now) }
{
    match judge_at(alloc, supervisor, clock, id, course, dial, 0)? {
        Verdict::Lasts => return Ok(Edge::Any),
        Verdict::Falls => {}
    }
    match judge_at(alloc, supervisor, clock, id, course, dial, dial.last_step())? {
        Verdict::Falls => Ok(Edge::Nowhere),
        Verdict::Lasts => search(alloc, supervisor, clock, id, course, dial),
    }
}
