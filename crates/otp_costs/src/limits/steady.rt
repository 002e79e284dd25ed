//! How far apart crashes must be, so that a supervisor survives them for ever.

ghost use Rattle.std.specs.Prelude.{◌≡◌, ◌≤◌, ◌<◌, ◌^◌, ◌+◌, ◌-◌, ◌*◌, None, IfErr, IfOk, IfSome};
ghost use Rattle.otp_costs.specs.Costs.{AreBounds, IsJudged, IsSteady, IsUnknown, longest_gap, steady_crashes, verdict_of};
ghost use Rattle.otp_costs.specs.declared.limits.steady.Verdict.TheVariants.{Falls, Lasts};
ghost use Rattle.otp_trial.specs.declared.trial.Halt.TheVariants.{HistoryFull};

use crate::limits::fate::{Fate, play};
use otp_reason::Name;
use otp_spec::{MAX_INTENSITY, MAX_PERIOD, SupFlags, SupSpec};
use otp_trial::{Clock, Halt};
use std::alloc::Global;

/// How far apart crashes of a child must be.
#[derive(Clone, Copy, Debug, PartialEq, Eq)]
pub enum Steady {
    /// Crashes at once are survived.
    Always,
    /// Crashes so many milliseconds apart are survived, and with one millisecond less not.
    Apart(u64),
    /// No crashes are survived, however far apart.
    Never,
}

/// What a run of crashes at an interval shows.
#[derive(Clone, Copy, Debug, PartialEq, Eq)]
pub enum Verdict {
    /// The supervisor runs at its end.
    Lasts,
    /// It ended the supervisor.
    Falls,
}

/// What a run that went so shows.
#[tactic(auto, unfolding(crate::specs::Costs::verdict_of))]
fn verdict_of(fate: Fate) -> Verdict
    ensures { result ≡ verdict_of fate }
{
    match fate {
        Fate::Survived | Fate::Gone(_) => Verdict::Lasts,
        Fate::Ended(_) => Verdict::Falls,
    }
}

/// The longest interval that is tried, in milliseconds: a second longer than the period.
fn longest_gap(flags: &SupFlags) -> u64
    ensures value { result ≡ longest_gap flags.now }
    ensures limit { result ≤ 2 ^ 30 }
{
    (flags.period.min(MAX_PERIOD) + 1) * 1000
}

/// How many crashes are played at an interval: two more than the intensity.
fn steady_crashes(flags: &SupFlags) -> u64
    ensures value { result ≡ steady_crashes flags.now }
    ensures limit { result ≤ 1002 }
{
    flags.intensity.min(MAX_INTENSITY) + 2
}

/// Plays crashes of a child at an interval in milliseconds, two more than the intensity.
///
/// # Errors
///
/// Where memory is refused, or a supervisor has 2^62 events before the last crash.
pub fn judge(
    alloc: Global,
    supervisor: &SupSpec,
    clock: Clock,
    id: &Name,
    gap: u64,
) -> Result<Verdict, Halt>
    requires gap { gap ≤ 2 ^ 30 }
    ensures ok { IfOk result (λ verdict. IsJudged clock supervisor.now.flags supervisor.now.specs id.now gap verdict) }
    ensures full { IfErr result (λ halt. halt ≡ HistoryFull → IsUnknown supervisor.now.flags supervisor.now.specs id.now) }
{
    let crashes = steady_crashes(&supervisor.flags());
    let fate = play(alloc, supervisor, clock, id, gap, crashes)?;
    Ok(verdict_of(fate))
}

/// Between which intervals in milliseconds the shortest lies: crashes that are `long` apart are survived, and those `short`
/// apart are not.
#[derive(Clone, Copy)]
pub(crate) struct Bounds {
    pub short: u64,
    pub long: u64,
}

/// The bounds once crashes were played at an interval between them.
fn narrow(
    alloc: Global,
    supervisor: &SupSpec,
    clock: Clock,
    id: &Name,
    bounds: Bounds,
    gap: u64,
) -> Result<Bounds, Halt>
    requires bounds { AreBounds clock supervisor.now.flags supervisor.now.specs id.now bounds }
    requires inside { (bounds.short < gap) × (gap < bounds.long) }
    ensures bounds { IfOk result (AreBounds clock supervisor.now.flags supervisor.now.specs id.now) }
    ensures narrower { IfOk result (λ after. after.long - after.short < bounds.long - bounds.short) }
    ensures full { IfErr result (λ halt. halt ≡ HistoryFull → IsUnknown supervisor.now.flags supervisor.now.specs id.now) }
{
    match judge(alloc, supervisor, clock, id, gap)? {
        Verdict::Lasts => Ok(Bounds {
            short: bounds.short,
            long: gap,
        }),
        Verdict::Falls => Ok(Bounds {
            short: gap,
            long: bounds.long,
        }),
    }
}

/// The longest interval at which a period holds a restart more than the intensity, by this clock: a millisecond longer is the
/// shortest that is survived, where each crash is one restart. It is tried first, and saves nearly all of the halving.
fn likely_gap(clock: Clock, flags: &SupFlags) -> u64
    ensures { result < 2 ^ 30 }
{
    let period = flags.period.min(MAX_PERIOD) * 1000;
    let intensity = flags.intensity.min(MAX_INTENSITY).max(1);
    match clock {
        Clock::Milliseconds => period / intensity,
        Clock::Seconds => (period + 999) / intensity,
    }
}

/// The shortest interval, if it is a millisecond longer than this one.
#[tactic(auto, unfolding(crate::specs::Costs::IsSteady))]
fn find_above(
    alloc: Global,
    supervisor: &SupSpec,
    clock: Clock,
    id: &Name,
    less: u64,
) -> Result<Option<Steady>, Halt>
    requires limit { less < 2 ^ 30 }
    ensures ok { IfOk result (λ found. IfSome found (IsSteady clock supervisor.now.flags supervisor.now.specs id.now)) }
    ensures full { IfErr result (λ halt. halt ≡ HistoryFull → IsUnknown supervisor.now.flags supervisor.now.specs id.now) }
{
    match judge(alloc, supervisor, clock, id, less + 1)? {
        Verdict::Falls => return Ok(None),
        Verdict::Lasts => {}
    }
    match judge(alloc, supervisor, clock, id, less)? {
        Verdict::Falls => Ok(Some(Steady::Apart(less + 1))),
        Verdict::Lasts => Ok(None),
    }
}

/// Finds the shortest interval by halving.
#[tactic(auto, unfolding(crate::specs::Costs::IsSteady))]
fn search(
    alloc: Global,
    supervisor: &SupSpec,
    clock: Clock,
    id: &Name,
    longest: u64,
) -> Result<Steady, Halt>
    requires limit { (0 < longest) × (longest ≤ 2 ^ 30) }
    requires falls { IsJudged clock supervisor.now.flags supervisor.now.specs id.now 0 Falls }
    requires lasts { IsJudged clock supervisor.now.flags supervisor.now.specs id.now longest Lasts }
    ensures ok { IfOk result (λ steady. IsSteady clock supervisor.now.flags supervisor.now.specs id.now steady) }
    ensures full { IfErr result (λ halt. halt ≡ HistoryFull → IsUnknown supervisor.now.flags supervisor.now.specs id.now) }
{
    let mut bounds = Bounds {
        short: 0,
        long: longest,
    };
    'halving: while bounds.long - bounds.short > 1 {
        let middle = bounds.short + (bounds.long - bounds.short) / 2;
        bounds = narrow(alloc, supervisor, clock, id, bounds, middle)?;
    }
    Ok(Steady::Apart(bounds.long))
}

/// The shortest interval where it isn't the likely one.
#[tactic(auto, unfolding(crate::specs::Costs::IsSteady))]
fn find_other(alloc: Global, supervisor: &SupSpec, clock: Clock, id: &Name) -> Result<Steady, Halt>
    ensures ok { IfOk result (λ steady. IsSteady clock supervisor.now.flags supervisor.now.specs id.now steady) }
    ensures full { IfErr result (λ halt. halt ≡ HistoryFull → IsUnknown supervisor.now.flags supervisor.now.specs id.now) }
{
    match judge(alloc, supervisor, clock, id, 0)? {
        Verdict::Lasts => return Ok(Steady::Always),
        Verdict::Falls => {}
    }
    let longest = longest_gap(&supervisor.flags());
    match judge(alloc, supervisor, clock, id, longest)? {
        Verdict::Falls => Ok(Steady::Never),
        Verdict::Lasts => search(alloc, supervisor, clock, id, longest),
    }
}

/// The shortest interval between crashes of a child that its supervisor survives, by this clock.
///
/// # Errors
///
/// Where memory is refused, or a supervisor has 2^62 events before the last crash of a run.
pub fn find_steady(
    alloc: Global,
    supervisor: &SupSpec,
    clock: Clock,
    id: &Name,
) -> Result<Steady, Halt>
    ensures ok { IfOk result (λ steady. IsSteady clock supervisor.now.flags supervisor.now.specs id.now steady) }
    ensures full { IfErr result (λ halt. halt ≡ HistoryFull → IsUnknown supervisor.now.flags supervisor.now.specs id.now) }
{
    let likely = likely_gap(clock, &supervisor.flags());
    match find_above(alloc, supervisor, clock, id, likely)? {
        Some(steady) => Ok(steady),
        None => find_other(alloc, supervisor, clock, id),
    }
}
