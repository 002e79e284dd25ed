//! What the failure of one child costs.

ghost use Rattle.std.specs.Prelude.{◌≡◌, ◌++◌, None, IfErr, IfOk, OnOk};
ghost use Rattle.std.specs.List.{filter_map};
ghost use Rattle.otp_costs.specs.Costs.{Affects, Crashed, IsCost, IsUnknown, started_by, stopped_by};
ghost use Rattle.otp_costs.specs.Fates.{Fills, IsUnplayed};
ghost use Rattle.otp_trial.specs.declared.clock.Clock.TheVariants.{Milliseconds};
ghost use Rattle.otp_trial.specs.declared.trial.Halt.TheVariants.{HistoryFull};

use crate::limits::fate::{Fate, play};
use crate::limits::list::{Listed, copy_names};
use crate::limits::stage::CrashPlayer;
use crate::limits::steady::{Steady, find_steady};
use otp_reason::Name;
use otp_rules::Effect;
use otp_spec::SupSpec;
use otp_trial::{Clock, Halt};
use std::alloc::{AllocError, Global};

/// The most crashes of a burst that are played: more than the greatest intensity.
pub const MOST_CRASHES: u64 = 1024;

/// What the failure of a child costs.
#[derive(Debug, Drop)]
pub struct Cost {
    /// The child.
    pub id: Name,
    /// The children that a crash of it stops, in the order in which they are told to end.
    pub stops: Listed<Name>,
    /// The children that are started again, in their order.
    pub starts: Listed<Name>,
    /// How its supervisor fares where it crashes again and again, with no time between.
    pub burst: Fate,
    /// How far apart its crashes must be.
    pub steady: Steady,
    /// How far apart they must be by the clock of OTP, which shows whole seconds.
    pub seconds: Steady,
}

impl Cost {
    /// A copy.
    ///
    /// # Errors
    ///
    /// Where memory is refused.
    pub fn try_clone(&self, alloc: Global) -> Result<Self, AllocError>
        ensures { IfOk result (λ copy. copy ≡ self.now) }
    {
        let stops = copy_names(alloc, self.stops.as_slice())?;
        let starts = copy_names(alloc, self.starts.as_slice())?;
        Ok(Cost {
            id: self.id,
            stops,
            starts,
            burst: self.burst,
            steady: self.steady,
            seconds: self.seconds,
        })
    }
}

/// The child that an order stops: one without an id is called by that of its specification.
#[tactic(auto, unfolding(crate::specs::Costs::stopped_by))]
fn stopped_by(spec: &Name, order: &Effect) -> Option<Name>
    ensures { result ≡ stopped_by spec.now order.now }
{
    match order {
        Effect::Ask(id, _) | Effect::Kill(id, _) => Some(id.unwrap_or(*spec)),
        Effect::Start(..) | Effect::Reply(_) | Effect::Ready | Effect::End(_) => None,
    }
}

/// The child that an order starts: one without an id is called by that of its specification.
#[tactic(auto, unfolding(crate::specs::Costs::started_by))]
fn started_by(spec: &Name, order: &Effect) -> Option<Name>
    ensures { result ≡ started_by spec.now order.now }
{
    match order {
        Effect::Start(id, _) => Some(id.unwrap_or(*spec)),
        Effect::Ask(..) | Effect::Kill(..) => None,
        Effect::Reply(_) | Effect::Ready | Effect::End(_) => None,
    }
}

/// Puts the children that these orders stop behind others.
fn put_stopped(spec: &Name, orders: &[Effect], names: &mut Listed<Name>) -> Result<(), AllocError>
    ensures { OnOk result (names.new ≡ names.old ++ filter_map (stopped_by spec.now) orders.now) }
{
    for order in orders {
        if let Some(id) = stopped_by(spec, order) {
            names.push(id)?;
        }
    }
    Ok(())
}

/// Puts the children that these orders start behind others.
fn put_started(spec: &Name, orders: &[Effect], names: &mut Listed<Name>) -> Result<(), AllocError>
    ensures { OnOk result (names.new ≡ names.old ++ filter_map (started_by spec.now) orders.now) }
{
    for order in orders {
        if let Some(id) = started_by(spec, order) {
            names.push(id)?;
        }
    }
    Ok(())
}

/// What one crash of a child stops, and what is started again.
fn find_affected(
    alloc: Global,
    supervisor: &SupSpec,
    id: &Name,
) -> Result<(Listed<Name>, Listed<Name>), Halt>
    ensures ok { IfOk result (λ found. Affects supervisor.now.flags supervisor.now.specs id.now found.0 found.1) }
    ensures full { IfErr result (λ halt. halt ≡ HistoryFull → IsUnplayed supervisor.now.flags supervisor.now.specs Milliseconds id.now 0 1) }
{
    let mut stage = CrashPlayer::open(alloc, supervisor)?;
    find_crashed(alloc, &mut stage, id)
}

/// What one crash of a child of this supervisor stops, and what is started again.
#[tactic(auto, unfolding(otp_trial::specs::Clocks::shown))]
fn find_crashed(
    alloc: Global,
    stage: &mut CrashPlayer,
    id: &Name,
) -> Result<(Listed<Name>, Listed<Name>), Halt>
    ensures ok { IfOk result (λ found. Crashed id.now stage.old found.0 found.1) }
    ensures full { IfErr result (λ halt. halt ≡ HistoryFull → Fills Milliseconds id.now 0 1 stage.old) }
{
    stage.crash(id, 0)?;
    let mut stops = Listed::new(alloc);
    let mut starts = Listed::new(alloc);
    put_affected(id, stage.orders(), &mut stops, &mut starts)?;
    Ok((stops, starts))
}

/// Puts the children that these orders stop, and those that they start, behind others.
fn put_affected(
    id: &Name,
    orders: &[Effect],
    stops: &mut Listed<Name>,
    starts: &mut Listed<Name>,
) -> Result<(), AllocError>
    ensures stops { OnOk result (stops.new ≡ stops.old ++ filter_map (stopped_by id.now) orders.now) }
    ensures starts { OnOk result (starts.new ≡ starts.old ++ filter_map (started_by id.now) orders.now) }
{
    put_stopped(id, orders, stops)?;
    put_started(id, orders, starts)
}

/// What the failure of the child with this id costs.
///
/// # Errors
///
/// Where memory is refused, or a supervisor has 2^62 events before the last crash of a run.
pub fn find_cost(alloc: Global, supervisor: &SupSpec, id: &Name) -> Result<Cost, Halt>
    ensures ok { IfOk result (λ cost. IsCost supervisor.now.flags supervisor.now.specs id.now cost) }
    ensures full { IfErr result (λ halt. halt ≡ HistoryFull → IsUnknown supervisor.now.flags supervisor.now.specs id.now) }
{
    let (stops, starts) = find_affected(alloc, supervisor, id)?;
    let burst = play(alloc, supervisor, Clock::Milliseconds, id, 0, MOST_CRASHES)?;
    let steady = find_steady(alloc, supervisor, Clock::Milliseconds, id)?;
    let seconds = find_steady(alloc, supervisor, Clock::Seconds, id)?;
    Ok(Cost {
        id: *id,
        stops,
        starts,
        burst,
        steady,
        seconds,
    })
}
