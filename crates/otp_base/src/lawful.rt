//! Which checkpoints are lawful.

ghost use Rattle.std.specs.Prelude.{◌≡◌, ◌≤◌, ◌↔◌, All, IsTrue, IfSome, None};
ghost use Rattle.std.specs.List.Sorted.{IsNonDecreasing};
ghost use Rattle.otp_spec.specs.declared.limits.TheConstants.{MAX_INTENSITY, MAX_PERIOD};
ghost use Rattle.otp_base.specs.Lawful.{ends_by_intensity, is_crowded, AreCounts, AreRestarts, HasFault, IsLawful};

use crate::base::{Base, Counts};
use crate::fault::BaseFault;
use otp_rules::{Ending, Phase, Sequel};
use otp_spec::{MAX_CHILDREN, MAX_READING, SupFlags, check_supervisor};

/// The most events and starts that a checkpoint counts.
pub(crate) const MAX_COUNT: u64 = 1 << 62;

/// The first fault of a checkpoint, if it has one.
pub(crate) fn fault_of(base: &Base) -> Option<BaseFault>
    ensures none { result ≡ None → IsLawful base.now }
    ensures some { IfSome result (HasFault base.now) }
{
    if let Err(why) = check_supervisor(&base.flags, base.specs.as_slice()) {
        return Some(BaseFault::Spec(why));
    }
    if base.rows.len() > MAX_CHILDREN {
        return Some(BaseFault::Rows);
    }
    if base.last > MAX_READING {
        return Some(BaseFault::Reading);
    }
    if !are_restarts(
        &base.flags,
        base.stamps.as_slice(),
        base.last,
        base.follows,
        base.phase,
    ) {
        return Some(BaseFault::Restarts);
    }
    if !are_counts(&base.counts) {
        return Some(BaseFault::Counts);
    }
    None
}

fn are_counts(counts: &Counts) -> bool
    ensures { IsTrue result ↔ AreCounts counts.now }
{
    counts.starts <= counts.events && counts.events <= MAX_COUNT
}

fn are_restarts(
    flags: &SupFlags,
    stamps: &[u64],
    last: u64,
    follows: Option<Sequel>,
    phase: Phase,
) -> bool
    requires intensity { flags.now.intensity ≤ MAX_INTENSITY }
    requires period { flags.now.period ≤ MAX_PERIOD }
    ensures { IsTrue result ↔ AreRestarts flags.now stamps.now last follows phase }
{
    are_ordered(stamps)
        && are_past(stamps, last)
        && stamps.len() as u64 <= flags.intensity + 1
        && is_crowded(flags.intensity, flags.period, stamps) == ends_by_intensity(follows, phase)
}

fn are_ordered(stamps: &[u64]) -> bool
    ensures { IsTrue result ↔ IsNonDecreasing stamps.now }
{
    stamps.is_sorted()
}

fn are_past(stamps: &[u64], last: u64) -> bool
    ensures { IsTrue result ↔ All (λ t. t ≤ last) stamps.now }
{
    stamps.iter().all(|time| *time <= last)
}

/// Whether restarts, in their order, are one too many.
fn is_crowded(intensity: u64, period: u64, stamps: &[u64]) -> bool
    requires ordered { IsNonDecreasing stamps.now }
    requires period { period ≤ MAX_PERIOD }
    ensures { result ≡ is_crowded intensity period stamps.now }
{
    let count = stamps.len();
    if count as u64 <= intensity {
        return false;
    }
    stamps[count - 1] - stamps[0] <= 1000 * period
}

/// Whether a supervisor ends, or has ended, by the intensity.
fn ends_by_intensity(follows: Option<Sequel>, phase: Phase) -> bool
    ensures { result ≡ ends_by_intensity follows phase }
{
    match (follows, phase) {
        (Some(Sequel::End(Ending::Intensity)), _) => true,
        (None, Phase::Ended(_, Ending::Intensity)) => true,
        _ => false,
    }
}
