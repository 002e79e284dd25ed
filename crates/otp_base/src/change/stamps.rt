//! Which restarts count under other flags.

ghost use Rattle.std.specs.Prelude.{◌≡◌, ◌≤◌, IfOk};
ghost use Rattle.std.specs.List.{filter};
ghost use Rattle.otp_spec.specs.declared.limits.TheConstants.{MAX_PERIOD};
ghost use Rattle.otp_window.specs.Period.{is_in_period};
ghost use Rattle.otp_base.specs.Change.{last_few, stamps_after};

use otp_spec::SupFlags;
use std::alloc::{AllocError, Global};

/// Whether a restart lies in the period that ends with the last event.
fn is_in_period(period: u64, last: u64, time: u64) -> bool
    requires { period ≤ MAX_PERIOD }
    ensures { result ≡ is_in_period period last time }
{
    time <= last && last - time <= 1000 * period
}

fn times_within(
    alloc: Global,
    period: u64,
    last: u64,
    times: &[u64],
) -> Result<Vec<u64>, AllocError>
    requires { period ≤ MAX_PERIOD }
    ensures { IfOk result (λ list. list.items ≡ filter (is_in_period period last) times.now) }
{
    let mut list = Vec::new(alloc);
    for time in times {
        if is_in_period(period, last, *time) {
            list.push(*time)?;
        }
    }
    Ok(list)
}

/// The last of these numbers, so many at most.
fn last_few(alloc: Global, count: u64, times: &[u64]) -> Result<Vec<u64>, AllocError>
    ensures { IfOk result (λ list. list.items ≡ last_few count times.now) }
{
    let from = times.len().saturating_sub(count as usize);
    let mut list = Vec::new(alloc);
    list.extend_from_slice(&times[from..])?;
    Ok(list)
}

/// The restarts that count under these flags.
pub(crate) fn stamps_after(
    alloc: Global,
    flags: &SupFlags,
    last: u64,
    stamps: &[u64],
) -> Result<Vec<u64>, AllocError>
    requires { flags.now.period ≤ MAX_PERIOD }
    ensures { IfOk result (λ list. list.items ≡ stamps_after flags.now last stamps.now) }
{
    let recent = times_within(alloc, flags.period, last, stamps)?;
    last_few(alloc, flags.intensity, recent.as_slice())
}
