//! The change itself.

ghost use Rattle.std.specs.Prelude.{◌≡◌, ◌≤◌, ◌==◌, ℕ, IfErr, IfOk, None, OnOk, length, reverse};
ghost use Rattle.otp_base.specs.Lawful.{IsLawful};
ghost use Rattle.otp_base.specs.States.{state_in};
ghost use Rattle.otp_rules.specs.InOrder.{IsInOrder};
ghost use Rattle.otp_spec.specs.Supervisor.{IsLawful as IsLawfulPlan};
ghost use Rattle.otp_spec.specs.declared.limits.TheConstants.{MAX_PERIOD};
ghost use Rattle.otp_base.specs.Change.{IsRefusal, MayChange, changed, differ, is_quiet, is_turned, phase_after, plan_fault, rows_after};

use crate::Base;
use crate::change::fault::ChangeFault;
use crate::change::rows::{is_over, rows_after};
use crate::change::stamps::stamps_after;
use otp_rules::Phase;
use otp_spec::{ChildSpec, SupFlags, check_supervisor, copy_specs};
use otp_table::Row;
use std::alloc::{AllocError, Global};

/// Whether no process is to be stopped.
fn stops_nobody(processes: &[u64]) -> bool
    ensures { result ≡ (length (reverse processes.now) == 0) }
{
    processes.is_empty()
}

/// Whether no work is open and nothing waits.
fn is_quiet(base: &Base) -> bool
    ensures { result ≡ is_quiet (state_in base.now) }
{
    base.follows.is_none()
        && stops_nobody(base.to_stop.as_slice())
        && base.to_start.is_empty()
        && base.waiting.is_empty()
        && (!is_over(base.phase) || base.rows.is_empty())
}

fn differ(one: bool, other: bool) -> bool
    ensures { result ≡ differ one other }
{
    if one { !other } else { other }
}

/// Whether children would turn into dynamic ones, or dynamic ones into others.
fn is_turned(base: &Base, flags: &SupFlags) -> bool
    ensures { result ≡ is_turned base.now.flags.strategy flags.now.strategy base.now.rows.items }
{
    differ(base.flags.strategy.is_simple(), flags.strategy.is_simple()) && !base.rows.is_empty()
}

/// The first fault that is seen without memory.
#[tactic(auto, unfolding(crate::specs::Change::plan_fault))]
fn plan_fault(base: &Base, flags: &SupFlags, specs: &[ChildSpec]) -> Option<ChangeFault>
    ensures fault { result ≡ plan_fault flags.now specs.now (state_in base.now) }
    ensures lawful { result ≡ None → IsLawfulPlan flags.now specs.now }
{
    if !is_quiet(base) {
        return Some(ChangeFault::Busy);
    }
    if let Err(why) = check_supervisor(flags, specs) {
        return Some(ChangeFault::Spec(why));
    }
    if is_turned(base, flags) {
        return Some(ChangeFault::Turned);
    }
    None
}

fn phase_after(phase: Phase) -> Phase
    ensures { result ≡ phase_after phase }
{
    match phase {
        Phase::Open(own) => Phase::Open(own),
        _ => Phase::Unopened,
    }
}

/// The checkpoint with other flags, specifications and children.
fn base_after(
    alloc: Global,
    base: &Base,
    flags: &SupFlags,
    specs: &[ChildSpec],
    rows: Vec<Row>,
) -> Result<Base, AllocError>
    requires period { flags.now.period ≤ MAX_PERIOD }
    requires rows { rows.items ≡ rows_after flags.now.strategy specs.now (state_in base.now) }
    ensures state { IfOk result (λ new. state_in new ≡ changed flags.now specs.now (state_in base.now)) }
    ensures counts { IfOk result (λ new. new.counts ≡ base.now.counts) }
{
    let stamps = stamps_after(alloc, flags, base.last, base.stamps.as_slice())?;
    let specs = copy_specs(alloc, specs)?;
    Ok(Base {
        flags: *flags,
        specs,
        rows,
        stamps,
        to_stop: Vec::new(alloc),
        to_start: Vec::new(alloc),
        follows: None,
        waiting: Vec::new(alloc),
        last: base.last,
        phase: phase_after(base.phase),
        counts: base.counts,
    })
}

/// The checkpoint of a supervisor under other flags and other specifications (`supervisor`, `code_change/3`). A child of both
/// gets the new specification, and keeps its process, its number and its slot; one that is added has no process, until a call
/// starts it. The restarts that count stay, but for so many that none ends the supervisor; what is counted stays. The
/// checkpoint that is given stays as it is.
///
/// # Errors
///
/// The first fault, in this order: [`ChangeFault::Busy`], [`ChangeFault::Spec`], [`ChangeFault::Turned`]; then
/// [`ChangeFault::Running`], or [`ChangeFault::OutOfMemory`] where memory is refused.
pub fn change(
    alloc: Global,
    base: &Base,
    flags: &SupFlags,
    specs: &[ChildSpec],
) -> Result<Base, ChangeFault>
    ensures state { IfOk result (λ new. state_in new ≡ changed flags.now specs.now (state_in base.now)) }
    ensures counts { IfOk result (λ new. new.counts ≡ base.now.counts) }
    ensures possible { OnOk result (MayChange flags.now specs.now (state_in base.now)) }
    ensures resumes { IfOk result (λ new. IsLawful base.now → IsLawful new) }
    ensures order { IfOk result (λ new. (n : ℕ) → IsInOrder n (state_in base.now) → IsInOrder n (state_in new)) }
    ensures fault { IfErr result (IsRefusal flags.now specs.now (state_in base.now)) }
{
    if let Some(why) = plan_fault(base, flags, specs) {
        return Err(why);
    }
    let rows = rows_after(alloc, base, flags, specs)?;
    let new = base_after(alloc, base, flags, specs, rows)?;
    Ok(new)
}
