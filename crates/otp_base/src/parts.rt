//! From a machine to its checkpoint, and back.

ghost use Rattle.std.specs.Prelude.{◌≡◌, ◌≤◌, [], All, IfErr, IfOk, OnOk, length};
ghost use Rattle.std.specs.List.Sorted.{IsNonDecreasing};
ghost use Rattle.otp_spec.specs.declared.limits.TheConstants.{MAX_CHILDREN, MAX_PERIOD};
ghost use Rattle.otp_rules.specs.Cuts.{short_base_of};
ghost use Rattle.otp_rules.specs.Evidence.{IsShowing};
ghost use Rattle.otp_rules.specs.Rate.{IsRated};
ghost use Rattle.otp_machine.specs.Seen.{IsSound, outcome_of};
ghost use Rattle.otp_base.specs.Lawful.{IsLawful, IsResumeFault};
ghost use Rattle.otp_base.specs.States.{state_in};

use crate::base::{Base, Counts};
use crate::copies::{copy_list, list_queue};
use crate::fault::ResumeFault;
use crate::lawful::fault_of;
use otp_machine::Machine;
use otp_machine::stores::answers::Answers;
use otp_machine::stores::waits::Waits;
use otp_rules::{Due, Waiting};
use otp_spec::{SupFlags, copy_specs};
use otp_table::{Row, Rows};
use otp_window::Window;
use std::alloc::{AllocError, Global};
use std::collections::VecDeque;

/// The checkpoint of a machine, for which this is counted.
///
/// # Errors
///
/// Where memory is refused.
pub fn base_at(alloc: Global, machine: &Machine, counts: Counts) -> Result<Base, AllocError>
    ensures state { IfOk result (λ base. state_in base ≡ short_base_of (outcome_of machine.now).state) }
    ensures counts { IfOk result (λ base. base.counts ≡ counts) }
{
    let specs = copy_specs(alloc, machine.specs.as_slice())?;
    let rows = copy_list(alloc, machine.rows.as_slice())?;
    let stamps = list_queue(alloc, machine.window.kept())?;
    let to_stop = copy_list(alloc, machine.to_stop.as_slice())?;
    let to_start = list_queue(alloc, &machine.to_start)?;
    let waiting = machine.waiting.to_vec(alloc)?;
    Ok(Base {
        flags: machine.flags(),
        specs,
        rows,
        stamps,
        to_stop,
        to_start,
        follows: machine.follows,
        waiting,
        last: machine.last,
        phase: machine.phase,
        counts,
    })
}

/// A machine that goes on from a checkpoint. Its restarts are in order, none later than the last event, and one too many only
/// where the supervisor ends by them.
///
/// # Errors
///
/// The first fault of the checkpoint, or that there is no memory.
pub fn machine_at(alloc: Global, base: &Base) -> Result<Machine, ResumeFault>
    ensures state { IfOk result (λ machine. (outcome_of machine).state ≡ state_in base.now) }
    ensures orders { IfOk result (λ machine. (outcome_of machine).orders ≡ []) }
    ensures sound { IfOk result IsSound }
    ensures lawful { OnOk result (IsLawful base.now) }
    ensures shows { OnOk result (IsShowing (state_in base.now)) }
    ensures rated { OnOk result (IsRated (state_in base.now)) }
    ensures fault { IfErr result (IsResumeFault base.now) }
{
    if let Some(why) = fault_of(base) {
        return Err(ResumeFault::Base(why));
    }
    match machine_of(alloc, base) {
        Ok(machine) => Ok(machine),
        Err(_) => Err(ResumeFault::OutOfMemory),
    }
}

fn machine_of(alloc: Global, base: &Base) -> Result<Machine, AllocError>
    requires { IsLawful base.now }
    ensures state { IfOk result (λ machine. (outcome_of machine).state ≡ state_in base.now) }
    ensures orders { IfOk result (λ machine. (outcome_of machine).orders ≡ []) }
    ensures sound { IfOk result IsSound }
{
    let window = window_of(alloc, &base.flags, base.stamps.as_slice())?;
    let rows = rows_of(alloc, base.rows.as_slice())?;
    let waiting = waits_of(alloc, base.waiting.as_slice())?;
    let specs = copy_specs(alloc, base.specs.as_slice())?;
    let to_stop = copy_list(alloc, base.to_stop.as_slice())?;
    let to_start = copy_list(alloc, base.to_start.as_slice())?;
    Ok(Machine {
        strategy: base.flags.strategy,
        auto_shutdown: base.flags.auto_shutdown,
        window,
        specs,
        rows,
        to_stop,
        to_start: VecDeque::from_vec(to_start),
        follows: base.follows,
        waiting,
        replies: Answers::new(alloc),
        ends: Vec::new(alloc),
        last: base.last,
        phase: base.phase,
        orders: Vec::new(alloc),
        spare_lines: Vec::new(alloc),
        spare_stamps: Vec::new(alloc),
        spare_kept_stamps: Vec::new(alloc),
    })
}

/// A window with these restarts, which are in order.
fn window_of(alloc: Global, flags: &SupFlags, stamps: &[u64]) -> Result<Window, AllocError>
    requires period { flags.now.period ≤ MAX_PERIOD }
    requires ordered { IsNonDecreasing stamps.now }
    ensures intensity { IfOk result (λ window. window.intensity ≡ flags.now.intensity) }
    ensures period { IfOk result (λ window. window.period ≡ flags.now.period) }
    ensures stamps { IfOk result (λ window. window.stamps ≡ stamps.now) }
{
    let mut window = Window::new(alloc, flags.intensity, flags.period);
    for time in stamps {
        window.reserve()?;
        window.add(*time);
    }
    Ok(window)
}

/// These rows.
fn rows_of(alloc: Global, rows: &[Row]) -> Result<Rows, AllocError>
    requires { length rows.now ≤ MAX_CHILDREN }
    ensures { IfOk result (λ all. all.rows ≡ rows.now) }
{
    let mut all = Rows::new(alloc);
    all.reserve(rows.len())?;
    for row in rows {
        let _ = all.insert(*row);
    }
    Ok(all)
}

/// What waits.
fn waits_of(alloc: Global, items: &[Waiting]) -> Result<Waits, AllocError>
    ensures { IfOk result (λ waits. waits.items ≡ items.now) }
{
    let mut waits = Waits::new(alloc);
    waits.reserve(items.len())?;
    for item in items {
        waits.push_back(*item);
    }
    Ok(waits)
}
