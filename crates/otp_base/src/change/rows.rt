//! The children under other specifications.

ghost use Rattle.std.specs.Prelude.{◌≡◌, ◌≤◌, IfErr, IfOk, OnOk, false, length, map};
ghost use Rattle.std.specs.List.{list_any};
ghost use Rattle.otp_base.specs.States.{state_in};
ghost use Rattle.otp_rules.specs.State.{is_over};
ghost use Rattle.otp_spec.specs.declared.limits.TheConstants.{MAX_CHILDREN};
ghost use Rattle.otp_base.specs.Change.{IsRowsFault, is_defined, loses, plan_in, rows_after, shared};
ghost use Rattle.otp_base.specs.Seats.{rows_of, seated, standing};

use crate::Base;
use crate::change::fault::ChangeFault;
use crate::change::seat::{respecified, rows_of, seat_children};
use otp_rules::Phase;
use otp_spec::{ChildSpec, SupFlags};
use otp_table::Row;
use std::alloc::{AllocError, Global};

/// The child under the specification that all share.
fn shared(specs: &[ChildSpec], row: Row) -> Row
    ensures { result ≡ shared specs.now row }
{
    match specs {
        [spec, ..] => respecified(spec, row),
        [] => row,
    }
}

/// The children under the specification that all share.
fn share(alloc: Global, specs: &[ChildSpec], rows: &[Row]) -> Result<Vec<Row>, AllocError>
    ensures { IfOk result (λ list. list.items ≡ map (shared specs.now) rows.now) }
{
    let mut list = Vec::new(alloc);
    for row in rows {
        list.push(shared(specs, *row))?;
    }
    Ok(list)
}

pub(crate) fn is_over(phase: Phase) -> bool
    ensures { result ≡ is_over phase }
{
    !matches!(phase, Phase::Open(_))
}

/// The specifications for which there are children.
fn plan_in(phase: Phase, specs: &[ChildSpec]) -> &[ChildSpec]
    ensures { result.now ≡ plan_in phase specs.now }
{
    if is_over(phase) { &[] } else { specs }
}

fn has_defined(rows: &[Row]) -> bool
    ensures { result ≡ list_any is_defined rows.now }
{
    rows.iter().any(|row| !row.state.is_undefined())
}

/// The children in the order of these specifications, if none that vanishes has a process.
fn seat_all(alloc: Global, rows: &[Row], specs: &[ChildSpec]) -> Result<Vec<Row>, ChangeFault>
    requires { length specs.now ≤ MAX_CHILDREN }
    ensures rows { IfOk result (λ list. list.items ≡ rows_of (seated (standing rows.now) specs.now).seats) }
    ensures kept { OnOk result (list_any is_defined (seated (standing rows.now) specs.now).left ≡ false) }
    ensures fault { IfErr result (IsRowsFault (list_any is_defined (seated (standing rows.now) specs.now).left)) }
{
    let all = seat_children(alloc, rows, specs)?;
    if has_defined(all.left.as_slice()) {
        return Err(ChangeFault::Running);
    }
    let list = rows_of(alloc, all.seats.as_slice())?;
    Ok(list)
}

/// The children of a supervisor under other flags and specifications.
pub(crate) fn rows_after(
    alloc: Global,
    base: &Base,
    flags: &SupFlags,
    specs: &[ChildSpec],
) -> Result<Vec<Row>, ChangeFault>
    requires { length specs.now ≤ MAX_CHILDREN }
    ensures rows { IfOk result (λ list. list.items ≡ rows_after flags.now.strategy specs.now (state_in base.now)) }
    ensures kept { OnOk result (loses flags.now.strategy specs.now (state_in base.now) ≡ false) }
    ensures fault { IfErr result (IsRowsFault (loses flags.now.strategy specs.now (state_in base.now))) }
{
    if flags.strategy.is_simple() {
        let list = share(alloc, specs, base.rows.as_slice())?;
        Ok(list)
    } else {
        seat_all(alloc, base.rows.as_slice(), plan_in(base.phase, specs))
    }
}
