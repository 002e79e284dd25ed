//! A tree is opened with more places than supervisors: those that are spare have no children until a supervisor is added there.
ghost use Rattle.std.specs.Prelude.{◌≡◌, ◌+◌, ◌≤◌, IfErr, IfOk, length, take, vec_capacity};
ghost use Rattle.otp_open.specs.Spares.{ArePadded, IsSpare};

use crate::plan::TablePlan;
use otp_spec::{SupFlags, SupSpec};
use std::alloc::Global;

/// The plan of a spare place: no children. Takes no memory.
fn spare_plan<J: Drop, S: Drop>(alloc: Global) -> TablePlan<J, S>
    ensures { IsSpare result }
{
    TablePlan {
        supervisor: SupSpec::new(SupFlags::default(), Vec::new(alloc)),
        bodies: Vec::new(alloc),
    }
}

/// These plans, and behind them those of spare places, so many in all. Where memory is refused they come back.
pub fn with_spares<J: Drop, S: Drop>(
    alloc: Global,
    plans: Vec<TablePlan<J, S>>,
    places: usize,
) -> Result<Vec<TablePlan<J, S>>, Vec<TablePlan<J, S>>>
    requires { length plans.items ≤ places }
    ensures padded { IfOk result (λ all. ArePadded places plans.items all.items) }
    ensures back { IfErr result (λ back. back.items ≡ plans.items) }
{
    let mut all = plans;
    let spares = places - all.len();
    if all.reserve(spares).is_err() {
        return Err(all);
    }
    Ok(padded(alloc, all, spares))
}

/// These plans, and behind them so many of spare places, for which the list has room.
fn padded<J: Drop, S: Drop>(
    alloc: Global,
    plans: Vec<TablePlan<J, S>>,
    spares: usize,
) -> Vec<TablePlan<J, S>>
    requires { length plans.items + spares ≤ vec_capacity plans }
    ensures { ArePadded (length plans.items + spares) plans.items result.items }
{
    let mut all = plans;
    for _ in 0..spares {
        all.push_reserved(spare_plan(alloc));
    }
    all
}

/// The plans of so many places, the first, without those behind them.
pub fn without_spares<J: Drop, S: Drop>(
    plans: Vec<TablePlan<J, S>>,
    count: usize,
) -> Vec<TablePlan<J, S>>
    ensures { result.items ≡ take count plans.items }
{
    let mut plans = plans;
    plans.truncate(count);
    plans
}
