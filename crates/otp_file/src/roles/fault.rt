//! Whether a tree can be run by the words of its starts.
ghost use Rattle.std.specs.Prelude.{◌≡◌, ◌≤◌, ◌<◌, Some, None, IfOk, IfErr, OnOk, map, length};
ghost use Rattle.std.specs.List.{list_any};
ghost use Rattle.otp_file.specs.Trees.{tables_of};
ghost use Rattle.otp_spec.specs.declared.limits.TheConstants.{MAX_TABLES};
ghost use Rattle.otp_file.specs.declared.roles.fault.PlanFault.TheVariants.{TooManyTables};
ghost use Rattle.otp_file.specs.RolesFaults.{IsOfPlan, first_unknown, has_misfit, misfits, misfit_at, misfit_from, plan_fault, table_seen, unknown_at, unknown_from};

use crate::TreeSpec;
use crate::roles::flat::{FlatTable, flatten, is_nested};
use crate::roles::role::{Role, role_at};
use otp_reason::Name;
use otp_spec::{ChildSpec, ChildType, MAX_TABLES};
use std::alloc::{AllocError, Global};

/// Why a tree can't be run with worked jobs.
#[derive(Clone, Copy, Debug, PartialEq, Eq)]
pub enum PlanFault {
    /// E0: memory was refused.
    OutOfMemory,
    /// E15: there are more than 64 supervisors, which no tree file says.
    TooManyTables,
    /// The start of a child that has no tree is no word of a worked job.
    UnknownStart(Name),
    /// E19: a worker's job stands where a supervisor is wanted.
    WrongBody,
}

impl From<AllocError> for PlanFault {
    ghost use Rattle.std.specs.Prelude.{◌≡◌};
    ghost use Rattle.otp_file.specs.declared.roles.fault.PlanFault.TheVariants.{OutOfMemory};

    ghost from_gives = { λ _ fault. fault ≡ OutOfMemory };

    fn from(_: AllocError) -> PlanFault {
        PlanFault::OutOfMemory
    }
}

/// The start of the child at a place, where it is no word of a worked job and the child has no tree.
#[tactic(auto, unfolding(crate::specs::RolesFaults::unknown_at))]
fn unknown_at(nested: &[usize], place: usize, spec: &ChildSpec) -> Option<Name>
    ensures { result ≡ unknown_at nested.now place spec.now }
{
    if is_nested(nested, place) {
        return None;
    }
    match role_at(spec) {
        Some(_) => None,
        None => Some(spec.start),
    }
}

/// The first unknown start among the children of a table that have no tree.
fn unknown_in(nested: &[usize], specs: &[ChildSpec]) -> Option<Name>
    ensures { result ≡ unknown_from nested.now 0 specs.now }
{
    for (place, spec) in specs.iter().enumerate() {
        if let Some(name) = unknown_at(nested, place, spec) {
            return Some(name);
        }
    }
    None
}

/// The first unknown start in a list of tables.
fn first_unknown(tables: &[FlatTable]) -> Option<Name>
    ensures { result ≡ first_unknown (map table_seen tables.now) }
{
    for table in tables {
        if let Some(name) = unknown_in(table.nested.as_slice(), table.supervisor.specs()) {
            return Some(name);
        }
    }
    None
}

/// Whether a job stands where a supervisor is wanted.
fn misfits(kind: ChildType, role: Option<Role>) -> bool
    ensures { result ≡ misfits kind role }
{
    matches!((kind, role), (ChildType::Supervisor, Some(Role::Worker(_))))
}

/// Whether the child at a place has no tree, and a job in the place of a supervisor.
#[tactic(auto, unfolding(crate::specs::RolesFaults::misfit_at))]
fn misfit_at(nested: &[usize], place: usize, spec: &ChildSpec) -> bool
    ensures { result ≡ misfit_at nested.now place spec.now }
{
    !is_nested(nested, place) && misfits(spec.kind, role_at(spec))
}

/// Whether one of the children of a table that have no tree has a job in the place of a supervisor.
fn misfit_in(nested: &[usize], specs: &[ChildSpec]) -> bool
    ensures { result ≡ misfit_from nested.now 0 specs.now }
{
    for (place, spec) in specs.iter().enumerate() {
        if misfit_at(nested, place, spec) {
            return true;
        }
    }
    false
}

/// Whether a child of a table has a job in the place of a supervisor, which is no fault under simple_one_for_one.
fn has_misfit(table: &FlatTable) -> bool
    ensures { result ≡ has_misfit (table_seen table.now) }
{
    !table.supervisor.flags().strategy.is_simple()
        && misfit_in(table.nested.as_slice(), table.supervisor.specs())
}

/// Whether a child of one of these tables has a job in the place of a supervisor.
fn any_misfit(tables: &[FlatTable]) -> bool
    ensures { result ≡ list_any has_misfit (map table_seen tables.now) }
{
    for table in tables {
        if has_misfit(table) {
            return true;
        }
    }
    false
}

/// Tests whether the starts of a tree with these tables can be run.
fn check(tables: &[FlatTable]) -> Result<(), PlanFault>
    ensures ok { OnOk result (plan_fault (map table_seen tables.now) ≡ None) }
    ensures err { IfErr result (λ fault. plan_fault (map table_seen tables.now) ≡ Some fault) }
    ensures named { IfErr result IsOfPlan }
{
    if let Some(name) = first_unknown(tables) {
        return Err(PlanFault::UnknownStart(name));
    }
    if any_misfit(tables) {
        return Err(PlanFault::WrongBody);
    }
    Ok(())
}

/// The tables of a tree that can be run with worked jobs, in the order of their numbers.
///
/// # Errors
///
/// [`PlanFault::UnknownStart`] with the first start, in the order of the tables, that stands for nothing;
/// [`PlanFault::WrongBody`] where a child of type supervisor has neither a tree nor the start `bridge`;
/// [`PlanFault::OutOfMemory`] and [`PlanFault::TooManyTables`].
pub fn runnable_tables(alloc: Global, tree: TreeSpec) -> Result<Vec<FlatTable>, PlanFault>
    ensures tables { IfOk result (λ tables. map table_seen tables.items ≡ tables_of tree) }
    ensures runnable { OnOk result (plan_fault (tables_of tree) ≡ None) }
    ensures few { IfOk result (λ tables. length tables.items ≤ MAX_TABLES) }
    ensures fault { IfErr result (λ fault. IsOfPlan fault → plan_fault (tables_of tree) ≡ Some fault) }
    // It has too many supervisors only where it has more than there can be.
    ensures too_many { IfErr result (λ fault. fault ≡ TooManyTables → MAX_TABLES < length (tables_of tree)) }
{
    let mut tables = Vec::new(alloc);
    flatten(alloc, tree, &mut tables)?;
    check(tables.as_slice())?;
    if tables.len() > MAX_TABLES {
        return Err(PlanFault::TooManyTables);
    }
    Ok(tables)
}
