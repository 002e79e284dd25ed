//! What a supervisor's table says, the trees of its children aside.
ghost use Rattle.std.specs.Prelude.{◌≡◌, ◌≤◌, Ok, Err, Some, IfErr, IfOk, None, OnOk, is_some, length, map, option_map};
ghost use Rattle.std.specs.List.{list_any};
ghost use Rattle.otp_spec.specs.Flags.{flags_fault};
ghost use Rattle.otp_spec.specs.Lawful.{first_fault};
ghost use Rattle.otp_spec.specs.Supervisor.{IsLawful};
ghost use Rattle.otp_spec.specs.declared.flags.Strategy.TheVariants.{SimpleOneForOne};
ghost use Rattle.otp_file.specs.Children.{children_said, tree_of};
ghost use Rattle.otp_file.specs.Faults.{answer_of};
ghost use Rattle.otp_file.specs.Tree.{child_key_said, children_of, count_faults, list_faults, supervisor_of};
ghost use Rattle.otp_file.specs.Trees.{children_in, nested_of};
ghost use Rattle.otp_file.specs.declared.fault.TreeFault.TheVariants.{OutOfMemory};
ghost use Rattle.toml.specs.View.{table_view, view};

use crate::child::{child_at, tree_of};
use crate::fault::{FlagKey, TreeFault};
use crate::flags::flags_in;
use crate::table::value_at;
use crate::value::Unfit;
use otp_spec::{
    AutoShutdown, ChildSpec, MAX_CHILDREN, SpecFault, Strategy, SupSpec, check_childspecs,
};
use std::alloc::{AllocError, Global};
use toml::{Table, Value};

/// The flags and the specifications that a supervisor's table says.
pub(crate) fn supervisor_in(alloc: Global, table: &Table) -> Result<SupSpec, TreeFault>
    ensures supervisor { IfOk result (λ supervisor. supervisor_of (table_view table.now) ≡ Ok supervisor) }
    ensures fault { IfErr result (λ fault. ¬ (fault ≡ OutOfMemory) → supervisor_of (table_view table.now) ≡ Err fault) }
    ensures lawful { IfOk result (λ supervisor. IsLawful supervisor.flags supervisor.specs) }
    ensures lawful_flags { IfOk result (λ supervisor. flags_fault supervisor.flags ≡ None) }
{
    let flags = flags_in(table)?;
    let specs = specs_at(alloc, value_at(table, FlagKey::Child.name()))?;
    check_count(flags.strategy, specs.len(), has_trees(children_in(table)))?;
    check_specs(specs.as_slice(), flags.auto_shutdown)?;
    Ok(SupSpec::new(flags, specs))
}

/// The children of a supervisor's table; none where there is no array of them.
pub(crate) fn children_in(table: &Table) -> &[Value]
    ensures { map view result.now ≡ children_in (table_view table.now) }
{
    match value_at(table, FlagKey::Child.name()) {
        Some(value) => array_in(value),
        None => &[],
    }
}

/// The values of an array; none where it is something else.
fn array_in(value: &Value) -> &[Value]
    ensures { map view result.now ≡ children_of (Some (view value.now)) }
{
    match value.as_array() {
        Some(values) => values.as_slice(),
        None => &[],
    }
}

/// Whether one of these children has a tree.
fn has_trees(children: &[Value]) -> bool
    ensures { result ≡ list_any (λ child. is_some (tree_of child)) (map view children.now) }
{
    is_any_nested(children)
}

/// Whether one of these values is that of a child that has a tree.
fn is_any_nested(children: &[Value]) -> bool
    ensures { result ≡ list_any (λ child. is_some (tree_of (view child))) children.now }
{
    children.iter().any(|child| tree_of(child).is_some())
}

/// The places of those of these children that have a tree.
pub(crate) fn nested_of(alloc: Global, children: &[Value]) -> Result<Vec<usize>, AllocError>
    ensures { IfOk result (λ places. places.items ≡ nested_of (map view children.now)) }
{
    let mut places = Vec::new(alloc);
    for (index, child) in children.iter().enumerate() {
        if tree_of(child).is_some() {
            places.push(index)?;
        }
    }
    Ok(places)
}

/// The specifications that the value of `child` says.
fn specs_at(alloc: Global, value: Option<&Value>) -> Result<Vec<ChildSpec>, TreeFault>
    ensures specs { IfOk result (λ specs. child_key_said (option_map (λ v. view v.now) value.entry) ≡ Ok specs.items) }
    ensures fault { IfErr result (λ fault. ¬ (fault ≡ OutOfMemory)
        → child_key_said (option_map (λ v. view v.now) value.entry) ≡ Err fault) }
{
    let Some(value) = value else {
        return Ok(Vec::new(alloc));
    };
    match value.as_array() {
        Some(values) => specs_of(alloc, values.as_slice()),
        None => Err(FlagKey::Child.fault(Unfit::WrongKind)),
    }
}

/// The specifications that these values say.
fn specs_of(alloc: Global, values: &[Value]) -> Result<Vec<ChildSpec>, TreeFault>
    ensures specs { IfOk result (λ specs. children_said (map view values.now) ≡ Ok specs.items) }
    ensures fault { IfErr result (λ fault. ¬ (fault ≡ OutOfMemory) → children_said (map view values.now) ≡ Err fault) }
{
    let mut specs = Vec::new(alloc);
    for (index, value) in values.iter().enumerate() {
        let spec = child_at(index, value)?;
        specs.push(spec).map_err(|_| TreeFault::OutOfMemory)?;
    }
    Ok(specs)
}

/// Tests the number of children, and under simple_one_for_one that none has a tree.
fn check_count(strategy: Strategy, count: usize, nested: bool) -> Result<(), TreeFault>
    ensures answer { result ≡ answer_of (count_faults strategy count nested) tt }
    ensures limit { OnOk result (count ≤ MAX_CHILDREN) }
    ensures simple { OnOk result (strategy ≡ SimpleOneForOne → count ≡ 1) }
{
    if count > MAX_CHILDREN {
        return Err(TreeFault::Unlawful(SpecFault::TooManyChildren));
    }
    if strategy.is_simple() && (count != 1 || nested) {
        return Err(TreeFault::Unlawful(SpecFault::SimpleNeedsOne));
    }
    Ok(())
}

/// Tests the list of specifications.
fn check_specs(specs: &[ChildSpec], auto_shutdown: AutoShutdown) -> Result<(), TreeFault>
    ensures answer { result ≡ answer_of (list_faults (first_fault specs.now (Some auto_shutdown))) tt }
    ensures lawful { OnOk result (first_fault specs.now (Some auto_shutdown) ≡ None) }
{
    check_childspecs(specs, Some(auto_shutdown)).map_err(TreeFault::Unlawful)
}
