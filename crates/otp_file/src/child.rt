//! The specification of a child, out of its table.
ghost use Rattle.std.specs.Prelude.{◌≡◌, option_map};
ghost use Rattle.otp_file.specs.Children.{child_faults, key_faults, kind_with, plain_faults, spec_in, spec_of, spec_with, tree_in, tree_key_faults, tree_of, value_faults};
ghost use Rattle.otp_file.specs.Faults.{answer_of};
ghost use Rattle.toml.specs.View.{table_view, view};

use crate::fault::{ChildKey, FaultPlace, TreeFault};
use crate::table::{has_only_child_keys, value_at};
use crate::value::{Unfit, kind_at, modules_at, name_at, restart_at, shutdown_at, significant_at};
use otp_reason::Name;
use otp_spec::{ChildSpec, ChildType, Modules, Shutdown};
use toml::{Table, Value};

/// The specification that a value says which stands at this place among its siblings.
pub(crate) fn child_at(index: usize, value: &Value) -> Result<ChildSpec, TreeFault>
    ensures { result ≡ answer_of (child_faults index (view value.now)) (spec_of (view value.now)) }
{
    match value.as_table() {
        Some(table) => spec_in(index, table),
        None => Err(TreeFault::WrongKind(FaultPlace::Child(index))),
    }
}

/// The specification that a table says.
fn spec_in(index: usize, table: &Table) -> Result<ChildSpec, TreeFault>
    ensures { result ≡ answer_of (key_faults index (table_view table.now)) (spec_in (table_view table.now)) }
{
    if !has_only_child_keys(table) {
        return Err(TreeFault::UnknownKey(FaultPlace::Child(index)));
    }
    let Some(id) = value_at(table, ChildKey::Id.name()) else {
        return Err(TreeFault::MissingKey {
            index,
            key: ChildKey::Id,
        });
    };
    let Some(start) = value_at(table, ChildKey::Start.name()) else {
        return Err(TreeFault::MissingKey {
            index,
            key: ChildKey::Start,
        });
    };
    let id = name_at(id).map_err(|unfit| ChildKey::Id.fault(index, unfit))?;
    let start = name_at(start).map_err(|unfit| ChildKey::Start.fault(index, unfit))?;
    spec_with(index, id, start, table)
}

/// The specification with these two names that a table says.
fn spec_with(index: usize, id: Name, start: Name, table: &Table) -> Result<ChildSpec, TreeFault>
    ensures { result
        ≡ answer_of (value_faults index (table_view table.now)) (spec_with id start (table_view table.now)) }
{
    let spec = plain_spec(index, id, start, table)?;
    check_tree(index, spec.kind, spec.shutdown, table)?;
    Ok(spec)
}

/// The specification with these two names that a table says, whatever stands at `tree`.
fn plain_spec(index: usize, id: Name, start: Name, table: &Table) -> Result<ChildSpec, TreeFault>
    ensures { result
        ≡ answer_of (plain_faults index (table_view table.now)) (spec_with id start (table_view table.now)) }
{
    let restart = restart_at(value_at(table, ChildKey::Restart.name())).map_err(
        |unfit| ChildKey::Restart.fault(index, unfit),
    )?;
    let significant = significant_at(value_at(table, ChildKey::Significant.name())).map_err(
        |unfit| ChildKey::Significant.fault(index, unfit),
    )?;
    let shutdown = shutdown_at(value_at(table, ChildKey::Shutdown.name())).map_err(
        |unfit| ChildKey::Shutdown.fault(index, unfit),
    )?;
    let tree = tree_in(table);
    let kind = kind_at(kind_with(tree), value_at(table, ChildKey::Kind.name())).map_err(
        |unfit| ChildKey::Kind.fault(index, unfit),
    )?;
    let modules = modules_at(value_at(table, ChildKey::Modules.name())).map_err(
        |unfit| ChildKey::Modules.fault(index, unfit),
    )?;
    Ok(ChildSpec {
        id,
        start,
        restart,
        significant,
        shutdown: shutdown.unwrap_or(Shutdown::default_of(kind)),
        kind,
        modules: modules.unwrap_or(Modules::One(start)),
    })
}

/// The table at `tree`; `None` also where something else stands there.
fn tree_in(table: &Table) -> Option<&Table>
    ensures { option_map (λ t. table_view t.now) result ≡ tree_in (table_view table.now) }
{
    value_at(table, ChildKey::Tree.name())?.as_table()
}

/// The tree of a child that is a supervisor with a table of its own.
pub(crate) fn tree_of(child: &Value) -> Option<&Table>
    ensures { option_map (λ t. table_view t.now) result ≡ tree_of (view child.now) }
{
    tree_in(child.as_table()?)
}

/// What a child is where its table does not say it.
fn kind_with(tree: Option<&Table>) -> ChildType
    ensures { result ≡ kind_with (option_map (λ t. table_view t.now) tree.entry) }
{
    match tree {
        None => ChildType::Worker,
        Some(_) => ChildType::Supervisor,
    }
}

/// Tests what stands at `tree`, and what a child with a tree is.
fn check_tree(
    index: usize,
    kind: ChildType,
    shutdown: Shutdown,
    table: &Table,
) -> Result<(), TreeFault>
    ensures { result ≡ answer_of (tree_key_faults index (table_view table.now) kind shutdown) tt }
{
    let Some(value) = value_at(table, ChildKey::Tree.name()) else {
        return Ok(());
    };
    if !value.is_table() {
        return Err(ChildKey::Tree.fault(index, Unfit::WrongKind));
    }
    if matches!(kind, ChildType::Worker) {
        return Err(ChildKey::Kind.fault(index, Unfit::WrongKind));
    }
    if !matches!(shutdown, Shutdown::Infinity) {
        return Err(TreeFault::NestedNotInfinity { index });
    }
    Ok(())
}
