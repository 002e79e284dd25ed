//! The plan of a tree whose children run worked jobs.
ghost use Rattle.std.specs.Prelude.{◌≡◌, ◌+◌, ◌≤◌, ◌<◌, ◌∷◌, List, Some, None, IfOk, IfErr, OnOk, map, length};
ghost use Rattle.otp_file.specs.Trees.{tables_of};
ghost use Rattle.otp_spec.specs.declared.limits.TheConstants.{MAX_TABLES};
ghost use Rattle.otp_spec.specs.declared.child.ChildSpec.{ChildSpec};
ghost use Rattle.otp_file.specs.RolesFaults.{IsOfPlan, first_unknown, plan_fault, table_seen, unknown_at, unknown_from};
ghost use Rattle.otp_file.specs.declared.roles.fault.PlanFault.TheVariants.{TooManyTables};
ghost use Rattle.otp_open.specs.Plans.{HaveBodies};
ghost use Rattle.otp_jobs.specs.Plans.{bodies_from, first_size, joined, other_sizes, plan_of, plans_from, seen, total};

use crate::body::{Calm, WorkedBody, body_of};
use crate::worker::WorkedJob;
use otp_file::TreeSpec;
use otp_file::roles::{FlatTable, PlanFault, is_nested, role_at, runnable_tables};
use otp_job::{Body, TableNo};
use otp_spec::{ChildSpec, MAX_TABLES};
use otp_tree::TablePlan;
use std::alloc::{AllocError, Global};

/// One supervisor of a tree whose children run worked jobs.
pub type WorkedPlan = TablePlan<WorkedJob, Calm>;

/// Which numbers the trees of a table's children have: the next one, and how many tables each tree has that is still to
/// come.
#[derive(Clone, Copy)]
struct TableNumbers<'a> {
    next: usize,
    sizes: &'a [usize],
}

impl<'a> TableNumbers<'a> {
    /// The number of the next tree.
    fn take(&mut self) -> usize
        requires { self.old.next + total self.old.sizes.now ≤ MAX_TABLES }
        ensures number { result ≡ self.old.next }
        ensures next { self.new.next ≡ self.old.next + first_size self.old.sizes.now }
        ensures sizes { self.new.sizes.now ≡ other_sizes self.old.sizes.now }
        ensures within { self.new.next + total self.new.sizes.now ≡ self.old.next + total self.old.sizes.now }
    {
        let number = self.next;
        if let [first, others @ ..] = self.sizes {
            self.next += *first;
            self.sizes = others;
        }
        number
    }
}

/// The body of the child at a place: a table of the tree, or what its start stands for.
#[tactic(auto, unfolding(otp_file::specs::RolesFaults::unknown_at))]
fn body_at(
    numbers: &mut TableNumbers<'_>,
    nested: &[usize],
    place: usize,
    spec: &ChildSpec,
) -> WorkedBody
    requires known { unknown_at nested.now place spec.now ≡ None }
    requires within { numbers.old.next + total numbers.old.sizes.now ≤ MAX_TABLES }
    ensures body { (rest : List ChildSpec) → bodies_from nested.now numbers.old.next numbers.old.sizes.now place (spec.now ∷ rest)
        ≡ Some result ∷ bodies_from nested.now numbers.new.next numbers.new.sizes.now (place + 1) rest }
    ensures within { numbers.new.next + total numbers.new.sizes.now ≡ numbers.old.next + total numbers.old.sizes.now }
{
    if is_nested(nested, place) {
        return Body::Sup(TableNo::new(numbers.take()));
    }
    match role_at(spec) {
        Some(role) => body_of(role),
        None => unreachable!(),
    }
}

/// The bodies of the children of a table.
fn bodies_of(
    alloc: Global,
    numbers: TableNumbers<'_>,
    nested: &[usize],
    specs: &[ChildSpec],
) -> Result<Vec<WorkedBody>, AllocError>
    requires known { unknown_from nested.now 0 specs.now ≡ None }
    requires within { numbers.next + total numbers.sizes.now ≤ MAX_TABLES }
    ensures { IfOk result (λ bodies. map Some bodies.items ≡ bodies_from nested.now numbers.entry.next numbers.entry.sizes.now 0 specs.now) }
{
    let mut numbers = numbers;
    let mut bodies = Vec::new(alloc);
    for (place, spec) in specs.iter().enumerate() {
        let body = body_at(&mut numbers, nested, place, spec);
        bodies.push(body).map_err(|_| AllocError)?;
    }
    Ok(bodies)
}

/// The sizes of trees of which the first so many are joined to one, below a table.
fn joined(alloc: Global, count: usize, sizes: &[usize]) -> Result<Vec<usize>, AllocError>
    requires { total sizes.now < MAX_TABLES }
    ensures { IfOk result (λ all. all.items ≡ joined 1 count sizes.now) }
{
    let mut size = 1;
    let mut rest = sizes;
    for _ in 0..count {
        let Some((first, others)) = rest.split_first() else {
            break;
        };
        size += *first;
        rest = others;
    }
    let mut all = Vec::new(alloc);
    all.push(size).map_err(|_| AllocError)?;
    all.extend_from_slice(rest)?;
    Ok(all)
}

/// What the table of this number is opened with. `sizes` are those of the trees that begin behind it, and then those that
/// begin with it.
fn plan_one(
    alloc: Global,
    number: usize,
    table: FlatTable,
    sizes: &mut Vec<usize>,
) -> Result<WorkedPlan, AllocError>
    requires known { unknown_from table.nested.items 0 table.supervisor.specs ≡ None }
    requires within { number + total sizes.old.items < MAX_TABLES }
    ensures plan { IfOk result (λ plan. seen plan ≡ plan_of (number + 1) sizes.old.items (table_seen table)) }
    ensures sizes { OnOk result (sizes.new.items ≡ joined 1 (length table.nested.items) sizes.old.items) }
{
    let FlatTable { supervisor, nested } = table;
    let bodies = if supervisor.flags().strategy.is_simple() {
        Vec::new(alloc)
    } else {
        let numbers = TableNumbers {
            next: number + 1,
            sizes: sizes.as_slice(),
        };
        bodies_of(alloc, numbers, nested.as_slice(), supervisor.specs())?
    };
    *sizes = joined(alloc, nested.len(), sizes.as_slice())?;
    Ok(TablePlan { supervisor, bodies })
}

/// What these tables are opened with.
fn plan_all(alloc: Global, tables: Vec<FlatTable>) -> Result<Vec<WorkedPlan>, AllocError>
    requires known { first_unknown (map table_seen tables.items) ≡ None }
    requires few { length tables.items ≤ MAX_TABLES }
    ensures plans { IfOk result (λ plans. map seen plans.items ≡ plans_from 0 (map table_seen tables.items)) }
    ensures count { IfOk result (λ plans. length plans.items ≡ length tables.items) }
{
    let mut tables = tables;
    let mut sizes = Vec::new(alloc);
    let mut plans = Vec::new(alloc);
    while let Some(table) = tables.pop() {
        let plan = plan_one(alloc, tables.len(), table, &mut sizes)?;
        plans.insert(0, plan).map_err(|_| AllocError)?;
    }
    Ok(plans)
}

/// What the supervisors of a tree are opened with, each child with the body that its start stands for: the tables by
/// their numbers, in each the children in list order. A child that has a tree has the number of that tree's table; under
/// simple_one_for_one no body is made.
///
/// # Errors
///
/// Those of [`runnable_tables`].
pub fn plan_tree(alloc: Global, tree: TreeSpec) -> Result<Vec<WorkedPlan>, PlanFault>
    ensures plans { IfOk result (λ plans. map seen plans.items ≡ plans_from 0 (tables_of tree)) }
    ensures runnable { OnOk result (plan_fault (tables_of tree) ≡ None) }
    ensures fault { IfErr result (λ fault. IsOfPlan fault → plan_fault (tables_of tree) ≡ Some fault) }
    // Each supervisor has a body for each child that an opening makes.
    ensures bodies { IfOk result (λ plans. HaveBodies plans.items) }
    // It has too many supervisors only where it has more than there can be.
    ensures too_many { IfErr result (λ fault. fault ≡ TooManyTables → MAX_TABLES < length (tables_of tree)) }
    ensures few { IfOk result (λ plans. length plans.items ≤ MAX_TABLES) }
    ensures count { IfOk result (λ plans. length plans.items ≡ length (tables_of tree)) }
{
    let tables = runnable_tables(alloc, tree)?;
    Ok(plan_all(alloc, tables)?)
}
