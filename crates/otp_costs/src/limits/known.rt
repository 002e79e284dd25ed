//! What the failure of children costs their supervisors, as far as it was found: supervisors that are opened with the same have the
//! same costs.

ghost use Rattle.std.specs.Prelude.{IsTrue, ◌≡◌, Some, IfOk, IfSome, slice_get};
ghost use Rattle.otp_costs.specs.Costs.{AreCosts, IsCost};

use crate::limits::cost::{Cost, find_cost};
use otp_reason::Name;
use otp_spec::{ChildSpec, SupFlags, SupSpec};
use otp_trial::Halt;
use std::alloc::{AllocError, Global};
use std::marker::Model;

/// Whether two children are stopped, counted and restarted by the same keys.
fn has_same_keys(one: &ChildSpec, other: &ChildSpec) -> bool
    ensures restart { IsTrue result → one.now.restart ≡ other.now.restart }
    ensures significant { IsTrue result → one.now.significant ≡ other.now.significant }
    ensures shutdown { IsTrue result → one.now.shutdown ≡ other.now.shutdown }
    ensures kind { IsTrue result → one.now.kind ≡ other.now.kind }
{
    one.restart == other.restart
        && one.significant == other.significant
        && one.shutdown == other.shutdown
        && one.kind == other.kind
}

/// Whether two children are specified the same.
fn is_same_child(one: &ChildSpec, other: &ChildSpec) -> bool
    ensures { IsTrue result → one.now ≡ other.now }
{
    has_same_keys(one, other)
        && one.id.is_same(&other.id)
        && one.start.is_same(&other.start)
        && one.modules.is_same(&other.modules)
}

/// Whether children are specified the same, one by one.
fn are_same(ones: &[ChildSpec], others: &[ChildSpec]) -> bool
    ensures { IsTrue result → ones.now ≡ others.now }
{
    match (ones, others) {
        ([], []) => true,
        ([one, ones @ ..], [other, others @ ..]) => {
            is_same_child(one, other) && are_same(ones, others)
        }
        _ => false,
    }
}

/// Whether flags are the same.
fn is_same_flags(one: SupFlags, other: SupFlags) -> bool
    ensures { IsTrue result → one ≡ other }
{
    one == other
}

/// Whether supervisors are opened with the same.
fn is_same(one: &SupSpec, other: &SupSpec) -> bool
    ensures { IsTrue result → one.now ≡ other.now }
{
    is_same_flags(one.flags(), other.flags()) && are_same(one.specs(), other.specs())
}

/// A copy of the cost of the child with this id, where it is one of these, of children of this supervisor.
fn copy_for(
    alloc: Global,
    supervisor: &SupSpec,
    costs: &[Cost],
    id: &Name,
) -> Result<Option<Cost>, AllocError>
    requires { AreCosts supervisor.now.flags supervisor.now.specs costs.now }
    ensures { IfOk result (λ found. IfSome found (IsCost supervisor.now.flags supervisor.now.specs id.now)) }
{
    match costs {
        [] => Ok(None),
        [cost, others @ ..] => {
            if cost.id.is_same(id) {
                Ok(Some(cost.try_clone(alloc)?))
            } else {
                copy_for(alloc, supervisor, others, id)
            }
        }
    }
}

/// Puts the cost of one child more of this supervisor behind those that are known.
fn put_cost(
    supervisor: &SupSpec,
    id: &Name,
    cost: Cost,
    costs: &mut Vec<Cost>,
) -> Result<(), AllocError>
    requires known { AreCosts supervisor.now.flags supervisor.now.specs costs.old.items }
    requires cost { IsCost supervisor.now.flags supervisor.now.specs id.now cost }
    ensures { AreCosts supervisor.now.flags supervisor.now.specs costs.new.items }
{
    costs.push(cost).map_err(|_| AllocError)
}

/// What the failure of some children of a supervisor costs.
#[derive(Drop)]
struct Known {
    supervisor: SupSpec,
    costs: Vec<Cost>,
}

impl Model for Known {
    ghost use Rattle.otp_spec.specs.Supervisor.{Supervisor};

    ghost Value = { Supervisor };

    ghost use Rattle.otp_costs.specs.Inside.{IsKnown, supervisor_in};

    ghost view = { supervisor_in };

    ghost invariant = { IsKnown };
}

impl Known {
    /// Nothing is known yet of the children of a supervisor.
    fn of(alloc: Global, supervisor: &SupSpec) -> Result<Self, AllocError>
        ensures { IfOk result (λ known. known ≡ supervisor.now) }
    {
        Ok(Known {
            supervisor: supervisor.try_clone(alloc)?,
            costs: Vec::new(alloc),
        })
    }

    /// Whether it is known of a supervisor that is opened with the same.
    fn is_of(&self, supervisor: &SupSpec) -> bool
        ensures { IsTrue result → self.now ≡ supervisor.now }
    {
        is_same(&self.supervisor, supervisor)
    }

    /// What the failure of the child with this id costs. It is played where it isn't known.
    fn find_cost(&mut self, alloc: Global, id: &Name) -> Result<Cost, Halt>
        ensures cost { IfOk result (IsCost self.old.flags self.old.specs id.now) }
        ensures same { self.new ≡ self.old }
    {
        if let Some(cost) = copy_for(alloc, &self.supervisor, self.costs.as_slice(), id)? {
            return Ok(cost);
        }
        let cost = find_cost(alloc, &self.supervisor, id)?;
        let copy = cost.try_clone(alloc)?;
        put_cost(&self.supervisor, id, copy, &mut self.costs)?;
        Ok(cost)
    }
}

/// The place of what is known of a supervisor that is opened with the same.
fn place_of(known: &[Known], supervisor: &SupSpec) -> Option<usize>
    ensures { IfSome result (λ place. slice_get known.now place ≡ Some supervisor.now) }
{
    for place in 0..known.len() {
        if known[place].is_of(supervisor) {
            return Some(place);
        }
    }
    None
}

/// What the failure of children costs their supervisors, as far as it was found.
#[derive(Drop)]
pub(crate) struct KnownCosts {
    alloc: Global,
    known: Vec<Known>,
}

impl KnownCosts {
    /// Nothing is known.
    pub fn new(alloc: Global) -> Self {
        KnownCosts {
            alloc,
            known: Vec::new(alloc),
        }
    }

    /// What the failure of a child costs a supervisor. It is played where it isn't known.
    ///
    /// # Errors
    ///
    /// Those of [`find_cost`].
    pub fn find_cost(&mut self, supervisor: &SupSpec, id: &Name) -> Result<Cost, Halt>
        ensures { IfOk result (IsCost supervisor.now.flags supervisor.now.specs id.now) }
    {
        if let Some(place) = place_of(self.known.as_slice(), supervisor) {
            return self.known[place].find_cost(self.alloc, id);
        }
        let mut known = Known::of(self.alloc, supervisor)?;
        let cost = known.find_cost(self.alloc, id)?;
        self.known.push(known).map_err(|_| AllocError)?;
        Ok(cost)
    }
}
