//! A tree is opened: its supervisors, each with its link.

ghost use Rattle.std.specs.Prelude.{◌≡◌, ◌≤◌, ℕ, ◌++◌, [], ◌∷◌, IfOk, IfSome, None, OnOk, Some, length, slice_get};
ghost use Rattle.otp_rules.specs.declared.event.Kind.TheVariants as kind;
ghost use Rattle.otp_driver.specs.Driven.{Occurs};
ghost use Rattle.otp_driver.specs.Members.{unopened};
ghost use Rattle.otp_driver.specs.Opened.{AddsLinks, AddsTree, IsPlanted, Opens, nothing};

use crate::driven::{DriveFault, Link, Supervisor};
use crate::driver::Driver;
use otp_file::{MAX_DEPTH, TreeSpec};
use otp_rules::Kind;
use otp_spec::{ChildSpec, SupSpec};
use std::alloc::{AllocError, Global};

/// The specification of the child that has the tree of this number.
fn spec_of(supervisor: &SupSpec, nested: &[usize], number: usize) -> Option<ChildSpec>
    ensures { IfSome result (λ spec. (place : ℕ) × (slice_get nested.now number ≡ Some place) × (slice_get supervisor.now.specs place ≡ Some spec)) }
{
    let place = nested.get(number)?;
    let spec = supervisor.specs().get(*place)?;
    Some(*spec)
}

/// A supervisor that was never opened, of which a tree says what it is opened with.
fn supervisor_of(alloc: Global, supervisor: &SupSpec) -> Result<Supervisor, AllocError>
    ensures { IfOk result (λ made. made ≡ unopened supervisor.now.flags supervisor.now.specs) }
{
    let copy = supervisor.try_clone(alloc)?;
    Ok(Supervisor::new(alloc, copy))
}

impl Driver {
    /// Adds a supervisor.
    fn add(&mut self, supervisor: Supervisor, link: Link) -> Result<(), AllocError>
        requires parent { link.parent ≤ length self.old.members }
        ensures ok { OnOk result (self.new ≡ record self.old { members = self.old.members ++ supervisor ∷ []; links = self.old.links ++ link ∷ [] }) }
    {
        self.supervisors.reserve(1)?;
        self.links.reserve(1)?;
        self.supervisors.push_reserved(supervisor);
        self.links.push_reserved(link);
        Ok(())
    }

    /// Adds the supervisors of a tree, of so many levels at the most.
    fn add_tree(
        &mut self,
        alloc: Global,
        tree: &TreeSpec,
        link: Link,
        levels: usize,
    ) -> Result<(), AllocError>
        requires parent { link.parent ≤ length self.old.members }
        ensures tree { OnOk result (AddsTree tree.now self.old self.new) }
        ensures links { OnOk result (AddsLinks tree.now link self.old self.new) }
    {
        // No tree that a file says has more levels.
        let Some(left) = levels.checked_sub(1) else {
            return Err(AllocError);
        };
        // Each of its trees is a child's.
        let trees = tree.trees();
        let children = tree.nested().len();
        if trees.len() != children {
            return Err(AllocError);
        }
        let place = self.supervisors.len();
        let supervisor = supervisor_of(alloc, tree.supervisor())?;
        self.add(supervisor, link)?;
        for number in 0..trees.len() {
            let Some(spec) = spec_of(tree.supervisor(), tree.nested(), number) else {
                return Err(AllocError);
            };
            self.add_tree(alloc, &trees[number], Link::new(place, Some(spec)), left)?;
        }
        Ok(())
    }

    /// A tree of no supervisor.
    fn nothing(alloc: Global) -> Self
        ensures { result ≡ nothing }
    {
        Driver {
            supervisors: Vec::new(alloc),
            links: Vec::new(alloc),
            reading: 0,
            last: 0,
            calls: 0,
        }
    }

    /// The tree that a file says, of which no supervisor was opened.
    pub(crate) fn plant(alloc: Global, tree: &TreeSpec) -> Result<Self, AllocError>
        ensures { IfOk result (λ driver. IsPlanted tree.now driver) }
    {
        let mut driver = Driver::nothing(alloc);
        match driver.add_tree(alloc, tree, Link::new(0, None), MAX_DEPTH) {
            Ok(()) => Ok(driver),
            Err(error) => {
                drop(driver);
                Err(error)
            }
        }
    }

    /// The root starts, under the number 0.
    fn open_root(&mut self) -> Result<(), DriveFault>
        ensures { OnOk result (Occurs 0 (kind.Opened 0) self.old self.new) }
    {
        if self.supervisors.is_empty() {
            return Err(DriveFault::NoSupervisor);
        }
        self.happen(0, &Kind::Opened(0))
    }

    /// A tree whose root starts: its supervisors are those of the file's tables, by their numbers.
    ///
    /// # Errors
    ///
    /// [`DriveFault::OutOfMemory`].
    pub fn open(alloc: Global, tree: &TreeSpec) -> Result<Self, DriveFault>
        ensures { IfOk result (λ driver. Opens tree.now driver) }
    {
        let mut driver = Driver::plant(alloc, tree)?;
        match driver.open_root() {
            Ok(()) => Ok(driver),
            Err(fault) => {
                drop(driver);
                Err(fault)
            }
        }
    }
}
