//! The supervisors of a tree, each with its path.

ghost use Rattle.std.specs.Prelude.{◌≡◌, ◌++◌, [], ◌∷◌, true, ℕ, IfOk, IfSome, OnOk, Some, codes, length, map, slice_get};
ghost use Rattle.otp_reason.specs.Names.{name_bytes};
ghost use Rattle.otp_trial.specs.Paths.{AddsPaths};
ghost use Rattle.otp_trial.specs.Played.{AddsTree, IsChanged, IsPlanted, IsPlantedAs, fresh, paths_in, unplayed};

use crate::seat::TriedSupervisor;
use crate::trial::Halt;
use otp_driver::driven::Link;
use otp_file::{MAX_DEPTH, TreeSpec};
use otp_reason::Name;
use otp_spec::{ChildSpec, SupSpec};
use std::alloc::{AllocError, Global};

/// Another intensity of a supervisor of a tree.
#[derive(Clone, Copy, Debug, PartialEq, Eq)]
pub struct Change {
    /// The place of the supervisor, the root's being 0: the number of its table in the file.
    pub place: usize,
    pub intensity: u64,
}

/// The supervisors of a tree, a parent before its children, and whose child each of them is.
#[derive(Drop)]
pub(crate) struct Plants {
    pub seats: Vec<TriedSupervisor>,
    pub links: Vec<Link>,
}

/// The path of the children of a child with this id, whose own is this.
fn path_below(alloc: Global, path: &[u8], id: &Name) -> Result<Vec<u8>, AllocError>
    ensures { IfOk result (λ below. below.items ≡ path.now ++ name_bytes id.now ++ codes "/") }
{
    let mut below = Vec::new(alloc);
    below.extend_from_slice(path)?;
    below.extend_from_slice(id.as_bytes())?;
    below.extend_from_slice(b"/")?;
    Ok(below)
}

/// The specification of the child that has the tree of this number.
fn spec_of(supervisor: &SupSpec, nested: &[usize], number: usize) -> Option<ChildSpec>
    ensures { IfSome result (λ spec. (place : ℕ) × (slice_get nested.now number ≡ Some place) × (slice_get supervisor.now.specs place ≡ Some spec)) }
{
    let place = nested.get(number)?;
    let spec = supervisor.specs().get(*place)?;
    Some(*spec)
}

/// A supervisor that was never opened, with this path, of which a tree says what it is opened with.
pub(crate) fn seat_of(
    alloc: Global,
    path: &[u8],
    tells: bool,
    supervisor: &SupSpec,
) -> Result<TriedSupervisor, Halt>
    ensures { IfOk result (λ seat. seat ≡ unplayed tells path.now supervisor.now.flags supervisor.now.specs) }
{
    let mut name = Vec::new(alloc);
    name.extend_from_slice(path)?;
    TriedSupervisor::new(alloc, name, tells, supervisor.try_clone(alloc)?)
}

impl Plants {
    /// Adds a supervisor, and says at which place.
    fn add(&mut self, seat: TriedSupervisor, link: Link) -> Result<usize, AllocError>
        ensures { OnOk result (self.new.seats.items ≡ self.old.seats.items ++ seat ∷ []) }
    {
        let place = self.seats.len();
        self.seats.push(seat).map_err(|_| AllocError)?;
        self.links.push(link).map_err(|_| AllocError)?;
        Ok(place)
    }

    /// Adds the supervisors of a tree, of so many levels at the most.
    fn add_tree(
        &mut self,
        alloc: Global,
        tree: &TreeSpec,
        path: &[u8],
        tells: bool,
        link: Link,
        levels: usize,
    ) -> Result<(), Halt>
        ensures tree { OnOk result (AddsTree tells path.now tree.now self.old.seats.items self.new.seats.items) }
        ensures paths { OnOk result (AddsPaths path.now tree.now (paths_in self.old.seats.items) (paths_in self.new.seats.items)) }
    {
        // No tree that a file says has more levels.
        let Some(left) = levels.checked_sub(1) else {
            return Err(Halt::OutOfMemory);
        };
        // Each of its trees is a child's.
        let trees = tree.trees();
        let children = tree.nested().len();
        if trees.len() != children {
            return Err(Halt::OutOfMemory);
        }
        let seat = seat_of(alloc, path, tells, tree.supervisor())?;
        let place = self.add(seat, link)?;
        for number in 0..trees.len() {
            let Some(spec) = spec_of(tree.supervisor(), tree.nested(), number) else {
                return Err(Halt::OutOfMemory);
            };
            let below = path_below(alloc, path, &spec.id)?;
            self.add_tree(
                alloc,
                &trees[number],
                below.as_slice(),
                tells,
                Link::new(place, Some(spec)),
                left,
            )?;
        }
        Ok(())
    }
}

/// The supervisors of a tree, which has as many levels as a file may have at the most. All orders are told, or ends alone.
pub(crate) fn plant(alloc: Global, tree: &TreeSpec, tells: bool) -> Result<Plants, Halt>
    ensures { IfOk result (λ plants. IsPlanted tells tree.now plants.seats.items) }
{
    let mut plants = Plants {
        seats: Vec::new(alloc),
        links: Vec::new(alloc),
    };
    match plants.add_tree(alloc, tree, &[], tells, Link::new(0, None), MAX_DEPTH) {
        Ok(()) => Ok(plants),
        Err(halt) => {
            drop(plants);
            Err(halt)
        }
    }
}

/// The supervisor at this place gets another intensity.
fn change_seat(alloc: Global, seats: &mut Vec<TriedSupervisor>, change: Change) -> Result<(), Halt>
    ensures { OnOk result (IsChanged change seats.old.items seats.new.items) }
{
    if change.place >= seats.len() {
        return Err(Halt::OutOfMemory);
    }
    let other = seats[change.place].with_intensity(alloc, change.intensity)?;
    seats[change.place] = other;
    Ok(())
}

/// The supervisors of a tree as its file says them, or with another intensity of one of them. All orders are told, or ends alone.
pub(crate) fn plant_as(
    alloc: Global,
    tree: &TreeSpec,
    tells: bool,
    change: Option<Change>,
) -> Result<Plants, Halt>
    ensures { IfOk result (λ plants. IsPlantedAs change tells tree.now plants.seats.items) }
{
    let mut plants = plant(alloc, tree, tells)?;
    match change {
        None => Ok(plants),
        Some(change) => match change_seat(alloc, &mut plants.seats, change) {
            Ok(()) => Ok(plants),
            Err(halt) => {
                drop(plants);
                Err(halt)
            }
        },
    }
}

/// The supervisors of a tree, of which none was ever opened: one for each table of the file, by their numbers.
///
/// # Errors
///
/// Where memory is refused.
pub fn plant_seats(alloc: Global, tree: &TreeSpec) -> Result<Vec<TriedSupervisor>, Halt>
    ensures { IfOk result (λ seats. IsPlanted true tree.now seats.items) }
{
    let Plants { seats, links: _ } = plant(alloc, tree, true)?;
    Ok(seats)
}

/// These supervisors as at the beginning of a run.
pub(crate) fn fresh_seats(
    alloc: Global,
    seats: &[TriedSupervisor],
) -> Result<Vec<TriedSupervisor>, Halt>
    ensures { IfOk result (λ anew. anew.items ≡ map fresh seats.now) }
{
    let mut anew = Vec::new(alloc);
    for seat in seats {
        anew.push(seat.fresh(alloc)?).map_err(|_| AllocError)?;
    }
    Ok(anew)
}

/// Each of these supervisors is as at the beginning of a run.
fn freshen_each(alloc: Global, seats: &mut [TriedSupervisor]) -> Result<(), Halt>
    ensures many { length seats.new ≡ length seats.old }
    ensures fresh { OnOk result (seats.new ≡ map fresh seats.old) }
{
    for seat in seats.iter_mut() {
        seat.freshen(alloc)?;
    }
    Ok(())
}

/// Each supervisor of this list is as at the beginning of a run.
pub(crate) fn freshen(alloc: Global, seats: &mut Vec<TriedSupervisor>) -> Result<(), Halt>
    ensures many { length seats.new.items ≡ length seats.old.items }
    ensures fresh { OnOk result (seats.new.items ≡ map fresh seats.old.items) }
{
    freshen_each(alloc, seats)
}
