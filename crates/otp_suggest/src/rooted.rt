//! What is found of the root, where the child of a tree with a name crashes so often.

ghost use Rattle.std.specs.Prelude.{◌≡◌, ◌<◌, IfOk, IfSome, length};
ghost use Rattle.otp_spec.specs.declared.child.ChildType.TheVariants.{Worker};
ghost use Rattle.otp_suggest.specs.Levers.{FindsRoot, FindsRootKind, FindsRootOf, HaveLevers, IsRooted};

use crate::course::verdict_of;
use crate::found::find_child;
use crate::lever::{Lever, find_levers};
use otp_costs::limits::{Fate, Listed, Verdict, bear};
use otp_file::TreeSpec;
use otp_reason::Name;
use otp_spec::{ChildSpec, ChildType, MAX_TABLES};
use otp_trial::{Halt, TriedSupervisor, plant_seats};
use std::alloc::Global;

/// How the root fares where a child crashes so often at once, and what would help.
#[derive(Debug, Drop)]
pub struct Rooted {
    /// How it fares as the file says the tree.
    pub root: Fate,
    /// Where it ends so, the supervisors from the child's own up to the root; nothing else has to be changed.
    pub levers: Listed<Lever>,
}

/// What is found of the root and the child of a tree with a name.
#[derive(Debug, Drop)]
pub enum RootFinding {
    /// How the root fares.
    Of(Rooted),
    /// No child of the tree has the name.
    NoChild,
    /// The child is a supervisor, which crashes where its own children do.
    IsSupervisor,
}

/// What would help, where something has to.
#[tactic(auto, unfolding(crate::specs::Levers::HaveLevers))]
fn find_help(
    alloc: Global,
    verdict: Verdict,
    tree: &TreeSpec,
    seats: &[TriedSupervisor],
    place: usize,
    id: &Name,
    count: u64,
) -> Result<Listed<Lever>, Halt>
    requires inside { place < length seats.now }
    ensures { IfOk result (HaveLevers verdict tree.now place id.now count seats.now) }
{
    match verdict {
        Verdict::Lasts => Ok(Listed::new(alloc)),
        Verdict::Falls => {
            if seats.len() > MAX_TABLES {
                return Err(Halt::OutOfMemory);
            }
            let seat = &seats[place];
            find_levers(alloc, tree, place, id, count, seat.path(), 0, seats)
        }
    }
}

/// How the root fares where the child with this id, of the supervisor at this place, crashes so often.
fn find_rooted(
    alloc: Global,
    tree: &TreeSpec,
    seats: &[TriedSupervisor],
    place: usize,
    id: &Name,
    count: u64,
) -> Result<Rooted, Halt>
    requires inside { place < length seats.now }
    ensures { IfOk result (IsRooted tree.now seats.now place id.now count) }
{
    let root = bear(alloc, None, tree, place, id, count)?;
    let levers = find_help(alloc, verdict_of(root), tree, seats, place, id, count)?;
    Ok(Rooted { root, levers })
}

/// How the root fares where this child crashes so often, if it is a worker.
fn find_kind(
    alloc: Global,
    tree: &TreeSpec,
    seats: &[TriedSupervisor],
    place: usize,
    spec: &ChildSpec,
    count: u64,
) -> Result<RootFinding, Halt>
    requires inside { place < length seats.now }
    ensures { IfOk result (FindsRootKind spec.now.kind tree.now seats.now place spec.now.id count) }
{
    match spec.kind {
        ChildType::Supervisor => Ok(RootFinding::IsSupervisor),
        ChildType::Worker => {
            let rooted = find_rooted(alloc, tree, seats, place, &spec.id, count)?;
            Ok(RootFinding::Of(rooted))
        }
    }
}

/// How the root fares where the child that was found crashes so often, if one was.
fn find_of(
    alloc: Global,
    tree: &TreeSpec,
    seats: &[TriedSupervisor],
    child: Option<(usize, ChildSpec)>,
    count: u64,
) -> Result<RootFinding, Halt>
    requires inside { IfSome child (λ at. at.0 < length seats.now) }
    ensures { IfOk result (FindsRootOf tree.now seats.now child count) }
{
    match child {
        None => Ok(RootFinding::NoChild),
        Some((place, spec)) => find_kind(alloc, tree, seats, place, &spec, count),
    }
}

/// How the root fares where the worker with this name crashes so often at once, nothing being closer together; and where it ends,
/// which intensity of each supervisor on the way from the worker to the root has it survive, all else being as the file says it.
///
/// # Errors
///
/// Where memory is refused, or a run can't be played to its end.
pub fn find_root(
    alloc: Global,
    tree: &TreeSpec,
    name: &[u8],
    count: u64,
) -> Result<RootFinding, Halt>
    ensures { IfOk result (FindsRoot tree.now name.now count) }
{
    let Ok(seats) = plant_seats(alloc, tree) else {
        return Err(Halt::OutOfMemory);
    };
    let Ok(child) = find_child(alloc, name, seats.as_slice()) else {
        drop(seats);
        return Err(Halt::OutOfMemory);
    };
    let found = find_of(alloc, tree, seats.as_slice(), child, count);
    drop(seats);
    found
}
