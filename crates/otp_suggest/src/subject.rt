//! What is found of the child of a tree with a name.

ghost use Rattle.std.specs.Prelude.{◌≡◌, ◌<◌, IfErr, IfOk, IfSome, length};
ghost use Rattle.otp_spec.specs.declared.child.ChildType.TheVariants.{Worker};
ghost use Rattle.otp_trial.specs.declared.trial.Halt.TheVariants.{HistoryFull};
ghost use Rattle.otp_suggest.specs.Advised.{Finds, FindsKind, FindsOf, IsUnadvisedAt, IsUnadvisedIn, IsUnsuggested};
ghost use Rattle.otp_suggest.specs.Courses.{IsQuestion};

use crate::advice::{Suggestion, find_suggestion};
use crate::course::Question;
use crate::found::find_child;
use otp_costs::limits::Path;
use otp_file::TreeSpec;
use otp_reason::Name;
use otp_spec::{ChildSpec, ChildType, SupFlags};
use otp_trial::{Halt, TriedSupervisor, plant_seats};
use std::alloc::Global;

/// A worker that crashes, and what would survive it.
#[derive(Debug, Drop)]
pub struct Subject {
    /// What stands in front of its id: the ids of the supervisors from the root's child on, each with a `/` behind it.
    pub path: Path,
    /// The flags of its supervisor.
    pub flags: SupFlags,
    pub said: Suggestion,
}

/// What is found of the child of a tree with a name.
#[derive(Debug, Drop)]
pub enum Finding {
    /// What would survive its crashes.
    Of(Subject),
    /// No child of the tree has the name.
    NoChild,
    /// The child is a supervisor, which crashes where its own children do.
    IsSupervisor,
}

/// What would survive crashes of the child with this id, of the supervisor at this place.
fn find_worker(
    alloc: Global,
    question: Question,
    seats: &[TriedSupervisor],
    place: usize,
    id: &Name,
) -> Result<Finding, Halt>
    requires question { IsQuestion question }
    requires inside { place < length seats.now }
    ensures ok { IfOk result (FindsKind Worker question seats.now place id.now) }
    ensures full { IfErr result (λ halt. halt ≡ HistoryFull → IsUnadvisedAt seats.now place id.now) }
{
    let seat = &seats[place];
    let supervisor = seat.supervisor();
    let said = find_suggestion(alloc, supervisor, id, question)?;
    Ok(Finding::Of(Subject {
        path: Path::copy_of(alloc, seat.path())?,
        flags: supervisor.flags(),
        said,
    }))
}

/// What would survive crashes of this child, if it is a worker.
fn find_kind(
    alloc: Global,
    question: Question,
    seats: &[TriedSupervisor],
    place: usize,
    spec: &ChildSpec,
) -> Result<Finding, Halt>
    requires question { IsQuestion question }
    requires inside { place < length seats.now }
    ensures ok { IfOk result (FindsKind spec.now.kind question seats.now place spec.now.id) }
    ensures full { IfErr result (λ halt. halt ≡ HistoryFull → (spec.now.kind ≡ Worker) × IsUnadvisedAt seats.now place spec.now.id) }
{
    match spec.kind {
        ChildType::Supervisor => Ok(Finding::IsSupervisor),
        ChildType::Worker => find_worker(alloc, question, seats, place, &spec.id),
    }
}

/// What would survive crashes of the child that was found, if one was.
fn find_of(
    alloc: Global,
    question: Question,
    seats: &[TriedSupervisor],
    child: Option<(usize, ChildSpec)>,
) -> Result<Finding, Halt>
    requires question { IsQuestion question }
    requires inside { IfSome child (λ at. at.0 < length seats.now) }
    ensures ok { IfOk result (FindsOf question seats.now child) }
    ensures full { IfErr result (λ halt. halt ≡ HistoryFull → IsUnadvisedIn seats.now child) }
{
    match child {
        None => Ok(Finding::NoChild),
        Some((place, spec)) => find_kind(alloc, question, seats, place, &spec),
    }
}

/// With which flags crashes of the worker with this name would be survived that come as is asked: the least intensity with its
/// supervisor's period as it is, and the greatest period with its intensity as it is (Supervisor Behaviour, "Maximum Restart
/// Intensity").
///
/// # Errors
///
/// Where memory is refused, or a supervisor has 2^62 events before the last crash of a run.
pub fn find_subject(
    alloc: Global,
    tree: &TreeSpec,
    name: &[u8],
    question: Question,
) -> Result<Finding, Halt>
    requires { IsQuestion question }
    ensures ok { IfOk result (Finds tree.now name.now question) }
    ensures full { IfErr result (λ halt. halt ≡ HistoryFull → IsUnsuggested tree.now name.now) }
{
    let Ok(seats) = plant_seats(alloc, tree) else {
        return Err(Halt::OutOfMemory);
    };
    let Ok(child) = find_child(alloc, name, seats.as_slice()) else {
        drop(seats);
        return Err(Halt::OutOfMemory);
    };
    let found = find_of(alloc, question, seats.as_slice(), child);
    drop(seats);
    found
}
