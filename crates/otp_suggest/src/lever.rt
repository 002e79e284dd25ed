//! The supervisors on the way from a child to the root, and what another intensity of each does.

ghost use Rattle.std.specs.Prelude.{◌≡◌, ◌+◌, ◌≤◌, ◌^◌, IfOk, OnOk, length, nat_eq, option_map};
ghost use Rattle.std.specs.List.{starts_with};
ghost use Rattle.otp_suggest.specs.Levers.{AreLevers, BestIsLeast, IsLever, PutsLever, best_of, better, growth, growth_of, is_no_more};

use crate::remedy::{Remedy, find_remedy};
use otp_costs::limits::{Listed, Path};
use otp_file::TreeSpec;
use otp_reason::Name;
use otp_trial::{Halt, TriedSupervisor};
use std::alloc::Global;

/// A supervisor on the way from a child to the root.
#[derive(Debug, Drop)]
pub struct Lever {
    /// What stands in front of the ids of its children: the ids of the supervisors from the root's child on, each with a `/` behind
    /// it.
    pub path: Path,
    /// Its intensity as the file says it.
    pub today: u64,
    /// Which intensity has the root survive.
    pub remedy: Remedy,
}

/// Whether a supervisor with this path is the one with that path, or stands above it.
fn is_on_way(path: &[u8], own: &[u8]) -> bool
    ensures { result ≡ starts_with nat_eq path.now own.now }
{
    path.starts_with(own)
}

/// What another intensity of this supervisor, which stands at a place, does for the root.
fn find_lever(
    alloc: Global,
    tree: &TreeSpec,
    at: usize,
    id: &Name,
    count: u64,
    place: usize,
    seat: &TriedSupervisor,
) -> Result<Lever, Halt>
    ensures { IfOk result (IsLever tree.now at id.now count place seat.now) }
{
    let today = seat.flags().intensity;
    let remedy = find_remedy(alloc, tree, at, id, count, place, today)?;
    let path = Path::copy_of(alloc, seat.path())?;
    Ok(Lever {
        path,
        today,
        remedy,
    })
}

/// Puts a supervisor behind others, if it stands on the way.
#[tactic(auto, unfolding(crate::specs::Levers::PutsLever))]
fn put_lever_if(
    alloc: Global,
    is_on_way: bool,
    tree: &TreeSpec,
    at: usize,
    id: &Name,
    count: u64,
    place: usize,
    seat: &TriedSupervisor,
    levers: &mut Listed<Lever>,
) -> Result<(), Halt>
    ensures { OnOk result (PutsLever is_on_way tree.now at id.now count place seat.now levers.old levers.new) }
{
    if is_on_way {
        let lever = find_lever(alloc, tree, at, id, count, place, seat)?;
        levers.push(lever)?;
    }
    Ok(())
}

/// Those of these supervisors, of which the first stands at a place, that stand on the way to a child of the one with this path:
/// those below before those above them.
///
/// # Errors
///
/// Where memory is refused, or a run can't be played to its end.
pub(crate) fn find_levers(
    alloc: Global,
    tree: &TreeSpec,
    at: usize,
    id: &Name,
    count: u64,
    path: &[u8],
    place: usize,
    seats: &[TriedSupervisor],
) -> Result<Listed<Lever>, Halt>
    requires { place + length seats.now ≤ 2 ^ 62 }
    ensures { IfOk result (AreLevers tree.now at id.now count path.now place seats.now) }
{
    match seats {
        [] => Ok(Listed::new(alloc)),
        [seat, others @ ..] => {
            let mut levers = find_levers(alloc, tree, at, id, count, path, place + 1, others)?;
            let is_on = is_on_way(path, seat.path());
            match put_lever_if(alloc, is_on, tree, at, id, count, place, seat, &mut levers) {
                Ok(()) => Ok(levers),
                Err(halt) => {
                    drop(levers);
                    Err(halt)
                }
            }
        }
    }
}

/// By how much an intensity grows where it is changed so.
#[tactic(auto, unfolding(crate::specs::Levers::growth))]
fn growth(today: u64, remedy: Remedy) -> Option<u64>
    ensures { result ≡ growth today remedy }
{
    match remedy {
        Remedy::Enough => Some(0),
        Remedy::Least(intensity) => Some(intensity.saturating_sub(today)),
        Remedy::Nowhere => None,
    }
}

/// By how much the intensity of a supervisor grows, if there is one.
#[tactic(auto, unfolding(crate::specs::Levers::growth_of))]
fn growth_of(lever: Option<&Lever>) -> Option<u64>
    ensures { result ≡ growth_of (option_map (λ l. l.now) lever.entry) }
{
    match lever {
        None => None,
        Some(lever) => growth(lever.today, lever.remedy),
    }
}

/// Whether the one helps, and grows by no more than the other.
#[tactic(auto, unfolding(crate::specs::Levers::is_no_more))]
fn is_no_more(one: Option<u64>, other: Option<u64>) -> bool
    ensures { result ≡ is_no_more one other }
{
    match (one, other) {
        (None, _) => false,
        (Some(_), None) => true,
        (Some(more), Some(other)) => more <= other,
    }
}

/// Which of two supervisors is changed less: the first, where both are by as much.
#[tactic(auto, unfolding(crate::specs::Levers::better))]
fn better<'a>(lever: &'a Lever, other: Option<&'a Lever>) -> Option<&'a Lever>
    ensures { option_map (λ l. l.now) result ≡ better lever.now (option_map (λ l. l.now) other.entry) }
{
    if is_no_more(growth_of(Some(lever)), growth_of(other)) {
        Some(lever)
    } else {
        other
    }
}

/// The supervisor whose intensity has to grow least so that the root survives, the first of them; none where no intensity of one
/// alone is enough.
pub fn best_of(levers: &[Lever]) -> Option<&Lever>
    ensures { option_map (λ l. l.now) result ≡ best_of levers.now }
{
    match levers {
        [] => None,
        [lever, others @ ..] => better(lever, best_of(others)),
    }
}

/// Of the supervisors that help none has to grow by less than the best.
pub fn best_is_least()
    ensures { BestIsLeast }
{}
