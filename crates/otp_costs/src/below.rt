//! How many processes stand below a child.

ghost use Rattle.std.specs.Prelude.{◌≡◌, ◌+◌, IfOk, IfSome, OnOk, nat_eq};
ghost use Rattle.std.specs.List.{starts_with};
ghost use Rattle.otp_costs.specs.Below.{count_below, count_processes, path_below, standing, standing_if, weighed, weighed_in};

use crate::alike::Weighed;
use crate::pick::put_below;
use otp_reason::Name;
use otp_spec::ChildSpec;
use otp_trial::TriedSupervisor;
use std::alloc::{AllocError, Global};

/// The path of a child's own children.
fn put_path(path: &[u8], name: &Name, word: &mut Vec<u8>) -> Result<(), AllocError>
    ensures { OnOk result (word.new.items ≡ path_below path.now name.now) }
{
    put_below(path, name, word)?;
    word.extend_from_slice(b"/")
}

/// Whether a path begins so.
fn is_below(path: &[u8], front: &[u8]) -> bool
    ensures { result ≡ starts_with nat_eq path.now front.now }
{
    path.starts_with(front)
}

/// How many children start with a supervisor.
#[tactic(auto, unfolding(crate::specs::Below::standing))]
fn standing(seat: &TriedSupervisor) -> usize
    ensures { result ≡ standing seat.now }
{
    if seat.flags().strategy.is_simple() {
        0
    } else {
        seat.supervisor().specs().len()
    }
}

/// How many of them are counted.
#[tactic(auto, unfolding(crate::specs::Below::standing_if))]
fn standing_if(is_below: bool, seat: &TriedSupervisor) -> u64
    ensures { result ≡ standing_if is_below seat.now }
{
    if is_below { standing(seat) as u64 } else { 0 }
}

/// How many processes have the supervisors whose paths begin so, if it isn't above all numbers.
fn count_below(front: &[u8], seats: &[TriedSupervisor]) -> Option<u64>
    ensures { IfSome result (λ count. count ≡ count_below front.now seats.now) }
{
    match seats {
        [] => Some(0),
        [seat, others @ ..] => {
            let count = count_below(front, others)?;
            count.checked_add(standing_if(is_below(seat.path(), front), seat))
        }
    }
}

/// How many processes have a child and all that stands below it, if it isn't above all numbers. The word is a place for a text.
fn count_with(
    path: &[u8],
    seats: &[TriedSupervisor],
    name: &Name,
    word: &mut Vec<u8>,
) -> Result<Option<u64>, AllocError>
    ensures { IfOk result (λ found. IfSome found (λ count. count ≡ 1 + count_below (path_below path.now name.now) seats.now)) }
{
    put_path(path, name, word)?;
    let Some(count) = count_below(word.as_slice(), seats) else {
        return Ok(None);
    };
    Ok(count.checked_add(1))
}

/// How many processes have these children of a supervisor with this path, and all that stands below them. The word is a place for a
/// text.
///
/// # Errors
///
/// Where memory is refused; a number above all others would want more than there is.
pub(crate) fn count_processes(
    path: &[u8],
    seats: &[TriedSupervisor],
    names: &[Name],
    word: &mut Vec<u8>,
) -> Result<u64, AllocError>
    ensures { IfOk result (λ count. count ≡ count_processes path.now seats.now names.now) }
{
    match names {
        [] => Ok(0),
        [name, others @ ..] => {
            let count = count_processes(path, seats, others, word)?;
            let Some(with) = count_with(path, seats, name, word)? else {
                return Err(AllocError);
            };
            count.checked_add(with).ok_or(AllocError)
        }
    }
}

/// A child of a supervisor with this path, and how many processes stand below it. The word is a place for a text.
fn weigh(
    path: &[u8],
    seats: &[TriedSupervisor],
    spec: &ChildSpec,
    word: &mut Vec<u8>,
) -> Result<Weighed, AllocError>
    ensures { IfOk result (λ child. child ≡ weighed_in path.now seats.now spec.now) }
{
    put_path(path, &spec.id, word)?;
    match count_below(word.as_slice(), seats) {
        Some(below) => Ok(Weighed { spec: *spec, below }),
        None => Err(AllocError),
    }
}

/// The children of a supervisor with this path, and how many processes stand below each.
///
/// # Errors
///
/// Where memory is refused.
pub(crate) fn weigh_all(
    alloc: Global,
    path: &[u8],
    seats: &[TriedSupervisor],
    specs: &[ChildSpec],
) -> Result<Vec<Weighed>, AllocError>
    ensures { IfOk result (λ children. children.items ≡ weighed path.now seats.now specs.now) }
{
    let mut word = Vec::new(alloc);
    let mut children = Vec::new(alloc);
    for spec in specs {
        children
            .push(weigh(path, seats, spec, &mut word)?)
            .map_err(|_| AllocError)?;
    }
    Ok(children)
}
