//! Which bodies an event may let go: those at home, and those that wait with their calls. Mostly that is one, and its place in
//! the list is known, so that no list is walked.
ghost use Rattle.std.specs.Prelude.{◌≡◌, ◌+◌, ◌<◌, ◌≤◌, drop, length, position, get_or, IfSome, IsTrue};
ghost use Rattle.std.specs.List.{list_any};
ghost use Rattle.otp_bodies.specs.Bodies.{is_at_home, settled, stray};
ghost use Rattle.otp_bodies.specs.Loose.{IsOnlyLoose, count_loose, is_loose, loose_at};
ghost use Rattle.otp_bodies.specs.declared.bodies.Kept.{Kept};

use crate::bodies::{BodyPlace, Kept};
use crate::kept::{find_home, is_at_home, is_seen_to_stay};
use otp_table::Row;

fn is_loose(kept: &Kept) -> bool
    ensures { result ≡ is_loose kept.now }
{
    match kept.place {
        BodyPlace::Home(_) | BodyPlace::Waiting => true,
        BodyPlace::Free | BodyPlace::Away(_) => false,
    }
}

/// The place in the list of the first body that is loose.
fn find_loose(kept: &[Kept]) -> Option<usize>
    ensures { result ≡ position is_loose kept.now }
{
    kept.iter().position(|one| is_loose(one))
}

/// Whether one of the bodies is loose.
fn is_any_loose(kept: &[Kept]) -> bool
    ensures { result ≡ list_any is_loose kept.now }
{
    kept.iter().any(|one| is_loose(one))
}

/// The bodies behind this place.
fn behind(kept: &[Kept], at: usize) -> &[Kept]
    requires { at < length kept.now }
    ensures { result.now ≡ drop (at + 1) kept.now }
{
    &kept[at + 1..]
}

/// The place of the only body that is loose, or any where none is. None where there are several.
pub(crate) fn only_loose(kept: &[Kept]) -> Option<usize>
    ensures { IsOnlyLoose result kept.now }
{
    let Some(at) = find_loose(kept) else {
        return Some(0);
    };
    if is_any_loose(behind(kept, at)) {
        None
    } else {
        Some(at)
    }
}

fn body_at(kept: &[Kept], at: usize) -> &Kept
    requires { at < length kept.now }
    ensures { (d : Kept) → result.now ≡ get_or kept.now at d }
{
    &kept[at]
}

/// Whether the body at this place is loose.
fn is_loose_at(kept: &[Kept], at: usize) -> bool
    ensures { result ≡ is_loose (get_or kept.now at stray) }
{
    at < kept.len() && is_loose(&kept[at])
}

/// Where the only loose body is once the one at this place changes, or comes there: at that place, if no other is loose.
pub(crate) fn only_at(kept: &[Kept], only: Option<usize>, at: usize) -> Option<usize>
    requires { IsOnlyLoose only kept.now }
    ensures { IfSome result (λ place. (place ≡ at) × (count_loose kept.now ≤ loose_at at kept.now)) }
{
    let one = only?;
    if one == at {
        return Some(at);
    }
    if is_loose_at(kept, one) {
        return None;
    }
    Some(at)
}

/// Whether a look at the only loose body tells that all stay where they are once these are the rows.
pub(crate) fn is_alone_and_stays(
    kept: &[Kept],
    only: Option<usize>,
    rows: &[Row],
    is_any_waiting: bool,
) -> bool
    requires { IsOnlyLoose only kept.now }
    ensures { IsTrue result → settled rows.now is_any_waiting kept.now ≡ kept.now }
{
    match only {
        Some(at) => at < kept.len() && is_seen_to_stay(body_at(kept, at), rows, is_any_waiting),
        None => false,
    }
}

/// The place in the list of the body of the child in this slot, which has no process. Where it is the only loose one no other is
/// looked at.
pub(crate) fn find_home_at(kept: &[Kept], only: Option<usize>, slot: usize) -> Option<usize>
    requires { IsOnlyLoose only kept.now }
    ensures { result ≡ position (is_at_home slot) kept.now }
{
    match only {
        Some(at) if at < kept.len() && is_at_home(body_at(kept, at), slot) => Some(at),
        _ => find_home(kept, slot),
    }
}
