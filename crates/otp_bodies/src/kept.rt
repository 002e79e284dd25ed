//! Searches over the bodies that a supervisor keeps, and what an event does to all of them.
ghost use Rattle.std.specs.Prelude.{◌≡◌, true, position, IsTrue};
ghost use Rattle.std.specs.List.{list_any};
ghost use Rattle.otp_bodies.specs.Bodies.{are_given, home_or_free, is_at_home, is_from, is_given, is_here, is_away, is_left_of, is_out, is_stray, is_waiting, opened, opened_place, place_among, place_of_call, settled};
ghost use Rattle.otp_bodies.specs.Slots.{AreBelow, AreTaken};

use crate::bodies::{BodyPlace, Kept, Origin};
use crate::slots::{is_taken, taken_slots};
use otp_spec::MAX_CHILDREN;
use otp_table::Row;

pub(crate) fn is_at_home(kept: &Kept, slot: usize) -> bool
    ensures { result ≡ is_at_home slot kept.now }
{
    match kept.place {
        BodyPlace::Home(home) => home == slot,
        _ => false,
    }
}

pub(crate) fn is_away(kept: &Kept, slot: usize) -> bool
    ensures { result ≡ is_away slot kept.now }
{
    match kept.place {
        BodyPlace::Away(home) => home == slot,
        _ => false,
    }
}

fn is_waiting(kept: &Kept) -> bool
    ensures { result ≡ is_waiting kept.now }
{
    match (kept.origin, kept.place) {
        (Origin::Call(_), BodyPlace::Waiting) => true,
        _ => false,
    }
}

fn is_left_of(kept: &Kept, call: u64) -> bool
    ensures { result ≡ is_left_of call kept.now }
{
    match (kept.origin, kept.place) {
        (Origin::Call(brought), BodyPlace::Free) => brought == call,
        _ => false,
    }
}

fn is_stray(kept: &Kept) -> bool
    ensures { result ≡ is_stray kept.now }
{
    match (kept.origin, kept.place) {
        (Origin::Nobody, BodyPlace::Free) => true,
        _ => false,
    }
}

pub(crate) fn home_or_free(slot: Option<usize>) -> BodyPlace
    ensures place { result ≡ home_or_free slot }
    ensures here { is_here result ≡ true }
{
    match slot {
        Some(slot) => BodyPlace::Home(slot),
        None => BodyPlace::Free,
    }
}

/// Where a start call's body is: with the call while that waits, and then at its child's home, if it has a child.
pub(crate) fn place_of_call(waits: bool, slot: Option<usize>) -> BodyPlace
    ensures place { result ≡ place_of_call waits slot }
    ensures here { is_here result ≡ true }
{
    if waits {
        BodyPlace::Waiting
    } else {
        home_or_free(slot)
    }
}

/// The place in the list of the body of the child in this slot, which has no process.
pub(crate) fn find_home(kept: &[Kept], slot: usize) -> Option<usize>
    ensures { result ≡ position (is_at_home slot) kept.now }
{
    kept.iter().position(|one| is_at_home(one, slot))
}

/// The place in the list of the body of the child in this slot, which is with its process.
pub(crate) fn find_away(kept: &[Kept], slot: usize) -> Option<usize>
    ensures { result ≡ position (is_away slot) kept.now }
{
    kept.iter().position(|one| is_away(one, slot))
}

/// The place in the list of the first body that waits with its call.
pub(crate) fn find_waiting(kept: &[Kept]) -> Option<usize>
    ensures { result ≡ position is_waiting kept.now }
{
    kept.iter().position(|one| is_waiting(one))
}

/// The place in the list of a body that this call brought and that no child has.
pub(crate) fn find_left(kept: &[Kept], call: u64) -> Option<usize>
    ensures { result ≡ position (is_left_of call) kept.now }
{
    kept.iter().position(|one| is_left_of(one, call))
}

/// The place in the list of a body that is nobody's.
pub(crate) fn find_stray(kept: &[Kept]) -> Option<usize>
    ensures { result ≡ position is_stray kept.now }
{
    kept.iter().position(|one| is_stray(one))
}

/// Where the body is once these are the rows, whose slots are those marked.
fn settle_one(one: &mut Kept, rows: &[Row], taken: &[bool; MAX_CHILDREN], is_any_waiting: bool)
    requires taken { AreTaken rows.now taken.now }
    requires below { AreBelow rows.now }
    ensures { one.new ≡ record one.old { place = place_among rows.now is_any_waiting one.old.place } }
{
    match one.place {
        BodyPlace::Home(slot) => {
            if !is_taken(rows, taken, slot) {
                one.place = BodyPlace::Free;
            }
        }
        BodyPlace::Waiting => {
            if !is_any_waiting {
                one.place = BodyPlace::Free;
            }
        }
        BodyPlace::Free | BodyPlace::Away(_) => {}
    }
}

/// Once these are the rows: no body is at home in a slot that none of them has, and none waits where nothing waits any
/// more.
fn settle_all(kept: &mut [Kept], rows: &[Row], is_any_waiting: bool)
    requires { AreBelow rows.now }
    ensures { kept.new ≡ settled rows.now is_any_waiting kept.old }
{
    let taken = taken_slots(rows);
    for one in kept.iter_mut() {
        settle_one(one, rows, &taken, is_any_waiting);
    }
}

/// Whether one look tells that the body stays where it is once these are the rows: a child is mostly at the place of its slot.
pub(crate) fn is_seen_to_stay(one: &Kept, rows: &[Row], is_any_waiting: bool) -> bool
    ensures { IsTrue result → place_among rows.now is_any_waiting one.now.place ≡ one.now.place }
{
    match one.place {
        BodyPlace::Home(slot) => slot < rows.len() && rows[slot].slot == slot,
        BodyPlace::Waiting => is_any_waiting,
        BodyPlace::Free | BodyPlace::Away(_) => true,
    }
}

/// Whether a look at each tells that all stay.
fn are_seen_to_stay(kept: &[Kept], rows: &[Row], is_any_waiting: bool) -> bool
    ensures { IsTrue result → settled rows.now is_any_waiting kept.now ≡ kept.now }
{
    for one in kept {
        if !is_seen_to_stay(one, rows, is_any_waiting) {
            return false;
        }
    }
    true
}

/// Does what [`settle_all`] does. Mostly no child has gone, which is seen without marking the slots of all.
pub(crate) fn settle_items(kept: &mut Vec<Kept>, rows: &[Row], is_any_waiting: bool)
    requires { AreBelow rows.now }
    ensures { kept.new.items ≡ settled rows.now is_any_waiting kept.old.items }
{
    if !are_seen_to_stay(kept, rows, is_any_waiting) {
        settle_all(kept, rows, is_any_waiting);
    }
}

/// Where the body is once a supervisor was opened with these rows, whose slots are those marked.
fn open_one(one: &mut Kept, rows: &[Row], taken: &[bool; MAX_CHILDREN])
    requires taken { AreTaken rows.now taken.now }
    requires below { AreBelow rows.now }
    ensures { one.new ≡ record one.old { place = opened_place rows.now one.old.origin one.old.place } }
{
    if let (Origin::Spec(place), BodyPlace::Free) = (one.origin, one.place) {
        if is_taken(rows, taken, place) {
            one.place = BodyPlace::Home(place);
        }
    }
}

/// At an opening with these rows each free body comes home whose child has a row.
fn open_all(kept: &mut [Kept], rows: &[Row])
    requires { AreBelow rows.now }
    ensures { kept.new ≡ opened rows.now kept.old }
{
    let taken = taken_slots(rows);
    for one in kept.iter_mut() {
        open_one(one, rows, &taken);
    }
}

/// Does what [`open_all`] does, to the whole list.
pub(crate) fn open_items(kept: &mut Vec<Kept>, rows: &[Row])
    requires { AreBelow rows.now }
    ensures { kept.new.items ≡ opened rows.now kept.old.items }
{
    open_all(kept, rows);
}

/// Whether the body was handed in for the child specification at this place.
fn is_from(kept: &Kept, place: usize) -> bool
    ensures { result ≡ is_from place kept.now }
{
    match kept.origin {
        Origin::Spec(of) => of == place,
        Origin::Call(_) | Origin::Nobody => false,
    }
}

/// Whether one of the bodies was handed in for the child specification at this place.
pub(crate) fn is_any_from(kept: &[Kept], place: usize) -> bool
    ensures { result ≡ list_any (is_from place) kept.now }
{
    kept.iter().any(|one| is_from(one, place))
}

/// Whether the body was handed in for the child specification at this place, and waits with no call.
fn is_given(kept: &Kept, place: usize) -> bool
    ensures { result ≡ is_given place kept.now }
{
    match (kept.origin, kept.place) {
        (_, BodyPlace::Waiting) => false,
        (Origin::Spec(of), _) => of == place,
        _ => false,
    }
}

/// Whether one of the bodies was handed in for the child specification at this place, and waits with no call.
fn is_any_given(kept: &[Kept], place: usize) -> bool
    ensures { result ≡ list_any (is_given place) kept.now }
{
    kept.iter().any(|one| is_given(one, place))
}

fn is_out(kept: &Kept) -> bool
    ensures { result ≡ is_out kept.now }
{
    matches!(kept.place, BodyPlace::Away(_))
}

/// Whether one of the bodies is with a process.
pub(crate) fn is_any_out(kept: &[Kept]) -> bool
    ensures { result ≡ list_any is_out kept.now }
{
    kept.iter().any(|one| is_out(one))
}

/// Whether for each of the first so many child specifications a body was handed in that waits with no call.
pub(crate) fn are_given(kept: &[Kept], specs: usize) -> bool
    ensures { result ≡ are_given specs kept.now }
{
    for place in 0..specs {
        if !is_any_given(kept, place) {
            return false;
        }
    }
    true
}
