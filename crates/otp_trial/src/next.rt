//! What comes next at which supervisor, and whose child a process is.

ghost use Rattle.std.specs.Prelude.{◌≡◌, ◌<◌, ◌⊎◌, true, length};
ghost use Rattle.std.specs.List.{list_any};
ghost use Rattle.otp_table.specs.Rows.{has_process, row_has};
ghost use Rattle.otp_trial.specs.Next.{kind_at, runs_child};
ghost use Rattle.otp_trial.specs.Played.{state_in};

use crate::processes::{Deed, What, World};
use crate::seat::TriedSupervisor;
use otp_rules::Kind;

/// What the supervisor at this place does by itself at this time, if it has a process.
#[tactic(auto, unfolding(crate::specs::Next::kind_at))]
fn kind_at(world: &World, place: usize, seat: &TriedSupervisor, now: u64) -> Option<Kind>
    ensures { result ≡ kind_at place world.now.links (state_in seat.now) now }
{
    if world.has_process(place) {
        seat.next_kind(now, world.is_stopping(place))
    } else {
        None
    }
}

/// What a supervisor does next though nobody tells it anything: a deadline, a stop that is wanted, what waits.
pub(crate) fn next_of_seats(world: &World, seats: &[TriedSupervisor], now: u64) -> Option<Deed> {
    for place in 0..seats.len() {
        if let Some(kind) = kind_at(world, place, &seats[place], now) {
            return Some(Deed {
                place,
                what: What::Happen(kind),
            });
        }
    }
    None
}

/// Whether a child of this supervisor has a process of this number.
fn has_child(seat: &TriedSupervisor, process: u64) -> bool
    ensures { result ≡ list_any (row_has (has_process process)) (state_in seat.now).rows }
{
    seat.rows().iter().any(|row| row.state.has_process(process))
}

/// Whether the supervisor at this place runs, and a child of it has a process of this number.
#[tactic(auto, unfolding(crate::specs::Next::runs_child, crate::specs::Next::has_child))]
fn runs_child(world: &World, seats: &[TriedSupervisor], place: usize, process: u64) -> bool
    requires { place < length seats.now }
    ensures { result ≡ runs_child world.now.links seats.now process place }
{
    let seat = &seats[place];
    world.has_process(place) && has_child(seat, process)
}

/// The place of the supervisor that runs and of which a child has a process of this number; the root's where there is none.
pub(crate) fn place_of_process(world: &World, seats: &[TriedSupervisor], process: u64) -> usize
    requires { 0 < length seats.now }
    ensures inside { result < length seats.now }
    ensures child { (result ≡ 0) ⊎ (runs_child world.now.links seats.now process result ≡ true) }
{
    for place in 0..seats.len() {
        if runs_child(world, seats, place, process) {
            return place;
        }
    }
    0
}
