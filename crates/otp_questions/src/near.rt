//! The child that a name means which no child has.

use otp_file::TreeSpec;
use otp_reason::Text;
use otp_script::Nearest;
use otp_trial::{Halt, TriedSupervisor, plant_seats};
use std::alloc::{AllocError, Global};

/// Looks at the children of a supervisor.
fn look_at(
    alloc: Global,
    seat: &TriedSupervisor,
    nearest: &mut Nearest<'_>,
) -> Result<(), AllocError> {
    for spec in seat.supervisor().specs() {
        nearest.look(alloc, seat.path(), &spec.id)?;
    }
    Ok(())
}

/// The path of the child of these supervisors whose name is nearest to this one.
fn nearest_in(
    alloc: Global,
    seats: &[TriedSupervisor],
    name: &[u8],
) -> Result<Option<Text>, AllocError> {
    let mut nearest = Nearest::of(name);
    for seat in seats {
        look_at(alloc, seat, &mut nearest)?;
    }
    Ok(nearest.path())
}

/// The path of the child of a tree whose name is nearest to this one.
fn look_for(alloc: Global, tree: &TreeSpec, name: &[u8]) -> Result<Option<Text>, Halt> {
    let seats = plant_seats(alloc, tree)?;
    let near = nearest_in(alloc, seats.as_slice(), name)?;
    Ok(near)
}

/// The path of the child of a tree that a name may mean, if one is near; a `/` behind it counts for nothing. Where memory is refused,
/// none is named.
pub(crate) fn near_child(alloc: Global, tree: &TreeSpec, name: &str) -> Option<Text> {
    let written = name.as_bytes();
    match look_for(alloc, tree, written.strip_suffix(b"/").unwrap_or(written)) {
        Ok(near) => near,
        Err(_) => None,
    }
}
