//! The child that a line meant which names none.

use otp_reason::{Name, Text};
use otp_script::{Action, Child, Expected, Nearest, Step};
use otp_trial::{ActionEnd, Trial, TriedSupervisor};
use std::alloc::{AllocError, Global};

/// The id that a line names, whose child has to be there.
fn id_named(action: Action) -> Option<Name> {
    match action {
        Action::Exit(Child::Named(id), _) => Some(id),
        Action::Hang(Child::Named(id)) => Some(id),
        Action::Slow(Child::Named(id), _) => Some(id),
        Action::Expect(Expected::Up(Child::Named(id))) => Some(id),
        Action::Expect(Expected::Ended(Child::Named(id))) => Some(id),
        Action::Expect(Expected::Restarts(id, _)) => Some(id),
        _ => None,
    }
}

/// Looks at the children of a supervisor.
fn look_at(
    alloc: Global,
    seat: &TriedSupervisor,
    nearest: &mut Nearest<'_>,
) -> Result<(), AllocError> {
    for row in seat.rows() {
        if let Some(id) = row.id {
            nearest.look(alloc, seat.path(), &id)?;
        }
    }
    Ok(())
}

/// The path of the child whose name is nearest to this one.
fn nearest_to(alloc: Global, trial: &Trial, written: &[u8]) -> Result<Option<Text>, AllocError> {
    let mut nearest = Nearest::of(written);
    for seat in trial.seats() {
        look_at(alloc, seat, &mut nearest)?;
    }
    Ok(nearest.path())
}

/// The path of the child that a line may have meant which came to this.
fn look_for(
    alloc: Global,
    trial: &Trial,
    step: Step<'_>,
    taken: ActionEnd,
) -> Result<Option<Text>, AllocError> {
    let Some(id) = id_named(step.action) else {
        return Ok(None);
    };
    match taken {
        ActionEnd::NoChild | ActionEnd::NoSupervisor => {
            let mut written = Vec::from_slice(alloc, step.path)?;
            written.extend_from_slice(id.as_bytes())?;
            nearest_to(alloc, trial, written.as_slice())
        }
        _ => Ok(None),
    }
}

/// The path of the child that a line may have meant, where it named none and one is near. Where memory is refused, none is named.
pub(crate) fn near_child(
    alloc: Global,
    trial: &Trial,
    step: Step<'_>,
    taken: ActionEnd,
) -> Option<Text> {
    match look_for(alloc, trial, step, taken) {
        Ok(near) => near,
        Err(_) => None,
    }
}
