//! Which children a picture has.

ghost use Rattle.std.specs.Prelude.{◌≡◌, ◌++◌, ◌∷◌, [], OnOk, IfOk, fold};
ghost use Rattle.std.specs.List.{list_any};
ghost use Rattle.otp_text.specs.Picture.{ids_at, is_same, with_id, with_marks};

use crate::timeline::column::marks_at;
use crate::timeline::moment::{Mark, Moment};
use otp_reason::Name;
use std::alloc::{AllocError, Global};

/// Whether this id is among these.
fn contains(ids: &[Name], id: &Name) -> bool
    ensures { result ≡ list_any (is_same id.now) ids.now }
{
    ids.iter().any(|other| *other == *id)
}

/// Puts the id of a child behind those that are there, if it has one and that isn't there yet.
#[tactic(auto, unfolding(crate::specs::Picture::with_id))]
fn add_id(ids: &mut Vec<Name>, id: Option<Name>) -> Result<(), AllocError>
    ensures { OnOk result (ids.new.items ≡ with_id ids.old.items id) }
{
    let Some(id) = id else {
        return Ok(());
    };
    if contains(ids.as_slice(), &id) {
        return Ok(());
    }
    ids.push(id).map_err(|_| AllocError)
}

/// Puts the ids of these children behind those that are there.
fn add_marks(ids: &mut Vec<Name>, marks: &[Mark]) -> Result<(), AllocError>
    ensures { OnOk result (ids.new.items ≡ with_marks ids.old.items marks.now) }
{
    for mark in marks {
        add_id(ids, mark.id)?;
    }
    Ok(())
}

/// The ids of the children that the supervisor at this place has at some moment, each once, in the order of their first.
pub(crate) fn ids_at(
    alloc: Global,
    place: usize,
    moments: &[Moment],
) -> Result<Vec<Name>, AllocError>
    ensures { IfOk result (λ ids. ids.items ≡ ids_at place [] moments.now) }
{
    let mut ids = Vec::new(alloc);
    for moment in moments {
        add_marks(&mut ids, marks_at(moment, place))?;
    }
    Ok(ids)
}
