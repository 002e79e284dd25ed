//! The child of a tree with a name.

ghost use Rattle.std.specs.Prelude.{◌≡◌, ◌+◌, ◌<◌, ◌≤◌, ◌^◌, IfOk, IfSome, length};
ghost use Rattle.std.specs.Str.{bytes_eq};
ghost use Rattle.otp_costs.specs.Groups.{below};
ghost use Rattle.otp_suggest.specs.Found.{child_from, child_in};

use otp_costs::put_below;
use otp_reason::Name;
use otp_spec::{ChildSpec, MAX_TABLES};
use otp_trial::TriedSupervisor;
use std::alloc::{AllocError, Global};

/// Whether the child with this id, of a supervisor with this path, has this name.
fn is_named(path: &[u8], id: &Name, name: &[u8], word: &mut Vec<u8>) -> Result<bool, AllocError>
    ensures { IfOk result (λ is. is ≡ bytes_eq (below path.now id.now) name.now) }
{
    put_below(path, id, word)?;
    Ok(word.as_slice() == name)
}

/// The first child of a supervisor with this path that has this name.
fn child_in(
    path: &[u8],
    name: &[u8],
    specs: &[ChildSpec],
    word: &mut Vec<u8>,
) -> Result<Option<ChildSpec>, AllocError>
    ensures { IfOk result (λ child. child ≡ child_in path.now name.now specs.now) }
{
    for spec in specs {
        if is_named(path, &spec.id, name, word)? {
            return Ok(Some(*spec));
        }
    }
    Ok(None)
}

/// The first child with this name in these supervisors, of which the first stands at this place, and its supervisor's place. The
/// word is a place for a text.
fn find_from(
    place: usize,
    name: &[u8],
    seats: &[TriedSupervisor],
    word: &mut Vec<u8>,
) -> Result<Option<(usize, ChildSpec)>, AllocError>
    requires { place + length seats.now ≤ 2 ^ 62 }
    ensures child { IfOk result (λ found. found ≡ child_from place name.now seats.now) }
    ensures inside { IfOk result (λ found. IfSome found (λ at. at.0 < place + length seats.now)) }
{
    match seats {
        [] => Ok(None),
        [seat, others @ ..] => {
            match child_in(seat.path(), name, seat.supervisor().specs(), word)? {
                Some(spec) => Ok(Some((place, spec))),
                None => find_from(place + 1, name, others, word),
            }
        }
    }
}

/// The place of the supervisor of the child with this name, the root's place being 0, and the child itself.
pub(crate) fn find_child(
    alloc: Global,
    name: &[u8],
    seats: &[TriedSupervisor],
) -> Result<Option<(usize, ChildSpec)>, AllocError>
    ensures child { IfOk result (λ found. found ≡ child_from 0 name.now seats.now) }
    ensures inside { IfOk result (λ found. IfSome found (λ at. at.0 < length seats.now)) }
{
    if seats.len() > MAX_TABLES {
        return Err(AllocError);
    }
    let mut word = Vec::new(alloc);
    find_from(0, name, seats, &mut word)
}
