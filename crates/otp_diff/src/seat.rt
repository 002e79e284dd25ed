//! What differs in the supervisors of two trees.

ghost use Rattle.std.specs.Prelude.{◌≡◌, ◌<◌, ◌++◌, IfSome, OnOk, is_some, length, position};
ghost use Rattle.std.specs.List.{flat_map};
ghost use Rattle.otp_diff.specs.Changes.{at_place, changes_text, child_text, entry_if, entry_text, has_id, has_path, is_there, new_if, new_seat_if, new_seat_text, new_text, order_change_text, order_text, pair_text, seat_pair_text, seat_text, supervisor_text, supervisor_title};

use crate::change::{
    Form, Words, put_child_title, put_lone_title, put_supervisor_title, write_flags, write_lone,
    write_order_change, write_spec,
};
use otp_reason::Name;
use otp_spec::ChildSpec;
use otp_trial::TriedSupervisor;
use std::alloc::AllocError;

/// Whether a specification has this id.
fn has_id(id: &Name, spec: &ChildSpec) -> bool
    ensures { result ≡ has_id id.now spec.now }
{
    spec.id == *id
}

/// The place of the child with this id.
fn place_of(id: &Name, specs: &[ChildSpec]) -> Option<usize>
    ensures place { result ≡ position (has_id id.now) specs.now }
    ensures inside { IfSome result (λ place. place < length specs.now) }
{
    specs.iter().position(|spec| has_id(id, spec))
}

/// Whether there is a child with this id.
#[tactic(auto, unfolding(crate::specs::Changes::is_there))]
fn is_there(id: &Name, specs: &[ChildSpec]) -> bool
    ensures { result ≡ is_there id.now specs.now }
{
    place_of(id, specs).is_some()
}

/// Appends what differs in a child of a supervisor with this path, and the child at this place in the other tree.
#[tactic(auto, unfolding(crate::specs::Changes::pair_text))]
fn write_pair(
    form: Form,
    path: &[u8],
    spec: &ChildSpec,
    others: &[ChildSpec],
    place: Option<usize>,
    name: &mut Vec<u8>,
    words: &mut Words,
    out: &mut Vec<u8>,
) -> Result<(), AllocError>
    requires { IfSome place (λ at. at < length others.now) }
    ensures { OnOk result (out.new.items ≡ out.old.items ++ pair_text form path.now spec.now (at_place others.now place)) }
{
    put_child_title(form, path, &spec.id, &mut words.one, name)?;
    match place {
        None => write_lone(form, false, name.as_slice(), out),
        Some(place) => write_spec(form, name.as_slice(), spec, &others[place], words, out),
    }
}

/// Appends what differs in a child of a supervisor with this path, which has those children in the other tree.
fn write_child(
    form: Form,
    path: &[u8],
    others: &[ChildSpec],
    spec: &ChildSpec,
    name: &mut Vec<u8>,
    words: &mut Words,
    out: &mut Vec<u8>,
) -> Result<(), AllocError>
    ensures { OnOk result (out.new.items ≡ out.old.items ++ child_text form path.now others.now spec.now) }
{
    write_pair(
        form,
        path,
        spec,
        others,
        place_of(&spec.id, others),
        name,
        words,
        out,
    )
}

/// Appends what differs in children.
fn write_children(
    form: Form,
    path: &[u8],
    others: &[ChildSpec],
    specs: &[ChildSpec],
    name: &mut Vec<u8>,
    words: &mut Words,
    out: &mut Vec<u8>,
) -> Result<(), AllocError>
    ensures { OnOk result (out.new.items ≡ out.old.items ++ flat_map (child_text form path.now others.now) specs.now) }
{
    for spec in specs {
        write_child(form, path, others, spec, name, words, out)?;
    }
    Ok(())
}

/// Appends a child that the other tree has alone.
#[tactic(auto, unfolding(crate::specs::Changes::new_if))]
fn write_new(
    form: Form,
    path: &[u8],
    olds: &[ChildSpec],
    spec: &ChildSpec,
    word: &mut Vec<u8>,
    name: &mut Vec<u8>,
    out: &mut Vec<u8>,
) -> Result<(), AllocError>
    ensures { OnOk result (out.new.items ≡ out.old.items ++ new_text form path.now olds.now spec.now) }
{
    if is_there(&spec.id, olds) {
        return Ok(());
    }
    put_child_title(form, path, &spec.id, word, name)?;
    write_lone(form, true, name.as_slice(), out)
}

/// Appends the children that the other tree has alone.
fn write_all_new(
    form: Form,
    path: &[u8],
    olds: &[ChildSpec],
    specs: &[ChildSpec],
    word: &mut Vec<u8>,
    name: &mut Vec<u8>,
    out: &mut Vec<u8>,
) -> Result<(), AllocError>
    ensures { OnOk result (out.new.items ≡ out.old.items ++ flat_map (new_text form path.now olds.now) specs.now) }
{
    for spec in specs {
        write_new(form, path, olds, spec, word, name, out)?;
    }
    Ok(())
}

/// Appends a child that the other tree has too.
#[tactic(auto, unfolding(crate::specs::Changes::entry_if))]
fn write_entry(others: &[ChildSpec], spec: &ChildSpec, out: &mut Vec<u8>) -> Result<(), AllocError>
    ensures { OnOk result (out.new.items ≡ out.old.items ++ entry_text others.now spec.now) }
{
    if is_there(&spec.id, others) {
        out.extend_from_slice(b" ")?;
        out.extend_from_slice(spec.id.as_bytes())?;
    }
    Ok(())
}

/// Appends those children that the other tree has too.
fn write_order(
    others: &[ChildSpec],
    specs: &[ChildSpec],
    out: &mut Vec<u8>,
) -> Result<(), AllocError>
    ensures { OnOk result (out.new.items ≡ out.old.items ++ order_text others.now specs.now) }
{
    for spec in specs {
        write_entry(others, spec, out)?;
    }
    Ok(())
}

/// Appends the order of the children that both have, where it differs.
fn write_orders(
    form: Form,
    path: &[u8],
    olds: &[ChildSpec],
    news: &[ChildSpec],
    name: &mut Vec<u8>,
    words: &mut Words,
    out: &mut Vec<u8>,
) -> Result<(), AllocError>
    ensures { OnOk result (out.new.items ≡ out.old.items ++ order_change_text form (supervisor_title form path.now) (order_text news.now olds.now) (order_text olds.now news.now)) }
{
    words.clear();
    write_order(news, olds, &mut words.one)?;
    write_order(olds, news, &mut words.other)?;
    put_supervisor_title(form, path, name)?;
    write_order_change(
        form,
        name.as_slice(),
        words.one.as_slice(),
        words.other.as_slice(),
        out,
    )
}

/// Appends what differs in two supervisors with this path.
#[tactic(auto, unfolding(crate::specs::Changes::supervisor_text))]
fn write_supervisor(
    form: Form,
    path: &[u8],
    a: &TriedSupervisor,
    b: &TriedSupervisor,
    name: &mut Vec<u8>,
    words: &mut Words,
    out: &mut Vec<u8>,
) -> Result<(), AllocError>
    ensures { OnOk result (out.new.items ≡ out.old.items ++ supervisor_text form path.now a.now b.now) }
{
    let (one, other) = (a.supervisor(), b.supervisor());
    put_supervisor_title(form, path, name)?;
    write_flags(
        form,
        name.as_slice(),
        &one.flags(),
        &other.flags(),
        words,
        out,
    )?;
    write_children(form, path, other.specs(), one.specs(), name, words, out)?;
    write_all_new(
        form,
        path,
        one.specs(),
        other.specs(),
        &mut words.one,
        name,
        out,
    )?;
    write_orders(form, path, one.specs(), other.specs(), name, words, out)
}

/// Whether a supervisor has this path.
fn has_path(path: &[u8], seat: &TriedSupervisor) -> bool
    ensures { result ≡ has_path path.now seat.now }
{
    seat.path() == path
}

/// The place of the supervisor with this path.
fn seat_place_of(path: &[u8], seats: &[TriedSupervisor]) -> Option<usize>
    ensures place { result ≡ position (has_path path.now) seats.now }
    ensures inside { IfSome result (λ place. place < length seats.now) }
{
    seats.iter().position(|seat| has_path(path, seat))
}

/// Whether there is a supervisor with this path.
fn is_seat_there(path: &[u8], seats: &[TriedSupervisor]) -> bool
    ensures { result ≡ is_some (position (has_path path.now) seats.now) }
{
    seat_place_of(path, seats).is_some()
}

/// Appends what differs in a supervisor, and the one at this place in the other tree.
#[tactic(auto, unfolding(crate::specs::Changes::seat_pair_text))]
fn write_seat_pair(
    form: Form,
    seat: &TriedSupervisor,
    others: &[TriedSupervisor],
    place: Option<usize>,
    name: &mut Vec<u8>,
    words: &mut Words,
    out: &mut Vec<u8>,
) -> Result<(), AllocError>
    requires { IfSome place (λ at. at < length others.now) }
    ensures { OnOk result (out.new.items ≡ out.old.items ++ seat_pair_text form seat.now (at_place others.now place)) }
{
    match place {
        None => {
            put_lone_title(form, seat.path(), name)?;
            write_lone(form, false, name.as_slice(), out)
        }
        Some(place) => {
            write_supervisor(form, seat.path(), seat, &others[place], name, words, out)
        }
    }
}

/// Appends what differs in a supervisor, where the other tree has those.
fn write_seat(
    form: Form,
    others: &[TriedSupervisor],
    seat: &TriedSupervisor,
    name: &mut Vec<u8>,
    words: &mut Words,
    out: &mut Vec<u8>,
) -> Result<(), AllocError>
    ensures { OnOk result (out.new.items ≡ out.old.items ++ seat_text form others.now seat.now) }
{
    write_seat_pair(
        form,
        seat,
        others,
        seat_place_of(seat.path(), others),
        name,
        words,
        out,
    )
}

/// Appends what differs in supervisors.
fn write_seats(
    form: Form,
    others: &[TriedSupervisor],
    seats: &[TriedSupervisor],
    name: &mut Vec<u8>,
    words: &mut Words,
    out: &mut Vec<u8>,
) -> Result<(), AllocError>
    ensures { OnOk result (out.new.items ≡ out.old.items ++ flat_map (seat_text form others.now) seats.now) }
{
    for seat in seats {
        write_seat(form, others, seat, name, words, out)?;
    }
    Ok(())
}

/// Appends a supervisor that the other tree has alone.
#[tactic(auto, unfolding(crate::specs::Changes::new_seat_if))]
fn write_new_seat(
    form: Form,
    olds: &[TriedSupervisor],
    seat: &TriedSupervisor,
    name: &mut Vec<u8>,
    out: &mut Vec<u8>,
) -> Result<(), AllocError>
    ensures { OnOk result (out.new.items ≡ out.old.items ++ new_seat_text form olds.now seat.now) }
{
    if is_seat_there(seat.path(), olds) {
        return Ok(());
    }
    put_lone_title(form, seat.path(), name)?;
    write_lone(form, true, name.as_slice(), out)
}

/// Appends the supervisors that the other tree has alone.
fn write_new_seats(
    form: Form,
    olds: &[TriedSupervisor],
    seats: &[TriedSupervisor],
    name: &mut Vec<u8>,
    out: &mut Vec<u8>,
) -> Result<(), AllocError>
    ensures { OnOk result (out.new.items ≡ out.old.items ++ flat_map (new_seat_text form olds.now) seats.now) }
{
    for seat in seats {
        write_new_seat(form, olds, seat, name, out)?;
    }
    Ok(())
}

/// Appends all that differs in flags and children.
#[tactic(auto, unfolding(crate::specs::Changes::changes_text))]
pub(crate) fn write_changes(
    form: Form,
    olds: &[TriedSupervisor],
    news: &[TriedSupervisor],
    name: &mut Vec<u8>,
    words: &mut Words,
    out: &mut Vec<u8>,
) -> Result<(), AllocError>
    ensures { OnOk result (out.new.items ≡ out.old.items ++ changes_text form olds.now news.now) }
{
    write_seats(form, news, olds, name, words, out)?;
    write_new_seats(form, olds, news, name, out)
}
