//! What differs in two trees.

ghost use Rattle.std.specs.Prelude.{◌≡◌, ◌++◌, OnOk};
ghost use Rattle.otp_diff.specs.Differs.{Differs, array_text, children_or_none, costs_or_none, files_members, is_empty, object_of, or_else, told_text, whole_text};

use crate::change::{Form, Words, truth_text, without};
use crate::cost::write_costs;
use crate::seat::write_changes;
use otp_costs::{Grain, Pick, Row, find_rows};
use otp_file::TreeSpec;
use otp_json::{put_key, put_text};
use otp_trial::{Halt, TriedSupervisor, plant_seats};
use std::alloc::{AllocError, Global};

/// Appends a text, or where nothing stands in it another.
#[tactic(auto, unfolding(crate::specs::Differs::or_else))]
fn write_or(other: &[u8], text: &[u8], out: &mut Vec<u8>) -> Result<(), AllocError>
    ensures { OnOk result (out.new.items ≡ out.old.items ++ or_else other.now text.now) }
{
    if text.is_empty() {
        out.extend_from_slice(other)
    } else {
        out.extend_from_slice(text)
    }
}

/// Appends what differs in flags and children, or that nothing does.
#[tactic(auto, unfolding(crate::specs::Differs::children_or_none))]
fn write_children_or_none(text: &[u8], out: &mut Vec<u8>) -> Result<(), AllocError>
    ensures { OnOk result (out.new.items ≡ out.old.items ++ children_or_none text.now) }
{
    write_or(b"flags and children are the same\n", text, out)
}

/// Appends what differs in what failures cost, or that nothing does.
#[tactic(auto, unfolding(crate::specs::Differs::costs_or_none))]
fn write_costs_or_none(text: &[u8], out: &mut Vec<u8>) -> Result<(), AllocError>
    ensures { OnOk result (out.new.items ≡ out.old.items ++ costs_or_none text.now) }
{
    write_or(b"each failure costs the same\n", text, out)
}

/// Appends an array of objects, before each of which a comma and a space stand.
#[tactic(auto, unfolding(crate::specs::Differs::array_text))]
fn put_array(key: &[u8], objects: &[u8], out: &mut Vec<u8>) -> Result<(), AllocError>
    ensures { OnOk result (out.new.items ≡ out.old.items ++ array_text key.now objects.now) }
{
    put_key(b", ", key, out)?;
    out.extend_from_slice(b"[")?;
    out.extend_from_slice(without(2, objects))?;
    out.extend_from_slice(b"]")
}

/// Whether nothing stands in a text.
#[tactic(auto, unfolding(crate::specs::Differs::is_empty))]
fn is_empty(text: &[u8]) -> bool
    ensures { result ≡ is_empty text.now }
{
    match text {
        [] => true,
        [_, ..] => false,
    }
}

/// Appends which files were compared, and whether nothing differs.
#[tactic(auto, unfolding(crate::specs::Differs::files_members))]
fn put_files(name: &[u8], other: &[u8], is_same: bool, out: &mut Vec<u8>) -> Result<(), AllocError>
    ensures { OnOk result (out.new.items ≡ out.old.items ++ files_members name.now other.now is_same) }
{
    put_text(b"{", b"file", name, out)?;
    put_text(b", ", b"other", other, out)?;
    put_key(b", ", b"same", out)?;
    out.extend_from_slice(truth_text(is_same))
}

/// Appends the object of what differs.
#[tactic(auto, unfolding(crate::specs::Differs::object_of))]
fn put_object(
    name: &[u8],
    other: &[u8],
    changes: &[u8],
    costs: &[u8],
    out: &mut Vec<u8>,
) -> Result<(), AllocError>
    ensures { OnOk result (out.new.items ≡ out.old.items ++ object_of name.now other.now changes.now costs.now) }
{
    put_files(name, other, is_empty(changes) && is_empty(costs), out)?;
    put_array(b"changes", changes, out)?;
    put_array(b"costs", costs, out)?;
    out.extend_from_slice(b"}\n")
}

/// Appends what differs, of which this is told of flags and children, and this of costs.
#[tactic(auto, unfolding(crate::specs::Differs::whole_text))]
fn write_told(
    form: Form,
    name: &[u8],
    other: &[u8],
    changes: &[u8],
    costs: &[u8],
    out: &mut Vec<u8>,
) -> Result<(), AllocError>
    ensures { OnOk result (out.new.items ≡ out.old.items ++ whole_text form name.now other.now changes.now costs.now) }
{
    match form {
        Form::Text => {
            write_children_or_none(changes, out)?;
            write_costs_or_none(costs, out)
        }
        Form::Object => put_object(name, other, changes, costs, out),
    }
}

/// Appends what differs in supervisors and in rows.
#[tactic(auto, unfolding(crate::specs::Differs::told_text))]
fn write_difference(
    alloc: Global,
    form: Form,
    name: &[u8],
    other: &[u8],
    seats: &[TriedSupervisor],
    others: &[TriedSupervisor],
    rows: &[Row],
    other_rows: &[Row],
    out: &mut Vec<u8>,
) -> Result<(), AllocError>
    ensures { OnOk result (out.new.items ≡ out.old.items ++ told_text form name.now other.now seats.now others.now rows.now other_rows.now) }
{
    let mut title = Vec::new(alloc);
    let mut words = Words {
        one: Vec::new(alloc),
        other: Vec::new(alloc),
    };
    let mut changes = Vec::new(alloc);
    let mut costs = Vec::new(alloc);
    write_changes(form, seats, others, &mut title, &mut words, &mut changes)?;
    write_costs(
        alloc, form, rows, other_rows, &mut title, &mut words, &mut costs,
    )?;
    write_told(form, name, other, changes.as_slice(), costs.as_slice(), out)
}

/// Appends what differs in the trees of two files of these names: in the flags and the children of supervisors that have one path, and
/// then in what the failure of each child costs that is in both. As an object it has the names, and says whether nothing differs.
///
/// # Errors
///
/// Where memory is refused, or a supervisor has 2^62 events before the last crash of a run.
pub fn write_trees_difference(
    alloc: Global,
    form: Form,
    name: &[u8],
    old: &TreeSpec,
    other: &[u8],
    new: &TreeSpec,
    out: &mut Vec<u8>,
) -> Result<(), Halt>
    ensures { OnOk result (Differs form name.now other.now old.now new.now out.old.items out.new.items) }
{
    let seats = plant_seats(alloc, old)?;
    let others = match plant_seats(alloc, new) {
        Ok(others) => others,
        Err(halt) => {
            drop(seats);
            return Err(halt);
        }
    };
    let rows = match find_rows(alloc, Grain::Alike, &Pick::All, old) {
        Ok(rows) => rows,
        Err(halt) => {
            drop(seats);
            drop(others);
            return Err(halt);
        }
    };
    let other_rows = match find_rows(alloc, Grain::Alike, &Pick::All, new) {
        Ok(rows) => rows,
        Err(halt) => {
            drop(seats);
            drop(others);
            drop(rows);
            return Err(halt);
        }
    };
    let told = write_difference(
        alloc,
        form,
        name,
        other,
        seats.as_slice(),
        others.as_slice(),
        rows.as_slice(),
        other_rows.as_slice(),
        out,
    );
    drop(seats);
    drop(others);
    drop(rows);
    drop(other_rows);
    match told {
        Ok(()) => Ok(()),
        Err(AllocError) => Err(Halt::OutOfMemory),
    }
}
