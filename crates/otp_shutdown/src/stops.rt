//! The stops of a tree, one after the other.

ghost use Rattle.std.specs.Prelude.{◌≡◌, ◌+◌, ◌≤◌, ◌++◌, IfOk, OnOk, length, option_map, slice_get};
ghost use Rattle.otp_spec.specs.Flags.{is_simple};
ghost use Rattle.otp_shutdown.specs.Stops.{AreStops, AreStopsWithin, path_in, stops_at, stops_from, sub_at};

use crate::stop::{Stop, Stops, name_of, put_copies};
use otp_file::{MAX_DEPTH, TreeSpec};
use otp_spec::ChildSpec;
use std::alloc::{AllocError, Global};

/// The path of the children of the child at this place.
fn path_in(
    alloc: Global,
    path: &[u8],
    specs: &[ChildSpec],
    place: usize,
) -> Result<Vec<u8>, AllocError>
    ensures { IfOk result (λ below. below.items ≡ path_in path.now (slice_get specs.now place)) }
{
    let mut below = Vec::new(alloc);
    below.extend_from_slice(path)?;
    if place < specs.len() {
        let spec = &specs[place];
        below.extend_from_slice(spec.id.as_bytes())?;
        below.extend_from_slice(b"/")?;
    }
    Ok(below)
}

/// The stops of the tree of the child at this place, if it has one.
fn sub_at<'e>(place: usize, nested: &[usize], each: &'e [Stops]) -> Option<&'e Stops>
    ensures { option_map (λ stops. stops.now) result ≡ sub_at place nested.now each.now }
{
    let [other, others @ ..] = nested else {
        return None;
    };
    let [stops, rest @ ..] = each else {
        return None;
    };
    if *other == place {
        Some(stops)
    } else {
        sub_at(place, others, rest)
    }
}

/// Puts the stop of a child behind others, or those of its children where it has a tree.
fn put_at(
    alloc: Global,
    simple: bool,
    path: &[u8],
    spec: &ChildSpec,
    sub: Option<&Stops>,
    out: &mut Stops,
) -> Result<(), AllocError>
    ensures { OnOk result (out.new ≡ out.old ++ stops_at simple path.now spec.now (option_map (λ stops. stops.now) sub.entry)) }
{
    match sub {
        Some(stops) => put_copies(alloc, stops.as_slice(), out),
        None => out.push(Stop {
            name: name_of(alloc, path, &spec.id)?,
            shutdown: spec.shutdown,
            is_shared: simple,
        }),
    }
}

/// Puts the stops of these children, of which the first stands at this place, behind others: the last one first.
fn put_stops(
    alloc: Global,
    simple: bool,
    path: &[u8],
    nested: &[usize],
    each: &[Stops],
    place: usize,
    specs: &[ChildSpec],
    out: &mut Stops,
) -> Result<(), AllocError>
    requires { place + length specs.now ≤ 256 }
    ensures { OnOk result (out.new ≡ out.old ++ stops_from simple path.now nested.now each.now place specs.now) }
{
    match specs {
        [] => Ok(()),
        [spec, others @ ..] => {
            put_stops(alloc, simple, path, nested, each, place + 1, others, out)?;
            put_at(alloc, simple, path, spec, sub_at(place, nested, each), out)
        }
    }
}

/// The stops of a tree of so many levels at the most, whose root's children have this path.
fn find_within(
    alloc: Global,
    path: &[u8],
    tree: &TreeSpec,
    levels: usize,
) -> Result<Stops, AllocError>
    ensures { IfOk result (AreStopsWithin levels path.now tree.now) }
{
    // No tree that a file says has more levels, nor another number of trees than of children that have one.
    let Some(left) = levels.checked_sub(1) else {
        return Err(AllocError);
    };
    let trees = tree.trees();
    let nested = tree.nested();
    if trees.len() != nested.len() {
        return Err(AllocError);
    }
    let specs = tree.supervisor().specs();
    let mut each = Vec::new(alloc);
    for number in 0..trees.len() {
        let below = path_in(alloc, path, specs, nested[number])?;
        let stops = find_within(alloc, below.as_slice(), &trees[number], left)?;
        each.push(stops).map_err(|_| AllocError)?;
    }
    let mut out = Stops::new(alloc);
    let simple = tree.supervisor().flags().strategy.is_simple();
    put_stops(
        alloc,
        simple,
        path,
        nested,
        each.as_slice(),
        0,
        specs,
        &mut out,
    )?;
    drop(each);
    Ok(out)
}

/// The stops of a tree, one after the other: that of a child begins once all that were started later have ended.
///
/// # Errors
///
/// Where memory is refused.
pub fn find_stops(alloc: Global, tree: &TreeSpec) -> Result<Stops, AllocError>
    ensures { IfOk result (AreStops tree.now) }
{
    find_within(alloc, &[], tree, MAX_DEPTH)
}
