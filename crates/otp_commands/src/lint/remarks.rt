//! The remarks on a tree.

ghost use Rattle.std.specs.Prelude.{◌≡◌, ◌+◌, ◌<◌, ◌^◌, ◌++◌, IfOk, OnOk, length, map, slice_get};
ghost use Rattle.otp_commands.specs.Below.{below_in, own_table, seen_in, table_of};
ghost use Rattle.otp_commands.specs.Lint.{path_at, paths_at, remarks_below, remarks_in, remarks_on};

use crate::lint::below::{below_in, seen_in};
use crate::lint::children::put_remarks_on;
use crate::lint::remark::{RemarkPath, Remarks};
use crate::lint::tables::tables_of;
use otp_file::TreeSpec;
use otp_spec::ChildSpec;
use std::alloc::{AllocError, Global};

/// The path of the child at this place.
fn path_at(
    alloc: Global,
    path: &RemarkPath,
    specs: &[ChildSpec],
    place: usize,
) -> Result<RemarkPath, AllocError>
    ensures { IfOk result (λ below. below ≡ path_at path.now (slice_get specs.now place)) }
{
    if place < specs.len() {
        path.child(alloc, &specs[place].id)
    } else {
        path.copy(alloc)
    }
}

/// Puts the paths of the children at these places behind others.
fn put_paths(
    alloc: Global,
    path: &RemarkPath,
    specs: &[ChildSpec],
    places: &[usize],
    out: &mut Vec<RemarkPath>,
) -> Result<(), AllocError>
    ensures { OnOk result (out.new.items ≡ out.old.items ++ paths_at path.now specs.now places.now) }
{
    match places {
        [] => Ok(()),
        [place, others @ ..] => {
            let below = path_at(alloc, path, specs, *place)?;
            out.push(below).map_err(|_| AllocError)?;
            put_paths(alloc, path, specs, others, out)
        }
    }
}

/// Puts copies of paths behind others.
fn put_copies(
    alloc: Global,
    paths: &[RemarkPath],
    out: &mut Vec<RemarkPath>,
) -> Result<(), AllocError>
    ensures { OnOk result (out.new.items ≡ out.old.items ++ paths.now) }
{
    match paths {
        [] => Ok(()),
        [path, others @ ..] => {
            out.push(path.copy(alloc)?).map_err(|_| AllocError)?;
            put_copies(alloc, others, out)
        }
    }
}

/// The paths of a table's children that have a tree, and then these.
fn next_paths(
    alloc: Global,
    path: &RemarkPath,
    table: &TreeSpec,
    paths: &[RemarkPath],
) -> Result<Vec<RemarkPath>, AllocError>
    ensures { IfOk result (λ next. next.items ≡ paths_at path.now table.now.specs table.now.nested ++ paths.now) }
{
    let mut next = Vec::new(alloc);
    put_paths(
        alloc,
        path,
        table.supervisor().specs(),
        table.nested(),
        &mut next,
    )?;
    put_copies(alloc, paths, &mut next)?;
    Ok(next)
}

/// Puts all remarks on a table's supervisor and its children behind others: behind the table stand these.
fn put_remarks_of(
    alloc: Global,
    number: usize,
    path: &RemarkPath,
    table: &TreeSpec,
    others: &[&TreeSpec],
    out: &mut Remarks,
) -> Result<(), AllocError>
    ensures { OnOk result (out.new ≡ out.old ++ remarks_on number path.now table.now.flags (seen_in (own_table table.now) (below_in (map table_of others.now)))) }
{
    let trees = below_in(alloc, others)?;
    let children = seen_in(alloc, table, trees.as_slice())?;
    let flags = table.supervisor().flags();
    put_remarks_on(alloc, number, path, flags, children.as_slice(), out)
}

/// Puts all remarks on the supervisors of these tables behind others, of which the first has this number, and the first path.
fn put_remarks(
    alloc: Global,
    number: usize,
    paths: &[RemarkPath],
    tables: &[&TreeSpec],
    out: &mut Remarks,
) -> Result<(), AllocError>
    requires { number + length tables.now < 2 ^ 64 }
    ensures { OnOk result (out.new ≡ out.old ++ remarks_below number paths.now (map table_of tables.now)) }
{
    let [table, others @ ..] = tables else {
        return Ok(());
    };
    let [path, rest @ ..] = paths else {
        return Ok(());
    };
    put_remarks_of(alloc, number, path, table, others, out)?;
    let next = next_paths(alloc, path, table, rest)?;
    put_remarks(alloc, number + 1, next.as_slice(), others, out)
}

/// All remarks on a tree: supervisor by supervisor in the order of their tables, of each those on itself before those on its
/// children, one by one, and of each child by their kinds.
///
/// # Errors
///
/// Where memory is refused.
pub fn lint(alloc: Global, tree: &TreeSpec) -> Result<Remarks, AllocError>
    ensures { IfOk result (λ remarks. remarks ≡ remarks_in tree.now) }
{
    let tables = tables_of(alloc, tree)?;
    let mut paths = Vec::new(alloc);
    paths.push(RemarkPath::root(alloc)).map_err(|_| AllocError)?;
    let mut out = Remarks::new(alloc);
    put_remarks(alloc, 0, paths.as_slice(), tables.as_slice(), &mut out)?;
    Ok(out)
}
