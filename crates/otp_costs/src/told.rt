//! The limits of a tree as they are told.

ghost use Rattle.std.specs.Prelude.{◌≡◌, [], true, IfOk};
ghost use Rattle.otp_costs.specs.Told.{Tells, TellsRows, is_alone, is_none};

use crate::alike::Grain;
use crate::pick::Pick;
use crate::progress::Progress;
use crate::rows::{Row, find_rows_seen};
use crate::table::write_table;
use otp_file::TreeSpec;
use otp_trial::Halt;
use std::alloc::{AllocError, Global};

/// Whether a tree has one supervisor alone, whose children with a tree are these.
fn is_alone(nested: &[usize]) -> bool
    ensures { result ≡ is_alone nested.now }
{
    match nested {
        [] => true,
        [_, ..] => false,
    }
}

/// Whether there is no row.
fn is_none(rows: &[Row]) -> bool
    ensures value { result ≡ is_none rows.now }
    ensures none { result ≡ true → rows.now ≡ [] }
{
    match rows {
        [] => true,
        [_, ..] => false,
    }
}

/// Appends the rows of children that are asked for, and says whether there were any.
#[tactic(auto, unfolding(crate::specs::Told::TellsRows))]
fn tell_rows(
    alloc: Global,
    tree: &TreeSpec,
    pick: &Pick<'_>,
    rows: &[Row],
    out: &mut Vec<u8>,
) -> Result<bool, AllocError>
    ensures { IfOk result (λ found. TellsRows found pick.now tree.now rows.now out.old.items out.new.items) }
{
    if is_none(rows) && !pick.is_all() {
        return Ok(false);
    }
    write_table(alloc, is_alone(tree.nested()), pick.most(), rows, out)?;
    Ok(true)
}

/// Appends what the failure of those children of a tree costs that are asked for, the worst first, and says whether there are
/// any. Where a child or a supervisor of a name is asked for and there is none, it says `false` and appends nothing. Somebody may
/// see how far it is.
///
/// # Errors
///
/// Where memory is refused, or a supervisor has 2^62 events before the last crash of a run.
pub fn write_limits<P: Progress>(
    alloc: Global,
    tree: &TreeSpec,
    grain: Grain,
    pick: &Pick<'_>,
    progress: &P,
    out: &mut Vec<u8>,
) -> Result<bool, Halt>
    ensures { IfOk result (λ found. Tells found grain pick.now tree.now out.old.items out.new.items) }
{
    let rows = find_rows_seen(alloc, grain, pick, tree, progress)?;
    let told = tell_rows(alloc, tree, pick, rows.as_slice(), out);
    drop(rows);
    match told {
        Ok(found) => Ok(found),
        Err(AllocError) => Err(Halt::OutOfMemory),
    }
}
