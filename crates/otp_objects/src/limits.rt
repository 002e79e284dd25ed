//! What the failure of each child costs, as an object.

ghost use Rattle.std.specs.Prelude.{◌≡◌, ◌++◌, [], true, IfOk, OnOk};
ghost use Rattle.std.specs.List.{flat_map};
ghost use Rattle.otp_objects.specs.Limits.{named_text, TellsObject, TellsRows, affected_text, clocks_text, fall_text, fate_text, gone_value, head_text, interval_text, is_none, limits_text, next_row, otp_text, row_text, rows_text, steady_text, steady_value};

use crate::names::{write_names, write_paths};
use otp_costs::limits::{Fate, Steady};
use otp_costs::{Grain, Pick, Row, find_rows};
use otp_file::TreeSpec;
use otp_json::{put_key, put_text};
use otp_text::write_number;
use otp_trial::Halt;
use std::alloc::{AllocError, Global};

/// Appends `null` for a child that never ran, and another text for one that runs no more.
#[tactic(auto, unfolding(crate::specs::Limits::gone_value))]
fn write_gone(count: u64, later: &[u8], out: &mut Vec<u8>) -> Result<(), AllocError>
    ensures { OnOk result (out.new.items ≡ out.old.items ++ gone_value count later.now) }
{
    if count == 0 {
        out.extend_from_slice(b"null")
    } else {
        out.extend_from_slice(later)
    }
}

/// Appends how many crashes at once are survived.
#[tactic(auto, unfolding(crate::specs::Limits::fate_text))]
fn write_fate(fate: Fate, all: &[u8], out: &mut Vec<u8>) -> Result<(), AllocError>
    ensures { OnOk result (out.new.items ≡ out.old.items ++ fate_text fate all.now) }
{
    match fate {
        Fate::Survived => out.extend_from_slice(all),
        Fate::Ended(count) => write_number(count, out),
        Fate::Gone(count) => write_gone(count, b"\"any\"", out),
    }
}

/// Appends how far apart crashes must be.
#[tactic(auto, unfolding(crate::specs::Limits::steady_value))]
fn write_apart(steady: Steady, out: &mut Vec<u8>) -> Result<(), AllocError>
    ensures { OnOk result (out.new.items ≡ out.old.items ++ steady_value steady) }
{
    match steady {
        Steady::Always => out.extend_from_slice(b"\"any\""),
        Steady::Apart(gap) => write_number(gap, out),
        Steady::Never => out.extend_from_slice(b"\"none\""),
    }
}

/// Appends how far apart crashes must be of a child that runs no more, and `null` for one that never ran.
#[tactic(auto, unfolding(crate::specs::Limits::gone_value))]
fn write_gone_apart(count: u64, steady: Steady, out: &mut Vec<u8>) -> Result<(), AllocError>
    ensures { OnOk result (out.new.items ≡ out.old.items ++ gone_value count (steady_value steady)) }
{
    if count == 0 {
        out.extend_from_slice(b"null")
    } else {
        write_apart(steady, out)
    }
}

/// Appends how far apart crashes must be of a child that fares so.
#[tactic(auto, unfolding(crate::specs::Limits::steady_text))]
fn write_steady(burst: Fate, steady: Steady, out: &mut Vec<u8>) -> Result<(), AllocError>
    ensures { OnOk result (out.new.items ≡ out.old.items ++ steady_text burst steady) }
{
    match burst {
        Fate::Gone(count) => write_gone_apart(count, steady, out),
        Fate::Survived | Fate::Ended(_) => write_apart(steady, out),
    }
}

/// Appends for which children a row stands, and how many crashes at once are survived.
#[tactic(auto, unfolding(crate::specs::Limits::head_text))]
fn write_head(row: &Row, word: &mut Vec<u8>, out: &mut Vec<u8>) -> Result<(), AllocError>
    ensures { OnOk result (out.new.items ≡ out.old.items ++ head_text row.now) }
{
    put_key(b"{", b"children", out)?;
    write_names(row.path.as_bytes(), row.names.as_slice(), word, out)?;
    put_key(b", ", b"burst", out)?;
    write_fate(row.own.burst, b"\"any\"", out)
}

/// Appends how far apart crashes must be.
#[tactic(auto, unfolding(crate::specs::Limits::interval_text))]
fn write_interval(row: &Row, out: &mut Vec<u8>) -> Result<(), AllocError>
    ensures { OnOk result (out.new.items ≡ out.old.items ++ interval_text row.now) }
{
    put_key(b", ", b"interval", out)?;
    write_steady(row.own.burst, row.own.steady, out)
}

/// Appends how far apart crashes must be by the clock of OTP. A long text stands alone, since the prover's search loses it among
/// others.
#[tactic(auto, unfolding(crate::specs::Limits::otp_text))]
fn write_otp(row: &Row, out: &mut Vec<u8>) -> Result<(), AllocError>
    ensures { OnOk result (out.new.items ≡ out.old.items ++ otp_text row.now) }
{
    put_key(b", ", b"otp_needs", out)?;
    write_steady(row.own.burst, row.own.seconds, out)
}

/// Appends how far apart crashes must be, by each clock.
#[tactic(auto, unfolding(crate::specs::Limits::clocks_text))]
fn write_clocks(row: &Row, out: &mut Vec<u8>) -> Result<(), AllocError>
    ensures { OnOk result (out.new.items ≡ out.old.items ++ clocks_text row.now) }
{
    write_interval(row, out)?;
    write_otp(row, out)
}

/// Appends what a crash stops and starts again, and how many processes these are, with those below.
#[tactic(auto, unfolding(crate::specs::Limits::affected_text))]
fn write_affected(row: &Row, word: &mut Vec<u8>, out: &mut Vec<u8>) -> Result<(), AllocError>
    ensures { OnOk result (out.new.items ≡ out.old.items ++ affected_text row.now) }
{
    write_named(row, word, out)?;
    put_key(b", ", b"stopped", out)?;
    write_number(row.stopped, out)?;
    put_key(b", ", b"started", out)?;
    write_number(row.started, out)
}

/// Appends the children that a crash stops and starts again.
#[tactic(auto, unfolding(crate::specs::Limits::named_text))]
fn write_named(row: &Row, word: &mut Vec<u8>, out: &mut Vec<u8>) -> Result<(), AllocError>
    ensures { OnOk result (out.new.items ≡ out.old.items ++ named_text row.now) }
{
    put_key(b", ", b"stops", out)?;
    write_names(row.path.as_bytes(), row.own.stops.as_slice(), word, out)?;
    put_key(b", ", b"starts", out)?;
    write_names(row.path.as_bytes(), row.own.starts.as_slice(), word, out)
}

/// Appends how the root fares, and who has given up then.
#[tactic(auto, unfolding(crate::specs::Limits::fall_text))]
fn write_fall(row: &Row, out: &mut Vec<u8>) -> Result<(), AllocError>
    ensures { OnOk result (out.new.items ≡ out.old.items ++ fall_text row.now) }
{
    put_key(b", ", b"root", out)?;
    write_fate(row.root, b"\"10000+\"", out)?;
    put_key(b", ", b"ends", out)?;
    write_paths(row.ends.as_slice(), out)
}

/// Appends the object of a row. The word is a place for a text.
#[tactic(auto, unfolding(crate::specs::Limits::row_text))]
fn write_row(row: &Row, word: &mut Vec<u8>, out: &mut Vec<u8>) -> Result<(), AllocError>
    ensures { OnOk result (out.new.items ≡ out.old.items ++ row_text row.now) }
{
    write_head(row, word, out)?;
    write_clocks(row, out)?;
    write_affected(row, word, out)?;
    write_fall(row, out)?;
    out.extend_from_slice(b"}")
}

/// Appends the object of a row behind another.
#[tactic(auto, unfolding(crate::specs::Limits::next_row))]
fn write_next_row(row: &Row, word: &mut Vec<u8>, out: &mut Vec<u8>) -> Result<(), AllocError>
    ensures { OnOk result (out.new.items ≡ out.old.items ++ next_row row.now) }
{
    out.extend_from_slice(b", ")?;
    write_row(row, word, out)
}

/// Appends the objects of rows behind others.
fn write_next_rows(rows: &[Row], word: &mut Vec<u8>, out: &mut Vec<u8>) -> Result<(), AllocError>
    ensures { OnOk result (out.new.items ≡ out.old.items ++ flat_map next_row rows.now) }
{
    for row in rows {
        write_next_row(row, word, out)?;
    }
    Ok(())
}

/// Appends the array of rows.
#[tactic(auto, unfolding(crate::specs::Limits::rows_text))]
fn write_rows(rows: &[Row], word: &mut Vec<u8>, out: &mut Vec<u8>) -> Result<(), AllocError>
    ensures { OnOk result (out.new.items ≡ out.old.items ++ rows_text rows.now) }
{
    match rows {
        [] => out.extend_from_slice(b"[]"),
        [first, others @ ..] => {
            out.extend_from_slice(b"[")?;
            write_row(first, word, out)?;
            write_next_rows(others, word, out)?;
            out.extend_from_slice(b"]")
        }
    }
}

/// Appends the object of a file's rows, a line.
#[tactic(auto, unfolding(crate::specs::Limits::limits_text))]
fn write_limits(
    alloc: Global,
    name: &[u8],
    rows: &[Row],
    out: &mut Vec<u8>,
) -> Result<(), AllocError>
    ensures { OnOk result (out.new.items ≡ out.old.items ++ limits_text name.now rows.now) }
{
    let mut word = Vec::new(alloc);
    put_text(b"{", b"file", name, out)?;
    put_key(b", ", b"rows", out)?;
    write_rows(rows, &mut word, out)?;
    out.extend_from_slice(b"}\n")
}

/// Whether there is no row.
fn is_none(rows: &[Row]) -> bool
    ensures value { result ≡ is_none rows.now }
    ensures none { result ≡ true → rows.now ≡ [] }
{
    match rows {
        [] => true,
        [_, ..] => false,
    }
}

/// Appends the object of rows that are asked for, and says whether there were any.
#[tactic(auto, unfolding(crate::specs::Limits::TellsRows))]
fn tell_rows(
    alloc: Global,
    name: &[u8],
    pick: &Pick<'_>,
    rows: &[Row],
    out: &mut Vec<u8>,
) -> Result<bool, AllocError>
    ensures { IfOk result (λ found. TellsRows found name.now pick.now rows.now out.old.items out.new.items) }
{
    if is_none(rows) && !pick.is_all() {
        return Ok(false);
    }
    write_limits(alloc, name, rows, out)?;
    Ok(true)
}

/// Appends what the failure of those children of a tree costs that are asked for, as an object with the name of its file, and
/// says whether there are any. Where a child or a supervisor of a name is asked for and there is none, it says `false` and appends
/// nothing.
///
/// # Errors
///
/// Where memory is refused, or a supervisor has 2^62 events before the last crash of a run.
pub fn write_limits_object(
    alloc: Global,
    name: &[u8],
    tree: &TreeSpec,
    grain: Grain,
    pick: &Pick<'_>,
    out: &mut Vec<u8>,
) -> Result<bool, Halt>
    ensures { IfOk result (λ found. TellsObject found name.now grain pick.now tree.now out.old.items out.new.items) }
{
    let rows = find_rows(alloc, grain, pick, tree)?;
    let told = tell_rows(alloc, name, pick, rows.as_slice(), out);
    drop(rows);
    match told {
        Ok(found) => Ok(found),
        Err(AllocError) => Err(Halt::OutOfMemory),
    }
}
