//! The row of some children in the page of limits.

ghost use Rattle.std.specs.Prelude.{◌≡◌, ◌++◌, OnOk};
ghost use Rattle.std.specs.List.{flat_map};
ghost use Rattle.otp_pages.specs.Costs.{affected_cell, affected_cells, alike_html, child_cell, count_html, row_html};

use crate::fates::{put_burst, put_giver, put_intervals, put_root};
use crate::html::put_element;
use crate::names::put_names;
use otp_costs::{Row, put_below};
use otp_reason::Name;
use otp_text::write_number;
use std::alloc::AllocError;

/// Appends for which children a row stands, if for more than one.
#[tactic(auto, unfolding(crate::specs::Costs::alike_html))]
fn put_alike(row: &Row, word: &mut Vec<u8>, out: &mut Vec<u8>) -> Result<(), AllocError>
    ensures { OnOk result (out.new.items ≡ out.old.items ++ alike_html row.now) }
{
    let names = row.names.as_slice();
    if names.len() <= 1 {
        return Ok(());
    }
    out.extend_from_slice(b"<small>")?;
    write_number(names.len() as u64, out)?;
    out.extend_from_slice(b" alike: ")?;
    put_names(row.path.as_bytes(), names, word, out)?;
    out.extend_from_slice(b"</small>")
}

/// Appends the cell of the child, with which the row begins.
#[tactic(auto, unfolding(crate::specs::Costs::child_cell))]
fn put_child(row: &Row, word: &mut Vec<u8>, out: &mut Vec<u8>) -> Result<(), AllocError>
    ensures { OnOk result (out.new.items ≡ out.old.items ++ child_cell row.now) }
{
    put_below(row.path.as_bytes(), &row.own.id, word)?;
    put_element(
        b"<tr><th scope=\"row\"><code>",
        word.as_slice(),
        b"</code>",
        out,
    )?;
    put_alike(row, word, out)?;
    out.extend_from_slice(b"</th>\n")
}

/// Appends how many processes some children are with those below, where there are some below.
#[tactic(auto, unfolding(crate::specs::Costs::count_html))]
pub(crate) fn put_count(children: u64, processes: u64, out: &mut Vec<u8>) -> Result<(), AllocError>
    ensures { OnOk result (out.new.items ≡ out.old.items ++ count_html children processes) }
{
    if processes <= children {
        return Ok(());
    }
    out.extend_from_slice(b"<small>")?;
    write_number(processes, out)?;
    out.extend_from_slice(b" with those below</small>")
}

/// Appends the cell of these children.
#[tactic(auto, unfolding(crate::specs::Costs::affected_cell))]
fn put_cell(
    path: &[u8],
    names: &[Name],
    processes: u64,
    word: &mut Vec<u8>,
    out: &mut Vec<u8>,
) -> Result<(), AllocError>
    ensures { OnOk result (out.new.items ≡ out.old.items ++ affected_cell path.now names.now processes) }
{
    out.extend_from_slice(b"<td>")?;
    put_names(path, names, word, out)?;
    put_count(names.len() as u64, processes, out)?;
    out.extend_from_slice(b"</td>\n")
}

/// Appends the cells of what a crash stops and starts again.
#[tactic(auto, unfolding(crate::specs::Costs::affected_cells))]
fn put_affected(row: &Row, word: &mut Vec<u8>, out: &mut Vec<u8>) -> Result<(), AllocError>
    ensures { OnOk result (out.new.items ≡ out.old.items ++ affected_cells row.now) }
{
    let path = row.path.as_bytes();
    put_cell(path, row.own.stops.as_slice(), row.stopped, word, out)?;
    put_cell(path, row.own.starts.as_slice(), row.started, word, out)
}

/// Appends a row.
#[tactic(auto, unfolding(crate::specs::Costs::row_html))]
fn put_row(row: &Row, word: &mut Vec<u8>, out: &mut Vec<u8>) -> Result<(), AllocError>
    ensures { OnOk result (out.new.items ≡ out.old.items ++ row_html row.now) }
{
    put_child(row, word, out)?;
    put_burst(row.own.burst, out)?;
    put_intervals(row, out)?;
    put_affected(row, word, out)?;
    put_giver(row, out)?;
    put_root(row, out)
}

/// Appends rows.
pub(crate) fn put_rows(
    rows: &[Row],
    word: &mut Vec<u8>,
    out: &mut Vec<u8>,
) -> Result<(), AllocError>
    ensures { OnOk result (out.new.items ≡ out.old.items ++ flat_map row_html rows.now) }
{
    for row in rows {
        put_row(row, word, out)?;
    }
    Ok(())
}
