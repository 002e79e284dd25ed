//! What the failure of each child costs, as a page.

ghost use Rattle.std.specs.Prelude.{◌≡◌, ◌++◌, [], true, IfOk, OnErr, OnOk};
ghost use Rattle.otp_file.specs.declared.limits.TheConstants.{MAX_DEPTH};
ghost use Rattle.otp_file.specs.Nested.{IsPiece};
ghost use Rattle.otp_pages.specs.Limits.{IsLimitsPage, TellsLimits, TellsRows, is_none, limits_legend, limits_page, limits_titles, map_legend, map_part, table_part};
ghost use Rattle.otp_pages.specs.Maps.{map_html};

use crate::html::{put_foot, put_head};
use crate::map::Map;
use crate::row::put_rows;
use otp_costs::{Grain, Pick, Row, find_rows};
use otp_file::TreeSpec;
use otp_file::nested::{NestedText, piece_of};
use otp_trial::Halt;
use std::alloc::{AllocError, Global};

/// Appends what the map is to be read for.
#[tactic(auto, unfolding(crate::specs::Limits::map_legend))]
fn put_map_legend(out: &mut Vec<u8>) -> Result<(), AllocError>
    ensures { OnOk result (out.new.items ≡ out.old.items ++ map_legend) }
{
    out.extend_from_slice(
        b"<p class=\"legend\">Choose a child: what a crash of it takes down is told, and marked. A full bar is 20 crashes at once or more.</p>\n<div class=\"map\">\n",
    )
}

/// Appends what the columns mean.
#[tactic(auto, unfolding(crate::specs::Limits::limits_legend))]
fn put_legend(out: &mut Vec<u8>) -> Result<(), AllocError>
    ensures { OnOk result (out.new.items ≡ out.old.items ++ limits_legend) }
{
    out.extend_from_slice(
        b"</div>\n<p class=\"legend\">The worst child stands first. Burst: so many crashes are survived with no time between, and the next ends its supervisor. Interval: crashes so far apart are survived for ever; by OTP, whose clock has whole seconds.</p>\n",
    )
}

/// Appends the titles of the columns.
#[tactic(auto, unfolding(crate::specs::Limits::limits_titles))]
fn put_titles(out: &mut Vec<u8>) -> Result<(), AllocError>
    ensures { OnOk result (out.new.items ≡ out.old.items ++ limits_titles) }
{
    out.extend_from_slice(
        b"<table>\n<thead><tr><th scope=\"col\">child</th><th scope=\"col\" class=\"n\">burst</th><th scope=\"col\" class=\"n\">interval</th><th scope=\"col\" class=\"n\">by OTP</th><th scope=\"col\">stops</th><th scope=\"col\">starts</th><th scope=\"col\">gives up</th><th scope=\"col\">root survives</th></tr></thead>\n<tbody>\n",
    )
}

/// Appends the map of the tree.
#[tactic(auto, unfolding(crate::specs::Limits::map_part))]
fn put_map(map: &[u8], out: &mut Vec<u8>) -> Result<(), AllocError>
    ensures { OnOk result (out.new.items ≡ out.old.items ++ map_part map.now) }
{
    put_map_legend(out)?;
    out.extend_from_slice(map)?;
    put_legend(out)
}

/// Appends the table of rows.
#[tactic(auto, unfolding(crate::specs::Limits::table_part))]
fn put_table(rows: &[Row], word: &mut Vec<u8>, out: &mut Vec<u8>) -> Result<(), AllocError>
    ensures { OnOk result (out.new.items ≡ out.old.items ++ table_part rows.now) }
{
    put_titles(out)?;
    put_rows(rows, word, out)?;
    out.extend_from_slice(b"</tbody>\n</table>\n")
}

/// Appends the page of rows, whose file has this name.
#[tactic(auto, unfolding(crate::specs::Limits::limits_page))]
fn put_page(
    name: &[u8],
    map: &[u8],
    rows: &[Row],
    word: &mut Vec<u8>,
    out: &mut Vec<u8>,
) -> Result<(), AllocError>
    ensures { OnOk result (out.new.items ≡ out.old.items ++ limits_page name.now map.now rows.now) }
{
    put_head(b"What each crash costs in", name, out)?;
    put_map(map, out)?;
    put_table(rows, word, out)?;
    put_foot(out)
}

/// The map of a tree, by these rows.
fn map_of(alloc: Global, tree: &TreeSpec, rows: &[Row]) -> Result<NestedText, AllocError>
    ensures { IfOk result (IsPiece (map_html rows.now) MAX_DEPTH [] tree.now) }
{
    let map = Map { alloc, rows };
    piece_of(alloc, &map, tree)
}

/// The page of rows of a tree, whose file has this name.
fn page_of(alloc: Global, name: &[u8], tree: &TreeSpec, rows: &[Row]) -> Result<Vec<u8>, AllocError>
    ensures { IfOk result (λ page. IsLimitsPage name.now tree.now rows.now page.items) }
{
    let map = map_of(alloc, tree, rows)?;
    let mut word = Vec::new(alloc);
    let mut page = Vec::new(alloc);
    put_page(name, map.as_bytes(), rows, &mut word, &mut page)?;
    drop(map);
    Ok(page)
}

/// Whether there is no row.
fn is_none(rows: &[Row]) -> bool
    ensures value { result ≡ is_none rows.now }
    ensures none { result ≡ true → rows.now ≡ [] }
{
    match rows {
        [] => true,
        [_, ..] => false,
    }
}

/// Appends the page of rows that are asked for, and says whether there were any.
#[tactic(auto, unfolding(crate::specs::Limits::TellsRows))]
fn tell_rows(
    alloc: Global,
    name: &[u8],
    pick: &Pick<'_>,
    tree: &TreeSpec,
    rows: &[Row],
    out: &mut Vec<u8>,
) -> Result<bool, AllocError>
    ensures told { IfOk result (λ found. TellsRows found name.now pick.now tree.now rows.now out.old.items out.new.items) }
    ensures same { OnErr result (out.new.items ≡ out.old.items) }
{
    if is_none(rows) && !pick.is_all() {
        return Ok(false);
    }
    let page = page_of(alloc, name, tree, rows)?;
    out.extend_from_slice(page.as_slice())?;
    Ok(true)
}

/// Appends what the failure of those children of a tree costs that are asked for, as a page of HTML with the name of its file: a map of
/// the tree, in which each of them says it, and a table. It says whether there are any. Where a child or a supervisor of a name is asked for and there is none, it says `false` and appends
/// nothing.
///
/// # Errors
///
/// Where memory is refused, or a supervisor has 2^62 events before the last crash of a run. Then nothing is appended.
pub fn write_limits_page(
    alloc: Global,
    name: &[u8],
    tree: &TreeSpec,
    grain: Grain,
    pick: &Pick<'_>,
    out: &mut Vec<u8>,
) -> Result<bool, Halt>
    ensures told { IfOk result (λ found. TellsLimits found name.now grain pick.now tree.now out.old.items out.new.items) }
    ensures same { OnErr result (out.new.items ≡ out.old.items) }
{
    let rows = find_rows(alloc, grain, pick, tree)?;
    let told = tell_rows(alloc, name, pick, tree, rows.as_slice(), out);
    drop(rows);
    match told {
        Ok(found) => Ok(found),
        Err(AllocError) => Err(Halt::OutOfMemory),
    }
}
