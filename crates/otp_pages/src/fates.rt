//! How a supervisor fares, in a page.

ghost use Rattle.std.specs.Prelude.{◌≡◌, ◌++◌, OnOk, codes};
ghost use Rattle.otp_costs.specs.Words.{gone_text};
ghost use Rattle.otp_pages.specs.Costs.{bar_ground, bar_html, bar_of, bar_opening, burst_cell, clock_cell, full_unless, gives_up_html, giver_cell, interval_cell, root_cell};

use crate::names::{put_path, put_paths};
use otp_costs::limits::{Fate, supervisor_path};
use otp_costs::{Row, write_burst, write_interval, write_root};
use otp_text::write_number;
use std::alloc::AllocError;

/// So many crashes fill a bar.
const FULL: u64 = 20;

/// The bar of a child that is gone after so many crashes: one that never ran has none.
#[tactic(auto, unfolding(crate::specs::Costs::full_unless))]
fn full_unless(count: u64) -> u64
    ensures { result ≡ full_unless count }
{
    if count == 0 { 0 } else { FULL }
}

/// How long the bar is.
#[tactic(auto, unfolding(crate::specs::Costs::bar_of))]
fn bar_of(burst: Fate) -> u64
    ensures { result ≡ bar_of burst }
{
    match burst {
        Fate::Survived => FULL,
        Fate::Ended(count) => count.min(FULL),
        Fate::Gone(count) => full_unless(count),
    }
}

/// Appends the beginning of a bar, in front of what it says in words.
#[tactic(auto, unfolding(crate::specs::Costs::bar_opening))]
fn put_bar_opening(out: &mut Vec<u8>) -> Result<(), AllocError>
    ensures { OnOk result (out.new.items ≡ out.old.items ++ bar_opening) }
{
    out.extend_from_slice(
        b"<svg class=\"bar\" viewBox=\"0 0 20 2\" preserveAspectRatio=\"none\" role=\"img\" aria-label=\"crashes survived: ",
    )
}

/// Appends the ground of a bar, in front of its length.
#[tactic(auto, unfolding(crate::specs::Costs::bar_ground))]
fn put_bar_ground(out: &mut Vec<u8>) -> Result<(), AllocError>
    ensures { OnOk result (out.new.items ≡ out.old.items ++ bar_ground) }
{
    out.extend_from_slice(b"\"><rect class=\"all\" width=\"20\" height=\"2\"></rect><rect width=\"")
}

/// Appends how many crashes at once are survived, as a bar.
#[tactic(auto, unfolding(crate::specs::Costs::bar_html))]
pub(crate) fn put_bar(burst: Fate, out: &mut Vec<u8>) -> Result<(), AllocError>
    ensures { OnOk result (out.new.items ≡ out.old.items ++ bar_html burst) }
{
    put_bar_opening(out)?;
    write_burst(burst, out)?;
    put_bar_ground(out)?;
    write_number(bar_of(burst), out)?;
    out.extend_from_slice(b"\" height=\"2\"></rect></svg>")
}

/// Appends the cell of how many crashes at once are survived.
#[tactic(auto, unfolding(crate::specs::Costs::burst_cell))]
pub(crate) fn put_burst(burst: Fate, out: &mut Vec<u8>) -> Result<(), AllocError>
    ensures { OnOk result (out.new.items ≡ out.old.items ++ burst_cell burst) }
{
    out.extend_from_slice(b"<td class=\"n\">")?;
    put_bar(burst, out)?;
    write_burst(burst, out)?;
    out.extend_from_slice(b"</td>\n")
}

/// Appends the cell of how far apart crashes must be.
#[tactic(auto, unfolding(crate::specs::Costs::interval_cell))]
fn put_interval(row: &Row, out: &mut Vec<u8>) -> Result<(), AllocError>
    ensures { OnOk result (out.new.items ≡ out.old.items ++ interval_cell row.now) }
{
    out.extend_from_slice(b"<td class=\"n\">")?;
    write_interval(row.own.burst, row.own.steady, out)?;
    out.extend_from_slice(b"</td>\n")
}

/// Appends the cells of how far apart crashes must be, by this clock and by OTP's.
#[tactic(auto, unfolding(crate::specs::Costs::clock_cell))]
pub(crate) fn put_intervals(row: &Row, out: &mut Vec<u8>) -> Result<(), AllocError>
    ensures { OnOk result (out.new.items ≡ out.old.items ++ clock_cell row.now) }
{
    put_interval(row, out)?;
    out.extend_from_slice(b"<td class=\"n\">")?;
    write_interval(row.own.burst, row.own.seconds, out)?;
    out.extend_from_slice(b"</td>\n")
}

/// Appends who gives up after the burst of a child that is gone then, or never ran.
#[tactic(auto, unfolding(otp_costs::specs::Words::gone_text))]
fn put_gone(count: u64, out: &mut Vec<u8>) -> Result<(), AllocError>
    ensures { OnOk result (out.new.items ≡ out.old.items ++ gone_text count (codes "<small>isn't up</small>") (codes "<small>nobody</small>")) }
{
    if count == 0 {
        out.extend_from_slice(b"<small>isn't up</small>")
    } else {
        out.extend_from_slice(b"<small>nobody</small>")
    }
}

/// Appends who gives up after the burst.
#[tactic(auto, unfolding(crate::specs::Costs::gives_up_html))]
pub(crate) fn put_gives_up(path: &[u8], burst: Fate, out: &mut Vec<u8>) -> Result<(), AllocError>
    ensures { OnOk result (out.new.items ≡ out.old.items ++ gives_up_html path.now burst) }
{
    match burst {
        Fate::Survived => out.extend_from_slice(b"<small>nobody</small>"),
        Fate::Ended(_) => put_path(supervisor_path(path), out),
        Fate::Gone(count) => put_gone(count, out),
    }
}

/// Appends the cell of who gives up after the burst.
#[tactic(auto, unfolding(crate::specs::Costs::giver_cell))]
pub(crate) fn put_giver(row: &Row, out: &mut Vec<u8>) -> Result<(), AllocError>
    ensures { OnOk result (out.new.items ≡ out.old.items ++ giver_cell row.now) }
{
    out.extend_from_slice(b"<td>")?;
    put_gives_up(row.path.as_bytes(), row.own.burst, out)?;
    out.extend_from_slice(b"</td>\n")
}

/// Appends the cell of how the root fares.
#[tactic(auto, unfolding(crate::specs::Costs::root_cell))]
pub(crate) fn put_root(row: &Row, out: &mut Vec<u8>) -> Result<(), AllocError>
    ensures { OnOk result (out.new.items ≡ out.old.items ++ root_cell row.now) }
{
    out.extend_from_slice(b"<td>")?;
    write_root(row.root, out)?;
    put_paths(row.ends.as_slice(), out)?;
    out.extend_from_slice(b"</td></tr>\n")
}
