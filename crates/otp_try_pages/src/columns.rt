//! The columns of the page of a run: a supervisor each.

ghost use Rattle.std.specs.Prelude.{◌≡◌, ◌++◌, OnOk};
ghost use Rattle.std.specs.List.{flat_map};
ghost use Rattle.otp_try_pages.specs.Timeline.{give_ups_html, most_html, sum_cell, sums_opening, sums_row, title_cell, title_words, titles_html, titles_opening};

use otp_costs::limits::supervisor_path;
use otp_pages::html::put_element;
use otp_pages::put_limit;
use otp_spec::SupFlags;
use otp_text::write_number;
use otp_trial::{Strain, TriedSupervisor};
use std::alloc::AllocError;

/// Appends how a supervisor restarts its children, with which the title of its column ends.
#[tactic(auto, unfolding(crate::specs::Timeline::title_words))]
fn put_title_words(flags: &SupFlags, out: &mut Vec<u8>) -> Result<(), AllocError>
    ensures { OnOk result (out.new.items ≡ out.old.items ++ title_words flags.now) }
{
    out.extend_from_slice(flags.strategy.word().as_bytes())?;
    out.extend_from_slice(b", ")?;
    put_limit(flags, out)?;
    out.extend_from_slice(b"</small></th>\n")
}

/// Appends the title of a supervisor's column: its path, and how it restarts its children.
#[tactic(auto, unfolding(crate::specs::Timeline::title_cell))]
fn put_title(seat: &TriedSupervisor, out: &mut Vec<u8>) -> Result<(), AllocError>
    ensures { OnOk result (out.new.items ≡ out.old.items ++ title_cell seat.now) }
{
    put_element(
        b"<th scope=\"col\"><code>",
        supervisor_path(seat.path()),
        b"</code><small>",
        out,
    )?;
    put_title_words(&seat.flags(), out)
}

/// Appends the titles of the supervisors' columns.
fn put_seat_titles(seats: &[TriedSupervisor], out: &mut Vec<u8>) -> Result<(), AllocError>
    ensures { OnOk result (out.new.items ≡ out.old.items ++ flat_map title_cell seats.now) }
{
    for seat in seats {
        put_title(seat, out)?;
    }
    Ok(())
}

/// Appends the beginning of the titles.
#[tactic(auto, unfolding(crate::specs::Timeline::titles_opening))]
fn put_titles_opening(out: &mut Vec<u8>) -> Result<(), AllocError>
    ensures { OnOk result (out.new.items ≡ out.old.items ++ titles_opening) }
{
    out.extend_from_slice(
        b"<table>\n<thead><tr><th scope=\"col\">seconds</th><th scope=\"col\">line of the script</th>\n",
    )
}

/// Appends the titles of all columns.
#[tactic(auto, unfolding(crate::specs::Timeline::titles_html))]
pub(crate) fn put_titles(seats: &[TriedSupervisor], out: &mut Vec<u8>) -> Result<(), AllocError>
    ensures { OnOk result (out.new.items ≡ out.old.items ++ titles_html seats.now) }
{
    put_titles_opening(out)?;
    put_seat_titles(seats, out)?;
    out.extend_from_slice(b"</tr></thead>\n<tbody>\n")
}

/// Appends how often a supervisor gave up, if it did.
#[tactic(auto, unfolding(crate::specs::Timeline::give_ups_html))]
fn put_give_ups(strain: Strain, out: &mut Vec<u8>) -> Result<(), AllocError>
    ensures { OnOk result (out.new.items ≡ out.old.items ++ give_ups_html strain) }
{
    if strain.times == 0 {
        return Ok(());
    }
    out.extend_from_slice(b"<span class=\"end\">gave up: ")?;
    write_number(strain.times, out)?;
    out.extend_from_slice(b"</span>")
}

/// Appends how many restarts lay in its period at once, of how many.
#[tactic(auto, unfolding(crate::specs::Timeline::most_html))]
fn put_most(intensity: u64, strain: Strain, out: &mut Vec<u8>) -> Result<(), AllocError>
    ensures { OnOk result (out.new.items ≡ out.old.items ++ most_html intensity strain) }
{
    out.extend_from_slice(b"<td>at most ")?;
    write_number(strain.most, out)?;
    out.extend_from_slice(b"/")?;
    write_number(intensity, out)
}

/// Appends how a supervisor came through the run.
#[tactic(auto, unfolding(crate::specs::Timeline::sum_cell))]
fn put_sum(seat: &TriedSupervisor, out: &mut Vec<u8>) -> Result<(), AllocError>
    ensures { OnOk result (out.new.items ≡ out.old.items ++ sum_cell seat.now) }
{
    put_most(seat.flags().intensity, seat.strain(), out)?;
    out.extend_from_slice(b" restarts")?;
    put_give_ups(seat.strain(), out)?;
    out.extend_from_slice(b"</td>\n")
}

/// Appends how supervisors came through the run.
fn put_seat_sums(seats: &[TriedSupervisor], out: &mut Vec<u8>) -> Result<(), AllocError>
    ensures { OnOk result (out.new.items ≡ out.old.items ++ flat_map sum_cell seats.now) }
{
    for seat in seats {
        put_sum(seat, out)?;
    }
    Ok(())
}

/// Appends the beginning of the last row.
#[tactic(auto, unfolding(crate::specs::Timeline::sums_opening))]
fn put_sums_opening(out: &mut Vec<u8>) -> Result<(), AllocError>
    ensures { OnOk result (out.new.items ≡ out.old.items ++ sums_opening) }
{
    out.extend_from_slice(
        b"</tbody>\n<tfoot><tr><th scope=\"row\" colspan=\"2\">in the whole run</th>\n",
    )
}

/// Appends the last row: how supervisors came through the run.
#[tactic(auto, unfolding(crate::specs::Timeline::sums_row))]
pub(crate) fn put_sums(seats: &[TriedSupervisor], out: &mut Vec<u8>) -> Result<(), AllocError>
    ensures { OnOk result (out.new.items ≡ out.old.items ++ sums_row seats.now) }
{
    put_sums_opening(out)?;
    put_seat_sums(seats, out)?;
    out.extend_from_slice(b"</tr></tfoot>\n</table>\n</details>\n")
}
