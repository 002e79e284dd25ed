//! How full the periods of supervisors were in a run, as a picture with time to scale.

ghost use Rattle.std.specs.Prelude.{◌≡◌, ◌++◌, OnOk, slice_get};
ghost use Rattle.std.specs.List.{list_any};
ghost use Rattle.otp_try_pages.specs.Windows.{fall_html, fall_if, fallen_then, falls_from, gave_up_words, has_restarted, is_fall, share_of, step_class, step_height, step_html, step_last, step_place, step_to, step_words, steps_from, until_of, used_in, used_of, window_html, window_if, window_opening, window_title, windows_from, windows_html, windows_legend, within_words};

use crate::names::verb_in;
use crate::scale::{put_percent, slot_of};
use crate::tracks::{put_axis, put_grid, time_in};
use crate::words::{first_word, is_text, order_in, own_part, path_part, rest_of};
use otp_costs::limits::supervisor_path;
use otp_pages::html::{put_element, put_number_element};
use otp_spec::SupFlags;
use otp_text::timeline::{Standing, write_seconds};
use otp_text::write_number;
use otp_trial::{Strain, TriedSupervisor};
use otp_try::account::Played;
use std::alloc::AllocError;

/// How many restarts lie in the period of a supervisor; one that doesn't run has none.
#[tactic(auto, unfolding(crate::specs::Windows::used_of))]
fn used_of(standing: &Standing) -> u64
    ensures { result ≡ used_of standing.now }
{
    if standing.is_over {
        0
    } else {
        standing.restarts
    }
}

/// How many restarts lie in the period of the supervisor at this place.
#[tactic(auto, unfolding(crate::specs::Windows::used_in))]
fn used_at(standings: &[Standing], place: usize) -> u64
    ensures { result ≡ used_in (slice_get standings.now place) }
{
    if place < standings.len() {
        used_of(&standings[place])
    } else {
        0
    }
}

/// The share of the intensity that so many restarts are, in hundredths.
#[tactic(auto, unfolding(crate::specs::Windows::share_of))]
fn share_of(used: u64, intensity: u64) -> u64
    ensures { result ≡ share_of used intensity }
{
    used.min(intensity).saturating_mul(100) / intensity.max(1)
}

/// Until when so many restarts may lie in the period: to the next line, and at most for a period.
#[tactic(auto, unfolding(crate::specs::Windows::until_of))]
fn until_of(flags: &SupFlags, from: u64, next: u64) -> u64
    ensures { result ≡ until_of flags.now from next }
{
    next.min(from.saturating_add(flags.period.saturating_mul(1000)))
}

/// How a step begins: one of a full period is marked.
#[tactic(auto, unfolding(crate::specs::Windows::step_class))]
fn step_class(used: u64, intensity: u64) -> &'static [u8]
    ensures { result.now ≡ step_class used intensity }
{
    if used < intensity {
        b"<rect class=\"used\" x=\""
    } else {
        b"<rect class=\"full\" x=\""
    }
}

/// Appends where a step stands.
#[tactic(auto, unfolding(crate::specs::Windows::step_place))]
fn put_step_place(from: u64, width: u64, out: &mut Vec<u8>) -> Result<(), AllocError>
    ensures { OnOk result (out.new.items ≡ out.old.items ++ step_place from width) }
{
    put_percent(from, out)?;
    out.extend_from_slice(b"%\" width=\"")?;
    put_percent(width, out)
}

/// Appends how high a step is.
#[tactic(auto, unfolding(crate::specs::Windows::step_height))]
fn put_step_height(share: u64, out: &mut Vec<u8>) -> Result<(), AllocError>
    ensures { OnOk result (out.new.items ≡ out.old.items ++ step_height share) }
{
    put_number_element(b"%\" y=\"", 100_u64.saturating_sub(share), b"", out)?;
    put_number_element(b"%\" height=\"", share, b"%\"><title>", out)
}

/// Appends what a step says.
#[tactic(auto, unfolding(crate::specs::Windows::step_words))]
fn put_step_words(used: u64, intensity: u64, time: u64, out: &mut Vec<u8>) -> Result<(), AllocError>
    ensures { OnOk result (out.new.items ≡ out.old.items ++ step_words used intensity time) }
{
    write_number(used, out)?;
    out.extend_from_slice(b"/")?;
    write_number(intensity, out)?;
    out.extend_from_slice(b" at ")?;
    write_seconds(time, out)?;
    out.extend_from_slice(b" s</title></rect>\n")
}

/// Appends a step of so many restarts from this time on, at this place and of this width.
#[tactic(auto, unfolding(crate::specs::Windows::step_html))]
fn put_step(
    flags: &SupFlags,
    used: u64,
    time: u64,
    from: u64,
    width: u64,
    out: &mut Vec<u8>,
) -> Result<(), AllocError>
    ensures { OnOk result (out.new.items ≡ out.old.items ++ step_html flags.now used time from width) }
{
    out.extend_from_slice(step_class(used, flags.intensity))?;
    put_step_place(from, width, out)?;
    put_step_height(share_of(used, flags.intensity), out)?;
    put_step_words(used, flags.intensity, time, out)
}

/// Appends a step to the next line, if it is long enough to be seen.
#[tactic(auto, unfolding(crate::specs::Windows::step_to))]
fn put_step_to(
    last: u64,
    flags: &SupFlags,
    used: u64,
    time: u64,
    next: u64,
    out: &mut Vec<u8>,
) -> Result<(), AllocError>
    ensures { OnOk result (out.new.items ≡ out.old.items ++ step_to last flags.now used time next) }
{
    let from = slot_of(last, time);
    let to = slot_of(last, until_of(flags, time, next));
    if 0 < used && from < to {
        put_step(flags, used, time, from, to.saturating_sub(from), out)
    } else {
        Ok(())
    }
}

/// Appends the step of the last line.
#[tactic(auto, unfolding(crate::specs::Windows::step_last))]
fn put_step_last(
    last: u64,
    flags: &SupFlags,
    used: u64,
    time: u64,
    out: &mut Vec<u8>,
) -> Result<(), AllocError>
    ensures { OnOk result (out.new.items ≡ out.old.items ++ step_last last flags.now used time) }
{
    if 0 < used {
        put_step(flags, used, time, slot_of(last, time), 4, out)
    } else {
        Ok(())
    }
}

/// Appends the steps of the supervisor at this place, of whose period nothing was used at first.
fn put_steps(
    last: u64,
    flags: &SupFlags,
    place: usize,
    lines: &[Played],
    out: &mut Vec<u8>,
) -> Result<(), AllocError>
    ensures { OnOk result (out.new.items ≡ out.old.items ++ steps_from last flags.now place 0 0 lines.now) }
{
    let mut used: u64 = 0;
    let mut time: u64 = 0;
    for one in lines {
        put_step_to(last, flags, used, time, one.moment.time, out)?;
        used = used_at(one.moment.standings.as_slice(), place);
        time = one.moment.time;
    }
    put_step_last(last, flags, used, time, out)
}

/// Whether a line tells that the supervisor of this path gave up.
#[tactic(auto, unfolding(crate::specs::Windows::is_fall))]
fn is_fall(path: &[u8], line: &[u8]) -> bool
    ensures { result ≡ is_fall path.now line.now }
{
    is_text(verb_in(line), b"end")
        && is_text(path_part(order_in(line)), path)
        && is_text(
            first_word(rest_of(rest_of(own_part(order_in(line))))),
            b"more",
        )
}

/// Appends the mark of a supervisor that gave up.
#[tactic(auto, unfolding(crate::specs::Windows::fall_html))]
fn put_fall(slot: u64, line: &[u8], out: &mut Vec<u8>) -> Result<(), AllocError>
    ensures { OnOk result (out.new.items ≡ out.old.items ++ fall_html slot line.now) }
{
    out.extend_from_slice(b"<rect class=\"fall\" x=\"")?;
    put_percent(slot, out)?;
    put_element(
        b"%\" width=\"3\" height=\"100%\"><title>",
        line,
        b"</title></rect>\n",
        out,
    )
}

/// The place behind the last at which the supervisor of this path gave up.
#[tactic(auto, unfolding(crate::specs::Windows::fallen_then))]
fn fallen_then(last: u64, path: &[u8], fallen: u64, line: &[u8]) -> u64
    ensures { result ≡ fallen_then last path.now fallen line.now }
{
    if is_fall(path, line) {
        slot_of(last, time_in(line)).saturating_add(1)
    } else {
        fallen
    }
}

/// Appends the mark of a supervisor that gave up, if the line tells it and none stands there.
#[tactic(auto, unfolding(crate::specs::Windows::fall_if))]
fn put_fall_if(
    last: u64,
    path: &[u8],
    fallen: u64,
    line: &[u8],
    out: &mut Vec<u8>,
) -> Result<(), AllocError>
    ensures { OnOk result (out.new.items ≡ out.old.items ++ fall_if last path.now fallen line.now) }
{
    let slot = slot_of(last, time_in(line));
    if is_fall(path, line) && slot.saturating_add(1) != fallen {
        put_fall(slot, line, out)
    } else {
        Ok(())
    }
}

/// Appends where the supervisor of this path gave up, by these lines, the first of which has begun so.
fn put_falls(
    last: u64,
    path: &[u8],
    told: &[u8],
    line: &mut Vec<u8>,
    out: &mut Vec<u8>,
) -> Result<(), AllocError>
    ensures { OnOk result (out.new.items ≡ out.old.items ++ falls_from last path.now 0 line.old.items told.now) }
{
    let mut fallen: u64 = 0;
    for byte in told {
        if *byte == b'\n' {
            put_fall_if(last, path, fallen, line.as_slice(), out)?;
            fallen = fallen_then(last, path, fallen, line.as_slice());
            line.clear();
        } else {
            line.push(*byte).map_err(|_| AllocError)?;
        }
    }
    Ok(())
}

/// Appends how often a supervisor gave up, if it did.
#[tactic(auto, unfolding(crate::specs::Windows::gave_up_words))]
fn put_gave_up(times: u64, out: &mut Vec<u8>) -> Result<(), AllocError>
    ensures { OnOk result (out.new.items ≡ out.old.items ++ gave_up_words times) }
{
    if times == 0 {
        Ok(())
    } else {
        out.extend_from_slice(b", gave up: ")?;
        write_number(times, out)
    }
}

/// Appends how full a supervisor's period was at most.
#[tactic(auto, unfolding(crate::specs::Windows::within_words))]
fn put_within(flags: &SupFlags, strain: Strain, out: &mut Vec<u8>) -> Result<(), AllocError>
    ensures { OnOk result (out.new.items ≡ out.old.items ++ within_words flags.now strain) }
{
    put_number_element(b"at most ", strain.most, b"/", out)?;
    put_number_element(b"", flags.intensity, b" restarts within ", out)?;
    put_number_element(b"", flags.period, b" s", out)
}

/// Appends whose picture it is, and how it came through.
#[tactic(auto, unfolding(crate::specs::Windows::window_title))]
fn put_window_title(
    path: &[u8],
    flags: &SupFlags,
    strain: Strain,
    out: &mut Vec<u8>,
) -> Result<(), AllocError>
    ensures { OnOk result (out.new.items ≡ out.old.items ++ window_title path.now flags.now strain) }
{
    put_element(b"<p><code>", supervisor_path(path), b"</code> <small>", out)?;
    put_within(flags, strain, out)?;
    put_gave_up(strain.times, out)?;
    out.extend_from_slice(b"</small></p>\n")
}

/// Appends the beginning of a supervisor's picture.
#[tactic(auto, unfolding(crate::specs::Windows::window_opening))]
fn put_window_opening(path: &[u8], out: &mut Vec<u8>) -> Result<(), AllocError>
    ensures { OnOk result (out.new.items ≡ out.old.items ++ window_opening path.now) }
{
    put_element(
        b"<svg class=\"window\" role=\"img\" aria-label=\"restarts in the period of ",
        supervisor_path(path),
        b"\">\n",
        out,
    )
}

/// Appends how full the period of the supervisor at this place was. The word is a place for a text.
#[tactic(auto, unfolding(crate::specs::Windows::window_html))]
fn put_window(
    last: u64,
    seat: &TriedSupervisor,
    place: usize,
    lines: &[Played],
    told: &[u8],
    word: &mut Vec<u8>,
    out: &mut Vec<u8>,
) -> Result<(), AllocError>
    ensures { OnOk result (out.new.items ≡ out.old.items ++ window_html last seat.now place lines.now told.now) }
{
    word.clear();
    put_window_title(seat.path(), &seat.flags(), seat.strain(), out)?;
    put_window_opening(seat.path(), out)?;
    put_grid(out)?;
    put_steps(last, &seat.flags(), place, lines, out)?;
    put_falls(last, seat.path(), told, word, out)?;
    out.extend_from_slice(b"</svg>\n")
}

/// Appends how full the period of the supervisor at this place was, if it restarted some.
#[tactic(auto, unfolding(crate::specs::Windows::window_if))]
fn put_window_if(
    last: u64,
    seat: &TriedSupervisor,
    place: usize,
    lines: &[Played],
    told: &[u8],
    word: &mut Vec<u8>,
    out: &mut Vec<u8>,
) -> Result<(), AllocError>
    ensures { OnOk result (out.new.items ≡ out.old.items ++ window_if last seat.now place lines.now told.now) }
{
    if seat.strain().most == 0 {
        Ok(())
    } else {
        put_window(last, seat, place, lines, told, word, out)
    }
}

/// Appends how full the periods of these supervisors were.
fn put_all(
    last: u64,
    seats: &[TriedSupervisor],
    lines: &[Played],
    told: &[u8],
    word: &mut Vec<u8>,
    out: &mut Vec<u8>,
) -> Result<(), AllocError>
    ensures { OnOk result (out.new.items ≡ out.old.items ++ windows_from last 0 seats.now lines.now told.now) }
{
    let mut place: usize = 0;
    for seat in seats {
        put_window_if(last, seat, place, lines, told, word, out)?;
        place = place.saturating_add(1);
    }
    Ok(())
}

/// Appends what the picture's marks mean.
#[tactic(auto, unfolding(crate::specs::Windows::windows_legend))]
fn put_windows_legend(out: &mut Vec<u8>) -> Result<(), AllocError>
    ensures { OnOk result (out.new.items ≡ out.old.items ++ windows_legend) }
{
    out.extend_from_slice(
        b"<p class=\"legend\">How full each supervisor's period was: a step from each line of the script to the next, at most as long as the period, as high as the share of its intensity that was used. <b class=\"full\">|</b> Full: the next restart is one too many. <b class=\"crash\">|</b> It gave up.</p>\n",
    )
}

/// Whether a supervisor restarted some.
#[tactic(auto, unfolding(crate::specs::Windows::has_restarted))]
fn has_restarted(seat: &TriedSupervisor) -> bool
    ensures { result ≡ has_restarted seat.now }
{
    seat.strain().most != 0
}

/// Whether one of these supervisors restarted some.
fn have_restarted(seats: &[TriedSupervisor]) -> bool
    ensures { result ≡ list_any has_restarted seats.now }
{
    seats.iter().any(|seat| has_restarted(seat))
}

/// Appends how full the periods of supervisors were that restarted some. The word is a place for a text.
#[tactic(auto, unfolding(crate::specs::Windows::windows_html))]
pub(crate) fn put_windows(
    last: u64,
    seats: &[TriedSupervisor],
    lines: &[Played],
    told: &[u8],
    word: &mut Vec<u8>,
    out: &mut Vec<u8>,
) -> Result<(), AllocError>
    ensures { OnOk result (out.new.items ≡ out.old.items ++ windows_html last seats.now lines.now told.now) }
{
    if have_restarted(seats) {
        put_windows_legend(out)?;
        put_axis(last, out)?;
        put_all(last, seats, lines, told, word, out)
    } else {
        Ok(())
    }
}
