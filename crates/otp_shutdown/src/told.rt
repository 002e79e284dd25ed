//! The longest stop of a tree as it is told.

ghost use Rattle.std.specs.Prelude.{◌≡◌, ◌≤◌, ◌++◌, IfSome, OnOk, Some, option_map, unwrap_or};
ghost use Rattle.otp_spec.specs.declared.limits.TheConstants.{MAX_READING};
ghost use Rattle.otp_shutdown.specs.Stops.{count_endless, ended_after, first_endless, is_endless, is_endless_by, later, sum_from};
ghost use Rattle.otp_shutdown.specs.Told.{TellsStops, all_text, endless_text, for_ever_text, head_text, is_none, line_text, lines_text, more_text, name_text, no_limit_text, others_text, shutdown_text, table_if, time_text, titles, total_text, until_text};

use crate::column::{write_clipped, write_left, write_right};
use crate::stop::Stop;
use crate::stops::find_stops;
use otp_file::TreeSpec;
use otp_spec::{MAX_READING, Shutdown};
use otp_text::timeline::write_seconds;
use otp_text::write_number;
use std::alloc::{AllocError, Global};

/// By when a child has ended that is told to stop at this time, where it has a limit.
#[tactic(auto, unfolding(crate::specs::Stops::later))]
fn later(time: Option<u64>, shutdown: Shutdown) -> Option<u64>
    requires { IfSome time (λ t. t ≤ MAX_READING) }
    ensures value { result ≡ later time shutdown }
    ensures limit { IfSome result (λ t. t ≤ MAX_READING) }
{
    let time = time?;
    match shutdown {
        Shutdown::BrutalKill => Some(time.min(MAX_READING)),
        Shutdown::Milliseconds(count) => Some((time + u64::from(count)).min(MAX_READING)),
        Shutdown::Infinity => None,
    }
}

/// By when all of these have ended that are told to stop one after the other, the first at this time; none where one of them
/// has no limit.
pub fn ended_after(time: Option<u64>, stops: &[Stop]) -> Option<u64>
    requires { IfSome time (λ t. t ≤ MAX_READING) }
    ensures { result ≡ ended_after time stops.now }
{
    match stops {
        [] => time,
        [stop, others @ ..] => ended_after(later(time, stop.shutdown), others),
    }
}

/// By when a child has ended that is told to stop at this time; that time where it has no limit.
fn limited(time: u64, shutdown: Shutdown) -> u64
    requires { time ≤ MAX_READING }
    ensures value { result ≡ unwrap_or (later (Some time) shutdown) time }
    ensures limit { result ≤ MAX_READING }
{
    later(Some(time), shutdown).unwrap_or(time)
}

/// How long those of these take that have a limit.
fn sum_from(time: u64, stops: &[Stop]) -> u64
    requires { time ≤ MAX_READING }
    ensures { result ≡ sum_from time stops.now }
{
    match stops {
        [] => time,
        [stop, others @ ..] => sum_from(limited(time, stop.shutdown), others),
    }
}

/// Whether a child has no limit.
#[tactic(auto, unfolding(crate::specs::Stops::is_endless_by))]
fn is_endless_by(shutdown: Shutdown) -> bool
    ensures { result ≡ is_endless_by shutdown }
{
    match shutdown {
        Shutdown::Infinity => true,
        Shutdown::BrutalKill | Shutdown::Milliseconds(_) => false,
    }
}

fn is_endless(stop: &Stop) -> bool
    ensures { result ≡ is_endless stop.now }
{
    is_endless_by(stop.shutdown)
}

/// The first one that has no limit.
fn first_endless(stops: &[Stop]) -> Option<&Stop>
    ensures { option_map (λ stop. stop.now) result ≡ first_endless stops.now }
{
    let [stop, others @ ..] = stops else {
        return None;
    };
    if is_endless(stop) {
        Some(stop)
    } else {
        first_endless(others)
    }
}

/// How many have no limit.
fn count_endless(stops: &[Stop]) -> usize
    ensures { result ≡ count_endless stops.now }
{
    stops.iter().filter(|stop| is_endless(stop)).count()
}

/// Appends a time in seconds, or a word where there is none.
#[tactic(auto, unfolding(crate::specs::Told::time_text))]
fn write_time(word: &[u8], time: Option<u64>, out: &mut Vec<u8>) -> Result<(), AllocError>
    ensures { OnOk result (out.new.items ≡ out.old.items ++ time_text word.now time) }
{
    match time {
        None => out.extend_from_slice(word),
        Some(time) => {
            write_seconds(time, out)?;
            out.extend_from_slice(b" s")
        }
    }
}

/// Appends how a child is stopped.
#[tactic(auto, unfolding(crate::specs::Told::shutdown_text))]
fn write_shutdown(shutdown: Shutdown, out: &mut Vec<u8>) -> Result<(), AllocError>
    ensures { OnOk result (out.new.items ≡ out.old.items ++ shutdown_text shutdown) }
{
    match shutdown {
        Shutdown::BrutalKill => out.extend_from_slice(b"brutal_kill"),
        Shutdown::Milliseconds(count) => {
            write_number(u64::from(count), out)?;
            out.extend_from_slice(b" ms")
        }
        Shutdown::Infinity => out.extend_from_slice(b"infinity"),
    }
}

/// Appends until when a stop may take that begins at this time at the latest.
#[tactic(auto, unfolding(crate::specs::Told::until_text))]
fn write_until(from: Option<u64>, shutdown: Shutdown, out: &mut Vec<u8>) -> Result<(), AllocError>
    requires { IfSome from (λ t. t ≤ MAX_READING) }
    ensures { OnOk result (out.new.items ≡ out.old.items ++ until_text from shutdown) }
{
    match shutdown {
        Shutdown::Infinity => out.extend_from_slice(b"no limit"),
        _ => write_time(b"-", later(from, shutdown), out),
    }
}

/// Appends the name of a child, or of all dynamic ones.
#[tactic(auto, unfolding(crate::specs::Told::name_text))]
fn write_name(is_shared: bool, name: &[u8], out: &mut Vec<u8>) -> Result<(), AllocError>
    ensures { OnOk result (out.new.items ≡ out.old.items ++ name_text is_shared name.now) }
{
    if is_shared {
        write_clipped(22, name, out)?;
        out.extend_from_slice(b", all at once")
    } else {
        write_clipped(35, name, out)
    }
}

/// Appends the line of a stop that begins at this time at the latest. The word is a place for a text.
#[tactic(auto, unfolding(crate::specs::Told::line_text))]
fn write_line(
    from: Option<u64>,
    stop: &Stop,
    word: &mut Vec<u8>,
    out: &mut Vec<u8>,
) -> Result<(), AllocError>
    requires { IfSome from (λ t. t ≤ MAX_READING) }
    ensures { OnOk result (out.new.items ≡ out.old.items ++ line_text from stop.now) }
{
    word.clear();
    write_time(b"-", from, word)?;
    write_right(14, word.as_slice(), out)?;
    word.clear();
    write_until(from, stop.shutdown, word)?;
    write_right(14, word.as_slice(), out)?;
    out.extend_from_slice(b"  ")?;
    word.clear();
    write_shutdown(stop.shutdown, word)?;
    write_left(13, word.as_slice(), out)?;
    out.extend_from_slice(b"  ")?;
    write_name(stop.is_shared, stop.name.as_bytes(), out)?;
    out.extend_from_slice(b"\n")
}

/// Appends the lines of stops, of which the first begins at this time at the latest.
fn write_lines(
    from: Option<u64>,
    stops: &[Stop],
    word: &mut Vec<u8>,
    out: &mut Vec<u8>,
) -> Result<(), AllocError>
    requires { IfSome from (λ t. t ≤ MAX_READING) }
    ensures { OnOk result (out.new.items ≡ out.old.items ++ lines_text from stops.now) }
{
    let mut from = from;
    for stop in stops {
        write_line(from, stop, word, out)?;
        from = later(from, stop.shutdown);
    }
    Ok(())
}

/// Appends how many more there are than one.
#[tactic(auto, unfolding(crate::specs::Told::more_text))]
fn write_more(count: usize, out: &mut Vec<u8>) -> Result<(), AllocError>
    ensures { OnOk result (out.new.items ≡ out.old.items ++ more_text count) }
{
    if count <= 1 {
        return Ok(());
    }
    out.extend_from_slice(b" and ")?;
    write_number((count - 1) as u64, out)?;
    out.extend_from_slice(b" more")
}

/// Appends that a child has no limit, and how many more have none.
#[tactic(auto, unfolding(crate::specs::Told::no_limit_text))]
fn write_no_limit(name: &[u8], count: usize, out: &mut Vec<u8>) -> Result<(), AllocError>
    ensures { OnOk result (out.new.items ≡ out.old.items ++ no_limit_text name.now count) }
{
    out.extend_from_slice(b"  no limit  ")?;
    write_clipped(50, name, out)?;
    write_more(count, out)?;
    out.extend_from_slice(b"\n")
}

/// Appends how long the others take.
#[tactic(auto, unfolding(crate::specs::Told::others_text))]
fn write_others(total: u64, out: &mut Vec<u8>) -> Result<(), AllocError>
    ensures { OnOk result (out.new.items ≡ out.old.items ++ others_text total) }
{
    out.extend_from_slice(b"  others    ")?;
    write_seconds(total, out)?;
    out.extend_from_slice(b" s\n")
}

/// Appends that a stop has no limit.
#[tactic(auto, unfolding(crate::specs::Told::for_ever_text))]
fn write_for_ever(out: &mut Vec<u8>) -> Result<(), AllocError>
    ensures { OnOk result (out.new.items ≡ out.old.items ++ for_ever_text) }
{
    out.extend_from_slice(b"the longest stop may take for ever\n")
}

/// Appends that a child has no limit, how many more have none, and how long the others take.
#[tactic(auto, unfolding(crate::specs::Told::endless_text))]
fn write_endless(name: &[u8], count: usize, total: u64, out: &mut Vec<u8>) -> Result<(), AllocError>
    ensures { OnOk result (out.new.items ≡ out.old.items ++ endless_text name.now count total) }
{
    write_for_ever(out)?;
    write_no_limit(name, count, out)?;
    write_others(total, out)
}

/// Appends how long a stop takes in all that has a limit.
#[tactic(auto, unfolding(crate::specs::Told::total_text))]
fn write_total(total: u64, out: &mut Vec<u8>) -> Result<(), AllocError>
    ensures { OnOk result (out.new.items ≡ out.old.items ++ total_text total) }
{
    out.extend_from_slice(b"the longest stop takes ")?;
    write_seconds(total, out)?;
    out.extend_from_slice(b" s\n")
}

/// Appends how long the stop takes in all; where a child has no limit, which one, and how long the others take.
#[tactic(auto, unfolding(crate::specs::Told::head_text))]
fn write_head(
    endless: Option<&Stop>,
    count: usize,
    total: u64,
    out: &mut Vec<u8>,
) -> Result<(), AllocError>
    ensures { OnOk result (out.new.items ≡ out.old.items ++ head_text (option_map (λ stop. stop.now) endless.entry) count total) }
{
    match endless {
        None => write_total(total, out),
        Some(stop) => write_endless(stop.name.as_bytes(), count, total, out),
    }
}

/// Appends the titles of the columns.
#[tactic(auto, unfolding(crate::specs::Told::titles))]
fn write_titles(out: &mut Vec<u8>) -> Result<(), AllocError>
    ensures { OnOk result (out.new.items ≡ out.old.items ++ titles) }
{
    out.extend_from_slice(
        b"          from         until  shutdown       child, in the order of the stops\n",
    )
}

/// Whether there is no stop.
fn is_none(stops: &[Stop]) -> bool
    ensures { result ≡ is_none stops.now }
{
    match stops {
        [] => true,
        [_, ..] => false,
    }
}

/// Appends a line for each stop, if there is one.
#[tactic(auto, unfolding(crate::specs::Told::table_if))]
fn write_table(
    alloc: Global,
    is_none: bool,
    stops: &[Stop],
    out: &mut Vec<u8>,
) -> Result<(), AllocError>
    ensures { OnOk result (out.new.items ≡ out.old.items ++ table_if is_none stops.now) }
{
    if is_none {
        return Ok(());
    }
    let mut word = Vec::new(alloc);
    write_titles(out)?;
    write_lines(Some(0), stops, &mut word, out)
}

/// Appends how long stops take, in all and each.
#[tactic(auto, unfolding(crate::specs::Told::all_text))]
fn write_stops(alloc: Global, stops: &[Stop], out: &mut Vec<u8>) -> Result<(), AllocError>
    ensures { OnOk result (out.new.items ≡ out.old.items ++ all_text stops.now) }
{
    write_head(
        first_endless(stops),
        count_endless(stops),
        sum_from(0, stops),
        out,
    )?;
    write_table(alloc, is_none(stops), stops, out)
}

/// Appends how long the stop of a tree takes at the most, and who takes how much of it. Each child is told to stop once all that
/// were started later have ended, and has ended by the deadline that its `shutdown` sets (Supervisor Behaviour, "Child
/// Specification"). So the times of siblings add up. A child whose tree stands in the file takes what its own children do; a
/// temporary one is taken to run; those of simple_one_for_one are told at once, and take the time of one.
///
/// # Errors
///
/// Where memory is refused.
pub fn write_longest_stop(
    alloc: Global,
    tree: &TreeSpec,
    out: &mut Vec<u8>,
) -> Result<(), AllocError>
    ensures { OnOk result (TellsStops tree.now out.old.items out.new.items) }
{
    let stops = find_stops(alloc, tree)?;
    let told = write_stops(alloc, stops.as_slice(), out);
    drop(stops);
    told
}
