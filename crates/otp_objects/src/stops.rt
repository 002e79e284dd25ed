//! How long the stop of a tree may take, as an object.

ghost use Rattle.std.specs.Prelude.{◌≡◌, ◌≤◌, ◌++◌, IfSome, OnOk};
ghost use Rattle.otp_shutdown.specs.Stops.{later};
ghost use Rattle.otp_spec.specs.declared.limits.TheConstants.{MAX_READING};
ghost use Rattle.otp_objects.specs.Stops.{TellsStops, child_members, next_stop, next_stops, stop_text, stops_object, stops_text, time_members};

use crate::values::{put_bool, put_shutdown};
use otp_file::TreeSpec;
use otp_json::{put_key, put_optional, put_text};
use otp_shutdown::{Stop, ended_after, find_stops};
use std::alloc::{AllocError, Global};
use std::slice;

/// By when a child has ended that is told to stop at this time, where it has a limit.
#[tactic(auto, unfolding(otp_shutdown::specs::Stops::later))]
fn until(from: Option<u64>, stop: &Stop) -> Option<u64>
    requires { IfSome from (λ t. t ≤ MAX_READING) }
    ensures value { result ≡ later from stop.now.shutdown }
    ensures limit { IfSome result (λ t. t ≤ MAX_READING) }
{
    ended_after(from, slice::from_ref(stop))
}

/// Appends which child is stopped, how, and whether it stands for all of its supervisor.
#[tactic(auto, unfolding(crate::specs::Stops::child_members))]
fn write_child(stop: &Stop, out: &mut Vec<u8>) -> Result<(), AllocError>
    ensures { OnOk result (out.new.items ≡ out.old.items ++ child_members stop.now) }
{
    put_text(b"{", b"child", stop.name.as_bytes(), out)?;
    put_shutdown(stop.shutdown, out)?;
    put_bool(b"all_at_once", stop.is_shared, out)
}

/// Appends when it is told to stop at the latest, and when it has ended.
#[tactic(auto, unfolding(crate::specs::Stops::time_members))]
fn write_times(from: Option<u64>, until: Option<u64>, out: &mut Vec<u8>) -> Result<(), AllocError>
    ensures { OnOk result (out.new.items ≡ out.old.items ++ time_members from until) }
{
    put_optional(b", ", b"from", from, out)?;
    put_optional(b", ", b"until", until, out)
}

/// Appends the object of a stop that begins at this time at the latest.
#[tactic(auto, unfolding(crate::specs::Stops::stop_text))]
fn write_stop(from: Option<u64>, stop: &Stop, out: &mut Vec<u8>) -> Result<(), AllocError>
    requires { IfSome from (λ t. t ≤ MAX_READING) }
    ensures { OnOk result (out.new.items ≡ out.old.items ++ stop_text from stop.now) }
{
    write_child(stop, out)?;
    write_times(from, until(from, stop), out)?;
    out.extend_from_slice(b"}")
}

/// Appends the object of a stop behind another.
#[tactic(auto, unfolding(crate::specs::Stops::next_stop))]
fn write_next_stop(from: Option<u64>, stop: &Stop, out: &mut Vec<u8>) -> Result<(), AllocError>
    requires { IfSome from (λ t. t ≤ MAX_READING) }
    ensures { OnOk result (out.new.items ≡ out.old.items ++ next_stop from stop.now) }
{
    out.extend_from_slice(b", ")?;
    write_stop(from, stop, out)
}

/// Appends the objects of stops behind others, of which the first begins at this time at the latest.
fn write_next_stops(from: Option<u64>, stops: &[Stop], out: &mut Vec<u8>) -> Result<(), AllocError>
    requires { IfSome from (λ t. t ≤ MAX_READING) }
    ensures { OnOk result (out.new.items ≡ out.old.items ++ next_stops from stops.now) }
{
    let mut from = from;
    for stop in stops {
        write_next_stop(from, stop, out)?;
        from = until(from, stop);
    }
    Ok(())
}

/// Appends the array of stops.
#[tactic(auto, unfolding(crate::specs::Stops::stops_text))]
fn write_stops(stops: &[Stop], out: &mut Vec<u8>) -> Result<(), AllocError>
    ensures { OnOk result (out.new.items ≡ out.old.items ++ stops_text stops.now) }
{
    match stops {
        [] => out.extend_from_slice(b"[]"),
        [first, others @ ..] => {
            out.extend_from_slice(b"[")?;
            write_stop(Some(0), first, out)?;
            write_next_stops(until(Some(0), first), others, out)?;
            out.extend_from_slice(b"]")
        }
    }
}

/// Appends the object of a file's stops, a line.
#[tactic(auto, unfolding(crate::specs::Stops::stops_object))]
fn write_object(name: &[u8], stops: &[Stop], out: &mut Vec<u8>) -> Result<(), AllocError>
    ensures { OnOk result (out.new.items ≡ out.old.items ++ stops_object name.now stops.now) }
{
    put_text(b"{", b"file", name, out)?;
    put_optional(b", ", b"longest", ended_after(Some(0), stops), out)?;
    put_key(b", ", b"stops", out)?;
    write_stops(stops, out)?;
    out.extend_from_slice(b"}\n")
}

/// Appends how long the stop of a tree takes at the most, as an object with the name of its file. The times are those of
/// [`otp_shutdown::write_longest_stop`], in milliseconds.
///
/// # Errors
///
/// Where memory is refused.
pub fn write_stops_object(
    alloc: Global,
    name: &[u8],
    tree: &TreeSpec,
    out: &mut Vec<u8>,
) -> Result<(), AllocError>
    ensures { OnOk result (TellsStops name.now tree.now out.old.items out.new.items) }
{
    let stops = find_stops(alloc, tree)?;
    let told = write_object(name, stops.as_slice(), out);
    drop(stops);
    told
}
