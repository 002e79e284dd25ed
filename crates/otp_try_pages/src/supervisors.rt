//! How supervisors came through a run, as objects.

ghost use Rattle.std.specs.Prelude.{◌≡◌, ◌++◌, OnOk};
ghost use Rattle.otp_try_pages.specs.Objects.{awaits_of, bool_member, fate_if, fate_members, fate_since, fate_word, limit_members, seconds_member, supervisor_object, supervisors_text, text_if, time_after_if, verdict_members};

use otp_costs::limits::supervisor_path;
use otp_json::{put_key, put_number, put_text};
use otp_spec::SupFlags;
use otp_text::timeline::write_seconds;
use otp_trial::{Strain, TriedSupervisor};
use otp_try::remarks::{Fate, fate_of, write_awaits};
use std::alloc::AllocError;

/// Appends a member that is `true` or `false`.
#[tactic(auto, unfolding(crate::specs::Objects::bool_member))]
pub(crate) fn put_bool(key: &[u8], value: bool, out: &mut Vec<u8>) -> Result<(), AllocError>
    ensures { OnOk result (out.new.items ≡ out.old.items ++ bool_member key.now value) }
{
    put_key(b", ", key, out)?;
    if value {
        out.extend_from_slice(b"true")
    } else {
        out.extend_from_slice(b"false")
    }
}

/// Appends a member that is a time in seconds, or `null` where there is none.
#[tactic(auto, unfolding(crate::specs::Objects::seconds_member))]
fn put_seconds(key: &[u8], time: Option<u64>, out: &mut Vec<u8>) -> Result<(), AllocError>
    ensures { OnOk result (out.new.items ≡ out.old.items ++ seconds_member key.now time) }
{
    put_key(b", ", key, out)?;
    match time {
        None => out.extend_from_slice(b"null"),
        Some(time) => write_seconds(time, out),
    }
}

/// When a supervisor last gave up, if it did.
#[tactic(auto, unfolding(crate::specs::Objects::time_after_if))]
fn last_of(strain: Strain) -> Option<u64>
    ensures { result ≡ time_after_if strain }
{
    if strain.times == 0 {
        None
    } else {
        Some(strain.last)
    }
}

/// Appends how often a supervisor gave up, when last, and when first it may have by a clock of whole seconds, where this one
/// lets it run.
#[tactic(auto, unfolding(crate::specs::Objects::fate_members))]
fn put_fate(strain: Strain, out: &mut Vec<u8>) -> Result<(), AllocError>
    ensures { OnOk result (out.new.items ≡ out.old.items ++ fate_members strain) }
{
    put_number(b", ", b"gave_up", strain.times, out)?;
    put_seconds(b"last", last_of(strain), out)?;
    put_seconds(b"otp_gives_up", strain.apart, out)
}

/// Appends how many restarts lay in the period at once, and how many there may be.
#[tactic(auto, unfolding(crate::specs::Objects::limit_members))]
fn put_limits(flags: &SupFlags, strain: Strain, out: &mut Vec<u8>) -> Result<(), AllocError>
    ensures { OnOk result (out.new.items ≡ out.old.items ++ limit_members flags.now strain) }
{
    put_number(b", ", b"most", strain.most, out)?;
    put_number(b", ", b"intensity", flags.intensity, out)?;
    put_number(b", ", b"period", flags.period, out)
}

/// Appends a member that is a text, or `null` where it is empty.
#[tactic(auto, unfolding(crate::specs::Objects::text_if))]
pub(crate) fn put_text_if(key: &[u8], text: &[u8], out: &mut Vec<u8>) -> Result<(), AllocError>
    ensures { OnOk result (out.new.items ≡ out.old.items ++ text_if key.now text.now) }
{
    match text {
        [] => {
            put_key(b", ", key, out)?;
            out.extend_from_slice(b"null")
        }
        text => put_text(b", ", key, text, out),
    }
}

/// What came of a supervisor, in a word.
#[tactic(auto, unfolding(crate::specs::Objects::fate_word))]
fn fate_word(fate: Fate) -> &'static [u8]
    ensures { result.now ≡ fate_word fate }
{
    match fate {
        Fate::GaveUp => b"gave up",
        Fate::Ended => b"ended",
        Fate::Survived => b"survived",
        Fate::Lasted => b"never gave up",
        Fate::Asked(_) => b"asked to stop",
        Fate::GivesUp(_) => b"has given up",
        Fate::Undecided => b"not decided",
    }
}

/// What came of a supervisor, in a word; none if nothing was played.
fn word_if(is_played: bool, fate: Fate) -> &'static [u8]
    ensures { result.now ≡ fate_if is_played fate }
{
    if is_played { fate_word(fate) } else { b"" }
}

/// Since when it is on its way to its end, if it is.
#[tactic(auto, unfolding(crate::specs::Objects::fate_since))]
fn fate_since(fate: Fate) -> Option<u64>
    ensures { result ≡ fate_since fate }
{
    match fate {
        Fate::Asked(time) | Fate::GivesUp(time) => Some(time),
        Fate::GaveUp | Fate::Ended | Fate::Survived | Fate::Lasted | Fate::Undecided => None,
    }
}

/// Appends what came of a supervisor, since when it is on its way to its end, and what it awaits.
#[tactic(auto, unfolding(crate::specs::Objects::verdict_members))]
fn put_verdict(
    is_played: bool,
    fate: Fate,
    awaits: &[u8],
    out: &mut Vec<u8>,
) -> Result<(), AllocError>
    ensures { OnOk result (out.new.items ≡ out.old.items ++ verdict_members is_played fate awaits.now) }
{
    put_text_if(b"fate", word_if(is_played, fate), out)?;
    put_seconds(b"since", fate_since(fate), out)?;
    put_text_if(b"awaits", awaits, out)
}

/// What a supervisor awaits that has a process or not. The word is a place for a text.
fn put_awaits(
    is_running: bool,
    seat: &TriedSupervisor,
    word: &mut Vec<u8>,
) -> Result<(), AllocError>
    ensures { OnOk result (word.new.items ≡ awaits_of is_running seat.now) }
{
    word.clear();
    if is_running {
        write_awaits(seat.path(), seat.rows(), word)
    } else {
        Ok(())
    }
}

/// Appends the object of a supervisor, which has a process or not. The word is a place for a text.
#[tactic(auto, unfolding(crate::specs::Objects::supervisor_object))]
fn put_supervisor(
    is_played: bool,
    is_root: bool,
    seat: &TriedSupervisor,
    is_running: bool,
    word: &mut Vec<u8>,
    out: &mut Vec<u8>,
) -> Result<(), AllocError>
    ensures { OnOk result (out.new.items ≡ out.old.items ++ supervisor_object is_played is_root seat.now is_running) }
{
    put_awaits(is_running, seat, word)?;
    put_text(b"{", b"path", supervisor_path(seat.path()), out)?;
    put_bool(b"runs", is_running && !seat.has_ended(), out)?;
    let fate = fate_of(is_root, is_running, seat);
    put_verdict(is_played, fate, word.as_slice(), out)?;
    put_fate(seat.strain(), out)?;
    put_limits(&seat.flags(), seat.strain(), out)?;
    out.extend_from_slice(b"}")
}

/// Appends the objects of supervisors, each behind a comma but the first, of which each has a process or not. The word is a place for
/// a text.
#[tactic(auto, unfolding(crate::specs::Objects::supervisors_text))]
pub(crate) fn put_supervisors(
    is_played: bool,
    is_root: bool,
    front: &[u8],
    seats: &[TriedSupervisor],
    running: &[bool],
    word: &mut Vec<u8>,
    out: &mut Vec<u8>,
) -> Result<(), AllocError>
    ensures { OnOk result (out.new.items ≡ out.old.items ++ supervisors_text is_played is_root front.now seats.now running.now) }
{
    match seats {
        [] => Ok(()),
        [seat, seats @ ..] => match running {
            [] => Ok(()),
            [is_running, running @ ..] => {
                out.extend_from_slice(front)?;
                put_supervisor(is_played, is_root, seat, *is_running, word, out)?;
                put_supervisors(is_played, false, b", ", seats, running, word, out)
            }
        },
    }
}
