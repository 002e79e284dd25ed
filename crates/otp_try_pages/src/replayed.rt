//! A log that was replayed, as an object.

ghost use Rattle.std.specs.Prelude.{◌≡◌, ℕ, List, ◌++◌, IfOk, OnErr, OnOk, true};
ghost use Rattle.otp_try_pages.specs.Replayed.{TellsReplay, counts_members, log_members, near_member, near_object, nears_text, next_text, replay_front, texts_from, texts_member, unmatched_member};

use crate::object::{object_behind, put_front};
use crate::order::put_comma;
use crate::supervisors::put_text_if;
use otp_json::{put_json_text, put_key, put_number, put_text};
use otp_replay::{LogCounts, NearLine, Reading};
use otp_try::account::Account;
use std::alloc::{AllocError, Global};

/// Appends a text behind others, if there are some.
#[tactic(auto, unfolding(crate::specs::Replayed::next_text))]
fn put_next(is_first: bool, line: &[u8], out: &mut Vec<u8>) -> Result<(), AllocError>
    ensures { OnOk result (out.new.items ≡ out.old.items ++ next_text is_first line.now) }
{
    put_comma(is_first, out)?;
    put_json_text(line, out)
}

/// Appends these lines as texts, the first of which has begun so. Each ends with LF.
fn put_texts_from(told: &[u8], line: &mut Vec<u8>, out: &mut Vec<u8>) -> Result<(), AllocError>
    ensures { OnOk result (out.new.items ≡ out.old.items ++ texts_from true line.old.items told.now) }
{
    let mut is_first = true;
    for byte in told {
        if *byte == b'\n' {
            put_next(is_first, line.as_slice(), out)?;
            is_first = false;
            line.clear();
        } else {
            line.push(*byte).map_err(|_| AllocError)?;
        }
    }
    Ok(())
}

/// Appends the lines of a text as an array. The word is a place for a text.
#[tactic(auto, unfolding(crate::specs::Replayed::texts_member))]
fn put_texts(
    key: &[u8],
    told: &[u8],
    word: &mut Vec<u8>,
    out: &mut Vec<u8>,
) -> Result<(), AllocError>
    ensures { OnOk result (out.new.items ≡ out.old.items ++ texts_member key.now told.now) }
{
    word.clear();
    put_key(b", ", key, out)?;
    out.extend_from_slice(b"[")?;
    put_texts_from(told, word, out)?;
    out.extend_from_slice(b"]")
}

/// Appends the object of a line that looks as if it could be played.
#[tactic(auto, unfolding(crate::specs::Replayed::near_object))]
fn put_near(one: &NearLine, out: &mut Vec<u8>) -> Result<(), AllocError>
    ensures { OnOk result (out.new.items ≡ out.old.items ++ near_object one.now) }
{
    put_number(b"{", b"line", one.number, out)?;
    put_text(b", ", b"why", one.miss.text().as_bytes(), out)?;
    out.extend_from_slice(b"}")
}

/// Appends the objects of such lines, each behind a comma but the first.
fn put_nears(near: &[NearLine], out: &mut Vec<u8>) -> Result<(), AllocError>
    ensures { OnOk result (out.new.items ≡ out.old.items ++ nears_text true near.now) }
{
    let mut is_first = true;
    for one in near {
        put_comma(is_first, out)?;
        put_near(one, out)?;
        is_first = false;
    }
    Ok(())
}

/// Appends the array of such lines.
#[tactic(auto, unfolding(crate::specs::Replayed::near_member))]
fn put_near_lines(near: &[NearLine], out: &mut Vec<u8>) -> Result<(), AllocError>
    ensures { OnOk result (out.new.items ≡ out.old.items ++ near_member near.now) }
{
    put_key(b", ", b"near", out)?;
    out.extend_from_slice(b"[")?;
    put_nears(near, out)?;
    out.extend_from_slice(b"]")
}

/// Appends what was counted.
#[tactic(auto, unfolding(crate::specs::Replayed::counts_members))]
fn put_counts(counts: LogCounts, out: &mut Vec<u8>) -> Result<(), AllocError>
    ensures { OnOk result (out.new.items ≡ out.old.items ++ counts_members counts) }
{
    put_number(b", ", b"played", counts.played, out)?;
    put_number(b", ", b"not_matched", counts.missed, out)?;
    put_number(b", ", b"look_so", counts.near, out)
}

/// Appends the lines that weren't played, if they are listed.
#[tactic(auto, unfolding(crate::specs::Replayed::unmatched_member))]
fn put_unmatched(
    is_listed: bool,
    others: &[u8],
    word: &mut Vec<u8>,
    out: &mut Vec<u8>,
) -> Result<(), AllocError>
    ensures { OnOk result (out.new.items ≡ out.old.items ++ unmatched_member is_listed others.now) }
{
    if is_listed {
        put_texts(b"unmatched", others, word, out)
    } else {
        put_key(b", ", b"unmatched", out)?;
        out.extend_from_slice(b"null")
    }
}

/// Appends the log, what was told of it as one of another program, and which time of it is zero.
#[tactic(auto, unfolding(crate::specs::Replayed::log_members))]
fn put_log(
    name: &[u8],
    notes: &[u8],
    zero: &[u8],
    word: &mut Vec<u8>,
    out: &mut Vec<u8>,
) -> Result<(), AllocError>
    ensures { OnOk result (out.new.items ≡ out.old.items ++ log_members name.now notes.now zero.now) }
{
    put_text(b", ", b"log", name, out)?;
    put_texts(b"notes", notes, word, out)?;
    put_text_if(b"zero", zero, out)
}

/// Appends what stands before the run.
#[tactic(auto, unfolding(crate::specs::Replayed::replay_front))]
fn put_replay_front(
    name: &[u8],
    log_name: &[u8],
    notes: &[u8],
    is_listed: bool,
    log: &Reading,
    word: &mut Vec<u8>,
    out: &mut Vec<u8>,
) -> Result<(), AllocError>
    ensures { OnOk result (out.new.items ≡ out.old.items ++ replay_front name.now log_name.now notes.now is_listed log.now) }
{
    put_front(name, out)?;
    put_log(log_name, notes, log.zero(), word, out)?;
    put_counts(log.counts(), out)?;
    put_near_lines(log.near(), out)?;
    put_unmatched(is_listed, log.others(), word, out)
}

/// The object of a run of the script that a log stands for.
fn object_of(
    alloc: Global,
    name: &[u8],
    log_name: &[u8],
    notes: &[u8],
    is_listed: bool,
    log: &Reading,
    account: &Account,
) -> Result<Vec<u8>, AllocError>
    ensures { IfOk result (λ text. TellsReplay name.now log_name.now notes.now is_listed log.now account.now text.items) }
{
    let mut word = Vec::new(alloc);
    let mut front = Vec::new(alloc);
    put_replay_front(name, log_name, notes, is_listed, log, &mut word, &mut front)?;
    object_behind(alloc, front, account)
}

/// Appends a run of the script that a log stands for, as an object with the names of the tree's file and of the log: what was told of it
/// as one of another program; how many of its lines were played, and which weren't and look as if they could be; those that weren't, if
/// they are listed; and the run, as that of a script.
///
/// # Errors
///
/// Where memory is refused. Then nothing is appended.
pub fn write_replay_object(
    alloc: Global,
    name: &[u8],
    log_name: &[u8],
    notes: &[u8],
    is_listed: bool,
    log: &Reading,
    account: &Account,
    out: &mut Vec<u8>,
) -> Result<(), AllocError>
    ensures told { OnOk result ((text : List ℕ) × (TellsReplay name.now log_name.now notes.now is_listed log.now account.now text × (out.new.items ≡ out.old.items ++ text))) }
    ensures same { OnErr result (out.new.items ≡ out.old.items) }
{
    let text = object_of(alloc, name, log_name, notes, is_listed, log, account)?;
    out.extend_from_slice(text.as_slice())
}
