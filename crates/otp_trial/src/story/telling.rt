//! Orders as they are told.

ghost use Rattle.std.specs.Prelude.{◌≡◌, ◌++◌, OnOk, option_map};
ghost use Rattle.otp_core.specs.View.{stored_state};
ghost use Rattle.otp_rules.specs.Run.{reply_of};
ghost use Rattle.otp_trial.specs.Story.{cause_text, child_order, end_text, heading, id_text, is_asked, is_news, is_told, limit_text, line_if, number_after, order_text, restarts_text, restarts_word, significant_text, started_between, started_text, told_line, told_lines};

use crate::story::starts::{Started, start_of};
use crate::story::time::{write_few_times, write_time};
use otp_core::{Core, ReplyAnswer};
use otp_reason::Name;
use otp_rules::{Cause, Effect, Reply, SupEnd};
use otp_spec::SupFlags;
use otp_text::{Printer, write_child_name, write_name, write_number, write_process, write_reason};
use std::alloc::AllocError;

/// Appends a number after a word.
#[tactic(auto, unfolding(crate::specs::Story::number_after))]
pub fn write_after(before: &[u8], number: u64, out: &mut Vec<u8>) -> Result<(), AllocError>
    ensures { OnOk result (out.new.items ≡ out.old.items ++ number_after before.now number) }
{
    out.extend_from_slice(before)?;
    write_number(number, out)
}

/// Appends the word behind a number of restarts.
#[tactic(auto, unfolding(crate::specs::Story::restarts_word))]
fn write_restarts_word(count: u64, out: &mut Vec<u8>) -> Result<(), AllocError>
    ensures { OnOk result (out.new.items ≡ out.old.items ++ restarts_word count) }
{
    if count == 1 {
        out.extend_from_slice(b" restart")
    } else {
        out.extend_from_slice(b" restarts")
    }
}

/// Appends the intensity and the period.
#[tactic(auto, unfolding(crate::specs::Story::limit_text))]
fn write_limit(flags: &SupFlags, out: &mut Vec<u8>) -> Result<(), AllocError>
    ensures { OnOk result (out.new.items ≡ out.old.items ++ limit_text flags.now) }
{
    write_after(b"more than ", flags.intensity, out)?;
    write_restarts_word(flags.intensity, out)?;
    write_after(b" within ", flags.period, out)
}

/// Appends that there were more restarts than the intensity within the period, and when they were.
#[tactic(auto, unfolding(crate::specs::Story::restarts_text))]
fn write_restarts(flags: &SupFlags, stamps: &[u64], out: &mut Vec<u8>) -> Result<(), AllocError>
    ensures { OnOk result (out.new.items ≡ out.old.items ++ restarts_text flags.now stamps.now) }
{
    write_limit(flags, out)?;
    out.extend_from_slice(b" s: at ")?;
    write_few_times(stamps, out)
}

/// Appends a child with its path, or where it has no id its process.
#[tactic(auto, unfolding(crate::specs::Story::id_text))]
fn write_id(
    path: &[u8],
    id: Option<Name>,
    process: u64,
    out: &mut Vec<u8>,
) -> Result<(), AllocError>
    ensures { OnOk result (out.new.items ≡ out.old.items ++ id_text path.now id process) }
{
    match id {
        None => write_process(process, out),
        Some(id) => {
            out.extend_from_slice(path)?;
            write_name(&id, out)
        }
    }
}

/// Appends the child for which a process was started.
#[tactic(auto, unfolding(crate::specs::Story::started_text))]
fn write_started(
    path: &[u8],
    started: Option<Started>,
    process: u64,
    out: &mut Vec<u8>,
) -> Result<(), AllocError>
    ensures { OnOk result (out.new.items ≡ out.old.items ++ started_text path.now started process) }
{
    match started {
        None => write_process(process, out),
        Some(started) => write_id(path, started.id, process, out),
    }
}

/// Appends the child for which a process was started, between two words.
#[tactic(auto, unfolding(crate::specs::Story::started_between))]
fn write_between(
    before: &[u8],
    path: &[u8],
    started: Option<Started>,
    process: u64,
    after: &[u8],
    out: &mut Vec<u8>,
) -> Result<(), AllocError>
    ensures { OnOk result (out.new.items ≡ out.old.items ++ started_between before.now path.now started process after.now) }
{
    out.extend_from_slice(before)?;
    write_started(path, started, process, out)?;
    out.extend_from_slice(after)
}

/// Appends which significant child of the supervisor with this path ended.
#[tactic(auto, unfolding(crate::specs::Story::significant_text))]
fn write_significant(
    path: &[u8],
    starts: &[Started],
    process: u64,
    out: &mut Vec<u8>,
) -> Result<(), AllocError>
    ensures { OnOk result (out.new.items ≡ out.old.items ++ significant_text path.now starts.now process) }
{
    let started = start_of(starts, process);
    write_between(
        b"significant child ",
        path,
        started,
        process,
        b" ended",
        out,
    )
}

/// Appends why a supervisor ends.
#[tactic(auto, unfolding(crate::specs::Story::cause_text))]
fn write_cause(
    path: &[u8],
    starts: &[Started],
    cause: &Cause,
    out: &mut Vec<u8>,
) -> Result<(), AllocError>
    ensures { OnOk result (out.new.items ≡ out.old.items ++ cause_text path.now starts.now cause.now) }
{
    match cause {
        Cause::Intensity { flags, stamps } => write_restarts(flags, stamps.as_slice(), out),
        Cause::Significant(process) => write_significant(path, starts, *process, out),
        Cause::Asked => out.extend_from_slice(b"asked to stop"),
        Cause::InitFailed(id) => {
            out.extend_from_slice(b"child ")?;
            write_name(id, out)?;
            out.extend_from_slice(b" did not start")
        }
    }
}

/// Appends why a supervisor ends, behind the reason.
#[tactic(auto, unfolding(crate::specs::Story::end_text))]
fn write_end(
    path: &[u8],
    starts: &[Started],
    end: &SupEnd,
    out: &mut Vec<u8>,
) -> Result<(), AllocError>
    ensures { OnOk result (out.new.items ≡ out.old.items ++ end_text path.now starts.now end.now) }
{
    out.extend_from_slice(b"end ")?;
    write_reason(&end.reason, out)?;
    out.extend_from_slice(b": ")?;
    write_cause(path, starts, &end.cause, out)?;
    out.extend_from_slice(b"\n")
}

/// Appends what an order asks of a child.
#[tactic(auto, unfolding(crate::specs::Story::child_order))]
fn write_child_order(
    word: &[u8],
    path: &[u8],
    name: &Option<Name>,
    number: u64,
    out: &mut Vec<u8>,
) -> Result<(), AllocError>
    ensures { OnOk result (out.new.items ≡ out.old.items ++ child_order word.now path.now name.now number) }
{
    out.extend_from_slice(word)?;
    out.extend_from_slice(path)?;
    write_child_name(name, out)?;
    out.extend_from_slice(b" ")?;
    write_process(number, out)?;
    out.extend_from_slice(b"\n")
}

/// Appends what stands in front of an order that names no child.
#[tactic(auto, unfolding(crate::specs::Story::heading))]
pub fn write_heading(path: &[u8], out: &mut Vec<u8>) -> Result<(), AllocError>
    ensures { OnOk result (out.new.items ≡ out.old.items ++ heading path.now) }
{
    match path {
        [] => Ok(()),
        path => {
            out.extend_from_slice(path)?;
            out.extend_from_slice(b" ")
        }
    }
}

/// The answer to a call that was given since the last checkpoint.
fn kept_reply(core: &Core, call: u64) -> Option<&Reply>
    ensures { option_map (λ r. r.now) result ≡ reply_of call (stored_state core.now).replies }
{
    match core.reply(call) {
        ReplyAnswer::Kept(reply) => Some(reply),
        ReplyAnswer::Gone | ReplyAnswer::NotYet => None,
    }
}

/// Orders that the core of a supervisor gave: when, at which path it stands, which starts it had ordered before, and whether all
/// of them are told, or its end alone.
#[derive(Clone, Copy)]
pub struct Telling<'a> {
    pub time: u64,
    pub path: &'a [u8],
    pub starts: &'a [Started],
    pub tells: bool,
}

/// Appends an order as it is told: of an end also why.
#[tactic(auto, unfolding(crate::specs::Story::order_text))]
fn write_order(
    scene: &Telling<'_>,
    core: &Core,
    order: &Effect,
    printer: &mut Printer,
    out: &mut Vec<u8>,
) -> Result<(), AllocError>
    ensures { OnOk result (out.new.items ≡ out.old.items ++ order_text scene.now.path.now scene.now.starts.now order.now (stored_state core.now).replies) }
{
    let path = scene.path;
    match order {
        Effect::Start(name, number) => write_child_order(b"start ", path, name, *number, out),
        Effect::Ask(name, number) => write_child_order(b"ask ", path, name, *number, out),
        Effect::Kill(name, number) => write_child_order(b"kill ", path, name, *number, out),
        Effect::Reply(call) => {
            write_heading(path, out)?;
            printer.print(order, kept_reply(core, *call), out)
        }
        Effect::Ready => {
            write_heading(path, out)?;
            out.extend_from_slice(b"ready\n")
        }
        Effect::End(end) => {
            write_heading(path, out)?;
            write_end(path, scene.starts, end, out)
        }
    }
}

/// Appends the line of an order that was given at this time.
#[tactic(auto, unfolding(crate::specs::Story::told_line))]
fn write_told(
    scene: &Telling<'_>,
    core: &Core,
    order: &Effect,
    printer: &mut Printer,
    out: &mut Vec<u8>,
) -> Result<(), AllocError>
    ensures { OnOk result (out.new.items ≡ out.old.items ++ told_line scene.now.time scene.now.path.now scene.now.starts.now (stored_state core.now).replies order.now) }
{
    write_time(scene.time, out)?;
    out.extend_from_slice(b"  ")?;
    write_order(scene, core, order, printer, out)
}

/// Whether a supervisor ends since it was asked to.
#[tactic(auto, unfolding(crate::specs::Story::is_asked))]
fn is_asked(cause: &Cause) -> bool
    ensures { result ≡ is_asked cause.now }
{
    match cause {
        Cause::Asked => true,
        Cause::Intensity { .. } | Cause::Significant(_) | Cause::InitFailed(_) => false,
    }
}

/// Whether the end of a supervisor is told by itself: that of the root always, another's unless its parent asked for it.
#[tactic(auto, unfolding(crate::specs::Story::is_news))]
fn is_news(path: &[u8], cause: &Cause) -> bool
    ensures { result ≡ is_news path.now cause.now }
{
    match path {
        [] => true,
        [_, ..] => !is_asked(cause),
    }
}

/// Whether an order is told: all are, or an end alone.
#[tactic(auto, unfolding(crate::specs::Story::is_told))]
fn is_told(tells: bool, path: &[u8], order: &Effect) -> bool
    ensures { result ≡ is_told tells path.now order.now }
{
    match order {
        Effect::Start(..) | Effect::Ask(..) | Effect::Kill(..) => tells,
        Effect::Reply(_) | Effect::Ready => tells,
        Effect::End(end) => tells || is_news(path, &end.cause),
    }
}

/// Appends the line of an order that was given at this time, if it is told.
#[tactic(auto, unfolding(crate::specs::Story::line_if))]
fn write_line_if(
    scene: &Telling<'_>,
    core: &Core,
    order: &Effect,
    printer: &mut Printer,
    out: &mut Vec<u8>,
) -> Result<(), AllocError>
    ensures { OnOk result (out.new.items ≡ out.old.items ++ line_if scene.now.tells scene.now.time scene.now.path.now scene.now.starts.now (stored_state core.now).replies order.now) }
{
    if is_told(scene.tells, scene.path, order) {
        write_told(scene, core, order, printer, out)
    } else {
        Ok(())
    }
}

/// Appends the lines of those orders that are told, which the core of the supervisor with this path gave at this time.
#[tactic(auto, unfolding(crate::specs::Story::told_lines))]
fn write_all(
    scene: &Telling<'_>,
    core: &Core,
    orders: &[Effect],
    printer: &mut Printer,
    out: &mut Vec<u8>,
) -> Result<(), AllocError>
    ensures { OnOk result (out.new.items ≡ out.old.items ++ told_lines scene.now.tells scene.now.time scene.now.path.now scene.now.starts.now (stored_state core.now).replies orders.now) }
{
    for order in orders {
        write_line_if(scene, core, order, printer, out)?;
    }
    Ok(())
}

/// Appends the lines of those orders of a core that were not cleared and are told.
pub fn tell(
    scene: &Telling<'_>,
    core: &Core,
    printer: &mut Printer,
    out: &mut Vec<u8>,
) -> Result<(), AllocError>
    ensures { OnOk result (out.new.items ≡ out.old.items ++ told_lines scene.now.tells scene.now.time scene.now.path.now scene.now.starts.now (stored_state core.now).replies core.now.effects) }
{
    write_all(scene, core, core.effects(), printer, out)
}
