//! The words of a remark.

ghost use Rattle.std.specs.Prelude.{◌≡◌, ◌++◌, OnOk};
ghost use Rattle.otp_reason.specs.Names.{name_bytes};
ghost use Rattle.otp_commands.specs.Texts.{alike_end, alike_text, code_of, endless_text, ends_text, fan_out_text, long_stop_end, long_stop_text, long_stop_why, never_ends_text, no_restart_end, no_restart_text, remark_text, what_text, whom_text};

use crate::lint::remark::{Remark, RemarkKind};
use otp_reason::Name;
use otp_text::{write_name, write_number};
use std::alloc::AllocError;

/// The number of a kind.
fn code_of(kind: &RemarkKind) -> u64
    ensures { result ≡ code_of kind.now }
{
    match kind {
        RemarkKind::LongStop { .. } => 1,
        RemarkKind::NoRestart { .. } => 2,
        RemarkKind::EndlessWorker => 3,
        RemarkKind::FanOut { .. } => 4,
        RemarkKind::NeverEnds => 5,
        RemarkKind::AlikeId { .. } => 6,
    }
}

/// Appends whom a remark is about.
#[tactic(auto, unfolding(crate::specs::Texts::whom_text))]
fn write_whom(path: &[u8], out: &mut Vec<u8>) -> Result<(), AllocError>
    ensures { OnOk result (out.new.items ≡ out.old.items ++ whom_text path.now) }
{
    match path {
        [] => out.extend_from_slice(b"root"),
        [_, ..] => out.extend_from_slice(path),
    }
}

/// Appends what follows from a stop that lasts longer than a period, and what would mend it.
#[tactic(auto, unfolding(crate::specs::Texts::long_stop_why))]
fn write_long_stop_why(out: &mut Vec<u8>) -> Result<(), AllocError>
    ensures { OnOk result (out.new.items ≡ out.old.items ++ long_stop_why) }
{
    out.extend_from_slice(
        b" s: restarts that wait so long for it never exceed the intensity; write shorter shutdowns, or a longer period",
    )
}

/// Appends than which period a stop lasts longer, and what follows from it.
#[tactic(auto, unfolding(crate::specs::Texts::long_stop_end))]
fn write_long_stop_end(period: u64, out: &mut Vec<u8>) -> Result<(), AllocError>
    ensures { OnOk result (out.new.items ≡ out.old.items ++ long_stop_end period) }
{
    out.extend_from_slice(b" ms, longer than its supervisor's period of ")?;
    write_number(period, out)?;
    write_long_stop_why(out)
}

/// Appends that a stop may last longer than a period.
#[tactic(auto, unfolding(crate::specs::Texts::long_stop_text))]
fn write_long_stop(stop: u64, period: u64, out: &mut Vec<u8>) -> Result<(), AllocError>
    ensures { OnOk result (out.new.items ≡ out.old.items ++ long_stop_text stop period) }
{
    out.extend_from_slice(b"its stop may take ")?;
    write_number(stop, out)?;
    write_long_stop_end(period, out)
}

/// Appends which end ends the supervisor that has so many permanent children.
#[tactic(auto, unfolding(crate::specs::Texts::ends_text))]
fn write_ends(children: usize, out: &mut Vec<u8>) -> Result<(), AllocError>
    ensures { OnOk result (out.new.items ≡ out.old.items ++ ends_text children) }
{
    if children == 1 {
        return out.extend_from_slice(b"the end of its permanent child");
    }
    out.extend_from_slice(b"the end of one of its ")?;
    write_number(children as u64, out)?;
    out.extend_from_slice(b" permanent children")
}

/// Appends what follows from an intensity of 0, and what would mend it.
#[tactic(auto, unfolding(crate::specs::Texts::no_restart_end))]
fn write_no_restart_end(out: &mut Vec<u8>) -> Result<(), AllocError>
    ensures { OnOk result (out.new.items ≡ out.old.items ++ no_restart_end) }
{
    out.extend_from_slice(
        b" ends this supervisor, and nothing is started again; write an intensity from 1 on",
    )
}

/// Appends that an intensity of 0 stands over so many permanent children.
#[tactic(auto, unfolding(crate::specs::Texts::no_restart_text))]
fn write_no_restart(children: usize, out: &mut Vec<u8>) -> Result<(), AllocError>
    ensures { OnOk result (out.new.items ≡ out.old.items ++ no_restart_text children) }
{
    out.extend_from_slice(b"intensity = 0: ")?;
    write_ends(children, out)?;
    write_no_restart_end(out)
}

/// Appends that so many children have one start, more than this intensity.
#[tactic(auto, unfolding(crate::specs::Texts::fan_out_text))]
fn write_fan_out(
    children: usize,
    start: &Name,
    intensity: u64,
    out: &mut Vec<u8>,
) -> Result<(), AllocError>
    ensures { OnOk result (out.new.items ≡ out.old.items ++ fan_out_text children (name_bytes start.now) intensity) }
{
    write_number(children as u64, out)?;
    out.extend_from_slice(b" children here start ")?;
    write_name(start, out)?;
    out.extend_from_slice(b"; if one cause ends them all, intensity = ")?;
    write_number(intensity, out)?;
    out.extend_from_slice(b" is too small; write intensity = ")?;
    write_number(children as u64, out)
}

/// Appends whose id it is that looks so, and what would mend it.
#[tactic(auto, unfolding(crate::specs::Texts::alike_end))]
fn write_alike_end(out: &mut Vec<u8>) -> Result<(), AllocError>
    ensures { OnOk result (out.new.items ≡ out.old.items ++ alike_end) }
{
    out.extend_from_slice(b", that of a sibling; write another id")
}

/// Appends that an id looks like this one.
#[tactic(auto, unfolding(crate::specs::Texts::alike_text))]
fn write_alike(other: &Name, out: &mut Vec<u8>) -> Result<(), AllocError>
    ensures { OnOk result (out.new.items ≡ out.old.items ++ alike_text (name_bytes other.now)) }
{
    out.extend_from_slice(b"its id looks like ")?;
    write_name(other, out)?;
    write_alike_end(out)
}

/// Appends that a worker has for ever to stop.
#[tactic(auto, unfolding(crate::specs::Texts::endless_text))]
fn write_endless(out: &mut Vec<u8>) -> Result<(), AllocError>
    ensures { OnOk result (out.new.items ≡ out.old.items ++ endless_text) }
{
    out.extend_from_slice(
        b"a worker with shutdown = \"infinity\": while it doesn't end, nor does its supervisor's stop; write milliseconds",
    )
}

/// Appends that a significant child never ends by itself.
#[tactic(auto, unfolding(crate::specs::Texts::never_ends_text))]
fn write_never_ends(out: &mut Vec<u8>) -> Result<(), AllocError>
    ensures { OnOk result (out.new.items ≡ out.old.items ++ never_ends_text) }
{
    out.extend_from_slice(
        b"significant, but it never ends by itself: its tree starts no child again, and none shuts it down; leave out significant, or change its tree",
    )
}

/// Appends what is so, and what would mend it.
fn write_what(kind: &RemarkKind, out: &mut Vec<u8>) -> Result<(), AllocError>
    ensures { OnOk result (out.new.items ≡ out.old.items ++ what_text kind.now) }
{
    match kind {
        RemarkKind::LongStop { stop, period } => write_long_stop(*stop, *period, out),
        RemarkKind::NoRestart { children } => write_no_restart(*children, out),
        RemarkKind::EndlessWorker => write_endless(out),
        RemarkKind::FanOut {
            children,
            start,
            intensity,
        } => write_fan_out(*children, start, *intensity, out),
        RemarkKind::NeverEnds => write_never_ends(out),
        RemarkKind::AlikeId { other } => write_alike(other, out),
    }
}

/// Appends a remark in one line without its end: the number of its kind, whom it is about, what is so, and what would mend it.
///
/// # Errors
///
/// Where memory is refused.
#[tactic(auto, unfolding(crate::specs::Texts::remark_text))]
pub fn write_remark(remark: &Remark, out: &mut Vec<u8>) -> Result<(), AllocError>
    ensures { OnOk result (out.new.items ≡ out.old.items ++ remark_text remark.now) }
{
    out.extend_from_slice(b"L")?;
    write_number(code_of(&remark.kind), out)?;
    out.extend_from_slice(b": ")?;
    write_whom(remark.path.as_bytes(), out)?;
    out.extend_from_slice(b": ")?;
    write_what(&remark.kind, out)
}
