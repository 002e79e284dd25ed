//! The words of a table of limits.

ghost use Rattle.std.specs.Prelude.{◌≡◌, ◌++◌, OnOk, replicate};
ghost use Rattle.otp_costs.specs.Words.{are_same, at_left, at_right, burst_text, clock_if, clock_text, gone_text, interval_text, needs_text, reason_text, steady_text};

use crate::limits::{Fate, Steady};
use otp_text::write_number;
use std::alloc::AllocError;

/// Appends so many spaces.
pub(crate) fn write_spaces(count: usize, out: &mut Vec<u8>) -> Result<(), AllocError>
    ensures { OnOk result (out.new.items ≡ out.old.items ++ replicate count 32) }
{
    for _ in 0..count {
        out.push(b' ').map_err(|_| AllocError)?;
    }
    Ok(())
}

/// Appends a text at the left of a column.
#[tactic(auto, unfolding(crate::specs::Words::at_left))]
pub fn write_left(width: usize, text: &[u8], out: &mut Vec<u8>) -> Result<(), AllocError>
    ensures { OnOk result (out.new.items ≡ out.old.items ++ at_left width text.now) }
{
    out.extend_from_slice(text)?;
    write_spaces(width.saturating_sub(text.len()), out)
}

/// Appends a text at the right of a column.
#[tactic(auto, unfolding(crate::specs::Words::at_right))]
pub fn write_right(width: usize, text: &[u8], out: &mut Vec<u8>) -> Result<(), AllocError>
    ensures { OnOk result (out.new.items ≡ out.old.items ++ at_right width text.now) }
{
    write_spaces(width.saturating_sub(text.len()), out)?;
    out.extend_from_slice(text)
}

/// Appends one text for a child that never ran, and another for one that runs no more.
#[tactic(auto, unfolding(crate::specs::Words::gone_text))]
pub(crate) fn write_gone(
    count: u64,
    never: &[u8],
    later: &[u8],
    out: &mut Vec<u8>,
) -> Result<(), AllocError>
    ensures { OnOk result (out.new.items ≡ out.old.items ++ gone_text count never.now later.now) }
{
    if count == 0 {
        out.extend_from_slice(never)
    } else {
        out.extend_from_slice(later)
    }
}

/// Appends how many crashes at once are survived.
#[tactic(auto, unfolding(crate::specs::Words::burst_text))]
pub fn write_burst(burst: Fate, out: &mut Vec<u8>) -> Result<(), AllocError>
    ensures { OnOk result (out.new.items ≡ out.old.items ++ burst_text burst) }
{
    match burst {
        Fate::Survived => out.extend_from_slice(b"any"),
        Fate::Gone(count) => write_gone(count, b"-", b"any", out),
        Fate::Ended(count) => write_number(count, out),
    }
}

/// Appends how far apart crashes must be.
#[tactic(auto, unfolding(crate::specs::Words::steady_text))]
fn write_steady(steady: Steady, out: &mut Vec<u8>) -> Result<(), AllocError>
    ensures { OnOk result (out.new.items ≡ out.old.items ++ steady_text steady) }
{
    match steady {
        Steady::Always => out.extend_from_slice(b"any"),
        Steady::Never => out.extend_from_slice(b"none"),
        Steady::Apart(gap) => {
            write_number(gap, out)?;
            out.extend_from_slice(b" ms")
        }
    }
}

/// Appends how far apart crashes of a child must be that fares so.
#[tactic(auto, unfolding(crate::specs::Words::interval_text, crate::specs::Words::gone_text))]
pub fn write_interval(burst: Fate, steady: Steady, out: &mut Vec<u8>) -> Result<(), AllocError>
    ensures { OnOk result (out.new.items ≡ out.old.items ++ interval_text burst steady) }
{
    match burst {
        Fate::Gone(0) => out.extend_from_slice(b"-"),
        _ => write_steady(steady, out),
    }
}

/// Whether crashes must be as far apart by one clock as by the other.
#[tactic(auto, unfolding(crate::specs::Words::are_same))]
fn are_same(one: Steady, other: Steady) -> bool
    ensures { result ≡ are_same one other }
{
    match (one, other) {
        (Steady::Always, Steady::Always) | (Steady::Never, Steady::Never) => true,
        (Steady::Apart(gap), Steady::Apart(other)) => gap == other,
        _ => false,
    }
}

/// Appends why the clock of OTP needs another interval.
#[tactic(auto, unfolding(crate::specs::Words::reason_text))]
fn write_reason(out: &mut Vec<u8>) -> Result<(), AllocError>
    ensures { OnOk result (out.new.items ≡ out.old.items ++ reason_text) }
{
    out.extend_from_slice(b" between crashes: it counts restarts in whole seconds\n")
}

/// Appends how far apart crashes must be by the clock of OTP.
#[tactic(auto, unfolding(crate::specs::Words::needs_text))]
fn write_needs(seconds: Steady, out: &mut Vec<u8>) -> Result<(), AllocError>
    ensures { OnOk result (out.new.items ≡ out.old.items ++ needs_text seconds) }
{
    out.extend_from_slice(b"  OTP    needs ")?;
    write_steady(seconds, out)?;
    write_reason(out)
}

/// Appends how far apart crashes must be by the clock of OTP, unless that is the same.
#[tactic(auto, unfolding(crate::specs::Words::clock_if))]
fn write_other_clock(is_same: bool, seconds: Steady, out: &mut Vec<u8>) -> Result<(), AllocError>
    ensures { OnOk result (out.new.items ≡ out.old.items ++ clock_if is_same seconds) }
{
    if is_same {
        Ok(())
    } else {
        write_needs(seconds, out)
    }
}

/// Appends how far apart crashes must be by the clock of OTP, where that differs.
#[tactic(auto, unfolding(crate::specs::Words::clock_text))]
pub(crate) fn write_clock(
    steady: Steady,
    seconds: Steady,
    out: &mut Vec<u8>,
) -> Result<(), AllocError>
    ensures { OnOk result (out.new.items ≡ out.old.items ++ clock_text steady seconds) }
{
    write_other_clock(are_same(steady, seconds), seconds, out)
}
