//! Times as they are told.

ghost use Rattle.std.specs.Prelude.{◌≡◌, ◌++◌, ◌<◌, length, OnOk};
ghost use Rattle.std.specs.List.{flat_map};
ghost use Rattle.otp_trial.specs.declared.story.time.TheConstants.{MOST_TIMES};
ghost use Rattle.otp_trial.specs.Story.{cut_times_text, few_times_text, next_time_text, time_text, times_text};

use otp_text::timeline::write_seconds;
use std::alloc::AllocError;

/// Appends a time in milliseconds, written in seconds.
#[tactic(auto, unfolding(crate::specs::Story::time_text))]
pub fn write_time(time: u64, out: &mut Vec<u8>) -> Result<(), AllocError>
    ensures { OnOk result (out.new.items ≡ out.old.items ++ time_text time) }
{
    write_seconds(time, out)?;
    out.extend_from_slice(b" s")
}

/// Appends a comma and a time.
#[tactic(auto, unfolding(crate::specs::Story::next_time_text))]
fn write_next_time(time: u64, out: &mut Vec<u8>) -> Result<(), AllocError>
    ensures { OnOk result (out.new.items ≡ out.old.items ++ next_time_text time) }
{
    out.extend_from_slice(b", ")?;
    write_time(time, out)
}

/// Appends times, each after a comma.
fn write_next_times(times: &[u64], out: &mut Vec<u8>) -> Result<(), AllocError>
    ensures { OnOk result (out.new.items ≡ out.old.items ++ flat_map next_time_text times.now) }
{
    for time in times {
        write_next_time(*time, out)?;
    }
    Ok(())
}

/// Appends times with commas between.
#[tactic(auto, unfolding(crate::specs::Story::times_text))]
fn write_times(times: &[u64], out: &mut Vec<u8>) -> Result<(), AllocError>
    ensures { OnOk result (out.new.items ≡ out.old.items ++ times_text times.now) }
{
    match times {
        [] => Ok(()),
        [first, rest @ ..] => {
            write_time(*first, out)?;
            write_next_times(rest, out)
        }
    }
}

/// Of more times than these not all are written.
const MOST_TIMES: usize = 5;

/// Appends the first three and the last of many times.
#[tactic(auto, unfolding(crate::specs::Story::cut_times_text))]
fn write_cut_times(times: &[u64], out: &mut Vec<u8>) -> Result<(), AllocError>
    requires { MOST_TIMES < length times.now }
    ensures { OnOk result (out.new.items ≡ out.old.items ++ cut_times_text times.now) }
{
    write_times(&times[..3], out)?;
    out.extend_from_slice(b", ..")?;
    write_next_time(times[times.len() - 1], out)
}

/// Appends times with commas between, where they are many the first and the last of them.
#[tactic(auto, unfolding(crate::specs::Story::few_times_text))]
pub(crate) fn write_few_times(times: &[u64], out: &mut Vec<u8>) -> Result<(), AllocError>
    ensures { OnOk result (out.new.items ≡ out.old.items ++ few_times_text times.now) }
{
    if times.len() <= MOST_TIMES {
        write_times(times, out)
    } else {
        write_cut_times(times, out)
    }
}
