//! How far apart crashes are, or within which time they come, as a word says it.

ghost use Rattle.std.specs.Prelude.{◌≡◌, ◌≤◌, ◌<◌, ◌^◌, IfOk};
ghost use Rattle.otp_suggest.specs.Gaps.{gap_if, gap_in, gap_of};

use crate::time::read_time;

/// The longest time in milliseconds: some twelve days.
pub const LONGEST_GAP: u64 = 1_073_741_824;

/// Why a word says no time, or no number of crashes.
#[derive(Clone, Copy, Debug, PartialEq, Eq)]
pub enum GapFault {
    /// It is no number of milliseconds, seconds, minutes or hours.
    NoTime,
    /// It is no time at all.
    Zero,
    /// It is longer than [`LONGEST_GAP`].
    TooLong,
    /// It is no number of crashes from 1 to [`crate::MOST_TIMES`].
    NoCount,
}

/// So many milliseconds as an interval.
#[tactic(auto, unfolding(crate::specs::Gaps::gap_if))]
fn gap_if(gap: u64) -> Result<u64, GapFault>
    ensures gap { result ≡ gap_if gap }
    ensures limit { IfOk result (λ gap. (0 < gap) × (gap ≤ 2 ^ 30)) }
{
    if gap == 0 {
        Err(GapFault::Zero)
    } else if gap <= LONGEST_GAP {
        Ok(gap)
    } else {
        Err(GapFault::TooLong)
    }
}

/// The interval in milliseconds that a word says: a number with `ms`, `s`, `m` or `h` behind it, or of milliseconds.
///
/// # Errors
///
/// Where it says no time, none at all, or one longer than [`LONGEST_GAP`].
#[tactic(auto, unfolding(crate::specs::Gaps::gap_of))]
pub fn read_gap(word: &str) -> Result<u64, GapFault>
    ensures gap { result ≡ gap_in word.now }
    ensures limit { IfOk result (λ gap. (0 < gap) × (gap ≤ 2 ^ 30)) }
{
    match read_time(word) {
        None => Err(GapFault::NoTime),
        Some(gap) => gap_if(gap),
    }
}
