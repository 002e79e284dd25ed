//! The last of stamps that never fall, and counts over all of them.

ghost use Rattle.std.specs.Prelude.{◌≡◌, ◌+◌, ◌-◌, ◌*◌, ◌<◌, ◌≤◌, ◌++◌, ◌∷◌, [], All, get_or, length, nat_le, nat_lt};
ghost use Rattle.std.specs.List.Sorted.{IsNonDecreasing};
ghost use Rattle.std.specs.VecDeque.{deque_len, deque_capacity};
ghost use Rattle.otp_window.specs.Kept.{kept_of};
ghost use Rattle.otp_window.specs.Period.{in_period};

use crate::limits::MAX_PERIOD;
use crate::past::PastStamps;
use std::collections::VecDeque;

/// Whether more than `limit` of all stamps and `now` after them lie in the period of `period` seconds that ends then.
/// Since stamps never fall, that is so exactly if the stamp `limit` places before `now` does, and it is among those kept.
#[tactic(auto, using(crate::proofs::Crowded::kept_crowded, crate::proofs::Crowded::kept_below, crate::proofs::Crowded::crowded_at_zero, crate::proofs::Crowded::kept_latest))]
pub fn is_crowded_with(
    kept: &VecDeque<u64>,
    limit: u64,
    period: u64,
    now: u64,
    past: &PastStamps,
) -> bool
    requires kept { kept.now.items ≡ kept_of limit past.now.stamps }
    requires period { period ≤ MAX_PERIOD }
    requires ordered { IsNonDecreasing past.now.stamps }
    requires latest { All (λ s. s ≤ now) past.now.stamps }
    ensures { result ≡ nat_lt limit (in_period period (past.now.stamps ++ now ∷ []) now) }
{
    if limit == 0 {
        return true;
    }
    let count = kept.len() as u64;
    if count < limit {
        return false;
    }
    let oldest = stamp_at(kept, (count - limit) as usize);
    is_within(oldest, now, period)
}

/// The stamp at this place.
fn stamp_at(kept: &VecDeque<u64>, place: usize) -> u64
    requires { place < length kept.now.items }
    ensures { result ≡ get_or kept.now.items place 0 }
{
    kept[place]
}

/// Whether the stamp lies in the period that ends at `now`.
fn is_within(stamp: u64, now: u64, period: u64) -> bool
    requires period { period ≤ MAX_PERIOD }
    requires past { stamp ≤ now }
    ensures { result ≡ nat_le (now - stamp) (1000 * period) }
{
    now - stamp <= 1000 * period
}

/// Adds a stamp to those kept. If there is one more than `limit` already, the oldest goes.
#[tactic(auto, using(crate::proofs::Crowded::kept_pushed, crate::proofs::Crowded::kept_moved))]
pub fn push_kept(kept: &mut VecDeque<u64>, limit: u64, stamp: u64)
    requires room { deque_len kept.old < deque_capacity kept.old }
    requires few { length kept.old.items ≤ limit + 1 }
    ensures items { kept.new.items ≡ kept_of limit (kept.old.items ++ stamp ∷ []) }
{
    if kept.len() as u64 > limit {
        let _ = kept.pop_front();
    }
    kept.push_back_reserved(stamp);
}
