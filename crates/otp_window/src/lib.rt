//! The restart intensity of one supervisor: how many restarts a period may have.
//!
//! OTP Design Principles, Supervisor Behaviour, "Maximum Restart Intensity".
#![tactic(auto)]

ghost use Rattle.std.specs.Prelude.{ℕ, List, ◌≡◌, ◌≤◌, ◌+◌, ◌-◌, ◌^◌, ◌++◌, ◌∷◌, [], true, false, All, OnOk, OnErr, length, min, nat_lt};
ghost use Rattle.std.specs.List.Sorted.{IsNonDecreasing};
ghost use Rattle.std.specs.VecDeque.{deque_len};
ghost use Rattle.otp_window.specs.Answer.{within};
ghost use Rattle.otp_window.specs.Kept.{kept_of};
ghost use Rattle.otp_window.specs.Period.{in_period};

use std::alloc::{AllocError, Global};
use std::collections::VecDeque;
use std::marker::Model;
use std::mem;

mod limits;
mod ordered;
mod past;

pub use crate::limits::MAX_PERIOD;
use crate::ordered::{is_crowded_with, push_kept};
use crate::past::{PastStamps, with_stamp};

/// What a restart makes of the intensity.
#[derive(Clone, Copy, Debug, PartialEq, Eq)]
pub enum Within {
    /// The period that ends with the restart has at most as many restarts as the intensity.
    Ok,
    /// It has more: the supervisor is to end.
    Exceeded,
}

/// The restarts of one supervisor since it was opened, each with its stamp in milliseconds. Contracts see all stamps;
/// the last are kept, one more than the intensity at most, since no older one can count.
#[derive(Drop)]
pub struct Window {
    intensity: u64,
    period: u64,
    kept: VecDeque<u64>,
    count: u64,
    past: PastStamps,
    reserved: bool,
}

impl Model for Window {
    ghost use Rattle.otp_window.specs.View.{WindowView};

    ghost Value = { WindowView };

    ghost use Rattle.otp_window.specs.Inside.{view_of, IsWindow};

    ghost view = { view_of };

    ghost invariant = { IsWindow };
}

impl Window {
    ghost use Rattle.otp_window.specs.View.{WindowView};

    /// A window with no restarts, for at most `intensity` of them in `period` seconds, at most [`MAX_PERIOD`]. Takes no memory.
    pub fn new(alloc: Global, intensity: u64, period: u64) -> Self
        requires { period ≤ MAX_PERIOD }
        ensures { result ≡ record { intensity = intensity; period = period; stamps = []; reserved = false } }
    {
        Window {
            intensity,
            period,
            kept: VecDeque::new(alloc),
            count: 0,
            past: PastStamps::new(),
            reserved: false,
        }
    }

    /// How many restarts a period may have.
    pub fn intensity(&self) -> u64
        ensures { result ≡ self.now.intensity }
    {
        self.intensity
    }

    /// The period, in seconds.
    pub fn period(&self) -> u64
        ensures { result ≡ self.now.period }
    {
        self.period
    }

    /// Takes the memory of the next `add`.
    pub fn reserve(&mut self) -> Result<(), AllocError>
        ensures ok { OnOk result (self.new ≡ record self.old { reserved = true }) }
        ensures err { OnErr result (self.new ≡ self.old) }
    {
        self.kept.reserve(1)?;
        self.reserved = true;
        Ok(())
    }

    /// Whether `add` may be called.
    pub fn is_reserved(&self) -> bool
        ensures { result ≡ self.now.reserved }
    {
        self.reserved
    }

    /// The stamps that are kept, in order: the last since `new` or the last `clear`, one more than the intensity at most.
    pub fn kept(&self) -> &VecDeque<u64>
        ensures value { result.now.items ≡ kept_of self.now.intensity self.now.stamps }
        ensures limit { deque_len result.now ≤ self.now.intensity + 1 }
    {
        &self.kept
    }

    /// How many restarts there were since `new` or the last `clear`: exactly, below 2^64.
    pub fn count(&self) -> u64
        ensures { result ≡ min (length self.now.stamps) (2 ^ 64 - 1) }
    {
        self.count
    }

    /// Forgets all restarts. Keeps what is reserved and takes no memory.
    pub fn clear(&mut self)
        ensures { self.new ≡ record self.old { stamps = [] } }
    {
        self.kept.clear();
        self.count = 0;
        self.past = PastStamps::new();
    }

    /// Whether a restart at `now`, in milliseconds, would be one too many. Adds nothing. The answer is the same for all stamps,
    /// of which the same are kept; by its code it looks at one stamp, however many there are.
    pub fn would_exceed(&self, now: u64) -> bool
        requires { All (λ s. s ≤ now) self.now.stamps }
        ensures answer { result ≡ nat_lt self.now.intensity (in_period self.now.period (self.now.stamps ++ now ∷ []) now) }
        ensures by_kept { (all : List ℕ) → IsNonDecreasing all → All (λ s. s ≤ now) all → kept_of self.now.intensity all ≡ kept_of self.now.intensity self.now.stamps →
            result ≡ nat_lt self.now.intensity (in_period self.now.period (all ++ now ∷ []) now) }
    {
        is_crowded_with(&self.kept, self.intensity, self.period, now, &self.past)
    }

    /// Adds a restart at `now`, in milliseconds, and tells whether the period that ends then has too many.
    /// No stamp that isn't kept counts: the answer is the same for all stamps, of which the same are kept. By its code it takes
    /// no memory and looks at one stamp, however many there are.
    pub fn add(&mut self, now: u64) -> Within
        requires reserved { self.old.reserved ≡ true }
        requires latest { All (λ s. s ≤ now) self.old.stamps }
        ensures window { self.new ≡ record self.old { stamps = self.old.stamps ++ now ∷ []; reserved = false } }
        ensures answer { result ≡ within self.old.intensity self.old.period (self.old.stamps ++ now ∷ []) now }
        ensures by_kept { (all : List ℕ) → IsNonDecreasing all → All (λ s. s ≤ now) all → kept_of self.old.intensity all ≡ kept_of self.old.intensity self.old.stamps →
            result ≡ within self.old.intensity self.old.period (all ++ now ∷ []) now }
    {
        let is_crowded = self.would_exceed(now);
        push_kept(&mut self.kept, self.intensity, now);
        self.count = self.count.saturating_add(1);
        self.past = with_stamp(mem::replace(&mut self.past, PastStamps::new()), now);
        self.reserved = false;
        if is_crowded {
            Within::Exceeded
        } else {
            Within::Ok
        }
    }
}
