//! One event of a core, with the room and the memory for it.

ghost use Rattle.std.specs.Prelude.{ℕ, All, ◌≡◌, ◌<◌, ◌≤◌, false, true, is_some, MatchOption, IsTrue, IfOk, IfErr, OnOk, OnErr, length};
ghost use Rattle.otp_core.specs.Full.{is_full};
ghost use Rattle.otp_core.specs.Happened.{Happened, HappenedAfter, HasNoRoom, IsEventFault, cut_before};
ghost use Rattle.otp_core.specs.View.{state_of};
ghost use Rattle.otp_rules.specs.Needs.{needs_number, numbers_of};
ghost use Rattle.otp_core.specs.declared.cut.TheConstants.{MAX_EVENTS_IN_ALL};
ghost use Rattle.otp_spec.specs.declared.limits.TheConstants.{MAX_READING};

use crate::cut::CutFault;
use crate::supervisor::Core;
use otp_machine::{Counter, Numbers};
use otp_rules::Kind;
use std::alloc::AllocError;
use thiserror::Error;

/// Why an event doesn't happen.
#[derive(Clone, Copy, Debug, PartialEq, Eq, Error)]
pub enum EventFault {
    /// E0: there is no memory for the event.
    #[error("out of memory")]
    OutOfMemory,
    /// The core is full, and its effects weren't cleared: a cut would drop the answers that they tell of.
    #[error("orders wait to be cleared")]
    OrdersWait,
    /// E8: there were as many events as there may be in all, [`MAX_EVENTS_IN_ALL`](crate::MAX_EVENTS_IN_ALL).
    #[error("history full")]
    HistoryFull,
}

impl From<AllocError> for EventFault {
    ghost use Rattle.std.specs.Prelude.{◌≡◌};
    ghost use Rattle.otp_core.specs.declared.happening.EventFault.TheVariants.{OutOfMemory};

    ghost from_gives = { λ _ fault. fault ≡ OutOfMemory };

    fn from(_error: AllocError) -> Self {
        EventFault::OutOfMemory
    }
}

impl From<CutFault> for EventFault {
    ghost use Rattle.std.specs.Prelude.{◌≡◌};
    ghost use Rattle.otp_core.specs.declared.happening.EventFault.TheVariants.{HistoryFull};

    ghost from_gives = { λ _ fault. fault ≡ HistoryFull };

    fn from(_error: CutFault) -> Self {
        EventFault::HistoryFull
    }
}

impl Core {
    /// What happens now, with the room and the memory for it: a cut where one is due under this limit
    /// ([`Core::make_room`]), the memory ([`Core::prepare`]), and the step ([`Core::step_with`]), whose number is the
    /// answer. Effects that are there stay before those of the event. Nothing is cut off while there are any, as they may
    /// tell of answers that a cut drops.
    ///
    /// # Errors
    ///
    /// An [`EventFault`]. Then nothing has happened and no number was drawn, so the same may be told again.
    pub fn happen<N: Numbers>(
        &mut self,
        limit: usize,
        reading: u64,
        kind: &Kind,
        numbers: &mut N,
    ) -> Result<Option<u64>, EventFault>
        requires reading { reading ≤ MAX_READING }
        requires number { IsTrue (needs_number (state_of self.old) reading kind.now) → N.can_give numbers.old }
        requires rises { (n : ℕ) (after : N) → N.gives numbers.old n after → All (λ m. m < n) (numbers_of self.old.history) }
        ensures number { IfOk result (λ number. is_some number ≡ needs_number (state_of self.old) reading kind.now) }
        ensures drawn { IfOk result (λ number. MatchOption number (numbers.new ≡ numbers.old) (λ n. N.gives numbers.old n numbers.new)) }
        ensures happened { IfOk result (λ number. Happened limit (record { reading = reading; number = number; kind = kind.now }) self.old self.new) }
        ensures events { OnOk result (length self.old.history < MAX_EVENTS_IN_ALL) }
        ensures err { OnErr result (self.new ≡ record self.old { prepared = self.new.prepared }) }
        ensures undrawn { OnErr result (numbers.new ≡ numbers.old) }
        ensures why { IfErr result (IsEventFault self.old) }
    {
        self.make_ready(limit)?;
        Ok(self.step_with(reading, kind, numbers))
    }

    /// What happens now, as of [`Core::happen`], where process numbers are counted: a child that is started gets the next one after
    /// `last`. The answer is the last number then.
    ///
    /// # Errors
    ///
    /// As of [`Core::happen`].
    pub fn happen_after(
        &mut self,
        limit: usize,
        reading: u64,
        kind: &Kind,
        last: u64,
    ) -> Result<u64, EventFault>
        requires reading { reading ≤ MAX_READING }
        requires last { last ≤ MAX_READING }
        requires rises { (n : ℕ) → last < n → All (λ m. m < n) (numbers_of self.old.history) }
        ensures ok { IfOk result (λ after. HappenedAfter limit last reading kind.now self.old self.new after) }
        ensures events { OnOk result (length self.old.history < MAX_EVENTS_IN_ALL) }
        ensures err { OnErr result (self.new ≡ record self.old { prepared = self.new.prepared }) }
        ensures why { IfErr result (IsEventFault self.old) }
    {
        let mut numbers = Counter { last };
        let _number = self.happen(limit, reading, kind, &mut numbers)?;
        Ok(numbers.last)
    }

    /// Takes the memory of the next event, and makes room for it.
    fn make_ready(&mut self, limit: usize) -> Result<(), EventFault>
        ensures core { self.new ≡ record self.old { cut = self.new.cut; prepared = self.new.prepared } }
        ensures cut { OnOk result (self.new.cut ≡ cut_before limit self.old) }
        ensures kept { OnErr result (self.new.cut ≡ self.old.cut) }
        ensures prepared { OnOk result (self.new.prepared ≡ true) }
        ensures room { OnOk result (is_full self.new ≡ false) }
        ensures events { OnOk result (length self.old.history < MAX_EVENTS_IN_ALL) }
        ensures why { IfErr result (IsEventFault self.old) }
    {
        self.prepare()?;
        self.make_room_if_cleared(limit)?;
        Ok(())
    }

    /// Makes room where the effects were cleared. Where they weren't, there must be room.
    fn make_room_if_cleared(&mut self, limit: usize) -> Result<(), EventFault>
        ensures core { self.new ≡ record self.old { cut = self.new.cut } }
        ensures cut { OnOk result (self.new.cut ≡ cut_before limit self.old) }
        ensures err { OnErr result (self.new ≡ self.old) }
        ensures room { OnOk result (is_full self.new ≡ false) }
        ensures events { OnOk result (length self.old.history < MAX_EVENTS_IN_ALL) }
        ensures why { IfErr result (HasNoRoom self.old) }
    {
        if self.is_spent() {
            return Err(EventFault::HistoryFull);
        }
        if self.effects().is_empty() {
            self.make_room(limit)?;
            return Ok(());
        }
        if self.is_full() {
            Err(EventFault::OrdersWait)
        } else {
            Ok(())
        }
    }
}
