//! A supervisor of the tree: its core, and how many of its orders were taken.

ghost use Rattle.std.specs.Prelude.{◌≡◌, ◌==◌, not, ℕ, All, ◌+◌, ◌≤◌, ◌<◌, ◌^◌, ◌-◌, ◌⊎◌, [], false, true, Some, is_some, max, min, slice_get, length, option_map, IfErr, IfOk, IfSome, OnOk, OnErr};
ghost use Rattle.otp_base.specs.Change.{MayChange, changed};
ghost use Rattle.otp_core.specs.Happened.{HappenedAfter};
ghost use Rattle.otp_driver.specs.declared.driven.limits.TheConstants.{KEPT_EVENTS};
ghost use Rattle.otp_table.specs.Rows.{has_process};
ghost use Rattle.otp_rules.specs.Counts.{counts_of};
ghost use Rattle.otp_rules.specs.Ends.{last_stamps};
ghost use Rattle.otp_rules.specs.Next.{next_deadline, next_kind};
ghost use Rattle.otp_rules.specs.State.{is_over};
ghost use Rattle.otp_spec.specs.declared.limits.TheConstants.{MAX_READING};
ghost use Rattle.otp_base.specs.States.{state_in as state_of_base};
ghost use Rattle.otp_driver.specs.DrivenChanged.{IsUnchanged, IsUnchangedAs, IsUnchangedState, MayGoOn, changed_member};
ghost use Rattle.otp_driver.specs.Members.{Happens, HasNoRoom, IsRefused, has_order, passed, row_at, state_in, unopened};
ghost use Rattle.otp_driver.specs.Replies.{AreAnswered, IsKept, IsReplyIn};
ghost use Rattle.otp_driver.specs.declared.driven.fault.DriveFault.TheVariants.{OutOfMemory};
ghost use Rattle.otp_core.specs.View.{state_of};
ghost use Rattle.otp_rules.specs.Cuts.{short_base_of};
ghost use Rattle.otp_rules.specs.Fit.{IsDistinct};
ghost use Rattle.otp_rules.specs.Needs.{last_number, numbers_of};
ghost use Rattle.otp_rules.specs.declared.event.Effect.TheVariants as effect;

use crate::driven::fault::{ChangeRefusal, DriveFault, change_refusal, fault_of, resume_refusal};
use crate::driven::limits::KEPT_EVENTS;
use otp_base::change::change;
use otp_base::change::laws::children_stay;
use otp_core::{Base, Core, ReplyAnswer, laws};
use otp_rules::{CountsNow, Effect, Kind, Phase, Reply};
use otp_spec::{ChildSpec, MAX_READING, SupFlags, SupSpec};
use otp_table::Row;
use std::alloc::Global;
use std::collections::VecDeque;
use std::marker::Model;

/// A supervisor with its core. Contracts see all its events, the orders that are not forgotten yet, and how many of them,
/// the first, were taken.
#[derive(Drop)]
pub struct Supervisor {
    flags: SupFlags,
    core: Core,
    taken: usize,
    /// The place of the child that was looked for last. Nothing that contracts see depends on it.
    seen: usize,
}

impl Model for Supervisor {
    ghost use Rattle.otp_driver.specs.Members.{Member};

    ghost Value = { Member };

    ghost use Rattle.otp_driver.specs.MemberInside.{IsMember, member_of};

    ghost view = { member_of };

    ghost invariant = { IsMember };
}

/// The row at this place, if it has this process.
fn row_with(rows: &[Row], place: usize, number: u64) -> Option<&Row>
    ensures { IfSome result (λ row. (slice_get rows.now place ≡ Some row.now) × (has_process number row.now.state ≡ true)) }
{
    let row = rows.get(place)?;
    if row.state.has_process(number) {
        Some(row)
    } else {
        None
    }
}

/// Something happens to a core, of which only the last events are kept while no order waits. The answer is the last process
/// number then.
fn happen(core: &mut Core, reading: u64, kind: &Kind, last: u64) -> Result<u64, DriveFault>
    requires reading { reading ≤ MAX_READING }
    requires last { last < MAX_READING }
    requires numbers { (n : ℕ) → last < n → All (λ m. m < n) (numbers_of core.old.history) }
    ensures ok { IfOk result (λ after. HappenedAfter KEPT_EVENTS last reading kind.now core.old core.new after) }
    ensures err { OnErr result (core.new ≡ record core.old { prepared = core.new.prepared }) }
    ensures why { IfErr result (λ why. (why ≡ OutOfMemory) ⊎ HasNoRoom core.old.base core.old.history core.old.effects why) }
    ensures base { core.new.base ≡ core.old.base }
    ensures earlier { core.new.earlier ≡ core.old.earlier }
    ensures above { (n : ℕ) → n ≤ last → All (λ m. n < m) (numbers_of core.old.history) → All (λ m. n < m) (numbers_of core.new.history) }
    // What a cut drops is no answer that an order tells of.
    ensures answered { AreAnswered core.old → AreAnswered core.new }
{
    laws::answers_are_told();
    laws::cuts_agree();
    laws::runs_are_joined();
    match core.happen_after(KEPT_EVENTS, reading, kind, last) {
        Ok(after) => Ok(after),
        Err(cause) => Err(fault_of(cause)),
    }
}

/// The checkpoint of this core, under other flags and specifications.
fn changed_base(
    alloc: Global,
    core: &Core,
    flags: &SupFlags,
    specs: &[ChildSpec],
) -> Result<Base, ChangeRefusal>
    requires { core.now.effects ≡ [] }
    ensures state { IfOk result (λ base. state_of_base base ≡ changed flags.now specs.now (short_base_of (state_of core.now))) }
    ensures number { IfOk result (λ base. base.counts.greatest_number ≡ max core.now.earlier.greatest_number (last_number core.now.history)) }
    ensures possible { OnOk result (MayChange flags.now specs.now (short_base_of (state_of core.now))) }
    ensures fault { IfErr result (IsUnchangedState flags.now specs.now (short_base_of (state_of core.now))) }
{
    let old = core.checkpoint(alloc)?;
    match change(alloc, &old, flags, specs) {
        Ok(new) => Ok(new),
        Err(why) => Err(change_refusal(why)),
    }
}

/// A core that goes on from the checkpoint of this one, under other flags and specifications.
fn changed_core(
    alloc: Global,
    core: &Core,
    flags: &SupFlags,
    specs: &[ChildSpec],
) -> Result<Core, ChangeRefusal>
    requires effects { core.now.effects ≡ [] }
    requires apart { IsDistinct (core.now.earlier.greatest_number + 1) core.now.base }
    requires above { All (λ n. core.now.earlier.greatest_number < n) (numbers_of core.now.history) }
    ensures base { IfOk result (λ new. new.base ≡ changed flags.now specs.now (short_base_of (state_of core.now))) }
    ensures number { IfOk result (λ new. new.earlier.greatest_number ≡ max core.now.earlier.greatest_number (last_number core.now.history)) }
    ensures history { IfOk result (λ new. new.history ≡ []) }
    ensures cut { IfOk result (λ new. new.cut ≡ 0) }
    ensures effects { IfOk result (λ new. new.effects ≡ []) }
    ensures apart { IfOk result (λ new. IsDistinct (new.earlier.greatest_number + 1) new.base) }
    ensures possible { OnOk result (MayChange flags.now specs.now (short_base_of (state_of core.now))) }
    ensures fault { IfErr result (IsUnchangedAs flags.now specs.now (short_base_of (state_of core.now)) (max core.now.earlier.greatest_number (last_number core.now.history))) }
{
    laws::processes_are_owned();
    children_stay();
    let _lawful = core.history();
    let _greatest = core.greatest_number();
    let base = changed_base(alloc, core, flags, specs)?;
    match Core::resume(alloc, &base) {
        Ok(core) => Ok(core),
        Err(why) => Err(resume_refusal(why)),
    }
}

impl Supervisor {
    /// A supervisor that was never opened.
    pub fn new(alloc: Global, supervisor: SupSpec) -> Self
        ensures { result ≡ unopened supervisor.flags supervisor.specs }
    {
        Supervisor {
            flags: supervisor.flags(),
            core: Core::of(alloc, supervisor),
            taken: 0,
            seen: 0,
        }
    }

    /// Something happens at this reading of the clock. A child that is started gets the next number after `last`; the answer
    /// is the last number then.
    ///
    /// # Errors
    ///
    /// [`DriveFault::OutOfMemory`], [`DriveFault::OrdersWait`], [`DriveFault::Spent`].
    pub fn happen(&mut self, reading: u64, kind: &Kind, last: u64) -> Result<u64, DriveFault>
        requires { reading ≤ MAX_READING }
        ensures ok { IfOk result (λ after. Happens reading last kind.now self.old self.new after) }
        ensures err { OnErr result (self.new ≡ self.old) }
        ensures why { IfErr result (λ why. IsRefused last self.old why) }
    {
        if last >= MAX_READING || last < self.core.greatest_number() {
            return Err(DriveFault::Spent);
        }
        happen(&mut self.core, reading, kind, last)
    }

    /// The supervisor as it goes on under other flags and other specifications: a child of both keeps its process
    /// ([`change`]). It itself stays as it is.
    ///
    /// # Errors
    ///
    /// A [`ChangeRefusal`].
    pub fn changed(
        &self,
        alloc: Global,
        flags: &SupFlags,
        specs: &[ChildSpec],
    ) -> Result<Supervisor, ChangeRefusal>
        ensures ok { IfOk result (λ new. new ≡ changed_member flags.now specs.now self.now) }
        ensures possible { OnOk result (MayGoOn flags.now specs.now self.now) }
        ensures fault { IfErr result (IsUnchanged flags.now specs.now self.now) }
    {
        if self.keeps_orders() {
            return Err(ChangeRefusal::OrdersWait);
        }
        match changed_core(alloc, &self.core, flags, specs) {
            Ok(core) => Ok(Supervisor {
                flags: *flags,
                core,
                taken: 0,
                seen: 0,
            }),
            Err(why) => Err(why),
        }
    }

    /// The next order that was not taken.
    pub fn order(&self) -> Option<&Effect>
        ensures { option_map (λ o. o.now) result ≡ slice_get self.now.effects self.now.taken }
    {
        self.core.effects().get(self.taken)
    }

    /// The next order that was not taken is taken. After the last one all are forgotten.
    #[tactic(auto, unfolding(crate::specs::Members::passed))]
    pub fn pass(&mut self)
        ensures { self.new ≡ passed self.old }
    {
        let next = self.taken.saturating_add(1);
        if next < self.core.effects().len() {
            self.taken = next;
        } else {
            self.core.clear_effects();
            self.taken = 0;
        }
    }

    /// Whether an order was not taken.
    pub fn has_order(&self) -> bool
        ensures { result ≡ has_order self.now }
    {
        self.taken < self.core.effects().len()
    }

    /// Whether an order is kept: one that was not taken, or others before it.
    pub fn keeps_orders(&self) -> bool
        ensures { result ≡ not (length self.now.effects == 0) }
    {
        !self.core.effects().is_empty()
    }

    /// What it was opened with, the children aside.
    pub fn flags(&self) -> SupFlags
        ensures { result ≡ self.now.base.flags }
    {
        self.flags
    }

    /// The specifications that it was opened with; under simple_one_for_one the one that all children share.
    pub fn specs(&self) -> &[ChildSpec]
        ensures { result.now ≡ self.now.base.specs }
    {
        laws::step_keeps_plan();
        self.core.machine().specs.as_slice()
    }

    /// The children in start order.
    pub fn rows(&self) -> &[Row]
        ensures { result.now ≡ (state_in self.now).rows }
    {
        self.core.rows()
    }

    /// The child that has this process. Where it isn't the one that was looked for last, the core finds it by the number.
    #[tactic(auto, unfolding(crate::specs::Members::row_at))]
    pub fn child(&self, number: u64) -> Option<&Row>
        ensures { option_map (λ r. r.now) result ≡ row_at (state_in self.now).rows number }
    {
        if let Some(row) = self.seen_child(number) {
            return Some(row);
        }
        let place = self.core.find_process(number)?;
        self.core.rows().get(place)
    }

    /// The child that was looked for last, if it has this process: no other has it.
    fn seen_child(&self, number: u64) -> Option<&Row>
        ensures { IfSome result (λ row. row_at (state_in self.now).rows number ≡ Some row.now) }
    {
        laws::processes_are_owned();
        let _lawful = self.core.history();
        let _greatest = self.core.greatest_number();
        match row_with(self.core.rows(), self.seen, number) {
            Some(row) => Some(row),
            None => None,
        }
    }

    /// Looks for the child that has this process, so that it is found at once from then on.
    pub fn look_for(&mut self, number: u64)
        ensures { self.new ≡ self.old }
    {
        if self.seen_child(number).is_some() {
            return;
        }
        if let Some(place) = self.core.find_process(number) {
            self.seen = place;
        }
    }

    /// Whether it runs, and how it ended.
    pub fn phase(&self) -> Phase
        ensures { result ≡ (state_in self.now).phase }
    {
        self.core.phase()
    }

    /// Whether it was never opened, or has ended.
    pub fn has_ended(&self) -> bool
        ensures { result ≡ is_over (state_in self.now).phase }
    {
        self.core.has_ended()
    }

    /// Whether children are being stopped or started.
    pub fn has_open_work(&self) -> bool
        ensures { result ≡ is_some (state_in self.now).follows }
    {
        self.core.has_open_work()
    }

    /// What count_children would answer now.
    pub fn counts(&self) -> CountsNow
        ensures { result ≡ counts_of (state_in self.now) }
    {
        self.core.counts()
    }

    /// How many restarts there were since the last opening: exactly, below 2^64.
    pub fn count_restarts(&self) -> u64
        ensures { result ≡ min (length (state_in self.now).stamps) (2 ^ 64 - 1) }
    {
        self.core.count_restarts()
    }

    /// The times in milliseconds of the last restarts since then: all of them, or one more than the intensity.
    pub fn kept_restarts(&self) -> &VecDeque<u64>
        ensures { result.now.items ≡ last_stamps (state_in self.now).flags.intensity (state_in self.now).stamps }
    {
        self.core.kept_restarts()
    }

    /// What is known of the answer to the call with this number. It is kept until the next event comes after the order that
    /// tells of it was taken.
    pub fn reply(&self, call: u64) -> ReplyAnswer<&Reply>
        ensures last { IsReplyIn (λ r. r.now) call (state_in self.now).replies result }
        ensures kept { slice_get self.now.effects self.now.taken ≡ Some (effect.Reply call) → IsKept result }
    {
        laws::cuts_agree();
        laws::runs_are_joined();
        self.core.reply(call)
    }

    /// What it does next by itself at this reading of the clock.
    pub fn next_kind(&self, reading: u64, is_stopping: bool) -> Option<Kind>
        ensures { result ≡ next_kind (state_in self.now) reading is_stopping }
    {
        self.core.next_kind(reading, is_stopping)
    }

    /// Whether it does something next by itself at this reading of the clock.
    #[tactic(auto, unfolding(otp_rules::specs::Next::next_kind, otp_rules::specs::Next::idle_kind))]
    pub fn has_next(&self, reading: u64, is_stopping: bool) -> bool
        ensures { result ≡ is_some (next_kind (state_in self.now) reading is_stopping) }
    {
        if self.core.is_due(reading) {
            return true;
        }
        if self.core.has_open_work() {
            return false;
        }
        if is_stopping && !self.core.has_ended() {
            return true;
        }
        if self.core.has_waiting() {
            return true;
        }
        false
    }

    /// The least deadline in milliseconds of the children that were told to shut down.
    pub fn next_deadline(&self) -> Option<u64>
        ensures { result ≡ next_deadline (state_in self.now).rows }
    {
        self.core.next_deadline()
    }
}
