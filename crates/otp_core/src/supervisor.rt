//! A supervisor's core: its history, and the state that the rules give for it.

ghost use Rattle.std.specs.Prelude.{ℕ, All, ◌≡◌, ◌+◌, ◌-◌, ◌<◌, ◌≤◌, ◌^◌, ◌↔◌, ◌++◌, ◌∷◌, [], true, false, length, not, is_some, is_none, nat_lt, max, min, IsTrue, None, Some, IfOk, IfErr, OnOk, OnErr, MatchOption, position, slice_get, vec_len, vec_capacity};
ghost use Rattle.std.specs.List.{filter, list_any};
ghost use Rattle.otp_core.specs.Again.{starts_again};
ghost use Rattle.otp_core.specs.View.{new_core, past_of, state_of, stored_of, stored_state};
ghost use Rattle.otp_core.specs.Opened.{IsOpenFault};
ghost use Rattle.otp_core.specs.Full.{cut_after, has_most_events, has_most_lines, is_full, wants_cut};
ghost use Rattle.otp_core.specs.Replies.{IsKept, IsReplyAnswer, greatest_dropped};
ghost use Rattle.otp_rules.specs.Cuts.{is_at_most, is_open_call};
ghost use Rattle.otp_rules.specs.Counts.{counts_of};
ghost use Rattle.otp_rules.specs.Effects.{is_reply};
ghost use Rattle.otp_rules.specs.Needs.{IsLawfulHistory, last_number, needs_number, numbers_of};
ghost use Rattle.otp_rules.specs.Next.{has_come, idle_kind, next_deadline, next_kind};
ghost use Rattle.otp_rules.specs.Rate.{IsRated};
ghost use Rattle.otp_rules.specs.Run.{reply_of};
ghost use Rattle.otp_spec.specs.Supervisor.{supervisor_fault};
ghost use Rattle.otp_spec.specs.declared.limits.TheConstants.{MAX_CHILDREN, MAX_EVENTS, MAX_READING};
ghost use Rattle.otp_core.specs.declared.cut.TheConstants.{MAX_EVENTS_IN_ALL, MAX_KEPT_LINES};
ghost use Rattle.otp_core.specs.CoreInside.{one_if};
ghost use Rattle.otp_core.specs.Resumed.{counted, GoesOn};
ghost use Rattle.otp_base.specs.Lawful.{AreCounts, IsLawful, IsResumeFault};
ghost use Rattle.otp_machine.specs.Seen.{IsSound, outcome_of};
ghost use Rattle.otp_rules.specs.Evidence.{IsShowing};
ghost use Rattle.otp_base.specs.States.{state_in};
ghost use Rattle.otp_rules.specs.Cuts.{short_base_of};
ghost use Rattle.otp_rules.specs.State.{is_over, own_number};
ghost use Rattle.otp_table.specs.Rows.{has_process, row_has};
ghost use Rattle.otp_rules.specs.Stops.{is_exit};
ghost use Rattle.otp_rules.specs.Step.{is_late, step};
ghost use Rattle.otp_rules.specs.Ends.{last_stamps};

use crate::cut::{CutFault, MAX_EVENTS_IN_ALL, MAX_KEPT_LINES};
use crate::opening::OpenFault;
use crate::reply::ReplyAnswer;
use otp_base::{Base, BaseState, Counts, ResumeFault, base_at, machine_at, origin_of};
use otp_machine::decisions::effects::{count_orders, move_orders};
use otp_machine::decisions::next::{has_late, next_deadline};
use otp_machine::decisions::state::{answers_call, is_over, own_number};
use otp_machine::stores::answers::{Answers, greater_of};
use otp_machine::stores::history::History;
use otp_machine::stores::waits::Waits;
use otp_machine::{Given, Machine, Numbers};
use otp_rules::{CountsNow, Effect, Event, Kind, Phase, Reply, Sequel, SupEnd, Waiting, laws};
use otp_spec::{ChildSpec, MAX_EVENTS, SupFlags, SupSpec, check_supervisor, copy_specs};
use otp_table::{Row, Rows};
use otp_window::Window;
use std::alloc::{AllocError, Global};
use std::collections::VecDeque;
use std::marker::Model;

/// For how many more items there is memory without growing, as a `Vec`'s capacity beside its length.
#[derive(Clone, Copy, Debug, PartialEq, Eq)]
pub struct Spare {
    pub events: usize,
    pub orders: usize,
    pub answers: usize,
}

/// The core of one supervisor. Contracts see its history, all of it; its state is what the rules give for that history. Stored
/// are the events since the last cut ([`Core::cut`]).
///
/// It is driven by a loop; whoever has it tells it what happens, and carries out its orders:
///
/// ```text
/// let mut core = Core::open(alloc, flags, specs)?;         // lawful flags and specifications
/// let mut numbers = Counter { last: core.greatest_number() }; // whatever gives process numbers
/// let mut next = Some(Kind::Opened(own));
/// while let Some(kind) = next {
///     core.happen(MAX_EVENTS, clock, &kind, &mut numbers)?; // decides; memory may be refused
///     carry_out(core.effects());                           // start, ask, kill; answers by Core::reply
///     core.clear_effects();
///     next = core.next_kind(clock, is_stop_wanted)         // what comes next by itself
///         .or_else(|| inbox.take().map(Kind::Took));       // else a note of a child, or a call
/// }
/// ```
///
/// It ends when [`Core::has_ended`]; until [`Core::next_deadline`] it may wait for its inbox. Whoever counts process numbers has
/// [`Core::happen_after`]. Whoever takes an item only where its event is sure to come has [`Core::happen`] in three:
/// [`Core::make_room`], [`Core::prepare`], [`Core::step_with`].
///
/// # Memory
///
/// A reckoning from the layouts, which nothing proves. A stored event takes 32 bytes, and 64 more for the term of a reason or
/// 216 for a call; an answer takes 232, and an end 144 beside its restart times. A line of a list of children takes 192, and
/// no more than 65,791 of them are kept (12 MiB). So under a limit of `n` events ([`Core::make_room`]) a core holds at most
/// 480 `n` bytes and those lines, 42 MiB under [`MAX_EVENTS`], and lists that have room ahead hold up to as much again. A cut
/// bounds neither the rows (288 bytes each, at most 256) nor what waits, nor effects that aren't cleared.
#[derive(Drop)]
pub struct Core {
    machine: Machine,
    history: History,
    /// The state at which the history begins. It has no bytes.
    origin: BaseState,
    /// What the checkpoint counted from which the core was resumed.
    earlier: Counts,
    /// The last process number that an event gave.
    last_number: u64,
    /// The greatest number of a call whose answer a cut dropped, if one did.
    gone_call: Option<u64>,
    /// How many events were cut off, and how many children all events started.
    events_cut: u64,
    starts: u64,
    prepared: bool,
}

impl Model for Core {
    ghost use Rattle.otp_core.specs.View.{View};

    ghost Value = { View };

    ghost use Rattle.otp_core.specs.CoreInside.{view_of, IsCore};

    ghost view = { view_of };

    ghost invariant = { IsCore };
}

impl Core {
    /// A core that was never opened, for children of these specifications, which are tested and copied.
    ///
    /// # Errors
    ///
    /// The first fault, as [`check_supervisor`] has it, or that there is no memory for the copy.
    pub fn open(alloc: Global, flags: SupFlags, specs: &[ChildSpec]) -> Result<Core, OpenFault>
        ensures ok { OnOk result (supervisor_fault flags specs.now ≡ None) }
        ensures core { IfOk result (λ core. core ≡ new_core flags specs.now) }
        ensures fault { IfErr result (λ why. IsOpenFault why (supervisor_fault flags specs.now)) }
        ensures limit { OnOk result (length specs.now ≤ MAX_CHILDREN) }
    {
        if let Err(fault) = check_supervisor(&flags, specs) {
            return Err(OpenFault::Spec(fault));
        }
        let Ok(specs) = copy_specs(alloc, specs) else {
            return Err(OpenFault::OutOfMemory);
        };
        Ok(Core::of(alloc, SupSpec::new(flags, specs)))
    }

    /// A core that was never opened, for what was tested before: nothing is tested again or copied. By its code no memory is taken.
    pub fn of(alloc: Global, supervisor: SupSpec) -> Core
        ensures core { result ≡ new_core supervisor.flags supervisor.specs }
        ensures limit { length supervisor.specs ≤ MAX_CHILDREN }
    {
        let (flags, specs) = supervisor.into_parts();
        let window = Window::new(alloc, flags.intensity, flags.period);
        let machine = Machine {
            strategy: flags.strategy,
            auto_shutdown: flags.auto_shutdown,
            window,
            specs,
            rows: Rows::new(alloc),
            to_stop: Vec::new(alloc),
            to_start: VecDeque::new(alloc),
            follows: None,
            waiting: Waits::new(alloc),
            replies: Answers::new(alloc),
            ends: Vec::new(alloc),
            last: 0,
            phase: Phase::Unopened,
            orders: Vec::new(alloc),
            spare_lines: Vec::new(alloc),
            spare_stamps: Vec::new(alloc),
            spare_kept_stamps: Vec::new(alloc),
        };
        laws::restart_rate();
        Core::begin(alloc, machine, Counts::new())
    }

    /// A core that goes on from a checkpoint ([`Core::checkpoint`]), which is copied: it gives the same orders for the same
    /// later events as the one that the checkpoint was made of. Its processes are none of its business: whoever resumes it has
    /// them still, or tells it of their ends. Process numbers go on above [`Core::greatest_number`].
    ///
    /// # Errors
    ///
    /// The first fault of the checkpoint, where no core stands so, or E0 where there is no memory. The checkpoint stays as it is.
    pub fn resume(alloc: Global, base: &Base) -> Result<Core, ResumeFault>
        ensures core { IfOk result (λ core. core ≡ record { base = state_in base.now; earlier = base.now.counts; history = []; cut = 0; effects = []; prepared = false }) }
        ensures lawful { OnOk result (IsLawful base.now) }
        ensures fault { IfErr result (IsResumeFault base.now) }
    {
        let machine = machine_at(alloc, base)?;
        Ok(Core::begin(alloc, machine, base.counts))
    }

    fn begin(alloc: Global, machine: Machine, earlier: Counts) -> Core
        requires orders { (outcome_of machine).orders ≡ [] }
        requires replies { (outcome_of machine).state.replies ≡ [] }
        requires ends { (outcome_of machine).state.ends ≡ [] }
        requires sound { IsSound machine }
        requires shows { IsShowing (outcome_of machine).state }
        requires rated { IsRated (outcome_of machine).state }
        requires counts { AreCounts earlier }
        ensures { result ≡ record { base = (outcome_of machine).state; earlier = earlier; history = []; cut = 0; effects = []; prepared = false } }
    {
        let origin = origin_of(&machine);
        Core {
            machine,
            history: History::new(alloc),
            origin,
            earlier,
            last_number: 0,
            gone_call: earlier.greatest_call,
            events_cut: 0,
            starts: 0,
            prepared: false,
        }
    }

    /// A checkpoint as plain data, which may be written out: a core that is resumed from it goes on as this one
    /// ([`Core::resume`]). Of the restarts it has the last, one more than the intensity, since no older one counts; answers and
    /// ends aren't in it. The core itself stays as it is.
    ///
    /// # Errors
    ///
    /// Where memory is refused.
    pub fn checkpoint(&self, alloc: Global) -> Result<Base, AllocError>
        requires { self.now.effects ≡ [] }
        ensures state { IfOk result (λ base. state_in base ≡ short_base_of (state_of self.now)) }
        ensures counts { IfOk result (λ base. base.counts ≡ counted self.now) }
        ensures goes_on { GoesOn (state_of self.now) }
    {
        laws::cuts_agree();
        laws::end_evidence();
        base_at(alloc, &self.machine, self.count())
    }

    /// What a checkpoint counts now.
    fn count(&self) -> Counts
        ensures { result ≡ counted self.now }
    {
        Counts {
            events: self.earlier.events + self.events_cut + self.history.len() as u64,
            starts: self.earlier.starts + self.starts,
            restarts: self.count_restarts(),
            greatest_number: self.greatest_number(),
            greatest_call: greater_of(self.gone_call, self.machine.replies.greatest()),
        }
    }

    /// Whether the memory of the next event is there.
    pub fn is_prepared(&self) -> bool
        ensures { result ≡ self.now.prepared }
    {
        self.prepared
    }

    /// Whether no further event is taken before a cut ([`Core::cut`]): the history holds [`MAX_EVENTS`] events, or the answers
    /// since the last cut list [`MAX_KEPT_LINES`] children or more.
    pub fn is_full(&self) -> bool
        ensures full { result ≡ is_full self.now }
        ensures events { result ≡ false → length (stored_of self.now) < MAX_EVENTS }
    {
        self.has_most_events() || self.has_most_lines()
    }

    fn has_most_events(&self) -> bool
        ensures { result ≡ has_most_events self.now }
    {
        self.history.len() >= MAX_EVENTS
    }

    fn has_most_lines(&self) -> bool
        ensures { result ≡ has_most_lines self.now }
    {
        self.machine.replies.has_lines(MAX_KEPT_LINES)
    }

    /// The orders of all events since they were last cleared, in order.
    pub fn effects(&self) -> &[Effect]
        ensures { result.now ≡ self.now.effects }
    {
        &self.machine.orders
    }

    /// All events, in order. They have numbers exactly where they started a child, and these rise.
    pub fn history(&self) -> &History
        ensures value { result.now.events ≡ stored_of self.now }
        ensures past { result.now.past ≡ past_of self.now }
        ensures lawful { IsLawfulHistory self.now.base self.now.history }
    {
        &self.history
    }

    /// The times in milliseconds of the last restarts since the last opening, in order: all of them, or one more than the
    /// intensity, since no older one counts. No period has more restarts than the intensity, but for the last one of a
    /// supervisor that ends by it (Supervisor Behaviour, Maximum Restart Intensity).
    pub fn kept_restarts(&self) -> &VecDeque<u64>
        ensures value { result.now.items ≡ last_stamps (state_of self.now).flags.intensity (state_of self.now).stamps }
        ensures rate { IsRated (state_of self.now) }
    {
        laws::restart_rate();
        self.machine.window.kept()
    }

    /// How many restarts there were since the last opening: exactly, below 2^64.
    pub fn count_restarts(&self) -> u64
        ensures { result ≡ min (length (state_of self.now).stamps) (2 ^ 64 - 1) }
    {
        self.machine.window.count()
    }

    /// How many orders there are beside replies: so many [`Core::move_orders`] moves.
    pub fn count_orders(&self) -> usize
        ensures { result ≡ length (filter (λ effect. not (is_reply effect)) self.now.effects) }
    {
        count_orders(&self.machine.orders)
    }

    /// Moves the orders but for replies, in order, into a list that has room, and clears the effects.
    /// A step gives one more of them than there were rows at most ([`otp_rules::laws::orders_are_few`]).
    pub fn move_orders(&mut self, list: &mut Vec<Effect>)
        requires { vec_len list.old + length (filter (λ effect. not (is_reply effect)) self.old.effects) ≤ vec_capacity list.old }
        ensures orders { list.new.items ≡ list.old.items ++ filter (λ effect. not (is_reply effect)) self.old.effects }
        ensures core { self.new ≡ record self.old { effects = [] } }
    {
        move_orders(&mut self.machine.orders, list);
    }

    pub fn clear_effects(&mut self)
        ensures { self.new ≡ record self.old { effects = [] } }
    {
        self.machine.orders.clear();
    }

    /// Whether the supervisor runs, and under which number of its own.
    pub fn phase(&self) -> Phase
        ensures value { result ≡ (state_of self.now).phase }
        ensures stored { result ≡ (stored_state self.now).phase }
    {
        self.machine.phase
    }

    /// The supervisor's own process number, of the last opening. 0 where there was none.
    pub fn own_number(&self) -> u64
        ensures { result ≡ own_number (state_of self.now).phase }
    {
        own_number(self.machine.phase)
    }

    /// The children in start order, at most [`otp_spec::MAX_CHILDREN`].
    pub fn rows(&self) -> &[Row]
        ensures value { result.now ≡ (state_of self.now).rows }
        ensures limit { length (state_of self.now).rows ≤ MAX_CHILDREN }
    {
        self.machine.rows.as_slice()
    }

    /// The place among its children ([`Core::rows`]) of the one whose process has this number, if one has. The place where such a
    /// number stands most likely is looked at first, and all children only where another stands there.
    pub fn find_process(&self, number: u64) -> Option<usize>
        ensures { result ≡ position (row_has (has_process number)) (state_of self.now).rows }
    {
        self.machine.rows.find_process(number)
    }

    /// Whether children are being stopped or started.
    pub fn has_open_work(&self) -> bool
        ensures { result ≡ is_some (state_of self.now).follows }
    {
        self.machine.follows.is_some()
    }

    /// Whether children are being started that had processes before, since the supervisor opened: by a restart, also that of another
    /// child, or by restart_child.
    pub fn starts_again(&self) -> bool
        ensures { result ≡ starts_again (state_of self.now).follows }
    {
        matches!(
            self.machine.follows,
            Some(Sequel::Nothing | Sequel::Restarted(_))
        )
    }

    /// Whether the supervisor was never opened, or has ended.
    pub fn has_ended(&self) -> bool
        ensures { result ≡ is_over (state_of self.now).phase }
    {
        is_over(self.machine.phase)
    }

    /// Whether an item waits until no work is open.
    pub fn has_waiting(&self) -> bool
        ensures { result ≡ nat_lt 0 (length (state_of self.now).waiting) }
    {
        !self.machine.waiting.is_empty()
    }

    /// Whether the end of this process waits until no work is open.
    pub fn has_exit_waiting(&self, number: u64) -> bool
        ensures { result ≡ is_some (position (is_exit number) (state_of self.now).waiting) }
    {
        self.machine.waiting.find_exit(number).is_some()
    }

    /// The item that waits first. [`Kind::Resumed`] takes it.
    pub fn first_waiting(&self) -> Option<Waiting>
        ensures { result ≡ slice_get (state_of self.now).waiting 0 }
    {
        self.machine.waiting.first()
    }

    /// Whether a child is to be killed at this reading of the clock: it was told to shut down, and its deadline has come.
    pub fn is_due(&self, reading: u64) -> bool
        ensures { result ≡ list_any (λ row. is_late (max reading (state_of self.now).last) row.state) (state_of self.now).rows }
    {
        has_late(self.machine.last.max(reading), &self.machine.rows)
    }

    /// The least deadline in milliseconds of the children that were told to shut down: once the clock has come to it,
    /// [`Core::is_due`].
    pub fn next_deadline(&self) -> Option<u64>
        ensures least { result ≡ next_deadline (state_of self.now).rows }
        ensures due { (now : ℕ) → list_any (λ row. is_late now row.state) (state_of self.now).rows ≡ has_come now result }
    {
        laws::deadlines_come();
        next_deadline(&self.machine.rows)
    }

    /// The event that comes next without an item of the inbox, at this reading of the clock: a kill whose deadline has
    /// come; or, where no work is open, the stop that the parent wants, and then what waits first.
    #[tactic(auto, unfolding(otp_rules::specs::Next::next_kind))]
    pub fn next_kind(&self, reading: u64, is_stop_wanted: bool) -> Option<Kind>
        ensures { result ≡ next_kind (state_of self.now) reading is_stop_wanted }
    {
        if self.is_due(reading) {
            return Some(Kind::Ticked);
        }
        self.idle_kind(is_stop_wanted)
    }

    /// The event that comes next without an item of the inbox, deadlines apart: for a caller that tells the core each reading of
    /// the clock as it comes.
    #[tactic(auto, unfolding(otp_rules::specs::Next::idle_kind))]
    pub fn idle_kind(&self, is_stop_wanted: bool) -> Option<Kind>
        ensures { result ≡ idle_kind (state_of self.now) is_stop_wanted }
    {
        if self.has_open_work() {
            return None;
        }
        if is_stop_wanted && !self.has_ended() {
            return Some(Kind::Stopped);
        }
        if self.has_waiting() {
            return Some(Kind::Resumed);
        }
        None
    }

    /// The answer to the call with this number, if it was given since the cut.
    fn kept_reply(&self, call: u64) -> Option<&Reply>
        ensures { MatchOption result (reply_of call (stored_state self.now).replies ≡ None) (λ r. reply_of call (stored_state self.now).replies ≡ Some r.now) }
    {
        self.machine.replies.find(call)
    }

    /// Whether the call was taken, and is still to be answered.
    pub fn is_open_call(&self, call: u64) -> bool
        ensures { result ≡ is_open_call call (state_of self.now) }
    {
        answers_call(call, self.machine.follows) || self.machine.waiting.has_call(call)
    }

    /// What is known of the answer to the call with this number: it is kept where it was given since the last cut
    /// ([`Core::cut`]). Else a cut may have dropped it, or it was not given so far. A call that was never taken is gone too where
    /// the answer to a later one was dropped, and may still be answered.
    pub fn reply(&self, call: u64) -> ReplyAnswer<&Reply>
        ensures { IsReplyAnswer (λ r. r.now) call self.now result }
    {
        match self.kept_reply(call) {
            Some(reply) => ReplyAnswer::Kept(reply),
            None => self.unkept(call),
        }
    }

    /// What is known of an answer that isn't kept.
    fn unkept(&self, call: u64) -> ReplyAnswer<&Reply>
        requires { reply_of call (stored_state self.now).replies ≡ None }
        ensures { IsReplyAnswer (λ r. r.now) call self.now result }
    {
        if is_at_most(call, self.gone_call) && !self.is_open_call(call) {
            ReplyAnswer::Gone
        } else {
            ReplyAnswer::NotYet
        }
    }

    /// The greatest number of a call whose answer a cut dropped, if one did.
    pub fn greatest_dropped_call(&self) -> Option<u64>
        ensures { result ≡ greatest_dropped self.now }
    {
        self.gone_call
    }

    /// The end of each opening that ended since the cut, with the supervisor's own number then, in their order.
    pub fn ends(&self) -> &[(u64, SupEnd)]
        ensures { result.now ≡ (stored_state self.now).ends }
    {
        &self.machine.ends
    }

    /// What count_children would answer now.
    pub fn counts(&self) -> CountsNow
        ensures counts { result ≡ counts_of (state_of self.now) }
        ensures specs { result.specs ≤ MAX_CHILDREN }
        ensures active { result.active ≤ MAX_CHILDREN }
        ensures supervisors { result.supervisors ≤ MAX_CHILDREN }
        ensures workers { result.workers ≤ MAX_CHILDREN }
    {
        self.machine.counts()
    }

    /// What the core decides by, for crates that ask the rules something before a step. It tells the state of the stored
    /// events.
    pub fn machine(&self) -> &Machine
        ensures sound { IsSound result.now }
        ensures state { (outcome_of result.now).state ≡ stored_state self.now }
    {
        &self.machine
    }

    /// The last process number that an event of the history gave to a child, or 0 where none did. A core that was resumed has
    /// children of before: [`Core::greatest_number`] counts these too.
    pub fn last_number(&self) -> u64
        ensures last { result ≡ last_number self.now.history }
        ensures next { (n : ℕ) → result < n → All (λ m. m < n) (numbers_of self.now.history) }
    {
        self.last_number
    }

    /// The greatest process number that was given to a child, also before the checkpoint from which the core was resumed; or 0.
    /// Any above it may be the next.
    pub fn greatest_number(&self) -> u64
        ensures greatest { result ≡ max self.now.earlier.greatest_number (last_number self.now.history) }
        ensures next { (n : ℕ) → result < n → All (λ m. m < n) (numbers_of self.now.history) }
    {
        self.earlier.greatest_number.max(self.last_number)
    }

    /// For how many more events, orders and answers there is memory. Where the core is prepared, that is at least what
    /// any event needs. That lists which grow take as much again as they hold and no more, a test shows.
    pub fn spare(&self) -> Spare
        ensures events { IsTrue self.now.prepared → 0 < result.events }
        ensures orders { IsTrue self.now.prepared → length (state_of self.now).rows + 1 < result.orders }
        ensures answers { IsTrue self.now.prepared → 1 < result.answers }
    {
        Spare {
            events: self.history.spare(),
            orders: self.machine.orders.capacity() - self.machine.orders.len(),
            answers: self.machine.replies.spare(),
        }
    }

    /// Makes a checkpoint: the state is the base from now on. The events before it are no longer stored, nor are the answers
    /// to calls and the ends that they gave; nothing that happens later depends on those ([`laws::cuts_agree`]). Their memory
    /// is kept for what comes, and none is taken.
    ///
    /// # Errors
    ///
    /// E8, and nothing changes, where there were more events than [`MAX_EVENTS_IN_ALL`].
    pub fn cut(&mut self) -> Result<(), CutFault>
        requires { self.old.effects ≡ [] }
        ensures ok { OnOk result (self.new ≡ record self.old { cut = length self.old.history }) }
        ensures past { OnOk result (past_of self.new ≡ self.old.history) }
        ensures stored { OnOk result (stored_of self.new ≡ []) }
        ensures room { OnOk result (is_full self.new ≡ false) }
        ensures within { OnOk result (length self.old.history ≤ MAX_EVENTS_IN_ALL) }
        ensures err { OnErr result (self.new ≡ self.old) }
        ensures full { OnErr result (MAX_EVENTS_IN_ALL < length self.old.history) }
    {
        if self.can_cut() {
            self.cut_off();
            Ok(())
        } else {
            Err(CutFault::HistoryFull)
        }
    }

    fn cut_off(&mut self)
        requires effects { self.old.effects ≡ [] }
        requires room { length self.old.history ≤ MAX_EVENTS_IN_ALL }
        ensures cut { self.new ≡ record self.old { cut = length self.old.history } }
        ensures past { past_of self.new ≡ self.old.history }
        ensures stored { stored_of self.new ≡ [] }
    {
        self.events_cut += self.history.len() as u64;
        self.gone_call = greater_of(self.gone_call, self.machine.replies.greatest());
        self.machine.forget();
        self.history.cut();
    }

    /// Makes room for another event: a checkpoint where the history holds as many events as this limit, or where the core is
    /// full; else nothing changes. A loop that begins each event with it never finds the core full, and holds no more memory
    /// than under that limit. [`MAX_EVENTS`] is the greatest limit that makes a difference.
    ///
    /// # Errors
    ///
    /// As of [`Core::cut`].
    pub fn make_room(&mut self, limit: usize) -> Result<(), CutFault>
        requires { self.old.effects ≡ [] }
        ensures core { self.new ≡ record self.old { cut = self.new.cut } }
        ensures cut { OnOk result (self.new.cut ≡ cut_after limit self.old) }
        ensures room { OnOk result (is_full self.new ≡ false) }
        ensures stored { OnOk result (length (stored_of self.new) < max limit 1) }
        ensures err { OnErr result (self.new ≡ self.old) }
        ensures full { OnErr result (MAX_EVENTS_IN_ALL < length self.old.history) }
    {
        if self.wants_cut(limit) {
            self.cut()
        } else {
            Ok(())
        }
    }

    fn wants_cut(&self, limit: usize) -> bool
        ensures { result ≡ wants_cut limit self.now }
    {
        self.history.len() >= limit || self.is_full()
    }

    /// Whether there are no more events in all than a checkpoint counts ([`MAX_EVENTS_IN_ALL`]).
    pub fn can_cut(&self) -> bool
        ensures { IsTrue result ↔ (length self.now.history ≤ MAX_EVENTS_IN_ALL) }
    {
        self.history.len() as u64 <= MAX_EVENTS_IN_ALL - self.events_cut
    }

    /// Whether there were as many events in all as a checkpoint counts.
    pub fn is_spent(&self) -> bool
        ensures { IsTrue result ↔ (MAX_EVENTS_IN_ALL ≤ length self.now.history) }
    {
        self.history.len() as u64 >= MAX_EVENTS_IN_ALL - self.events_cut
    }

    /// How many events were cut off before those that are stored.
    pub fn events_cut(&self) -> u64
        ensures { result ≡ self.now.cut }
    {
        self.events_cut
    }

    /// How many children all events started, those that were cut off too.
    pub fn count_starts(&self) -> u64
        ensures { result ≡ length (numbers_of self.now.history) }
    {
        self.starts
    }

    /// Takes the memory of the next event. An `Err` leaves the core as it was.
    pub fn prepare(&mut self) -> Result<(), AllocError>
        ensures ok { OnOk result (self.new ≡ record self.old { prepared = true }) }
        ensures err { OnErr result (self.new ≡ self.old) }
    {
        if self.prepared {
            return Ok(());
        }
        self.machine.prepare()?;
        self.history.reserve(1)?;
        self.prepared = true;
        Ok(())
    }

    /// What happens now, at this reading of the clock in milliseconds. A number is drawn exactly where a child is
    /// started, and is the answer; it is to be above [`Core::last_number`].
    /// It takes no memory by its code; its orders are put behind the effects that are there.
    pub fn step_with<N: Numbers>(
        &mut self,
        reading: u64,
        kind: &Kind,
        numbers: &mut N,
    ) -> Option<u64>
        requires prepared { IsTrue self.old.prepared }
        requires room { is_full self.old ≡ false }
        requires reading { reading ≤ MAX_READING }
        requires number { IsTrue (needs_number (state_of self.old) reading kind.now) → N.can_give numbers.old }
        requires rises { (n : ℕ) (after : N) → N.gives numbers.old n after → All (λ m. m < n) (numbers_of self.old.history) }
        ensures number { is_some result ≡ needs_number (state_of self.old) reading kind.now }
        ensures drawn { MatchOption result (numbers.new ≡ numbers.old) (λ n. N.gives numbers.old n numbers.new) }
        ensures base { self.new.base ≡ self.old.base }
        ensures earlier { self.new.earlier ≡ self.old.earlier }
        ensures cut { self.new.cut ≡ self.old.cut }
        ensures history { self.new.history ≡ self.old.history ++ record { reading = reading; number = result; kind = kind.now } ∷ [] }
        ensures stored { stored_of self.new ≡ stored_of self.old ++ record { reading = reading; number = result; kind = kind.now } ∷ [] }
        ensures effects { self.new.effects ≡ self.old.effects ++ (step (state_of self.old) (record { reading = reading; number = result; kind = kind.now })).orders }
        ensures prepared { self.new.prepared ≡ false }
        // The answers that its orders tell of are kept.
        ensures answers { All (IsKept self.new) (step (state_of self.old) (record { reading = reading; number = result; kind = kind.now })).orders }
    {
        laws::answers_are_told();
        laws::step_keeps_plan();
        laws::step_stamps();
        laws::step_keeps_stamped();
        laws::orders_are_appended();
        laws::cuts_agree();
        let number = self.machine.step(reading, kind, numbers);
        self.last_number = number.unwrap_or(self.last_number);
        self.starts += one_if(number.is_some());
        self.history.push(reading, number, kind);
        self.prepared = false;
        number
    }

    /// One event, with a number exactly where it starts a child (`otp_needs` tells beforehand), greater than each earlier one.
    /// It takes no memory by its code; its orders are put behind the effects that are there.
    pub fn step(&mut self, event: Event)
        requires prepared { IsTrue self.old.prepared }
        requires room { is_full self.old ≡ false }
        requires reading { event.reading ≤ MAX_READING }
        requires number { is_some event.number ≡ needs_number (state_of self.old) event.reading event.kind }
        requires rises { (n : ℕ) → event.number ≡ Some n → All (λ m. m < n) (numbers_of self.old.history) }
        ensures base { self.new.base ≡ self.old.base }
        ensures earlier { self.new.earlier ≡ self.old.earlier }
        ensures cut { self.new.cut ≡ self.old.cut }
        ensures history { self.new.history ≡ self.old.history ++ event ∷ [] }
        ensures stored { stored_of self.new ≡ stored_of self.old ++ event ∷ [] }
        ensures effects { self.new.effects ≡ self.old.effects ++ (step (state_of self.old) event).orders }
        ensures prepared { self.new.prepared ≡ false }
        ensures answers { All (IsKept self.new) (step (state_of self.old) event).orders }
    {
        let mut given = Given {
            number: event.number,
        };
        let _ = self.step_with(event.reading, &event.kind, &mut given);
    }
}

/// Whether the number is no greater than this one, where there is one.
fn is_at_most(number: u64, greatest: Option<u64>) -> bool
    ensures { result ≡ is_at_most number greatest }
{
    match greatest {
        None => false,
        Some(greatest) => number <= greatest,
    }
}

/// 1 for yes, 0 for no.
fn one_if(yes: bool) -> u64
    ensures { result ≡ one_if yes }
{
    if yes { 1 } else { 0 }
}
