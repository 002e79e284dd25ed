//! What events change (`specs/State` of the rules).

ghost use Rattle.std.specs.Prelude.{◌≡◌, ◌+◌, ◌<◌, ◌≤◌, IsTrue, OnOk, vec_len, vec_capacity};
ghost use Rattle.std.specs.VecDeque.{deque_capacity};
ghost use Rattle.otp_machine.specs.declared.machine.TheConstants.{ROOM_LIMIT};

use crate::stores::answers::Answers;
use crate::stores::waits::Waits;
use otp_rules::{ChildLine, Due, Effect, Phase, Reply, Sequel, SupEnd, Waiting};
use otp_spec::{AutoShutdown, ChildSpec, Strategy, SupFlags};
use otp_table::Rows;
use otp_window::Window;
use std::alloc::AllocError;
use std::collections::VecDeque;

/// No list of a supervisor wants room for so many items.
const ROOM_LIMIT: usize = 1 << 32;

/// The parts of a supervisor's state, and memory that is kept ready for the next event.
#[derive(Drop)]
pub struct Machine {
    pub strategy: Strategy,
    pub auto_shutdown: AutoShutdown,
    /// The restarts since the last opening; it has the intensity and the period of the flags.
    pub window: Window,
    pub specs: Vec<ChildSpec>,
    pub rows: Rows,
    /// In start order: the last one is stopped first.
    pub to_stop: Vec<u64>,
    /// In start order.
    pub to_start: VecDeque<Due>,
    pub follows: Option<Sequel>,
    pub waiting: Waits,
    pub replies: Answers,
    /// The ends of all openings that ended, under the supervisor's own number.
    pub ends: Vec<(u64, SupEnd)>,
    /// The stamp of the last event, in milliseconds.
    pub last: u64,
    pub phase: Phase,
    pub orders: Vec<Effect>,
    /// Memory for the next answer to which_children.
    pub spare_lines: Vec<ChildLine>,
    /// Memory for the stamps of an end by the intensity.
    pub spare_stamps: Vec<u64>,
    /// Memory for the stamps in the copy of the end that is kept.
    pub spare_kept_stamps: Vec<u64>,
}

impl Machine {
    ghost use Rattle.otp_machine.specs.Seen.{outcome_of, CanAdvance, CanDecide, HasCallMemory, HasEndMemory, HasMemory, HasWorkMemory, IsSound};
    ghost use Rattle.otp_rules.specs.State.{answer, closed, put_last};
    ghost use Rattle.otp_rules.specs.Cuts.{base_of};

    pub fn flags(&self) -> SupFlags
        ensures { result ≡ (outcome_of self.now).state.flags }
    {
        SupFlags {
            strategy: self.strategy,
            intensity: self.window.intensity(),
            period: self.window.period(),
            auto_shutdown: self.auto_shutdown,
        }
    }

    /// Takes the memory of the next event. The state and the orders stay as they were.
    pub fn prepare(&mut self) -> Result<(), AllocError>
        requires { IsSound self.old }
        ensures outcome { outcome_of self.new ≡ outcome_of self.old }
        ensures specs { vec_len self.new.specs ≡ vec_len self.old.specs }
        ensures ok { OnOk result (HasMemory self.new) }
    {
        self.window.reserve()?;
        if self.has_memory() {
            return Ok(());
        }
        self.take_memory()
    }

    /// Whether the memory of the next event is there. Most events find what an earlier one has taken and not used.
    fn has_memory(&self) -> bool
        requires { IsSound self.now }
        ensures { IsTrue result → HasMemory self.now }
    {
        self.window.is_reserved()
            && self.has_work_memory()
            && self.has_call_memory()
            && self.has_end_memory()
    }

    /// Whether there is memory for children that are stopped and started.
    fn has_work_memory(&self) -> bool
        requires { IsSound self.now }
        ensures { IsTrue result → HasWorkMemory self.now }
    {
        let rows = self.rows.len();
        let specs = self.specs.len();
        rows < self.to_stop.capacity()
            && rows + specs < self.to_start.capacity()
            && specs < self.rows.room()
    }

    /// Whether there is memory for orders, and for answers to calls.
    fn has_call_memory(&self) -> bool
        ensures { IsTrue result → HasCallMemory self.now }
    {
        let rows = self.rows.len();
        let waiting = self.waiting.len();
        rows + waiting + 1 < self.orders.capacity() - self.orders.len()
            && waiting + 1 < self.replies.room()
            && self.waiting.room() > 0
            && rows <= self.spare_lines.capacity()
    }

    /// Whether there is memory for the end of the supervisor.
    fn has_end_memory(&self) -> bool
        ensures { IsTrue result → HasEndMemory self.now }
    {
        let stamps = self.window.intensity() as usize;
        self.ends.len() < self.ends.capacity()
            && stamps < self.spare_stamps.capacity()
            && stamps < self.spare_kept_stamps.capacity()
    }

    /// Takes what memory is lacking for the next event.
    fn take_memory(&mut self) -> Result<(), AllocError>
        requires { IsSound self.old }
        ensures outcome { outcome_of self.new ≡ outcome_of self.old }
        ensures specs { vec_len self.new.specs ≡ vec_len self.old.specs }
        ensures ok { OnOk result (HasMemory self.new) }
    {
        let rows = self.rows.len();
        let specs = self.specs.len();
        let waiting = self.waiting.len();
        let stamps = self.window.intensity() as usize + 1;
        self.orders.reserve(rows + waiting + 2)?;
        self.replies.reserve(waiting + 2)?;
        self.waiting.reserve(1)?;
        self.ends.reserve(1)?;
        self.window.reserve()?;
        reserve_in_all(&mut self.to_stop, rows + 1)?;
        reserve_starts(&mut self.to_start, rows + specs + 1)?;
        self.rows.reserve(specs + 1)?;
        reserve_in_all(&mut self.spare_lines, rows)?;
        reserve_in_all(&mut self.spare_stamps, stamps)?;
        reserve_in_all(&mut self.spare_kept_stamps, stamps)
    }

    /// Forgets the answers and the ends. Their memory is kept for others.
    pub fn forget(&mut self)
        ensures state { (outcome_of self.new).state ≡ base_of (outcome_of self.old).state }
        ensures orders { (outcome_of self.new).orders ≡ (outcome_of self.old).orders }
        ensures sound { IsSound self.old → IsSound self.new }
        ensures memory { HasMemory self.old → HasMemory self.new }
    {
        self.replies.clear();
        self.ends.clear();
    }

    /// The work closes.
    pub(crate) fn close(&mut self)
        ensures outcome { outcome_of self.new ≡ closed (outcome_of self.old) }
        ensures rest { self.new ≡ record self.old { to_stop = self.new.to_stop; to_start = self.new.to_start; follows = self.new.follows } }
    {
        self.to_stop.clear();
        self.to_start.clear();
        self.follows = None;
    }

    #[tactic(auto, unfolding(otp_rules::specs::State::answer))]
    pub(crate) fn answer(&mut self, call: u64, reply: Reply)
        requires orders { vec_len self.old.orders < vec_capacity self.old.orders }
        requires replies { 0 < self.old.replies.room }
        ensures outcome { outcome_of self.new ≡ answer call reply (outcome_of self.old) }
        ensures rest { self.new ≡ record self.old { orders = self.new.orders; replies = self.new.replies } }
        ensures orders { vec_len self.new.orders ≡ vec_len self.old.orders + 1 }
        ensures replies { self.new.replies.room + 1 ≡ self.old.replies.room }
        ensures orders_room { vec_capacity self.new.orders ≡ vec_capacity self.old.orders }
    {
        self.replies.push(call, reply);
        self.orders.push_reserved(Effect::Reply(call));
    }

    /// The item waits until no work is open.
    pub(crate) fn put_last(&mut self, item: Waiting)
        requires { CanDecide self.old }
        ensures outcome { outcome_of self.new ≡ put_last item (outcome_of self.old) }
        ensures room { CanAdvance self.new }
    {
        self.waiting.push_back(item);
    }
}

/// Takes memory for this many items in all.
fn reserve_in_all<T: Drop>(list: &mut Vec<T>, count: usize) -> Result<(), AllocError>
    requires { count < ROOM_LIMIT }
    ensures items { list.new.items ≡ list.old.items }
    ensures ok { OnOk result (count ≤ vec_capacity list.new) }
{
    list.reserve(count.saturating_sub(list.len()))
}

/// Takes memory for this many children that are to be started.
fn reserve_starts(list: &mut VecDeque<Due>, count: usize) -> Result<(), AllocError>
    requires { count < ROOM_LIMIT }
    ensures items { list.new.items ≡ list.old.items }
    ensures ok { OnOk result (count ≤ deque_capacity list.new) }
{
    list.reserve(count.saturating_sub(list.len()))
}
