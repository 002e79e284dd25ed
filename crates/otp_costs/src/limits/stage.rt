//! A supervisor that is played in a world where all goes well, but for one child that crashes. It is one that a driver drives
//! ([`Supervisor`]), so what is counted of it is what it does for who embeds it.

ghost use Rattle.std.specs.Prelude.{IsTrue, [], ◌≡◌, ◌∷◌, ◌+◌, ◌≤◌, ◌<◌, ◌++◌, None, OnErr, OnOk, IfErr, IfOk, IfSome, length, not, position};
ghost use Rattle.std.specs.List.{filter, filter_map};
ghost use Rattle.otp_core.specs.declared.cut.TheConstants.{MAX_EVENTS_IN_ALL};
ghost use Rattle.otp_driver.specs.Members.{Happens};
ghost use Rattle.otp_driver.specs.declared.driven.fault.DriveFault.TheVariants.{Spent};
ghost use Rattle.otp_costs.specs.Fates.{HasNoRoom, crashed, is_of, process_of, running_at};
ghost use Rattle.otp_costs.specs.Scene.{BeginFills, Begins, FillsUp, IsFull, OpeningFills, Opens, Settles, happened, heard, joined, next_in, note_of};
ghost use Rattle.otp_costs.specs.Taking.{Stays, asked, pending};
ghost use Rattle.otp_rules.specs.Effects.{is_reply};
ghost use Rattle.otp_rules.specs.Needs.{last_number};
ghost use Rattle.otp_rules.specs.State.{is_over};
ghost use Rattle.otp_trial.specs.declared.trial.Halt.TheVariants.{HistoryFull};
ghost use Rattle.otp_spec.specs.Flags.{is_simple};
ghost use Rattle.otp_spec.specs.declared.limits.TheConstants.{MAX_READING};

use otp_core::MAX_EVENTS_IN_ALL;
use otp_driver::driven::{DriveFault, Supervisor};
use otp_reason::{Name, Note, Reason};
use otp_rules::{Call, Effect, Item, Kind};
use otp_spec::{Strategy, SupSpec};
use otp_table::Row;
use otp_trial::Halt;
use std::alloc::{AllocError, Global};
use std::collections::VecDeque;
use std::marker::Model;

/// What the process of a child does by an order.
#[tactic(auto, unfolding(crate::specs::Scene::note_of))]
fn note_of(order: &Effect) -> Option<Note>
    ensures { result ≡ note_of order.now }
{
    match order {
        Effect::Start(_, number) => Some(Note::Up(*number)),
        Effect::Ask(_, number) => Some(Note::Exit(*number, Reason::Shutdown)),
        Effect::Kill(_, number) => Some(Note::Exit(*number, Reason::Killed)),
        Effect::Reply(_) | Effect::Ready | Effect::End(_) => None,
    }
}

/// The process that an order names does it, and tells so behind what others tell.
fn put_note(order: &Effect, notes: &mut VecDeque<Note>) -> Result<(), AllocError>
    ensures { OnOk result (notes.new.items ≡ notes.old.items ++ filter_map note_of (order.now ∷ [])) }
{
    match note_of(order) {
        None => Ok(()),
        Some(note) => notes.push_back(note).map_err(|_| AllocError),
    }
}

/// A copy of an order, unless it is an answer.
fn copy_of(order: &Effect) -> Result<Option<Effect>, AllocError>
    ensures { IfOk result (λ copy. copy ≡ asked order.now) }
{
    match order {
        Effect::Start(id, number) => Ok(Some(Effect::Start(*id, *number))),
        Effect::Ask(id, number) => Ok(Some(Effect::Ask(*id, *number))),
        Effect::Kill(id, number) => Ok(Some(Effect::Kill(*id, *number))),
        Effect::Reply(_) => Ok(None),
        Effect::Ready => Ok(Some(Effect::Ready)),
        Effect::End(end) => Ok(Some(Effect::End(end.try_clone()?))),
    }
}

/// Puts an order behind others, unless it is an answer.
fn put_order(order: &Effect, orders: &mut Vec<Effect>) -> Result<(), AllocError>
    ensures { OnOk result (orders.new.items ≡ orders.old.items ++ filter (λ order. not (is_reply order)) (order.now ∷ [])) }
{
    match copy_of(order)? {
        None => Ok(()),
        Some(copy) => orders.push(copy).map_err(|_| AllocError),
    }
}

/// The process that an order names does it; the order is put behind others, unless it is an answer.
fn put(
    order: &Effect,
    notes: &mut VecDeque<Note>,
    orders: &mut Vec<Effect>,
) -> Result<(), AllocError>
    ensures notes { OnOk result (notes.new.items ≡ notes.old.items ++ filter_map note_of (order.now ∷ [])) }
    ensures orders { OnOk result (orders.new.items ≡ orders.old.items ++ filter (λ order. not (is_reply order)) (order.now ∷ [])) }
{
    put_note(order, notes)?;
    put_order(order, orders)
}

/// Does as `put`, unless memory was refused before. Says whether it never was.
fn put_if(
    is_whole: bool,
    order: &Effect,
    notes: &mut VecDeque<Note>,
    orders: &mut Vec<Effect>,
) -> bool
    ensures whole { IsTrue result → IsTrue is_whole }
    ensures notes { IsTrue result → notes.new.items ≡ notes.old.items ++ filter_map note_of (order.now ∷ []) }
    ensures orders { IsTrue result → orders.new.items ≡ orders.old.items ++ filter (λ order. not (is_reply order)) (order.now ∷ []) }
{
    if !is_whole {
        return false;
    }
    match put(order, notes, orders) {
        Ok(()) => true,
        Err(_) => false,
    }
}

/// Takes all orders of a supervisor one by one: their processes do them, and those that are no answers are put behind others.
/// From where memory is refused on they are only taken.
fn take_orders(
    supervisor: &mut Supervisor,
    notes: &mut VecDeque<Note>,
    orders: &mut Vec<Effect>,
) -> Result<(), AllocError>
    requires { supervisor.old.taken ≤ length supervisor.old.effects }
    ensures notes { OnOk result (notes.new.items ≡ notes.old.items ++ filter_map note_of (pending supervisor.old)) }
    ensures orders { OnOk result (orders.new.items ≡ orders.old.items ++ filter (λ order. not (is_reply order)) (pending supervisor.old)) }
    ensures stays { Stays supervisor.old supervisor.new }
    ensures all { supervisor.new.taken ≡ length supervisor.new.effects }
{
    let mut is_whole = true;
    while let Some(order) = supervisor.order() {
        is_whole = put_if(is_whole, order, notes, orders);
        supervisor.pass();
    }
    if is_whole { Ok(()) } else { Err(AllocError) }
}

/// Why a supervisor takes no event, as it ends a trial. No order ever waits here.
fn halt_of(fault: DriveFault) -> Halt
    ensures { result ≡ HistoryFull → fault ≡ Spent }
{
    match fault {
        DriveFault::Spent => Halt::HistoryFull,
        _ => Halt::OutOfMemory,
    }
}

/// Something happens to a supervisor. The answer is the last process number then.
fn happen(supervisor: &mut Supervisor, time: u64, kind: &Kind, last: u64) -> Result<u64, Halt>
    requires time { time ≤ MAX_READING }
    requires given { supervisor.old.given ≡ 0 }
    requires last { last ≡ last_number supervisor.old.history }
    requires numbers { last_number supervisor.old.history ≤ length supervisor.old.history }
    ensures ok { IfOk result (λ after. Happens time last kind.now supervisor.old supervisor.new after) }
    ensures err { OnErr result (supervisor.new ≡ supervisor.old) }
    ensures full { IfErr result (λ halt. halt ≡ HistoryFull → MAX_EVENTS_IN_ALL ≤ length supervisor.old.history) }
{
    match supervisor.happen(time, kind, last) {
        Ok(after) => Ok(after),
        Err(fault) => Err(halt_of(fault)),
    }
}

/// Whether a row is that of a child of the specification with this id.
fn is_of(row: &Row, id: &Name) -> bool
    ensures { result ≡ is_of id.now row.now }
{
    row.spec.id == *id
}

/// The place of the first child of the specification with this id.
fn place_of(rows: &[Row], id: &Name) -> Option<usize>
    ensures place { result ≡ position (is_of id.now) rows.now }
    ensures inside { IfSome result (λ place. place < length rows.now) }
{
    rows.iter().position(|row| is_of(row, id))
}

/// The process of the child at this place, if it runs.
#[tactic(auto, unfolding(crate::specs::Fates::running_at, crate::specs::Fates::running))]
fn running_at(rows: &[Row], place: Option<usize>) -> Option<u64>
    requires { IfSome place (λ at. at < length rows.now) }
    ensures { result ≡ running_at rows.now place }
{
    match place {
        None => None,
        Some(place) => {
            let row = &rows[place];
            row.state.up_number()
        }
    }
}

/// The process of the first child of the specification with this id, if it runs.
#[tactic(auto, unfolding(crate::specs::Fates::process_of))]
pub(crate) fn process_of(rows: &[Row], id: &Name) -> Option<u64>
    ensures { result ≡ process_of id.now rows.now }
{
    running_at(rows, place_of(rows, id))
}

/// A supervisor, and what the processes of its children tell next.
#[derive(Drop)]
pub(crate) struct CrashPlayer {
    supervisor: Supervisor,
    /// The last process number.
    last: u64,
    /// The orders since the last crash, but for answers.
    orders: Vec<Effect>,
    notes: VecDeque<Note>,
}

impl Model for CrashPlayer {
    ghost use Rattle.otp_costs.specs.Scene.{Scene};

    ghost Value = { Scene };

    ghost use Rattle.otp_costs.specs.Inside.{IsStage, scene_of};

    ghost view = { scene_of };

    ghost invariant = { IsStage };
}

impl CrashPlayer {
    /// A supervisor that was opened, and whose children run.
    pub fn open(alloc: Global, supervisor: &SupSpec) -> Result<Self, Halt>
        ensures ok { IfOk result (λ stage. Opens supervisor.now.flags supervisor.now.specs stage) }
        ensures full { IfErr result (λ halt. halt ≡ HistoryFull → OpeningFills supervisor.now.flags supervisor.now.specs) }
    {
        let mut stage = CrashPlayer {
            supervisor: Supervisor::new(alloc, supervisor.try_clone(alloc)?),
            last: 0,
            orders: Vec::new(alloc),
            notes: VecDeque::new(alloc),
        };
        match stage.begin(supervisor.flags().strategy) {
            Ok(()) => Ok(stage),
            Err(halt) => {
                drop(stage);
                Err(halt)
            }
        }
    }

    /// It opens, and its children start.
    fn begin(&mut self, strategy: Strategy) -> Result<(), Halt>
        ensures ok { OnOk result (Begins (is_simple strategy) self.old self.new) }
        ensures full { IfErr result (λ halt. halt ≡ HistoryFull → BeginFills (is_simple strategy) self.old) }
    {
        self.happen(0, Kind::Opened(0))?;
        self.settle(0)?;
        self.join(strategy)?;
        self.settle(0)
    }

    /// Under simple_one_for_one somebody starts a child; the other strategies have all theirs by then.
    fn join(&mut self, strategy: Strategy) -> Result<(), Halt>
        ensures ok { OnOk result (self.new ≡ joined (is_simple strategy) self.old) }
        ensures full { IfErr result (λ halt. halt ≡ HistoryFull → IsFull self.old) }
    {
        if strategy.is_simple() {
            self.happen(0, Kind::Took(Item::Call(1, Call::StartDynamic)))
        } else {
            Ok(())
        }
    }

    /// Whether the supervisor has ended.
    pub fn has_ended(&self) -> bool
        ensures { result ≡ is_over self.now.state.phase }
    {
        self.supervisor.has_ended()
    }

    /// The orders since the last crash, but for answers.
    pub fn orders(&self) -> &[Effect]
        ensures { result.now ≡ self.now.orders }
    {
        self.orders.as_slice()
    }

    /// The process of the first child of the specification with this id, if it runs.
    pub fn process_of(&self, id: &Name) -> Option<u64>
        ensures { result ≡ process_of id.now self.now.state.rows }
    {
        process_of(self.supervisor.rows(), id)
    }

    /// Something happens at this time, in milliseconds.
    fn happen(&mut self, time: u64, kind: Kind) -> Result<(), Halt>
        requires { time ≤ MAX_READING }
        ensures ok { OnOk result (self.new ≡ happened time kind self.old) }
        ensures full { IfErr result (λ halt. halt ≡ HistoryFull → IsFull self.old) }
    {
        let last = happen(&mut self.supervisor, time, &kind, self.last)?;
        self.last = last;
        take_orders(&mut self.supervisor, &mut self.notes, &mut self.orders)?;
        Ok(())
    }

    /// What happens next by itself: what a process tells, or else what the supervisor does.
    #[tactic(auto, unfolding(crate::specs::Scene::next_of))]
    fn next_kind(&self, time: u64) -> Option<Kind>
        ensures { result ≡ next_in time self.now }
    {
        match self.notes.front() {
            Some(note) => Some(Kind::Took(Item::Note(*note))),
            None => self.supervisor.next_kind(time, false),
        }
    }

    /// The first note is heard.
    fn hear(&mut self)
        ensures { self.new ≡ heard self.old }
    {
        let _note = self.notes.pop_front();
    }

    /// All that follows by itself happens.
    fn settle(&mut self, time: u64) -> Result<(), Halt>
        requires { time ≤ MAX_READING }
        ensures ok { OnOk result (Settles time self.old self.new) }
        ensures full { IfErr result (λ halt. halt ≡ HistoryFull → FillsUp time self.old) }
    {
        for _ in 0..=MAX_EVENTS_IN_ALL {
            let Some(kind) = self.next_kind(time) else {
                return Ok(());
            };
            self.hear();
            self.happen(time, kind)?;
        }
        Err(Halt::HistoryFull)
    }

    /// The process of a child is killed, and all that follows happens; nothing happens where it has none.
    #[tactic(auto, unfolding(crate::specs::Fates::crashed_at))]
    pub fn crash(&mut self, id: &Name, time: u64) -> Result<(), Halt>
        requires { time ≤ MAX_READING }
        ensures ok { OnOk result (Settles time (crashed id.now time self.old) self.new) }
        ensures full { IfErr result (λ halt. halt ≡ HistoryFull → HasNoRoom id.now time self.old) }
    {
        let process = self.process_of(id);
        self.orders.clear();
        if let Some(process) = process {
            self.happen(
                time,
                Kind::Took(Item::Note(Note::Exit(process, Reason::Killed))),
            )?;
        }
        self.settle(time)
    }
}
