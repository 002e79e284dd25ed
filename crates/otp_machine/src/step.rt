//! What one event does (`specs/Step` of the rules).

ghost use Rattle.std.specs.Prelude.{◌≡◌, ◌≤◌, ◌&&◌, IsTrue, MatchOption, is_some, not};
ghost use Rattle.otp_spec.specs.declared.limits.TheConstants.{MAX_READING};

use crate::decisions::state::is_over;
use crate::decisions::step::{kill_late, list_children, order_kills};
use crate::machine::Machine;
use crate::numbers::Numbers;
use otp_reason::Note;
use otp_rules::laws::number_starts_work;
use otp_rules::{Call, Ending, Item, Kind, Phase, Reply, Sequel, Waiting};

impl Machine {
    ghost use Rattle.otp_machine.specs.Seen.{outcome_of, CanAdvance, CanDecide, HasMemory, IsSound};
    ghost use Rattle.otp_rules.specs.State.{is_over};
    ghost use Rattle.otp_rules.specs.Step.{ask, decide, open_rows, resume, step_on, take_item, take_waiting, tick};
    ghost use Rattle.otp_rules.specs.Needs.{needs_number};

    #[tactic(auto, unfolding(otp_rules::specs::Step::ask))]
    fn ask(&mut self, number: u64, call: &Call)
        requires { CanDecide self.old }
        ensures outcome { outcome_of self.new ≡ ask number call.now (outcome_of self.old) }
        ensures room { CanAdvance self.new }
    {
        if is_over(self.phase) {
            self.answer(number, Reply::NoProc);
        } else if self.follows.is_some() {
            self.put_last(Waiting::Item(Item::Call(number, *call)));
        } else {
            self.take_call(number, call);
        }
    }

    #[tactic(auto, unfolding(otp_rules::specs::Step::take_item, otp_rules::specs::Step::take_note))]
    fn take_item(&mut self, item: &Item)
        requires { CanDecide self.old }
        ensures outcome { outcome_of self.new ≡ take_item item.now (outcome_of self.old) }
        ensures room { CanAdvance self.new }
    {
        match item {
            // A note changes nothing after the end.
            Item::Note(_) if is_over(self.phase) => {}
            Item::Note(Note::Up(p)) => self.take_up(*p),
            Item::Note(Note::Ignored(p)) => self.take_ignored(*p),
            Item::Note(Note::Failed(p, reason)) => self.take_failed(*p, reason),
            Item::Note(Note::Exit(p, reason)) => self.take_exit(*p, reason),
            Item::Call(number, call) => self.ask(*number, call),
        }
    }

    #[tactic(auto, unfolding(otp_rules::specs::Step::take_waiting))]
    fn take_waiting(&mut self, item: &Waiting)
        requires { CanDecide self.old }
        ensures outcome { outcome_of self.new ≡ take_waiting item.now (outcome_of self.old) }
        ensures room { CanAdvance self.new }
    {
        match item {
            Waiting::Item(item) => self.take_item(item),
            Waiting::Retry(kept) => self.retry(*kept),
        }
    }

    /// The first waiting item is taken.
    #[tactic(auto, unfolding(otp_rules::specs::Step::resume))]
    fn resume(&mut self)
        requires { CanDecide self.old }
        ensures outcome { outcome_of self.new ≡ resume self.old.waiting.items (outcome_of self.old) }
        ensures room { CanAdvance self.new }
    {
        if let Some(item) = self.waiting.pop_front() {
            self.take_waiting(&item);
        }
    }

    /// The supervisor opens under its own number.
    #[tactic(auto, unfolding(otp_rules::specs::Step::open_rows, otp_rules::specs::Step::open_with))]
    fn open_rows(&mut self, own: u64)
        requires { CanDecide self.old }
        ensures outcome { outcome_of self.new ≡ open_rows own (outcome_of self.old) }
        ensures room { CanAdvance self.new }
    {
        self.phase = Phase::Open(own);
        self.window.clear();
        self.rows.clear();
        self.to_stop.clear();
        self.to_start.clear();
        if !self.strategy.is_simple() {
            list_children(&self.specs, &mut self.rows, &mut self.to_start);
        }
        self.follows = Some(Sequel::Ready);
    }

    /// Each child whose deadline has come is killed.
    #[tactic(auto, unfolding(otp_rules::specs::Step::tick))]
    fn tick(&mut self)
        requires { CanDecide self.old }
        ensures outcome { outcome_of self.new ≡ tick (outcome_of self.old) }
        ensures room { CanAdvance self.new }
    {
        order_kills(self.last, self.rows.as_slice(), &mut self.orders);
        kill_late(self.last, &mut self.rows);
    }

    /// Whether no work is open and the supervisor runs.
    pub fn is_idle(&self) -> bool
        ensures { result ≡ not (is_some self.now.follows) && not (is_over self.now.phase) }
    {
        self.follows.is_none() && !is_over(self.phase)
    }

    /// What the event itself changes.
    #[tactic(auto, unfolding(otp_rules::specs::Step::decide))]
    fn decide(&mut self, kind: &Kind)
        requires { CanDecide self.old }
        ensures outcome { outcome_of self.new ≡ decide kind.now (outcome_of self.old) }
        ensures room { CanAdvance self.new }
    {
        match kind {
            Kind::Opened(own) => {
                if is_over(self.phase) {
                    self.open_rows(*own);
                }
            }
            Kind::Took(item) => self.take_item(item),
            Kind::Resumed => {
                if self.is_idle() {
                    self.resume();
                }
            }
            Kind::Ticked => self.tick(),
            Kind::Stopped => {
                if self.is_idle() {
                    self.terminate(Ending::Asked);
                }
            }
        }
    }

    /// What happens now. Draws a number exactly where a child is started, and says which. By its code it takes no
    /// memory; its orders are put behind those that are there.
    #[tactic(auto, unfolding(otp_rules::specs::Step::step_on))]
    pub fn step<N: Numbers>(&mut self, reading: u64, kind: &Kind, numbers: &mut N) -> Option<u64>
        requires memory { HasMemory self.old }
        requires sound { IsSound self.old }
        requires reading { reading ≤ MAX_READING }
        requires number { IsTrue (needs_number (outcome_of self.old).state reading kind.now) → N.can_give numbers.old }
        ensures outcome { outcome_of self.new ≡ step_on (record { reading = reading; number = result; kind = kind.now }) (outcome_of self.old) }
        ensures starts { is_some result ≡ needs_number (outcome_of self.old).state reading kind.now }
        ensures drawn { MatchOption result (numbers.new ≡ numbers.old) (λ n. N.gives numbers.old n numbers.new) }
    {
        number_starts_work();
        self.last = reading.max(self.last);
        self.decide(kind);
        self.advance(numbers)
    }
}
