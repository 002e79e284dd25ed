//! Open work: children are stopped, then started, then something follows (`specs/Work` of the rules).

ghost use Rattle.std.specs.Prelude.{◌≡◌, ◌&&◌, IsTrue, MatchOption, is_some, reverse, unwrap_or};

use crate::decisions::starts::find_due;
use crate::machine::Machine;
use crate::numbers::Numbers;
use otp_rules::{Effect, Reply, Sequel};
use otp_table::RowState;

impl Machine {
    ghost use Rattle.otp_machine.specs.Seen.{outcome_of, CanAdvance};
    ghost use Rattle.otp_rules.specs.Work.{follow, start_first, stop_first, advance};
    ghost use Rattle.otp_rules.specs.Needs.{ends_wait, has_due, work_starts};

    /// What follows the work, which closes.
    #[tactic(auto, unfolding(otp_rules::specs::Work::follow))]
    pub(crate) fn follow(&mut self)
        requires { CanAdvance self.old }
        ensures { outcome_of self.new ≡ follow self.old.follows (outcome_of self.old) }
    {
        match self.follows {
            None => {}
            Some(Sequel::Ready) => {
                self.close();
                self.orders.push_reserved(Effect::Ready);
            }
            Some(Sequel::Nothing) => self.close(),
            Some(Sequel::Added(call)) | Some(Sequel::Restarted(call)) => {
                self.close();
                self.answer(call, Reply::OkUndefined);
            }
            Some(Sequel::Stopped(call)) => {
                self.close();
                self.answer(call, Reply::Ok);
            }
            Some(Sequel::End(ending)) => self.end_all(ending),
        }
    }

    /// The first child to start gets a number; where none is left, the work closes.
    #[tactic(auto, unfolding(otp_rules::specs::Work::start_first, otp_rules::specs::Starts::start, otp_rules::specs::Starts::start_row, otp_rules::specs::Places::at_row, otp_rules::specs::Places::at_found, otp_rules::specs::Places::at_place))]
    pub(crate) fn start_first<N: Numbers>(&mut self, numbers: &mut N) -> Option<u64>
        requires room { CanAdvance self.old }
        requires number { IsTrue (has_due self.old.to_start.items) → N.can_give numbers.old }
        ensures outcome { outcome_of self.new ≡ start_first self.old.to_start.items (unwrap_or result 0) (outcome_of self.old) }
        ensures starts { is_some result ≡ has_due self.old.to_start.items }
        ensures drawn { MatchOption result (numbers.new ≡ numbers.old) (λ n. N.gives numbers.old n numbers.new) }
    {
        let Some(due) = self.to_start.pop_front() else {
            self.follow();
            return None;
        };
        let number = numbers.next();
        if let Some(place) = find_due(self.rows.as_slice(), self.rows.defined(), &due) {
            let kept = due.kept.unwrap_or(number);
            self.rows.set_state(place, RowState::Starting(number, kept));
        }
        self.orders.push_reserved(Effect::Start(due.id, number));
        Some(number)
    }

    #[tactic(auto, unfolding(otp_rules::specs::Work::stop_first))]
    pub(crate) fn stop_first<N: Numbers>(&mut self, numbers: &mut N) -> Option<u64>
        requires room { CanAdvance self.old }
        requires number { IsTrue (ends_wait (reverse self.old.to_stop.items) self.old.waiting.items && has_due self.old.to_start.items) → N.can_give numbers.old }
        ensures outcome { outcome_of self.new ≡ stop_first (reverse self.old.to_stop.items) (unwrap_or result 0) (outcome_of self.old) }
        ensures starts { is_some result ≡ (ends_wait (reverse self.old.to_stop.items) self.old.waiting.items && has_due self.old.to_start.items) }
        ensures drawn { MatchOption result (numbers.new ≡ numbers.old) (λ n. N.gives numbers.old n numbers.new) }
    {
        while let Some(p) = self.to_stop.pop() {
            match self.waiting.find_exit(p) {
                Some(place) => self.use_exit(p, place),
                None => {
                    self.tell(p);
                    return None;
                }
            }
        }
        self.start_first(numbers)
    }

    /// The open work goes on as far as it can.
    #[tactic(auto, unfolding(otp_rules::specs::Work::advance, otp_rules::specs::Work::stop_first, otp_rules::specs::Needs::work_starts))]
    pub(crate) fn advance<N: Numbers>(&mut self, numbers: &mut N) -> Option<u64>
        requires room { CanAdvance self.old }
        requires number { IsTrue (work_starts (outcome_of self.old)) → N.can_give numbers.old }
        ensures outcome { outcome_of self.new ≡ advance (unwrap_or result 0) (outcome_of self.old) }
        ensures starts { is_some result ≡ work_starts (outcome_of self.old) }
        ensures drawn { MatchOption result (numbers.new ≡ numbers.old) (λ n. N.gives numbers.old n numbers.new) }
    {
        if self.follows.is_some() && !self.rows.has_awaited() {
            if self.to_stop.is_empty() {
                self.start_first(numbers)
            } else {
                self.stop_first(numbers)
            }
        } else {
            None
        }
    }
}
