//! What which_children and count_children answer (`specs/Counts` of the rules).

ghost use Rattle.std.specs.Prelude.{◌≡◌, ◌≤◌, length, vec_capacity};

use crate::decisions::counts::list_lines;
use crate::machine::Machine;
use otp_rules::{ChildLines, CountsNow, Effect, Reply};
use std::mem;

impl Machine {
    ghost use Rattle.otp_machine.specs.Seen.{outcome_of, CanAdvance, CanDecide};
    ghost use Rattle.otp_rules.specs.State.{answer};
    ghost use Rattle.otp_spec.specs.declared.limits.TheConstants.{MAX_CHILDREN};
    ghost use Rattle.otp_rules.specs.Counts.{counts_of, which_of};
    ghost use Rattle.otp_rules.specs.declared.call.Reply.TheVariants as reply;

    /// What which_children answers, in memory that is ready.
    fn which(&mut self) -> ChildLines
        requires { length self.old.rows.rows ≤ vec_capacity self.old.spare_lines }
        ensures lines { result ≡ which_of self.old.rows.rows }
        ensures rest { self.new ≡ record self.old { spare_lines = self.new.spare_lines } }
    {
        let alloc = *self.spare_lines.allocator();
        let mut lines = mem::replace(&mut self.spare_lines, Vec::new(alloc));
        lines.clear();
        list_lines(self.rows.as_slice(), &mut lines);
        ChildLines::from_vec(lines)
    }

    /// which_children. If the list told last still holds, it is told again without a copy.
    #[tactic(auto, unfolding(otp_rules::specs::State::answer))]
    pub(crate) fn answer_which(&mut self, call: u64)
        requires { CanDecide self.old }
        ensures outcome { outcome_of self.new ≡ answer call (reply.Which (which_of self.old.rows.rows)) (outcome_of self.old) }
        ensures room { CanAdvance self.new }
    {
        if self.replies.push_again(call, self.rows.as_slice()) {
            self.orders.push_reserved(Effect::Reply(call));
            return;
        }
        let lines = self.which();
        self.answer(call, Reply::Which(lines));
    }

    /// What count_children answers.
    pub fn counts(&self) -> CountsNow
        ensures counts { result ≡ counts_of (outcome_of self.now).state }
        ensures specs { result.specs ≤ MAX_CHILDREN }
        ensures active { result.active ≤ MAX_CHILDREN }
        ensures supervisors { result.supervisors ≤ MAX_CHILDREN }
        ensures workers { result.workers ≤ MAX_CHILDREN }
    {
        CountsNow {
            specs: if self.strategy.is_simple() {
                1
            } else {
                self.rows.len() as u64
            },
            active: self.rows.count_active() as u64,
            supervisors: self.rows.count_supervisors() as u64,
            workers: self.rows.count_workers() as u64,
        }
    }
}
