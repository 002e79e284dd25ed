//! What answers the start of a child (`specs/Starts` of the rules).

ghost use Rattle.std.specs.Prelude.{◌≡◌, ◌<◌, Some, length, slice_get};

use crate::machine::Machine;
use otp_reason::Reason;
use otp_rules::{CallFault, Ending, Reply, Sequel, Waiting};
use otp_table::RowState;

impl Machine {
    ghost use Rattle.otp_table.specs.declared.row.Row.{Row};
    ghost use Rattle.otp_machine.specs.Seen.{outcome_of, CanAdvance, CanDecide};
    ghost use Rattle.otp_rules.specs.Starts.{failed_after, take_failed, take_ignored, take_up, up_after};

    #[tactic(auto, unfolding(otp_rules::specs::Starts::up_after))]
    fn up_after(&mut self, number: u64)
        requires { CanDecide self.old }
        ensures outcome { outcome_of self.new ≡ up_after number self.old.follows (outcome_of self.old) }
        ensures room { CanAdvance self.new }
    {
        if let Some(Sequel::Added(call)) | Some(Sequel::Restarted(call)) = self.follows {
            self.close();
            self.answer(call, Reply::OkProcess(number));
        }
    }

    /// The note Up.
    #[tactic(auto, unfolding(otp_rules::specs::Starts::take_up, otp_rules::specs::Starts::at_starting, otp_rules::specs::Places::at_number, otp_rules::specs::Places::at_row, otp_rules::specs::Places::at_found, otp_rules::specs::Places::at_place))]
    pub(crate) fn take_up(&mut self, number: u64)
        requires { CanDecide self.old }
        ensures outcome { outcome_of self.new ≡ take_up number (outcome_of self.old) }
        ensures room { CanAdvance self.new }
    {
        let Some(place) = self.rows.find_process(number) else {
            return;
        };
        if let RowState::Starting(..) = self.rows.get(place).state {
            self.rows.set_state(place, RowState::Up(number));
            self.up_after(number);
        }
    }

    /// The note Ignored.
    #[tactic(auto, unfolding(otp_rules::specs::Starts::take_ignored, otp_rules::specs::Starts::at_starting, otp_rules::specs::Places::at_number, otp_rules::specs::Places::at_row, otp_rules::specs::Places::at_found, otp_rules::specs::Places::at_place))]
    pub(crate) fn take_ignored(&mut self, number: u64)
        requires { CanDecide self.old }
        ensures outcome { outcome_of self.new ≡ take_ignored number (outcome_of self.old) }
        ensures room { CanAdvance self.new }
    {
        let Some(place) = self.rows.find_process(number) else {
            return;
        };
        if let RowState::Starting(..) = self.rows.get(place).state {
            self.end_row(place);
        }
    }

    /// The start of the child at the place failed.
    #[tactic(auto, unfolding(otp_rules::specs::Starts::failed_after))]
    fn failed_after(&mut self, place: usize, reason: &Reason, kept: u64)
        requires room { CanDecide self.old }
        requires place { place < length self.old.rows.rows }
        ensures outcome { (row : Row) → slice_get self.old.rows.rows place ≡ Some row →
            outcome_of self.new ≡ failed_after reason.now kept place row self.old.follows (outcome_of self.old) }
        ensures room { CanAdvance self.new }
    {
        match self.follows {
            None | Some(Sequel::Stopped(_)) | Some(Sequel::End(_)) => {}
            Some(Sequel::Ready) => {
                let id = self.rows.get(place).spec.id;
                self.rows.set_state(place, RowState::Undefined);
                self.terminate(Ending::InitFailed(id));
            }
            Some(Sequel::Nothing) => {
                self.rows.set_state(place, RowState::Restarting(kept));
                self.put_last(Waiting::Retry(kept));
                self.close();
            }
            Some(Sequel::Added(call)) => {
                self.rows.remove(place);
                self.close();
                self.answer(call, Reply::Refused(CallFault::Start(*reason)));
            }
            Some(Sequel::Restarted(call)) => {
                self.rows.set_state(place, RowState::Undefined);
                self.close();
                self.answer(call, Reply::Refused(CallFault::Start(*reason)));
            }
        }
    }

    /// The note Failed.
    #[tactic(auto, unfolding(otp_rules::specs::Starts::take_failed, otp_rules::specs::Starts::at_starting, otp_rules::specs::Places::at_number, otp_rules::specs::Places::at_row, otp_rules::specs::Places::at_found, otp_rules::specs::Places::at_place))]
    pub(crate) fn take_failed(&mut self, number: u64, reason: &Reason)
        requires { CanDecide self.old }
        ensures outcome { outcome_of self.new ≡ take_failed number reason.now (outcome_of self.old) }
        ensures room { CanAdvance self.new }
    {
        let Some(place) = self.rows.find_process(number) else {
            return;
        };
        if let RowState::Starting(_, kept) = self.rows.get(place).state {
            self.failed_after(place, reason, kept);
        }
    }
}
