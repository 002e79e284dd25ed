//! The row of a child that has ended (`specs/Places` of the rules).

ghost use Rattle.std.specs.Prelude.{◌≡◌, ◌<◌, ◌≤◌, Some, length, slice_get};

use crate::decisions::places::is_removed;
use crate::machine::Machine;
use otp_table::RowState;

impl Machine {
    ghost use Rattle.otp_table.specs.declared.row.Row.{Row};
    ghost use Rattle.otp_machine.specs.Seen.{outcome_of};
    ghost use Rattle.otp_rules.specs.Places.{end_process, end_row};

    /// The child at the place has no process from now on.
    #[tactic(auto, unfolding(otp_rules::specs::Places::end_row))]
    pub(crate) fn end_row(&mut self, place: usize)
        requires { place < length self.old.rows.rows }
        ensures outcome { (row : Row) → slice_get self.old.rows.rows place ≡ Some row →
            outcome_of self.new ≡ end_row place row (outcome_of self.old) }
        ensures rest { self.new ≡ record self.old { rows = self.new.rows } }
        ensures rows { length self.new.rows.rows ≤ length self.old.rows.rows }
        ensures room { self.new.rows.room ≡ self.old.rows.room }
    {
        if is_removed(self.rows.get(place)) {
            self.rows.remove(place);
        } else {
            self.rows.set_state(place, RowState::Undefined);
        }
    }

    #[tactic(auto, unfolding(otp_rules::specs::Places::end_process, otp_rules::specs::Places::at_number, otp_rules::specs::Places::at_row, otp_rules::specs::Places::at_found, otp_rules::specs::Places::at_place))]
    pub(crate) fn end_process(&mut self, number: u64)
        ensures outcome { outcome_of self.new ≡ end_process number (outcome_of self.old) }
        ensures rest { self.new ≡ record self.old { rows = self.new.rows } }
        ensures rows { length self.new.rows.rows ≤ length self.old.rows.rows }
    {
        if let Some(place) = self.rows.find_process(number) {
            self.end_row(place);
        }
    }
}
