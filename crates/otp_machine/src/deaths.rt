//! A child has ended, with work open or without; or its restart is tried again (`specs/Deaths` of the rules).

ghost use Rattle.std.specs.Prelude.{◌≡◌, ◌<◌, ◌≤◌, Some, length, slice_get};
ghost use Rattle.std.specs.VecDeque.{deque_capacity};

use crate::decisions::restarts::{
    affected, ends_by_significance, is_restarted, list_dues, list_running,
};
use crate::machine::Machine;
use otp_reason::{Note, Reason};
use otp_rules::{Ending, Item, Sequel, Waiting};
use otp_table::{Row, RowState};
use otp_window::Within;

impl Machine {
    ghost use Rattle.otp_table.specs.declared.row.Row.{Row};
    ghost use Rattle.otp_machine.specs.Seen.{outcome_of, CanAdvance, CanDecide, CanStop};
    ghost use Rattle.otp_rules.specs.Deaths.{after_end, restart, restart_rows, retry, take_exit};
    ghost use Rattle.otp_rules.specs.Places.{end_row};

    #[tactic(auto, unfolding(otp_rules::specs::Deaths::restart_rows))]
    fn restart_rows(&mut self, from: usize, to: usize, place: usize, kept: u64)
        requires room { CanStop self.old }
        requires starts { length self.old.rows.rows ≤ deque_capacity self.old.to_start }
        requires from { from ≤ place }
        requires place { place < to }
        requires to { to ≤ length self.old.rows.rows }
        ensures outcome { outcome_of self.new ≡ restart_rows from to place kept (outcome_of self.old) }
        ensures room { CanAdvance self.new }
    {
        self.to_stop.clear();
        list_running(&self.rows.as_slice()[from..to], &mut self.to_stop);
        self.to_start.clear();
        list_dues(&self.rows.as_slice()[from..place], None, &mut self.to_start);
        list_dues(
            &self.rows.as_slice()[place..place + 1],
            Some(kept),
            &mut self.to_start,
        );
        list_dues(
            &self.rows.as_slice()[place + 1..to],
            None,
            &mut self.to_start,
        );
        self.rows.calm(from, to);
        self.follows = Some(Sequel::Nothing);
    }

    /// The child at the place, which has no process, is restarted: the restart counts once.
    #[tactic(auto, unfolding(otp_rules::specs::Deaths::restart, otp_rules::specs::Deaths::restart_or_end))]
    fn restart(&mut self, place: usize, kept: u64)
        requires room { CanDecide self.old }
        requires place { place < length self.old.rows.rows }
        ensures outcome { (row : Row) → slice_get self.old.rows.rows place ≡ Some row →
            outcome_of self.new ≡ restart kept place row (outcome_of self.old) }
        ensures room { CanAdvance self.new }
    {
        self.rows.set_state(place, RowState::Undefined);
        match self.window.add(self.last) {
            Within::Exceeded => self.terminate(Ending::Intensity),
            Within::Ok => {
                let (from, to) = affected(self.strategy, place, self.rows.len());
                self.restart_rows(from, to, place, kept);
            }
        }
    }

    /// The child, whose row was this, has ended for good.
    #[tactic(auto, unfolding(otp_rules::specs::Deaths::after_end))]
    fn after_end(&mut self, number: u64, row: &Row)
        requires { CanStop self.old }
        ensures outcome { outcome_of self.new ≡ after_end number row.now (outcome_of self.old) }
        ensures room { CanAdvance self.new }
    {
        if ends_by_significance(self.auto_shutdown, row, &self.rows) {
            self.terminate(Ending::Significant(number));
        }
    }

    /// The child at the place, whose process ended by itself, isn't started again.
    #[tactic(auto, unfolding(otp_rules::specs::Deaths::after_end))]
    fn end_for_good(&mut self, place: usize, number: u64)
        requires room { CanDecide self.old }
        requires place { place < length self.old.rows.rows }
        ensures outcome { (row : Row) → slice_get self.old.rows.rows place ≡ Some row →
            outcome_of self.new ≡ after_end number row (end_row place row (outcome_of self.old)) }
        ensures room { CanAdvance self.new }
    {
        let row = *self.rows.get(place);
        self.end_row(place);
        self.after_end(number, &row);
    }

    /// The note Exit.
    #[tactic(auto, unfolding(otp_rules::specs::Deaths::take_exit, otp_rules::specs::Deaths::exit_in, otp_rules::specs::Deaths::death, otp_rules::specs::Places::at_number, otp_rules::specs::Places::at_row, otp_rules::specs::Places::at_found, otp_rules::specs::Places::at_place))]
    pub(crate) fn take_exit(&mut self, number: u64, reason: &Reason)
        requires { CanDecide self.old }
        ensures outcome { outcome_of self.new ≡ take_exit number reason.now (outcome_of self.old) }
        ensures room { CanAdvance self.new }
    {
        let Some(place) = self.rows.find_process(number) else {
            return;
        };
        match self.rows.get(place).state {
            RowState::Undefined | RowState::Restarting(_) => {}
            RowState::Starting(..) => self.put_last(Waiting::Item(Item::Note(Note::Exit(
                number, *reason,
            )))),
            RowState::Up(_) => {
                if self.follows.is_some() {
                    self.put_last(Waiting::Item(Item::Note(Note::Exit(number, *reason))));
                } else if is_restarted(self.rows.get(place).spec.restart, reason) {
                    self.restart(place, number);
                } else {
                    self.end_for_good(place, number);
                }
            }
            RowState::Asked(..) | RowState::Killed(_) => self.end_row(place),
        }
    }

    /// The next try of a restart that failed.
    #[tactic(auto, unfolding(otp_rules::specs::Deaths::retry, otp_rules::specs::Places::at_row, otp_rules::specs::Places::at_found, otp_rules::specs::Places::at_place))]
    pub(crate) fn retry(&mut self, kept: u64)
        requires { CanDecide self.old }
        ensures outcome { outcome_of self.new ≡ retry kept (outcome_of self.old) }
        ensures room { CanAdvance self.new }
    {
        let Some(place) = self.rows.find_retry(kept) else {
            return;
        };
        self.restart(place, kept);
    }
}
