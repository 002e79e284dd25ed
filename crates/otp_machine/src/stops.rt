//! Children are told to stop (`specs/Stops` of the rules).

ghost use Rattle.std.specs.Prelude.{◌≡◌, ◌+◌, ◌<◌, ◌≤◌, Some, length, position, remove, vec_len, vec_capacity};
ghost use Rattle.otp_rules.specs.Stops.{is_exit};
ghost use Rattle.otp_spec.specs.declared.limits.TheConstants.{MAX_READING};

use crate::decisions::restarts::list_running;
use crate::decisions::stops::{stop_order, told};
use crate::machine::Machine;
use otp_rules::{Ending, Sequel};
use std::mem;

impl Machine {
    ghost use Rattle.otp_machine.specs.Seen.{outcome_of, CanAdvance, CanStop};
    ghost use Rattle.otp_rules.specs.Stops.{tell, use_exit, stop_each, terminate_ordered, terminate_together, terminate, calm_all};

    #[tactic(auto, unfolding(otp_rules::specs::Stops::tell, otp_rules::specs::Stops::tell_row, otp_rules::specs::Places::at_number, otp_rules::specs::Places::at_row, otp_rules::specs::Places::at_found, otp_rules::specs::Places::at_place))]
    pub(crate) fn tell(&mut self, number: u64)
        requires room { vec_len self.old.orders < vec_capacity self.old.orders }
        requires last { self.old.last ≤ MAX_READING }
        ensures outcome { outcome_of self.new ≡ tell number (outcome_of self.old) }
        ensures rest { self.new ≡ record self.old { rows = self.new.rows; orders = self.new.orders } }
        ensures orders { vec_len self.new.orders ≤ vec_len self.old.orders + 1 }
        ensures capacity { vec_capacity self.new.orders ≡ vec_capacity self.old.orders }
    {
        let Some(place) = self.rows.find_process(number) else {
            return;
        };
        let id = self.rows.get(place).id;
        let shutdown = self.rows.get(place).spec.shutdown;
        self.rows
            .set_state(place, told(self.last, number, shutdown));
        self.orders.push_reserved(stop_order(id, number, shutdown));
    }

    /// The first waiting end of the process, which stands at the place, is used: the process has ended.
    #[tactic(auto, unfolding(otp_rules::specs::Stops::use_exit))]
    pub(crate) fn use_exit(&mut self, number: u64, place: usize)
        requires { position (is_exit number) self.old.waiting.items ≡ Some place }
        ensures outcome { outcome_of self.new ≡ use_exit number (Some place) (outcome_of self.old) }
        ensures rest { self.new ≡ record self.old { rows = self.new.rows; waiting = self.new.waiting } }
        ensures items { self.new.waiting.items ≡ remove self.old.waiting.items place }
        ensures waiting { length self.new.waiting.items ≤ length self.old.waiting.items }
    {
        self.waiting.remove_exit(number, place);
        self.end_process(number);
    }

    #[tactic(auto, unfolding(otp_rules::specs::Stops::stop_each))]
    fn stop_each(&mut self, numbers: &[u64])
        requires orders { vec_len self.old.orders + length numbers.now ≤ vec_capacity self.old.orders }
        requires last { self.old.last ≤ MAX_READING }
        ensures outcome { outcome_of self.new ≡ stop_each numbers.now (outcome_of self.old) }
        ensures rest { self.new ≡ record self.old { rows = self.new.rows; waiting = self.new.waiting; orders = self.new.orders } }
        ensures orders { vec_len self.new.orders ≤ vec_len self.old.orders + length numbers.now }
        ensures capacity { vec_capacity self.new.orders ≡ vec_capacity self.old.orders }
        ensures waiting { length self.new.waiting.items ≤ length self.old.waiting.items }
    {
        for number in numbers {
            let p = *number;
            match self.waiting.find_exit(p) {
                Some(place) => self.use_exit(p, place),
                None => self.tell(p),
            }
        }
    }

    fn calm(&mut self)
        ensures outcome { outcome_of self.new ≡ calm_all (outcome_of self.old) }
        ensures rest { self.new ≡ record self.old { rows = self.new.rows } }
        ensures rows { length self.new.rows.rows ≡ length self.old.rows.rows }
    {
        let len = self.rows.len();
        self.rows.calm(0, len);
    }

    #[tactic(auto, unfolding(otp_rules::specs::Stops::terminate_ordered))]
    fn terminate_ordered(&mut self, ending: Ending)
        requires { CanStop self.old }
        ensures outcome { outcome_of self.new ≡ terminate_ordered ending (outcome_of self.old) }
        ensures room { CanAdvance self.new }
    {
        self.to_stop.clear();
        list_running(self.rows.as_slice(), &mut self.to_stop);
        self.to_start.clear();
        self.follows = Some(Sequel::End(ending));
        self.calm();
    }

    #[tactic(auto, unfolding(otp_rules::specs::Stops::terminate_together))]
    fn terminate_together(&mut self, ending: Ending)
        requires { CanStop self.old }
        ensures outcome { outcome_of self.new ≡ terminate_together ending (outcome_of self.old) }
        ensures room { CanAdvance self.new }
    {
        let alloc = *self.to_stop.allocator();
        let mut numbers = mem::replace(&mut self.to_stop, Vec::new(alloc));
        numbers.clear();
        list_running(self.rows.as_slice(), &mut numbers);
        self.to_start.clear();
        self.follows = Some(Sequel::End(ending));
        self.calm();
        self.stop_each(&numbers);
        numbers.clear();
        self.to_stop = numbers;
    }

    /// All children are to be stopped, and then the supervisor ends.
    #[tactic(auto, unfolding(otp_rules::specs::Stops::terminate))]
    pub(crate) fn terminate(&mut self, ending: Ending)
        requires { CanStop self.old }
        ensures outcome { outcome_of self.new ≡ terminate ending (outcome_of self.old) }
        ensures room { CanAdvance self.new }
    {
        if self.strategy.is_simple() {
            self.terminate_together(ending);
        } else {
            self.terminate_ordered(ending);
        }
    }
}
