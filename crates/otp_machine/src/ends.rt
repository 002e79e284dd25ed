//! The end of a supervisor (`specs/Ends` of the rules).

ghost use Rattle.std.specs.Prelude.{◌≡◌, ◌+◌, ◌<◌, ◌≤◌, ◌++◌, length, vec_len, vec_capacity};
ghost use Rattle.std.specs.VecDeque.{deque_len};
ghost use Rattle.otp_rules.specs.Ends.{init_failed};

use crate::decisions::state::own_number;
use crate::machine::Machine;
use otp_reason::{Name, Reason, Text};
use otp_rules::{Cause, Effect, Ending, Phase, Stamps, SupEnd};
use std::collections::VecDeque;
use std::mem;

impl Machine {
    ghost use Rattle.otp_machine.specs.Seen.{outcome_of, CanAdvance};
    ghost use Rattle.otp_rules.specs.Ends.{end_all, sup_end_of};

    /// The end of the supervisor. Its stamps are put into a list that has room for them.
    fn sup_end(&self, ending: Ending, list: Vec<u64>) -> SupEnd
        requires { self.now.window.intensity < vec_capacity list }
        ensures { result ≡ sup_end_of (outcome_of self.now).state.flags self.now.window.stamps ending }
    {
        match ending {
            Ending::Intensity => SupEnd {
                reason: Reason::Shutdown,
                cause: Cause::Intensity {
                    flags: self.flags(),
                    stamps: copy_stamps(self.window.kept(), list),
                },
            },
            Ending::Significant(number) => SupEnd {
                reason: Reason::Shutdown,
                cause: Cause::Significant(number),
            },
            Ending::Asked => SupEnd {
                reason: Reason::Shutdown,
                cause: Cause::Asked,
            },
            Ending::InitFailed(id) => SupEnd {
                reason: init_failed(id),
                cause: Cause::InitFailed(id),
            },
        }
    }

    #[tactic(auto, unfolding(otp_rules::specs::Ends::end_all, otp_rules::specs::Ends::refuse_all))]
    pub(crate) fn end_all(&mut self, ending: Ending)
        requires { CanAdvance self.old }
        ensures { outcome_of self.new ≡ end_all ending (outcome_of self.old) }
    {
        self.close();
        self.waiting
            .refuse_calls(&mut self.replies, &mut self.orders);
        self.waiting.clear();
        self.rows.clear();
        let own = own_number(self.phase);
        self.phase = Phase::Ended(own, ending);
        let alloc = *self.spare_stamps.allocator();
        let stamps = mem::replace(&mut self.spare_stamps, Vec::new(alloc));
        let kept_stamps = mem::replace(&mut self.spare_kept_stamps, Vec::new(alloc));
        let kept = self.sup_end(ending, kept_stamps);
        self.ends.push_reserved((own, kept));
        let end = self.sup_end(ending, stamps);
        self.orders.push_reserved(Effect::End(end));
    }
}

/// These stamps in a list that has room for them.
fn copy_stamps(kept: &VecDeque<u64>, mut list: Vec<u64>) -> Stamps
    requires { deque_len kept.now ≤ vec_capacity list }
    ensures { result ≡ kept.now.items }
{
    list.clear();
    let (front, back) = kept.as_slices();
    add_stamps(front, &mut list);
    add_stamps(back, &mut list);
    Stamps::from_vec(list)
}

fn add_stamps(stamps: &[u64], list: &mut Vec<u64>)
    requires { vec_len list.old + length stamps.now ≤ vec_capacity list.old }
    ensures items { list.new.items ≡ list.old.items ++ stamps.now }
    ensures len { vec_len list.new ≡ vec_len list.old + length stamps.now }
    ensures capacity { vec_capacity list.new ≡ vec_capacity list.old }
{
    for stamp in stamps {
        list.push_reserved(*stamp);
    }
}

/// The reason of a supervisor that failed to start the child with this id.
fn init_failed(id: Name) -> Reason
    ensures { result ≡ init_failed id }
{
    Reason::ShutdownWith(Text::joined(b"failed_to_start_child/", id.as_bytes()))
}
