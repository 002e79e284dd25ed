//! The calls of a supervisor, with no work open (`specs/Calls` of the rules).

ghost use Rattle.std.specs.Prelude.{[], ◌≡◌, ◌<◌, ◌∷◌, Some, None, length, slice_get};
ghost use Rattle.otp_rules.specs.Calls.{fault_at, is_named};

use crate::machine::Machine;
use otp_reason::Name;
use otp_rules::{Call, CallFault, Due, Reply, Sequel};
use otp_spec::{ChildSpec, check_childspecs};
use otp_table::{Row, RowState};

impl Machine {
    ghost use Rattle.otp_table.specs.declared.row.Row.{Row};
    ghost use Rattle.otp_machine.specs.Seen.{outcome_of, CanAdvance, CanDecide};
    ghost use Rattle.otp_rules.specs.State.{with_work};
    ghost use Rattle.otp_rules.specs.Calls.{add_child, call_at, call_child, carry_out, get_childspec, get_shared, refuse, start_child, start_dynamic, start_lawful, stop_process, take_call, terminate_process};
    ghost use Rattle.otp_rules.specs.declared.work.Sequel.TheVariants as sequel;

    pub(crate) fn refuse(&mut self, call: u64, fault: CallFault)
        requires { CanDecide self.old }
        ensures outcome { outcome_of self.new ≡ refuse call fault (outcome_of self.old) }
        ensures room { CanAdvance self.new }
    {
        self.answer(call, Reply::Refused(fault));
    }

    /// A row is added last, to be started.
    #[tactic(auto, unfolding(otp_rules::specs::Calls::add_child))]
    fn add_child(&mut self, call: u64, id: Option<Name>, spec: ChildSpec)
        requires { CanDecide self.old }
        ensures outcome { outcome_of self.new ≡ add_child call id spec (outcome_of self.old) }
        ensures room { CanAdvance self.new }
    {
        match self.rows.insert(Row {
            slot: self.rows.free_slot(),
            id,
            spec,
            state: RowState::Undefined,
        }) {
            Err(_) => self.refuse(call, CallFault::TooManyChildren),
            Ok(()) => {
                self.to_stop.clear();
                self.to_start.clear();
                self.to_start.push_back_reserved(Due { id, kept: None });
                self.follows = Some(Sequel::Added(call));
            }
        }
    }

    #[tactic(auto, unfolding(otp_rules::specs::Calls::start_lawful, otp_rules::specs::Places::at_row, otp_rules::specs::Places::at_found, otp_rules::specs::Places::at_place))]
    fn start_lawful(&mut self, call: u64, spec: ChildSpec)
        requires { CanDecide self.old }
        ensures outcome { outcome_of self.new ≡ start_lawful call spec (outcome_of self.old) }
        ensures room { CanAdvance self.new }
    {
        match self.rows.find_id(&spec.id) {
            None => self.add_child(call, Some(spec.id), spec),
            Some(place) => self.call_at(call, &Call::StartChild(spec), place),
        }
    }

    /// start_child with a specification.
    #[tactic(auto, unfolding(otp_rules::specs::Calls::start_child, otp_rules::specs::Calls::start_checked))]
    fn start_child(&mut self, call: u64, spec: ChildSpec)
        requires { CanDecide self.old }
        ensures outcome { outcome_of self.new ≡ start_child call spec (outcome_of self.old) }
        ensures room { CanAdvance self.new }
    {
        if self.strategy.is_simple() {
            self.refuse(call, CallFault::SimpleOneForOne);
            return;
        }
        match check_childspecs(&[spec], Some(self.auto_shutdown)) {
            Err(fault) => self.refuse(call, CallFault::BadSpec(fault)),
            Ok(()) => self.start_lawful(call, spec),
        }
    }

    /// start_child under simple_one_for_one.
    #[tactic(auto, unfolding(otp_rules::specs::Calls::start_dynamic, otp_rules::specs::Calls::start_shared))]
    fn start_dynamic(&mut self, call: u64)
        requires { CanDecide self.old }
        ensures outcome { outcome_of self.new ≡ start_dynamic call (outcome_of self.old) }
        ensures room { CanAdvance self.new }
    {
        if !self.strategy.is_simple() {
            self.refuse(call, CallFault::NotSimple);
            return;
        }
        match self.specs.first() {
            None => self.refuse(call, CallFault::NotSimple),
            Some(spec) => {
                let shared = *spec;
                self.add_child(call, None, shared);
            }
        }
    }

    /// The child is to be started, and then the call is answered.
    fn start_again(&mut self, call: u64, id: Name)
        requires { CanDecide self.old }
        ensures outcome { outcome_of self.new ≡ with_work [] (record { id = Some id; kept = None } ∷ []) (Some (sequel.Restarted call)) (outcome_of self.old) }
        ensures room { CanAdvance self.new }
    {
        self.to_stop.clear();
        self.to_start.clear();
        self.to_start.push_back_reserved(Due {
            id: Some(id),
            kept: None,
        });
        self.follows = Some(Sequel::Restarted(call));
    }

    /// The process is to be stopped, and then the call is answered.
    #[tactic(auto, unfolding(otp_rules::specs::Calls::stop_process))]
    fn stop_process(&mut self, call: u64, number: u64)
        requires { CanDecide self.old }
        ensures outcome { outcome_of self.new ≡ stop_process call number (outcome_of self.old) }
        ensures room { CanAdvance self.new }
    {
        self.to_start.clear();
        self.to_stop.clear();
        self.to_stop.push_reserved(number);
        self.follows = Some(Sequel::Stopped(call));
    }

    /// What a call does at the child at the place.
    fn carry_out(&mut self, call: u64, asked: &Call, place: usize)
        requires memory { CanDecide self.old }
        requires place { place < length self.old.rows.rows }
        ensures outcome { (row : Row) → slice_get self.old.rows.rows place ≡ Some row →
            outcome_of self.new ≡ carry_out call asked.now place row (outcome_of self.old) }
        ensures room { CanAdvance self.new }
    {
        let row = *self.rows.get(place);
        match asked {
            Call::RestartChild(id) => self.start_again(call, *id),
            Call::DeleteChild(_) => {
                self.rows.remove(place);
                self.answer(call, Reply::Ok);
            }
            Call::TerminateChild(_) => match row.state {
                RowState::Starting(p, _)
                | RowState::Up(p)
                | RowState::Asked(p, _)
                | RowState::Killed(p) => self.stop_process(call, p),
                RowState::Undefined | RowState::Restarting(_) => {
                    self.rows.set_state(place, RowState::Undefined);
                    self.answer(call, Reply::Ok);
                }
            },
            Call::TerminateProcess(_) => match row.state {
                RowState::Starting(p, _)
                | RowState::Up(p)
                | RowState::Asked(p, _)
                | RowState::Killed(p) => self.stop_process(call, p),
                RowState::Undefined | RowState::Restarting(_) => {
                    self.rows.remove(place);
                    self.answer(call, Reply::Ok);
                }
            },
            Call::GetChildspec(_) => self.answer(call, Reply::Spec(row.spec)),
            // These name no child, or are refused where it is there.
            Call::StartChild(_) | Call::StartDynamic | Call::WhichChildren | Call::CountChildren =>
                {}
        }
    }

    /// A call at the child at the place: refused by the child's state, or carried out.
    #[tactic(auto, unfolding(otp_rules::specs::Calls::call_at))]
    fn call_at(&mut self, call: u64, asked: &Call, place: usize)
        requires memory { CanDecide self.old }
        requires place { place < length self.old.rows.rows }
        ensures outcome { (row : Row) → slice_get self.old.rows.rows place ≡ Some row →
            outcome_of self.new ≡ call_at call asked.now place row (outcome_of self.old) }
        ensures room { CanAdvance self.new }
    {
        match fault_at(asked, self.rows.get(place).state) {
            Some(fault) => self.refuse(call, fault),
            None => self.carry_out(call, asked, place),
        }
    }

    /// A call at the child with this id.
    #[tactic(auto, unfolding(otp_rules::specs::Calls::call_child, otp_rules::specs::Places::at_row, otp_rules::specs::Places::at_found, otp_rules::specs::Places::at_place))]
    fn call_child(&mut self, call: u64, id: &Name, asked: &Call)
        requires { CanDecide self.old }
        ensures outcome { outcome_of self.new ≡ call_child call id.now asked.now (outcome_of self.old) }
        ensures room { CanAdvance self.new }
    {
        if self.strategy.is_simple() {
            self.refuse(call, CallFault::SimpleOneForOne);
            return;
        }
        match self.rows.find_id(id) {
            None => self.refuse(call, CallFault::NotFound),
            Some(place) => self.call_at(call, asked, place),
        }
    }

    /// terminate_child by number.
    #[tactic(auto, unfolding(otp_rules::specs::Calls::terminate_process, otp_rules::specs::Places::at_row, otp_rules::specs::Places::at_found, otp_rules::specs::Places::at_place))]
    fn terminate_process(&mut self, call: u64, number: u64)
        requires { CanDecide self.old }
        ensures outcome { outcome_of self.new ≡ terminate_process call number (outcome_of self.old) }
        ensures room { CanAdvance self.new }
    {
        if !self.strategy.is_simple() {
            self.refuse(call, CallFault::NotFound);
            return;
        }
        match self.rows.find_number(number) {
            None => self.refuse(call, CallFault::NotFound),
            Some(place) => self.call_at(call, &Call::TerminateProcess(number), place),
        }
    }

    /// get_childspec under simple_one_for_one: all children have the one specification.
    #[tactic(auto, unfolding(otp_rules::specs::Calls::get_shared))]
    fn get_shared(&mut self, call: u64, id: &Name)
        requires { CanDecide self.old }
        ensures outcome { outcome_of self.new ≡ get_shared call id.now (slice_get (outcome_of self.old).state.specs 0) (outcome_of self.old) }
        ensures room { CanAdvance self.new }
    {
        match self.specs.first() {
            Some(spec) if is_named(id, spec) => {
                let shared = *spec;
                self.answer(call, Reply::Spec(shared));
            }
            _ => self.refuse(call, CallFault::NotFound),
        }
    }

    #[tactic(auto, unfolding(otp_rules::specs::Calls::get_childspec, otp_rules::specs::Places::at_row, otp_rules::specs::Places::at_found, otp_rules::specs::Places::at_place))]
    fn get_childspec(&mut self, call: u64, id: &Name)
        requires { CanDecide self.old }
        ensures outcome { outcome_of self.new ≡ get_childspec call id.now (outcome_of self.old) }
        ensures room { CanAdvance self.new }
    {
        if self.strategy.is_simple() {
            self.get_shared(call, id);
            return;
        }
        match self.rows.find_id(id) {
            None => self.refuse(call, CallFault::NotFound),
            Some(place) => self.call_at(call, &Call::GetChildspec(*id), place),
        }
    }

    /// A call, with no work open.
    #[tactic(auto, unfolding(otp_rules::specs::Calls::take_call))]
    pub(crate) fn take_call(&mut self, number: u64, call: &Call)
        requires { CanDecide self.old }
        ensures outcome { outcome_of self.new ≡ take_call number call.now (outcome_of self.old) }
        ensures room { CanAdvance self.new }
    {
        match call {
            Call::StartChild(spec) => self.start_child(number, *spec),
            Call::StartDynamic => self.start_dynamic(number),
            Call::RestartChild(id) | Call::DeleteChild(id) | Call::TerminateChild(id) => {
                self.call_child(number, id, call);
            }
            Call::TerminateProcess(p) => self.terminate_process(number, *p),
            Call::WhichChildren => self.answer_which(number),
            Call::CountChildren => {
                let counts = self.counts();
                self.answer(number, Reply::Count(counts));
            }
            Call::GetChildspec(id) => self.get_childspec(number, id),
        }
    }
}

/// Why a call is refused at the child that it names, by the child's state; none: it is carried out.
fn fault_at(asked: &Call, state: RowState) -> Option<CallFault>
    ensures { result ≡ fault_at asked.now state }
{
    match (asked, state) {
        (Call::StartChild(_), RowState::Up(number)) => Some(CallFault::AlreadyStarted(number)),
        (Call::StartChild(_), _) => Some(CallFault::AlreadyPresent),
        (Call::RestartChild(_) | Call::DeleteChild(_), RowState::Undefined) => None,
        (Call::RestartChild(_) | Call::DeleteChild(_), RowState::Restarting(_)) => {
            Some(CallFault::Restarting)
        }
        (Call::RestartChild(_) | Call::DeleteChild(_), _) => Some(CallFault::Running),
        (Call::TerminateProcess(_), RowState::Undefined) => Some(CallFault::NotFound),
        (Call::TerminateChild(_) | Call::TerminateProcess(_) | Call::GetChildspec(_), _) => None,
        // These name no child.
        (Call::StartDynamic | Call::WhichChildren | Call::CountChildren, _) => None,
    }
}

fn is_named(id: &Name, spec: &ChildSpec) -> bool
    ensures { result ≡ is_named id.now spec.now }
{
    spec.id == *id
}
