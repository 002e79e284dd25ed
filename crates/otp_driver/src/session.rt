//! A tree with the last answer: for whoever takes orders one by one and reads them as plain values.

ghost use Rattle.std.specs.Prelude.{◌≡◌, ◌<◌, ℕ, IfErr, IfNone, IfOk, IfSome, None, OnErr, OnOk, Some, length, slice_get};
ghost use Rattle.otp_driver.specs.Changed.{Changes, RefusesChange};
ghost use Rattle.otp_driver.specs.Opened.{Opens};
ghost use Rattle.otp_driver.specs.Driven.{IsAt, IsNext};
ghost use Rattle.otp_driver.specs.Members.{Member, state_in};
ghost use Rattle.otp_driver.specs.Replies.{IsAnswerTo};
ghost use Rattle.otp_driver.specs.Sessions.{AnswersAt, IsReadied, IsToldAt, KeepsAt, NextTold};
ghost use Rattle.otp_driver.specs.declared.driven.fault.DriveFault.TheVariants.{OutOfMemory};
ghost use Rattle.otp_driver.specs.declared.route.Route.{Route};
ghost use Rattle.otp_rules.specs.declared.event.Effect.{Effect};
ghost use Rattle.otp_rules.specs.declared.event.Effect.TheVariants as effect;

use crate::changing::Unchanged;
use crate::driven::{DriveFault, Supervisor};
use crate::driver::Driver;
use crate::order::{Order, what_of};
use otp_core::ReplyAnswer;
use otp_file::TreeSpec;
use otp_rules::{Answered, Effect};
use std::alloc::Global;

/// A tree whose orders are taken one by one, and the answer that the last [`What::Reply`] told of.
#[derive(Drop)]
pub struct Session {
    pub driver: Driver,
    /// The call's number, and the answer.
    pub answer: Option<Answered>,
}

/// A copy of what is known of an answer, if it is kept.
fn copy_answer(supervisor: &Supervisor, call: u64) -> Result<Option<Answered>, DriveFault>
    requires { slice_get supervisor.now.effects supervisor.now.taken ≡ Some (effect.Reply call) }
    ensures copy { IfOk result (λ answer. IsAnswerTo call (state_in supervisor.now).replies answer) }
    ensures why { IfErr result (λ why. why ≡ OutOfMemory) }
{
    match supervisor.reply(call) {
        ReplyAnswer::Kept(reply) => {
            let reply = reply.try_clone()?;
            Ok(Some(Answered { call, reply }))
        }
        _ => Ok(None),
    }
}

impl Session {
    /// The tree that a file says; its root starts.
    ///
    /// # Errors
    ///
    /// [`DriveFault::OutOfMemory`].
    pub fn open(alloc: Global, tree: &TreeSpec) -> Result<Self, DriveFault>
        ensures tree { IfOk result (λ session. Opens tree.now session.driver) }
        ensures unanswered { IfOk result (λ session. session.answer ≡ None) }
    {
        let driver = Driver::open(alloc, tree)?;
        Ok(Session {
            driver,
            answer: None,
        })
    }

    /// The tree goes on under another tree file ([`Driver::changed`]). The answer stays.
    ///
    /// # Errors
    ///
    /// An [`Unchanged`]. Then nothing has happened.
    pub fn change(&mut self, alloc: Global, tree: &TreeSpec) -> Result<(), Unchanged>
        ensures ok { OnOk result (Changes tree.now self.old.driver self.new.driver) }
        ensures answer { self.new.answer ≡ self.old.answer }
        ensures err { OnErr result (self.new ≡ self.old) }
        ensures why { IfErr result (RefusesChange tree.now self.old.driver) }
    {
        self.driver = self.driver.changed(alloc, tree)?;
        Ok(())
    }

    /// The next order of the supervisor at this place.
    fn order_at(&self, place: usize) -> Option<Order>
        requires { place < length self.now.driver.members }
        ensures told { IfSome result (λ order. IsToldAt place order self.now.driver) }
        ensures none { IfNone result ((m : Member) → IsAt self.now.driver.members place m → slice_get m.effects m.taken ≡ None) }
    {
        let supervisor = &self.driver.supervisors()[place];
        match supervisor.order() {
            None => None,
            Some(order) => Some(Order {
                supervisor: place,
                what: what_of(supervisor, order),
            }),
        }
    }

    /// The call whose answer the next order of the supervisor at this place tells of.
    fn answered_at(&self, place: usize) -> Option<u64>
        requires { place < length self.now.driver.members }
        ensures some { IfSome result (AnswersAt self.now.driver place) }
        ensures none { IfNone result ((call : ℕ) (m : Member) → IsAt self.now.driver.members place m → slice_get m.effects m.taken ≡ Some (effect.Reply call) → ⊥) }
    {
        match self.driver.supervisors()[place].order() {
            Some(Effect::Reply(call)) => Some(*call),
            _ => None,
        }
    }

    /// The answer to this call, of which the next order at this place tells, is kept from now on.
    #[inline(never)]
    fn keep_answer(&mut self, place: usize, call: u64) -> Result<(), DriveFault>
        requires place { place < length self.old.driver.members }
        requires answers { AnswersAt self.old.driver place call }
        ensures kept { OnOk result ((m : Member) → IsAt self.old.driver.members place m → IsAnswerTo call (state_in m).replies self.new.answer) }
        ensures driven { self.new.driver ≡ self.old.driver }
        ensures err { OnErr result (self.new ≡ self.old) }
        ensures why { IfErr result (λ why. why ≡ OutOfMemory) }
    {
        self.answer = copy_answer(&self.driver.supervisors()[place], call)?;
        Ok(())
    }

    /// The answer that the next order at this place tells of is kept from now on; any other order leaves the last one.
    fn keep_next(&mut self, place: usize) -> Result<(), DriveFault>
        requires { place < length self.old.driver.members }
        ensures kept { OnOk result ((e : Effect) (r : Route) → IsNext self.old.driver place e r → KeepsAt e place self.old.driver self.old.answer self.new.answer) }
        ensures driven { self.new.driver ≡ self.old.driver }
        ensures err { OnErr result (self.new ≡ self.old) }
        ensures why { IfErr result (λ why. (why ≡ OutOfMemory) × ((call : ℕ) × AnswersAt self.old.driver place call)) }
    {
        match self.answered_at(place) {
            None => Ok(()),
            Some(call) => self.keep_answer(place, call),
        }
    }

    /// Goes on by itself until an order for the outside is next, and says which supervisor has it; `None` where nothing is
    /// left to do. It stays the next order until [`Driver::took`]; the answer that it tells of is kept from now on.
    ///
    /// # Errors
    ///
    /// As of [`Driver::go_on`], and where there is no memory for a copy of an answer: its order is then the next.
    pub fn ready(&mut self) -> Result<Option<usize>, DriveFault>
        ensures { IsReadied result self.old self.new }
    {
        let Some(place) = self.driver.go_on()? else {
            return Ok(None);
        };
        self.keep_next(place)?;
        Ok(Some(place))
    }

    /// The next order for the outside, which is taken by that; `None` where nothing is left to do.
    ///
    /// # Errors
    ///
    /// As of [`Session::ready`]. The order is then still the next.
    pub fn next(&mut self) -> Result<Option<Order>, DriveFault>
        ensures { NextTold result self.old self.new }
    {
        let Some(place) = self.ready()? else {
            return Ok(None);
        };
        let Some(order) = self.order_at(place) else {
            return Err(DriveFault::NoSupervisor);
        };
        self.driver.took(place);
        Ok(Some(order))
    }
}
