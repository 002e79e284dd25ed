//! The state at which a core's history begins, as contracts alone see it.

ghost use Rattle.std.specs.Prelude.{◌≡◌};
ghost use Rattle.otp_machine.specs.Seen.{outcome_of};
ghost use Rattle.otp_rules.specs.State.{State};
ghost use base.Fml.{ftrue};

use otp_machine::Machine;
use std::marker::{Model, PhantomData};

/// A state that only clauses read. It has no bytes, and its methods do nothing at run time.
pub struct BaseState {
    pub(crate) marker: PhantomData<()>,
    pub ghost state: { State },
}

impl Model for BaseState {
    ghost also_owns = { λ _. ftrue };
}

impl Drop for BaseState {
    fn drop(self) {
        let Self { marker: _ } = self;
    }
}

// It has no bytes and owns nothing.
unsafe impl Send for BaseState {}

unsafe impl Sync for BaseState {}

/// The state of a machine.
pub fn origin_of(machine: &Machine) -> BaseState
    ensures state { result.state ≡ (outcome_of machine.now).state }
{
    BaseState {
        marker: PhantomData,
    }
}
