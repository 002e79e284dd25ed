//! The events that a history no longer holds, as contracts alone see them.

ghost use Rattle.std.specs.Prelude.{◌≡◌, [], List};
ghost use Rattle.otp_rules.specs.declared.event.Event.{Event};
ghost use base.Fml.{ftrue};

use std::marker::{Model, PhantomData};

/// A list of events that only clauses read. It has no bytes, and its methods do nothing at run time.
pub struct PastEvents {
    pub(crate) marker: PhantomData<()>,
    pub ghost events: { List Event },
}

impl Model for PastEvents {
    ghost also_owns = { λ _. ftrue };
}

impl PastEvents {
    /// No events.
    pub fn new() -> PastEvents
        ensures none { result.events ≡ [] }
    {
        PastEvents {
            marker: PhantomData,
        }
    }
}

impl Drop for PastEvents {
    fn drop(self) {
        let Self { marker: _ } = self;
    }
}

// It has no bytes and owns nothing.
unsafe impl Send for PastEvents {}

unsafe impl Sync for PastEvents {}
