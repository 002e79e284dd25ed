// A boxed subsystem is a subsystem: each call is one call of what is in the box.
use crate::bridge::subsystem::Subsystem;
use otp_reason::{Reason, Started};
use std::alloc::Global;

impl Subsystem for Box<dyn Subsystem, Global> {
    ghost use Rattle.std.specs.Prelude.{◌≡◌};

    ghost inited = { λ b answer after. (value : _) × (after ≡ record b { value = value }) × (Subsystem-box b).inited b.value answer value };

    ghost polled = { λ b answer after. (value : _) × (after ≡ record b { value = value }) × (Subsystem-box b).polled b.value answer value };

    ghost terminated = { λ b reason after. (value : _) × (after ≡ record b { value = value }) × (Subsystem-box b).terminated b.value reason value };

    fn init(&mut self) -> Started {
        (**self).init()
    }

    fn poll(&mut self) -> Option<Reason> {
        (**self).poll()
    }

    fn terminate(&mut self, reason: Reason) {
        (**self).terminate(reason);
    }
}
