// A boxed job is a job: each call is one call of what is in the box.
use crate::job::{Job, Told, Turn};
use crate::place::Place;
use otp_reason::Started;
use std::alloc::Global;

impl Job for Box<dyn Job, Global> {
    ghost use Rattle.std.specs.Prelude.{◌≡◌};

    ghost is_trapping = { λ b. (Job-box b).is_trapping b.value };

    ghost started = { λ b place answer after. (value : _) × (after ≡ record b { value = value }) × (Job-box b).started b.value place answer value };

    ghost turned = { λ b told answer after. (value : _) × (after ≡ record b { value = value }) × (Job-box b).turned b.value told answer value };

    fn traps(&self) -> bool {
        (**self).traps()
    }

    fn start(&mut self, number: u64) -> Started {
        (**self).start(number)
    }

    fn begin(&mut self, place: &Place<'_>) -> Started {
        (**self).begin(place)
    }

    fn turn(&mut self, told: Told) -> Turn {
        (**self).turn(told)
    }
}
