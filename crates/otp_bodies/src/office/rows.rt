//! Which slot the child has that has a process.
ghost use Rattle.std.specs.Prelude.{◌≡◌};
ghost use Rattle.otp_core.specs.View.{state_of};
ghost use Rattle.otp_bodies.specs.Rows.{slot_of};

use otp_core::Core;

/// The slot of the row that has this process, and 0 where none has. The core finds the row by the number.
pub(crate) fn slot_of(core: &Core, number: u64) -> usize
    ensures { result ≡ slot_of (state_of core.now).rows number }
{
    match core.find_process(number) {
        Some(place) => core.rows()[place].slot,
        None => 0,
    }
}
