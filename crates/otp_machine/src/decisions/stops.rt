//! The order to stop, and the ends that wait (`specs/Stops` of the rules).

ghost use Rattle.std.specs.Prelude.{◌≡◌, ◌≤◌};
ghost use Rattle.otp_spec.specs.declared.limits.TheConstants.{MAX_READING};
ghost use Rattle.otp_rules.specs.Stops.{is_exit, stop_order, told};

use otp_reason::{Name, Note};
use otp_rules::{Effect, Item, Waiting};
use otp_spec::Shutdown;
use otp_table::RowState;

/// The state of a child that is told to stop now.
pub fn told(now: u64, number: u64, shutdown: Shutdown) -> RowState
    requires { now ≤ MAX_READING }
    ensures { result ≡ told now number shutdown }
{
    match shutdown {
        Shutdown::BrutalKill => RowState::Killed(number),
        Shutdown::Milliseconds(time) => RowState::Asked(number, Some(now + time as u64)),
        Shutdown::Infinity => RowState::Asked(number, None),
    }
}

pub fn stop_order(id: Option<Name>, number: u64, shutdown: Shutdown) -> Effect
    ensures { result ≡ stop_order id number shutdown }
{
    match shutdown {
        Shutdown::BrutalKill => Effect::Kill(id, number),
        Shutdown::Milliseconds(_) | Shutdown::Infinity => Effect::Ask(id, number),
    }
}

/// Whether the item is the end of this process.
pub fn is_exit(item: &Waiting, number: u64) -> bool
    ensures { result ≡ is_exit number item.now }
{
    match *item {
        Waiting::Item(Item::Note(Note::Exit(p, _))) => p == number,
        _ => false,
    }
}
