//! What is asked of a phase (`specs/State` of the rules).

ghost use Rattle.std.specs.Prelude.{◌≡◌};
ghost use Rattle.otp_rules.specs.Cuts.{answers_call};
ghost use Rattle.otp_rules.specs.State.{is_over, own_number};

use otp_rules::{Phase, Sequel};

pub fn is_over(phase: Phase) -> bool
    ensures { result ≡ is_over phase }
{
    match phase {
        Phase::Unopened | Phase::Ended(..) => true,
        Phase::Open(_) => false,
    }
}

/// The supervisor's own process number.
pub fn own_number(phase: Phase) -> u64
    ensures { result ≡ own_number phase }
{
    match phase {
        Phase::Unopened => 0,
        Phase::Open(own) | Phase::Ended(own, _) => own,
    }
}

/// Whether the open work answers this call.
pub fn answers_call(number: u64, follows: Option<Sequel>) -> bool
    ensures { result ≡ answers_call number follows }
{
    match follows {
        Some(Sequel::Added(call) | Sequel::Restarted(call) | Sequel::Stopped(call)) => {
            call == number
        }
        _ => false,
    }
}
