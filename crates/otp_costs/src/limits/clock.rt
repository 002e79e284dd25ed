//! Whole seconds, and where in a second crashes begin.

ghost use Rattle.otp_costs.specs.Clocks.{FirstPhaseIsWorst};

/// No two moments are shown closer together by whole seconds than where the first of them begins a second: crashes that are
/// survived from there on are survived in each phase of a second.
#[tactic(auto, unfolding(otp_trial::specs::Clocks::shown))]
pub fn first_phase_is_worst()
    ensures { FirstPhaseIsWorst }
{}
