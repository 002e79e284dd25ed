//! Crashes that are no more than the intensity.

ghost use Rattle.otp_suggest.specs.Few.{FewAreWithin};

/// So many crashes as a supervisor's intensity are within it whenever they come: no period has more of them than there are.
pub fn few_are_within()
    ensures { FewAreWithin }
{}
