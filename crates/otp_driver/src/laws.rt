//! Laws of a tree that is driven.

ghost use Rattle.otp_driver.specs.Agree.{StepsAgree};
ghost use Rattle.otp_driver.specs.Runs.{RunsAgree};
ghost use Rattle.otp_driver.specs.Sessions.{NextsRun};

/// A tree goes on in one way alone.
pub fn steps_agree()
    ensures { StepsAgree }
{}

/// From one tree, of the same inputs at the same readings of the clock comes the same: the same orders of the same supervisors, in
/// one order, the same numbers of calls, and the same tree. An input that is refused leaves the tree as it was, and counts as none.
pub fn runs_agree()
    ensures { RunsAgree }
{}

/// What [`Session::next`](crate::Session::next) ensures, and so C's `otp_next`, is one input of such a run: that the next order is taken.
pub fn nexts_run()
    ensures { NextsRun }
{}
