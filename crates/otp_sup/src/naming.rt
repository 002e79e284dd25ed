//! Which supervisor has which plan, and the one bound for all that a supervisor's name says.
use otp_inbox::InboxNaming;
use otp_signals::WordsNaming;
use std::marker::Brand;

/// A name for the supervisors of a program: with which flags and child specifications each is opened, by the number of
/// its inbox. None of one that gets its plan once the name was picked ([`Table::plan_anew`](crate::Table::plan_anew)).
///
/// A table carries the name in its type's fact. So of what lies under a lock, of which a caller knows the type alone, the
/// flags and specifications are known too: the base of its history is that plan, never opened. A function that is generic
/// in the name is called at [`Brand`]: that call picks it.
pub trait PlanNaming {
    ghost use Rattle.std.specs.Prelude.{ℕ, Option};
    ghost use Rattle.otp_spec.specs.Supervisor.{Supervisor};

    ghost plan: { ℕ → Option Supervisor };
}

impl PlanNaming for Brand {
    ghost use Rattle.std.specs.Prelude.{None};

    ghost plan = { λ number. None };
}

/// A name for supervisors with all that they stand on: their words, their inboxes and their plans.
pub trait SupNaming: WordsNaming + InboxNaming + PlanNaming {}

impl<N: WordsNaming + InboxNaming + PlanNaming> SupNaming for N {}
