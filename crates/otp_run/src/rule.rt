// The rule of a deque, what each of its passes knows, and the steps.
use crossbeam_deque::protocol::{Join, Lesson, Outcome, Protocol, Split};
use crossbeam_deque::{Pass, Stealer, Worker};
use otp_job::{Process, Ticket};
use std::alloc::Global;
use std::collections::LinkedList;

/// All passes of a deque share so many parts of the right to know the whole; each has one at least.
pub const ALL_PARTS: u64 = 8;

/// What a pass knows: its parts, what it put and what it took. No value of it is made.
pub struct RunView {
    pub parts: u64,
    pub put: LinkedList<Ticket>,
    pub taken: LinkedList<Ticket>,
}

/// The rule of a deque (`specs/Rule.antt`).
pub struct DequeRule;

impl<J: Drop, S: Drop> Protocol<Process<J, S>, RunView> for DequeRule {
    ghost use Rattle.std.specs.Prelude.{map};
    ghost use Rattle.otp_run.specs.Rule.{IsDeque, ticket_of, whole_view, blank_view};

    ghost holds = { λ items views. IsDeque (map ticket_of items) views };

    ghost first = { whole_view };

    ghost guest = { blank_view };
}

pub(crate) type ProcessWorker<J, S> = Worker<Process<J, S>, Global, RunView, DequeRule>;

pub(crate) type ProcessStealer<J, S> = Stealer<Process<J, S>, Global, RunView, DequeRule>;

pub(crate) type ProcessPass<J, S> = Pass<Process<J, S>, RunView>;

// A push.
pub struct Put;

impl<J: Drop, S: Drop> Outcome<Process<J, S>, RunView> for Put {
    ghost use Rattle.std.specs.Prelude.{map};
    ghost use Rattle.otp_run.specs.Rule.{Puts, ticket_of};

    ghost then = { λ v xs w. Puts v (map ticket_of xs) w };
}

// A pop or a steal.
pub struct Taken;

impl<J: Drop, S: Drop> Outcome<Process<J, S>, RunView> for Taken {
    ghost use Rattle.std.specs.Prelude.{map};
    ghost use Rattle.otp_run.specs.Rule.{Takes, ticket_of};

    ghost then = { λ v xs w. Takes v (map ticket_of xs) w };
}

// A pop by a pass that has all parts: it learns that no more is taken than was put, and when nothing is left.
pub struct Drained;

impl<J: Drop, S: Drop> Outcome<Process<J, S>, RunView> for Drained {
    ghost use Rattle.std.specs.Prelude.{map};
    ghost use Rattle.otp_run.specs.Rule.{TakesLeft, IsEmptied, ticket_of};

    ghost then = { λ v xs w. TakesLeft v (map ticket_of xs) w };

    ghost empty = { λ v. IsEmptied v };
}

// A count by a pass that has all parts.
pub struct Counted;

impl<J: Drop, S: Drop> Lesson<Process<J, S>, RunView> for Counted {
    ghost use Rattle.std.specs.Prelude.{length};
    ghost use Rattle.otp_run.specs.Rule.{Counts};

    ghost fact = { λ v items. Counts v (length items) };
}

// One part is cut off, for a thief.
pub struct Cut;

impl Split<RunView> for Cut {
    ghost use Rattle.otp_run.specs.Rule.{kept_view, thief_view};

    ghost left = { λ v. kept_view v };

    ghost right = { λ v. thief_view };
}

// A thief's pass comes home.
pub struct Joined;

impl Join<RunView> for Joined {
    ghost use Rattle.otp_run.specs.Rule.{joined_view, blank_view};

    ghost both = { λ v w. joined_view v w };

    ghost spent = { blank_view };
}
