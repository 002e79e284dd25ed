//! What becomes of a child's process: laws over every supervisor, from its start to the note of its end.
ghost use Rattle.otp_rules.specs.Alive.{ProcessesLived, ProcessesLivedFrom};
ghost use Rattle.otp_rules.specs.InOrder.{StaysInOrder};
ghost use Rattle.otp_rules.specs.Lives.{EndComesLast, EndComesLastFrom, EndedHasNoRows, EndedHasNoRowsFrom, EndsAreHeard, EndsTellStarted, EndsTellStartedFrom, ProcessesStay, ProcessesStayFrom};

/// A supervisor that was never opened is in order, and each lawful history leads from a state in order to one: each such
/// state is a base for the laws below.
pub fn stays_in_order()
    ensures { StaysInOrder }
{}

/// An end that waits until no work is open is that of a process that the supervisor started: its child had it when the
/// note was taken. So it is from each state of whose processes all numbers are known.
pub fn ends_tell_started()
    ensures heard { EndsAreHeard }
    ensures started_from_any { EndsTellStartedFrom }
    ensures started { EndsTellStarted }
{}

/// In a lawful history a process that was started stays its child's, in the child's slot, until the note of its end is
/// taken: until then no child vanishes, and the supervisor doesn't end. So it is from each state that is in order.
pub fn processes_stay()
    ensures stay_from_any { ProcessesStayFrom }
    ensures end_from_any { EndComesLastFrom }
    ensures stay { ProcessesStay }
    ensures end { EndComesLast }
{}

/// A supervisor that was never opened, or that has ended, has no children.
pub fn ended_has_no_rows()
    ensures from_any { EndedHasNoRowsFrom }
    ensures from_empty { EndedHasNoRows }
{}

/// A process that a child has after an event, and of which no Exit waits, is the one that the event starts; or its child
/// had it before the event in the same slot, no Exit of it waited, and the event doesn't take the note of its end. So the
/// note of an end is never without effect: the child has the process no more, or the Exit waits. So it is from each state
/// that is in order.
pub fn processes_lived()
    ensures from_any { ProcessesLivedFrom }
    ensures from_empty { ProcessesLived }
{}
