//! Laws over all states, events and histories. A law is a function that does nothing: what it ensures is the law.
ghost use Rattle.otp_laws.specs.Down.{OkLeavesDown, OkLeavesDownFrom};
ghost use Rattle.otp_laws.specs.Ids.{IdsApart, IdsStayApart, ProcessesNumbered, ProcessesNumberedFrom, ProcessesStayGone, ProcessesStayGoneFrom};
ghost use Rattle.otp_laws.specs.Life.{EndsAfterAll, EndsAfterAllFrom, IdsStartAnew, IdsStartAnewFrom, OrdersEndAfterAll, OrdersEndAfterStarts, OrdersStartAnew, RowsStartAnew, RowsStartAnewFrom};
ghost use Rattle.otp_laws.specs.Musts.{DeletesUndefined, DeletesUndefinedFrom, SignificantEndsEnd};
ghost use Rattle.otp_laws.specs.Notes.{NotesCountOnce, NotesCountOnceFrom, UnawaitedChangesNone, UnawaitedChangesNoneFrom};
ghost use Rattle.otp_laws.specs.Oks.{AnswersTrue, AnswersTrueFrom};
ghost use Rattle.otp_laws.specs.Once.{CallsAnsweredOnce, CallsAnsweredOnceFrom};
ghost use Rattle.otp_laws.specs.Owed.{CallsStart, EndsRestart, EndsStay, OwedStays, OwedUntilStarted, TriesRestart};
ghost use Rattle.otp_laws.specs.Refusals.{RefusalsChangeNone};
ghost use Rattle.otp_laws.specs.Simple.{SimpleHasNoneUndefined};
ghost use Rattle.otp_laws.specs.Starts.{EndOrdersEnd, StartsOfChildren, StartsOfChildrenFrom};
ghost use Rattle.otp_laws.specs.Stays.{StopKeepsChildren, UpKeepsChildren};
ghost use Rattle.otp_laws.specs.Ticks.{TicksKillEachLate, TicksKillEachLateFrom};

/// Of the notes that name one process, at most one answer to its start and at most one Exit change the children's rows.
/// Each other changes none: it comes where no child awaits it. An answer is awaited by a child whose start has none yet; an
/// Exit by one whose process runs or was told to stop (Supervisor Behaviour, Starting a Supervisor and Stopping).
pub fn notes_count_once()
    ensures unawaited { UnawaitedChangesNone }
    ensures unawaited_from_any { UnawaitedChangesNoneFrom }
    ensures once { NotesCountOnce }
    ensures once_from_any { NotesCountOnceFrom }
{}

/// After the start of a child its slot and its id see no other start, and the supervisor doesn't end, before the note of the
/// process's end was taken: that it ended, or never came up (Supervisor Behaviour, Restart Strategy and Stopping).
pub fn ends_come_between()
    ensures slots { RowsStartAnew }
    ensures slots_from_any { RowsStartAnewFrom }
    ensures ids { IdsStartAnew }
    ensures ids_from_any { IdsStartAnewFrom }
    ensures orders { OrdersStartAnew }
    ensures end { EndsAfterAll }
    ensures end_from_any { EndsAfterAllFrom }
    ensures end_order { OrdersEndAfterAll }
    ensures end_of_orders { OrdersEndAfterStarts }
{}

/// No two children of a supervisor have one id, after every list of events (Supervisor Behaviour, Child Specification, id).
pub fn ids_differ()
    ensures from_empty { IdsApart }
    ensures from_any { IdsStayApart }
{}

/// In a lawful history each child's process is one that the history started.
pub fn processes_are_numbered()
    ensures from_empty { ProcessesNumbered }
    ensures from_any { ProcessesNumberedFrom }
{}

/// In a lawful history a process that was started and that no child has any more, no child has again: it ends once.
pub fn processes_stay_gone()
    ensures from_empty { ProcessesStayGone }
    ensures from_any { ProcessesStayGoneFrom }
{}

/// An answer says what has happened (supervisor, delete_child/2, terminate_child/2, start_child/2 and restart_child/2). `ok`
/// comes where the child that the call names has no process when the call is taken. Else the open work is that of the call,
/// and the note that the child's process ended was taken. `{ok, Child}` comes where the open work is that of the call, with
/// the note that the process came up whose start this work ordered. After the event a child with the id that the call asks for
/// has it, and is up.
pub fn answers_are_true()
    ensures from_empty { AnswersTrue }
    ensures from_any { AnswersTrueFrom }
{}

/// Each call is answered once: under each number as many calls were taken as were answered, wait, or have the open work. So
/// none is lost, none is answered twice, and no answer is to a call that wasn't taken; a supervisor that has ended, for which
/// nothing waits and no work is open, has answered all. It holds whatever happens, in lawful histories and others.
pub fn calls_are_answered_once()
    ensures from_empty { CallsAnsweredOnce }
    ensures from_any { CallsAnsweredOnceFrom }
{}

/// A call that is refused changes nothing: the event which answers it changes no row, and opens no work. So it is in every state.
/// Of one whose child was started and failed more is done (supervisor, the errors of the calls).
pub fn refusals_change_nothing()
    ensures { RefusalsChangeNone }
{}

/// After an event that answers `ok` to delete_child or terminate_child, that is so which the call asked for: no child has the id,
/// or each that has it is undefined, so that it has no process and waits for no restart. Under simple_one_for_one it is the child
/// that the number named when the call was taken, found by its slot (supervisor, delete_child/2 and terminate_child/2).
pub fn ok_leaves_down()
    ensures from_empty { OkLeavesDown }
    ensures from_any { OkLeavesDownFrom }
{}

/// The end of a significant child which isn't restarted ends the supervisor: under any_significant each such, under
/// all_significant that of the last that is left. So it is in every state where no work is open; else the note waits
/// (Supervisor Behaviour, Automatic Shutdown).
pub fn significant_ends_end()
    ensures { SignificantEndsEnd }
{}

/// delete_child removes the row of a child that is undefined, or changes no row (supervisor, delete_child/2).
pub fn deletes_undefined()
    ensures from_empty { DeletesUndefined }
    ensures from_any { DeletesUndefinedFrom }
{}

/// Under simple_one_for_one no child is undefined between two events, but while the supervisor ends: one whose process ended is
/// gone, or is started again by the same event (Supervisor Behaviour, Simplified one_for_one Supervisors).
pub fn simple_has_none_undefined()
    ensures { SimpleHasNoneUndefined }
{}

/// Each order to start gives the event's number to the child with the order's id, which has it after the event.
pub fn starts_are_of_children()
    ensures from_empty { StartsOfChildren }
    ensures from_any { StartsOfChildrenFrom }
{}

/// After an event that orders an End the supervisor has ended.
pub fn end_orders_end()
    ensures { EndOrdersEnd }
{}

/// An event that ticks kills each child that was asked to shut down until a time that has come: its kill is ordered, and its row
/// says so. Each other row stays at its place as it was, none comes or goes, and of the rest of the state the stamp of the last
/// event alone is new (Supervisor Behaviour, Child Specification, shutdown).
pub fn ticks_kill_each_late()
    ensures from_empty { TicksKillEachLate }
    ensures from_any { TicksKillEachLateFrom }
{}

/// The note that a process is up takes no child away and adds none, where nothing waits and the supervisor isn't over then: the rows
/// have the same slots, in the same order.
pub fn up_keeps_children()
    ensures { UpKeepsChildren }
{}

/// The note that a process has ended takes no child away and adds none, where its child was told to stop, is neither temporary nor
/// dynamic, and nothing waits, and where the supervisor isn't over then: the rows have the same slots, in the same order.
pub fn stop_keeps_children()
    ensures { StopKeepsChildren }
{}

/// A child that ends is started again: a permanent one always, a transient one after an end that isn't quiet. The event that takes
/// the note of its end, where no work is open, orders its start under the event's number, or opens work that still has to; or the
/// restart was one too many within the period, and the supervisor ends. After any other end the event starts nobody, and counts no
/// restart. The next try of a restart that failed does as the first one. Who is owed a start has it ordered by a later event, or is owed it still, whatever happens; but where another start of the same work
/// fails, the work closes, and the next try waits. So it is in every state (Supervisor Behaviour, Child Specification, restart,
/// Restart Strategy and Maximum Restart Intensity).
pub fn ends_restart()
    ensures exit { EndsRestart }
    ensures other_exit { EndsStay }
    ensures next_try { TriesRestart }
    ensures owed { OwedStays }
    ensures until_started { OwedUntilStarted }
{}

/// A call that asks for a start has it ordered by the event that takes it where no work is open, under the event's number, or is
/// refused (supervisor, start_child/2 and restart_child/2).
pub fn calls_start()
    ensures { CallsStart }
{}
