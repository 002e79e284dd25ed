//! Laws over all states, events and histories. A law is a function that does nothing: what it ensures is the law.

ghost use Rattle.otp_rules.specs.Answers.{AnswersKept, AnswersTold};
ghost use Rattle.otp_rules.specs.Cuts.{CutAnywhere, CutsAgree, NeedForgets, ShortCutsAgree, StepForgets};
ghost use Rattle.otp_rules.specs.Effects.{OrdersFew};
ghost use Rattle.otp_rules.specs.Ended.{EndsCarried, EndsKept, EndsKeptFromEmpty};
ghost use Rattle.otp_rules.specs.Evidence.{EndEvidence, EndEvidenceFromEmpty};
ghost use Rattle.otp_rules.specs.Fit.{StaysFit};
ghost use Rattle.otp_rules.specs.Frames.{OrdersAppended, StepKeepsPlan, StepKeepsStamped, StepStamps};
ghost use Rattle.otp_rules.specs.Homes.{HomesKept, HomesKeptFrom};
ghost use Rattle.otp_rules.specs.InOrder.{WorkAwaits};
ghost use Rattle.otp_rules.specs.Known.{OpeningsKnown};
ghost use Rattle.otp_rules.specs.Late.{TicksKillLate, TicksKillLateFromEmpty};
ghost use Rattle.otp_rules.specs.Named.{OrdersNameRows, OrdersNameRowsFrom, OrdersNumbered, OrdersNumberedFrom};
ghost use Rattle.otp_rules.specs.Needs.{NumberStartsWork};
ghost use Rattle.otp_rules.specs.Next.{DeadlinesCome};
ghost use Rattle.otp_rules.specs.Order.{StartOrder, StartOrderFromEmpty, StopOrder, StopOrderFromEmpty};
ghost use Rattle.otp_rules.specs.Processes.{ProcessesOwned, ProcessesStayOwned};
ghost use Rattle.otp_rules.specs.Rate.{RestartRate, RestartRateFromEmpty, RestartsCounted};
ghost use Rattle.otp_rules.specs.Run.{RunGoesOn, RunsJoined};
ghost use Rattle.otp_rules.specs.Slots.{SlotsOwned, SlotsStayOwned, SlotsTellProcesses};
ghost use Rattle.otp_rules.specs.Taken.{EndIsForTaken, EndIsForTakenFromEmpty, WorkIsForTaken, WorkIsForTakenFromEmpty};
ghost use Rattle.otp_rules.specs.Waits.{StartsWait};

/// No event changes the flags or the specifications.
pub fn step_keeps_plan()
    ensures { StepKeepsPlan }
{}

/// An event's stamp is its reading, or the last stamp if that is later.
pub fn step_stamps()
    ensures { StepStamps }
{}

/// No restart is stamped later than the last event.
pub fn step_keeps_stamped()
    ensures { StepKeepsStamped }
{}

/// An event's orders come after those given before, and nothing that it does depends on those.
pub fn orders_are_appended()
    ensures { OrdersAppended }
{}

/// An event needs a number exactly where the work that it opens, or that goes on, starts a child.
pub fn number_starts_work()
    ensures { NumberStartsWork }
{}

/// The stamps are the times of the restarts of this opening, as they are seen from outside: each counts once. Among them
/// no period, wherever it ends, holds more than the intensity, but for the last restart of a supervisor that is ending,
/// or has ended, by it (Supervisor Behaviour, Maximum Restart Intensity). So it is from each state that is sound and
/// keeps the rate.
pub fn restart_rate()
    ensures counted { RestartsCounted }
    ensures from_any { RestartRate }
    ensures from_empty { RestartRateFromEmpty }
{}

/// A supervisor that was never opened is fit to be a base, and each lawful history leads from a fit state to a fit one.
/// Among other things each process is the child's in one row at most, no number is given twice, and what is still to stop
/// and to start is there.
pub fn stays_fit()
    ensures { StaysFit }
{}

/// In a lawful history a child is started only in its turn, from each state that is fit. The children to start are those
/// that the work is about, as they stood when it was opened, in start order. They are all at the opening, and the one that a
/// call names or asks for. For a restart they are those that aren't temporary and that the restart of the child affects
/// which died, or whose restart is tried again. Each of them that comes before the child was started since, in that order,
/// and has answered after that start with Up or Ignored. Each process of a child that the work is about has ended
/// (Supervisor Behaviour, Starting a Supervisor and Restart Strategy).
pub fn start_order()
    ensures from_any { StartOrder }
    ensures from_empty { StartOrderFromEmpty }
{}

/// A child is told to stop only in its turn, from each state whose open work is in step with what was seen of it. Then no
/// answer of a child is awaited, and the work is about this one (of a call: it has the process that the call names, or that
/// of the child which it names). Of the children that the work is about, each that had a process and stands after it in
/// start order has ended (Supervisor Behaviour, Stopping and Restart Strategy). Two things are no such order. One is a kill
/// of a child that was asked and whose deadline has come, which only an event that ticks gives. The other is the end of a
/// simple_one_for_one supervisor, whose children are told together by the event that ends it.
pub fn stop_order()
    ensures from_any { StopOrder }
    ensures from_empty { StopOrderFromEmpty }
{}

/// Where an event opens work, its lists are those of the children which what the event takes names: an item of the inbox,
/// or the first that waited. To be stopped are the processes of these children, in reverse start order, and to be started
/// are all that such work starts.
///
/// A restart is of the children that the restart of one affects, by the strategy. That one is the first that had the process
/// of whose end a note was taken, where its restart type asks for a restart after such an end; or the first that waited for
/// its next restart under the number that came up. restart_child starts the first child with the id that the call names,
/// which has no process. terminate_child stops the process of the first with that id or, under simple_one_for_one, the one
/// that the call names. start_child starts the child that it asks for, which is added last.
///
/// So it is from each state whose open work is sound. The children are those of which `start_order` and `stop_order` speak.
pub fn work_is_for_what_was_taken()
    ensures from_any { WorkIsForTaken }
    ensures from_empty { WorkIsForTakenFromEmpty }
{}

/// Where an event ends the supervisor, so does what the event takes. By the intensity only what makes a restart due ends it.
/// By significance only the note does that the process of a significant child ended by itself, which isn't restarted after
/// such an end, and under all_significant only that of the last such child (Supervisor Behaviour, Automatic Shutdown). Else
/// the parent asked, or a start of the opening failed.
pub fn end_is_for_what_was_taken()
    ensures from_any { EndIsForTaken }
    ensures from_empty { EndIsForTakenFromEmpty }
{}

/// Between two events of a lawful history open work awaits an answer of a child: it has gone on as far as it can. So an event
/// that ticks does nothing but kill: each of its orders is the kill of a child that was asked to shut down until a time
/// that has come (Supervisor Behaviour, Child Specification, shutdown).
pub fn ticks_kill_late()
    ensures awaits { WorkAwaits }
    ensures from_any { TicksKillLate }
    ensures from_empty { TicksKillLateFromEmpty }
{}

/// Each end that is ordered shows why: by the intensity, the flags and one restart more than the intensity, none before
/// another and all within one period; else the reason that the cause has (Supervisor Behaviour, Maximum Restart
/// Intensity and Automatic Shutdown). So it is from each state whose restarts are in order and, where it is ending by the
/// intensity, one too many.
pub fn end_evidence()
    ensures from_any { EndEvidence }
    ensures from_empty { EndEvidenceFromEmpty }
{}

/// The ends that a supervisor keeps are exactly those that its orders carried, in their order, each under the number that
/// the supervisor had when it was opened.
pub fn ends_are_kept()
    ensures from_any { EndsKept }
    ensures from_empty { EndsKeptFromEmpty }
    ensures carried { EndsCarried }
{}

/// An opening is known from then on, whatever happens from any state: the supervisor runs under its number, or keeps an end
/// under it. So where a state knows none, no event since its beginning opened the supervisor under that number.
pub fn openings_are_known()
    ensures { OpeningsKnown }
{}

/// No two children of a supervisor have one slot, and each slot is below 256, after every list of events.
pub fn slots_are_owned()
    ensures from_empty { SlotsOwned }
    ensures from_any { SlotsStayOwned }
{}

/// In a lawful history no process is that of two children, and no child has one whose number is still to come.
pub fn processes_are_owned()
    ensures from_empty { ProcessesOwned }
    ensures from_any { ProcessesStayOwned }
{}

/// So the slot of a child that has a process is no other's that has one.
pub fn slots_tell_processes()
    ensures { SlotsTellProcesses }
{}

/// Each order of a lawful history names a process that the history started.
pub fn orders_are_numbered()
    ensures from_empty { OrdersNumbered }
    ensures from_any { OrdersNumberedFrom }
{}

/// After an event each of its orders names a process that a row has, whose slot is found by the process.
pub fn orders_name_rows()
    ensures from_empty { OrdersNameRows }
    ensures from_any { OrdersNameRowsFrom }
{}

/// A child whose process has ended is at home only because the note of that end was taken. Each child that is at home after
/// an event, or that the event starts, was at home before it, or comes home by the note that the event takes, or is new.
pub fn homes_are_kept()
    ensures from_empty { HomesKept }
    ensures from_any { HomesKeptFrom }
{}

/// The orders of two lists of events follow each other, and so do their states: one event more does its step.
pub fn runs_are_joined()
    ensures lists { RunsJoined }
    ensures one_more { RunGoesOn }
{}

/// An event gives one order more than there are rows at most, beside answers to calls.
pub fn orders_are_few()
    ensures { OrdersFew }
{}

/// Some child's deadline has come exactly when the least one has.
pub fn deadlines_come()
    ensures { DeadlinesCome }
{}

/// Each start call that waits was taken while work was open. They are taken in their order when the supervisor resumes,
/// and none waits once it has ended.
pub fn start_calls_wait()
    ensures { StartsWait }
{}

/// A run may be cut at any place: from there on it has the same state, but for answers, ends and restarts too old to count, and
/// gives the same orders. Of what came before only the state is kept, without its answers and ends, and with no more restarts
/// than one more than the intensity. The same is said of one event, of a run from any state with all its restarts, and of
/// whether an event needs a number.
pub fn cuts_agree()
    ensures anywhere { CutAnywhere }
    ensures short { ShortCutsAgree }
    ensures runs { CutsAgree }
    ensures step { StepForgets }
    ensures needs { NeedForgets }
{}

/// The answers that an event gives are those that its orders tell of, in their order; and whatever was answered before, they
/// are the ones that are found.
pub fn answers_are_told()
    ensures told { AnswersTold }
    ensures kept { AnswersKept }
{}
