//! A leader that does what a list of steps says, and writes down what it sees.
ghost use Rattle.std.specs.Prelude.{◌≡◌};

use crate::fixtures::{MEMORY, got};
use crate::guests::{Common, GuestKind, Load, Worker};
use otp_job::bridge::BoxedSubsystem;
use otp_job::{Body, TableNo};
use otp_reason::{Name, Note, Reason};
use otp_rules::{Call, CallFault, Reply};
use otp_spec::ChildSpec;
use otp_tree::{CallEnd, CallId, CallRefusal, CallRequest, Leader, Round, Uncalled};
use std::alloc::Global;
use std::process::Abort;

/// A step. Where hands wait for each other the turns of a round may be spent on nothing, so a leader serves on until it sees what
/// it waits for.
#[derive(Clone, Copy)]
pub(crate) enum Step {
    /// Serves until the root is up.
    Up,
    /// Serves until there were so many starts, and so many of those that are counted apart.
    Starts(u64, u64),
    /// Serves until the workers had so many turns.
    Turns(u64),
    /// Serves for so many rounds.
    Rounds(u64),
    /// Has a worker crash.
    Crash,
    /// Calls the supervisor of this number, and serves until the answer is there.
    Ask(usize, Question),
    /// Calls the supervisor of this number, and serves no turn: so no answer comes.
    AskLate(usize, Question),
    /// Looks again for the answer that came last.
    AskAgain,
    /// From here on what is written down of turns is counted.
    Mark,
    /// Writes down how many turns the workers had.
    Count,
    /// Writes down in how many turns of hands none had anything to do.
    CountIdle,
    /// Asks the root to shut down.
    Stop,
    /// Serves until the root has ended.
    End,
}

/// What a supervisor is asked.
#[derive(Clone, Copy)]
pub(crate) enum Question {
    Count,
    Which,
    Terminate(&'static str),
    Restart(&'static str),
    /// To start this child, a fragile worker.
    Add(&'static str),
    /// To start a dynamic child with a body that no call may bring.
    AddTable,
}

/// What a leader sees.
#[derive(Clone, Copy, Debug, PartialEq, Eq)]
pub(crate) enum Seen {
    Up,
    Ended(Reason),
    /// So many turns of workers.
    Turns(u64),
    /// So many turns in which no hand had anything to do.
    Idle(u64),
    Ok,
    /// A child was started under this number.
    Started(u64),
    /// So many children were listed.
    Listed(usize),
    Counted,
    /// The child was there already; whether the body that the call brought is back.
    AlreadyThere(bool),
    Refused,
    Gone,
    Unanswered,
    NoSupervisor,
    /// A body that no call may bring is back.
    WrongBody,
    /// What no test wants to see.
    Other,
}

/// Does what a list of steps says.
#[derive(Drop)]
pub(crate) struct Script {
    shared: Common,
    steps: &'static [Step],
    place: usize,
    // Turns of a round.
    turns: u64,
    // Rounds so far, and those of the step that is done.
    pub(crate) rounds: u64,
    spent: u64,
    // Turns of workers, and of hands that had nothing to do, at the mark.
    turns_before: u64,
    idle_before: u64,
    pub(crate) seen: Vec<Seen>,
    is_up: bool,
    has_ended: bool,
    // The supervisor that was asked last.
    asked: usize,
    // The call whose answer is still to come, and the one that was answered last.
    unanswered: Option<CallId>,
    answered: Option<CallId>,
}

impl Script {
    /// These steps, with so many turns a round.
    pub(crate) fn new(
        rt: &impl Abort,
        alloc: Global,
        shared: Common,
        steps: &'static [Step],
        turns: u64,
    ) -> Script {
        Script {
            shared,
            steps,
            place: 0,
            turns,
            rounds: 0,
            spent: 0,
            turns_before: 0,
            idle_before: 0,
            seen: got(rt, MEMORY, Vec::with_capacity(alloc, 16)),
            is_up: false,
            has_ended: false,
            asked: 0,
            unanswered: None,
            answered: None,
        }
    }

    // Where there is no room any more the test misses it.
    fn see(&mut self, seen: Seen) {
        let _pushed = self.seen.push(seen).is_ok();
    }

    fn hear_note(&mut self, told: Option<Note>) {
        match told {
            None => {}
            Some(Note::Up(0)) => {
                self.is_up = true;
                self.see(Seen::Up);
            }
            Some(Note::Exit(0, reason)) => {
                self.has_ended = true;
                self.see(Seen::Ended(reason));
            }
            Some(_) => self.see(Seen::Other),
        }
    }

    // Whether the next step may come after this one.
    fn is_over(&self, step: Step) -> bool {
        match step {
            Step::Up => self.is_up,
            Step::Starts(starts, apart) => {
                self.shared.starts() >= starts && self.shared.apart() >= apart
            }
            Step::Turns(turns) => self.shared.turns() >= turns,
            Step::Rounds(rounds) => self.spent >= rounds,
            Step::End => self.has_ended,
            _ => true,
        }
    }

    // A round more.
    fn serve(&mut self) -> Round<Worker, BoxedSubsystem> {
        self.rounds = self.rounds.saturating_add(1);
        self.spent = self.spent.saturating_add(1);
        Round::Serve(self.turns)
    }

    fn stop(&mut self) -> Round<Worker, BoxedSubsystem> {
        self.rounds = self.rounds.saturating_add(1);
        Round::Stop(self.turns)
    }

    // The round of a step, where it has one of its own.
    fn act(&mut self, step: Step) -> Option<Round<Worker, BoxedSubsystem>> {
        match step {
            Step::Crash => {
                self.shared.want_crash();
                Some(self.serve())
            }
            Step::Ask(table, question) => {
                let turns = self.turns;
                Some(self.ask(table, question, turns))
            }
            Step::AskLate(table, question) => Some(self.ask(table, question, 0)),
            Step::AskAgain => Some(match self.answered {
                Some(asked) => Round::Await(asked, 0),
                None => Round::Leave,
            }),
            Step::Mark => {
                self.turns_before = self.shared.turns();
                self.idle_before = self.shared.idle();
                None
            }
            Step::Count => {
                let turns = self.shared.turns().saturating_sub(self.turns_before);
                self.see(Seen::Turns(turns));
                None
            }
            Step::CountIdle => {
                let idle = self.shared.idle().saturating_sub(self.idle_before);
                self.see(Seen::Idle(idle));
                None
            }
            Step::Stop => Some(self.stop()),
            _ => None,
        }
    }

    fn ask(
        &mut self,
        table: usize,
        question: Question,
        turns: u64,
    ) -> Round<Worker, BoxedSubsystem> {
        self.asked = table;
        match self.call_of(question) {
            Some((call, body)) => Round::Call(CallRequest {
                table,
                call,
                body,
                turns,
            }),
            None => Round::Leave,
        }
    }

    // The call of a question, and the body that it brings.
    fn call_of(&self, question: Question) -> Option<(Call, Option<Load>)> {
        let (call, body) = match question {
            Question::Count => (Call::CountChildren, None),
            Question::Which => (Call::WhichChildren, None),
            Question::Terminate(id) => (Call::TerminateChild(Name::new(id.as_bytes())?), None),
            Question::Restart(id) => (Call::RestartChild(Name::new(id.as_bytes())?), None),
            Question::Add(id) => {
                let id = Name::new(id.as_bytes())?;
                let worker = Worker::try_new(GuestKind::Fragile, &self.shared)?;
                (
                    Call::StartChild(ChildSpec::new(id, id)),
                    Some(Body::Worker(worker)),
                )
            }
            Question::AddTable => (Call::StartDynamic, Some(Body::Sup(TableNo::new(0)))),
        };
        Some((call, body))
    }

    // Whether the call is said to be of the supervisor that was asked. No test wants to see another.
    fn hear_of(&mut self, call: CallId) -> bool {
        let is_of = call.table == self.asked;
        if !is_of {
            self.see(Seen::Other);
        }
        is_of
    }

    // What a supervisor answered, and whether the body that the call brought is back.
    fn hear_answer(&mut self, reply: &Reply, is_back: bool) {
        let seen = match reply {
            Reply::Ok => Seen::Ok,
            Reply::OkProcess(number) => Seen::Started(*number),
            Reply::Which(lines) => Seen::Listed(lines.as_slice().len()),
            Reply::Count(_) => Seen::Counted,
            Reply::Refused(CallFault::AlreadyStarted(_)) => Seen::AlreadyThere(is_back),
            Reply::Refused(_) => Seen::Refused,
            _ => Seen::Other,
        };
        self.see(seen);
    }

    // A call that wasn't sent, with what came back.
    fn hear_unsent(&mut self, fault: Uncalled<Load>) {
        let Uncalled { cause, body } = fault;
        self.see(match cause {
            CallRefusal::NoSupervisor if body.is_none() => Seen::NoSupervisor,
            CallRefusal::WrongBody if body.is_some() => Seen::WrongBody,
            _ => Seen::Other,
        });
    }
}

impl Leader<Worker, BoxedSubsystem> for Script {
    fn next(&mut self, told: Option<Note>) -> Round<Worker, BoxedSubsystem> {
        self.hear_note(told);
        let steps = self.steps;
        if let Some(asked) = self.unanswered {
            if self.place < steps.len() {
                self.unanswered = None;
                return Round::Await(asked, self.turns);
            }
            self.see(Seen::Unanswered);
        }
        for step in steps.iter().skip(self.place) {
            if !self.is_over(*step) {
                return self.serve();
            }
            self.place = self.place.saturating_add(1);
            self.spent = 0;
            if let Some(round) = self.act(*step) {
                return round;
            }
        }
        Round::Leave
    }

    fn hear(&mut self, answer: CallEnd<Worker, BoxedSubsystem>) {
        match answer {
            CallEnd::Answered(asked, reply, body) => {
                if self.hear_of(asked) {
                    self.answered = Some(asked);
                    self.hear_answer(&reply, body.is_some());
                }
            }
            CallEnd::Gone(asked, _) => {
                if self.hear_of(asked) {
                    self.see(Seen::Gone);
                }
            }
            CallEnd::Unanswered(asked) | CallEnd::OutOfMemory(asked) => {
                if self.hear_of(asked) {
                    self.unanswered = Some(asked);
                }
            }
            CallEnd::Unsent(fault) => self.hear_unsent(fault),
        }
    }
}
