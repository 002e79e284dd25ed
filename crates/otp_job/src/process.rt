ghost use Rattle.std.specs.Prelude.{◌≡◌, ◌≢◌, ◌↔◌, Some, None, false, IsTrue, OnOk, OnErr, IfOk, IfErr, IsOk};
ghost use Rattle.otp_job.specs.Processes.{fresh_process, is_news, IsRunnable, nested_table_of};
ghost use Rattle.otp_job.specs.declared.body.Body.TheVariants.{Sup};

use crate::body::{Body, TableNo};
use otp_reason::Name;
use otp_signals::Signal;
use std::alloc::Global;
use std::marker::Model;

/// Which process it is, without its body: what is shown of it where the body doesn't matter.
#[derive(Clone, Copy, Debug, PartialEq, Eq)]
pub struct Ticket {
    /// Its number, which no other process has.
    pub number: u64,
    /// The slot of the signal word at which its supervisor posts to it.
    pub slot: usize,
    /// The table of its supervisor, to which its notes go.
    pub table: usize,
    /// The id of the child whose process it is. A dynamic one has none, nor has the root of a tree.
    pub id: Option<Name>,
    /// Whether the child had a process before, since its supervisor opened: then it is a restart.
    pub again: bool,
}

/// How far a process has come.
#[derive(Clone, Copy, Debug, PartialEq, Eq)]
pub enum ProcessPhase {
    /// Its first turn is still to come.
    Fresh,
    /// It has started.
    Running,
    /// It has started, and its job was told to shut down.
    Asked,
}

/// A process: a child's body with its number. It moves between run queues and schedulers, a turn at a time.
///
/// Its body is there, but for a nested supervisor's that has gone home. A worker or a bridge that has started has its
/// body, and the bridge is up.
#[derive(Drop)]
pub struct Process<J: Drop, S: Drop> {
    pub(crate) inside: Box<Inside<J, S>, Global>,
}

// What a process is made of. It stays where it was made, while the process goes from queue to queue: a move of a
// process is a move of one pointer.
#[derive(Drop)]
pub(crate) struct Inside<J: Drop, S: Drop> {
    pub(crate) ticket: Ticket,
    pub(crate) body: Option<Body<J, S>>,
    pub(crate) phase: ProcessPhase,
}

impl<J: Drop, S: Drop> Model for Process<J, S> {
    ghost use Rattle.otp_job.specs.Processes.{ProcessState, IsSettled};

    ghost Value = { ProcessState J S };

    ghost view = { λ p. record { ticket = p.inside.value.ticket; body = p.inside.value.body; phase = p.inside.value.phase } };

    ghost invariant = { λ p. IsSettled p.inside.value.phase p.inside.value.body };
}

impl<J: Drop, S: Drop> Process<J, S> {
    /// The first process of a child without an id, which has not started: see [`Process::of`].
    pub fn new(
        alloc: Global,
        number: u64,
        slot: usize,
        table: usize,
        body: Body<J, S>,
    ) -> Result<Process<J, S>, Body<J, S>>
        ensures made { IfOk result (λ process. process ≡ fresh_process (record { number = number; slot = slot; table = table; id = None; again = false }) body) }
        ensures refused { IfErr result (λ back. back ≡ body) }
    {
        let ticket = Ticket {
            number,
            slot,
            table,
            id: None,
            again: false,
        };
        Process::of(alloc, ticket, body)
    }

    /// The process of this ticket, which has not started. Nothing is called. Refused where there is no memory; the body comes back.
    pub fn of(alloc: Global, ticket: Ticket, body: Body<J, S>) -> Result<Process<J, S>, Body<J, S>>
        ensures made { IfOk result (λ process. process ≡ fresh_process ticket body) }
        ensures refused { IfErr result (λ back. back ≡ body) }
    {
        let empty = Inside {
            ticket,
            body: None,
            phase: ProcessPhase::Fresh,
        };
        let Ok(mut inside) = Box::new(alloc, empty) else {
            return Err(body);
        };
        inside.body = Some(body);
        Ok(Process { inside })
    }

    /// Which process it is.
    pub fn ticket(&self) -> Ticket
        ensures { result ≡ self.now.ticket }
    {
        self.inside.ticket
    }

    /// Its number.
    pub fn number(&self) -> u64
        ensures { result ≡ self.now.ticket.number }
    {
        self.inside.ticket.number
    }

    /// The slot of its signal word.
    pub fn slot(&self) -> usize
        ensures { result ≡ self.now.ticket.slot }
    {
        self.inside.ticket.slot
    }

    /// The table of its supervisor.
    pub fn table(&self) -> usize
        ensures { result ≡ self.now.ticket.table }
    {
        self.inside.ticket.table
    }

    /// How far it has come.
    pub fn phase(&self) -> ProcessPhase
        ensures { result ≡ self.now.phase }
    {
        self.inside.phase
    }

    /// Whether a worker or a bridge runs in it, so that [`one_turn`](crate::one_turn) may be called.
    pub fn is_runnable(&self) -> bool
        ensures { IsTrue result ↔ IsRunnable self.now.body }
    {
        matches!(&self.inside.body, Some(Body::Worker(_) | Body::Bridge(_)))
    }

    /// The table of the nested supervisor that runs in it, if that is still here.
    pub fn nested_table(&self) -> Option<usize>
        ensures { result ≡ nested_table_of self.now.body }
    {
        match &self.inside.body {
            Some(Body::Sup(table)) => Some(table.number()),
            _ => None,
        }
    }

    /// Whether this signal, which its supervisor has posted for it, is news to it: a kill, or a shutdown that its job wasn't told.
    pub fn has_news(&self, signal: Signal) -> bool
        ensures { result ≡ is_news self.now.phase signal }
    {
        match signal {
            Signal::None => false,
            Signal::Shutdown => self.inside.phase != ProcessPhase::Asked,
            Signal::Kill => true,
        }
    }

    /// Whether its body is here.
    pub fn has_body(&self) -> bool
        ensures { IsTrue result ↔ (self.now.body ≢ None) }
    {
        self.inside.body.is_some()
    }
}

impl<J: Drop, S: Drop> Process<J, S> {
    /// Takes the nested supervisor's table number out, so that it goes home with the note of its end. None, and
    /// nothing changes, where there is none.
    pub fn take_table(&mut self) -> Option<TableNo>
        ensures table { result ≡ nested_table_of self.old.body }
        ensures taken { nested_table_of self.old.body ≢ None → self.new ≡ record self.old { body = None } }
        ensures none { nested_table_of self.old.body ≡ None → self.new ≡ self.old }
    {
        match self.inside.body.take()? {
            Body::Sup(table) => Some(table),
            body => {
                self.inside.body = Some(body);
                None
            }
        }
    }

    /// Takes the table number back in, where the note was refused.
    pub fn put_table(&mut self, table: TableNo)
        requires { self.old.body ≡ None }
        ensures { self.new ≡ record self.old { body = Some (Sup table) } }
    {
        self.inside.body = Some(Body::Sup(table));
    }

    /// Ends a process whose body has gone home. One that still has its body comes back as it was.
    pub fn retire(self) -> Result<Spent, Process<J, S>>
        ensures retired { IfOk result (λ spent. spent ≡ self.ticket.number) }
        ensures back { IfErr result (λ process. process ≡ self) }
        ensures only { IsOk result ↔ (self.body ≡ None) }
    {
        if self.inside.body.is_some() {
            return Err(self);
        }
        Ok(Spent::of(self.inside.ticket.number))
    }

    /// Takes it apart: its body, if that is still here. For whoever was handed a process back that was refused before
    /// its first turn.
    pub fn into_body(self) -> Option<Body<J, S>>
        ensures { result ≡ self.body }
    {
        let Process { inside } = self;
        let Inside {
            ticket: _,
            body,
            phase: _,
        } = Box::into_inner(inside);
        body
    }
}

/// What is left of a process that ended. It can't be let go, only be given to the scheduler that had the process out,
/// which counts the end. Contracts see the process's number.
pub struct Spent {
    number: u64,
}

impl Model for Spent {
    ghost use Rattle.std.specs.Prelude.{ℕ};

    ghost Value = { ℕ };

    ghost view = { λ s. s.number };
}

impl Spent {
    pub(crate) fn of(number: u64) -> Spent
        ensures { result ≡ number }
    {
        Spent { number }
    }

    /// Uses it up. For the scheduler that counts the end, and for whoever drives processes with no scheduler.
    pub fn into_number(self) -> u64
        ensures { result ≡ self }
    {
        let Spent { number } = self;
        number
    }
}
