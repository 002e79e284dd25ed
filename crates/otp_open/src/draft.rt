//! A supervisor of a tree is drawn up child by child.
ghost use Rattle.std.specs.Prelude.{◌≡◌, ◌++◌, ◌∷◌, [], ◌==◌, None, Some, IfErr, IfOk, OnErr, OnOk, length};
ghost use Rattle.otp_job.specs.declared.body.Body.TheVariants as body;
ghost use Rattle.otp_spec.specs.Children.{default_spec};
ghost use Rattle.otp_spec.specs.Supervisor.{supervisor_fault};
ghost use Rattle.otp_open.specs.Drafts.{nested_spec};

use crate::plan::TablePlan;
use otp_job::{Body, TableNo};
use otp_reason::Name;
use otp_spec::{ChildSpec, ChildType, SpecFault, SupFlags, SupSpec, check_supervisor};
use std::alloc::{AllocError, Global};
use std::marker::Model;

/// The children of a supervisor in start order, each with what it runs, until a plan is made of them ([`TableDraft::plan`]).
#[derive(Drop)]
pub struct TableDraft<J: Drop, S: Drop> {
    specs: Vec<ChildSpec>,
    bodies: Vec<Body<J, S>>,
}

impl<J: Drop, S: Drop> Model for TableDraft<J, S> {
    ghost use Rattle.std.specs.Prelude.{◌≡◌, length};
    ghost use Rattle.otp_open.specs.Drafts.{Draft};

    ghost Value = { Draft J S };

    ghost view = { λ d. record { specs = d.specs.items; bodies = d.bodies.items } };

    ghost invariant = { λ d. length d.specs.items ≡ length d.bodies.items };
}

/// Why no plan was made, and the draft, which comes back.
#[derive(Drop)]
pub struct Unplanned<J: Drop, S: Drop> {
    pub fault: SpecFault,
    pub draft: TableDraft<J, S>,
}

impl<J: Drop, S: Drop> TableDraft<J, S> {
    /// No child yet.
    pub fn new(alloc: Global) -> Self
        ensures { result ≡ record { specs = []; bodies = [] } }
    {
        TableDraft {
            specs: Vec::new(alloc),
            bodies: Vec::new(alloc),
        }
    }

    /// How many children there are so far.
    pub fn len(&self) -> usize
        ensures { result ≡ length self.now.specs }
    {
        self.specs.len()
    }

    /// Whether there is none so far.
    pub fn is_empty(&self) -> bool
        ensures { result ≡ (length self.now.specs == 0) }
    {
        self.specs.is_empty()
    }

    /// Adds a child, which is started after those that are there. Whether its specification is lawful is asked when the
    /// plan is made.
    ///
    /// # Errors
    ///
    /// Where memory is refused, what it was to run comes back.
    pub fn add(&mut self, spec: ChildSpec, body: Body<J, S>) -> Result<(), Body<J, S>>
        ensures added { OnOk result (self.new ≡ record { specs = self.old.specs ++ spec ∷ []; bodies = self.old.bodies ++ body ∷ [] }) }
        ensures back { IfErr result (λ back. back ≡ body) }
        ensures same { OnErr result (self.new ≡ self.old) }
    {
        if self.specs.reserve(1).is_err() || self.bodies.reserve(1).is_err() {
            return Err(body);
        }
        self.specs.push_reserved(spec);
        self.bodies.push_reserved(body);
        Ok(())
    }

    /// Adds a worker that runs this job, with the manual's default for every key: a permanent child that has 5000 milliseconds
    /// to shut down ([`ChildSpec::new`]).
    ///
    /// # Errors
    ///
    /// Where memory is refused, the job comes back.
    pub fn add_worker(&mut self, id: Name, job: J) -> Result<(), J>
        ensures added { OnOk result (self.new ≡ record { specs = self.old.specs ++ default_spec id id ∷ []; bodies = self.old.bodies ++ body.Worker job ∷ [] }) }
        ensures back { IfErr result (λ back. back ≡ job) }
        ensures same { OnErr result (self.new ≡ self.old) }
    {
        match self.add(ChildSpec::new(id, id), Body::Worker(job)) {
            Ok(()) => Ok(()),
            Err(Body::Worker(job)) => Err(job),
            Err(_) => unreachable!(),
        }
    }

    /// Adds a child that is the supervisor of this number in the list of plans, the root being 0: permanent, with as much time
    /// to shut down as it wants, as a supervisor has it by default (supervisor, child specification).
    ///
    /// # Errors
    ///
    /// Where memory is refused.
    pub fn add_supervisor(&mut self, id: Name, table: usize) -> Result<(), AllocError>
        ensures added { OnOk result (self.new ≡ record { specs = self.old.specs ++ nested_spec id ∷ []; bodies = self.old.bodies ++ body.Sup table ∷ [] }) }
        ensures same { OnErr result (self.new ≡ self.old) }
    {
        let spec = ChildSpec::of(ChildType::Supervisor, id, id);
        match self.add(spec, Body::Sup(TableNo::new(table))) {
            Ok(()) => Ok(()),
            Err(_) => Err(AllocError),
        }
    }

    /// The plan of a supervisor with these flags and children. Takes no memory.
    ///
    /// # Errors
    ///
    /// The first fault of flags and specifications ([`check_supervisor`]). The draft comes back with it.
    pub fn plan(self, flags: SupFlags) -> Result<TablePlan<J, S>, Unplanned<J, S>>
        ensures supervisor { IfOk result (λ plan. plan.supervisor ≡ record { flags = flags; specs = self.specs }) }
        ensures bodies { IfOk result (λ plan. plan.bodies.items ≡ self.bodies) }
        ensures lawful { OnOk result (supervisor_fault flags self.specs ≡ None) }
        ensures fault { IfErr result (λ back. supervisor_fault flags self.specs ≡ Some back.fault) }
        ensures back { IfErr result (λ back. back.draft ≡ self) }
    {
        if let Err(fault) = check_supervisor(&flags, self.specs.as_slice()) {
            return Err(Unplanned { fault, draft: self });
        }
        let TableDraft { specs, bodies } = self;
        Ok(TablePlan {
            supervisor: SupSpec::new(flags, specs),
            bodies,
        })
    }
}
