//! A child of a supervisor that is drawn up.
ghost use Rattle.std.specs.Prelude.{◌≡◌, Some, true};
ghost use Rattle.otp_draft.specs.Children.{default_keys, keys_of, named, spec_of};
ghost use Rattle.otp_draft.specs.Faults.{is_template};
ghost use Rattle.otp_draft.specs.Kinds.{bridge_of, supervisor_of, template_of, worker_of};

use crate::draft::TreeDraft;
use otp_job::bridge::BoxedSubsystem;
use otp_reason::Name;
use otp_spec::{ChildSpec, ChildType, Modules, Restart, Shutdown};

/// The name of this text; None where it has more than 32 bytes.
fn name_from(text: &str) -> Option<Name>
    ensures { result ≡ named text.now }
{
    Name::new(text.as_bytes())
}

/// What a child runs.
#[derive(Drop)]
pub enum Runs<J: Drop, S: Drop> {
    /// A worker's job.
    Worker(J),
    /// A subsystem, behind a bridge (`supervisor_bridge`).
    Bridge(S),
    /// A supervisor, with all that is below it.
    Supervisor(TreeDraft<J, S>),
    /// Nothing yet: it is the one specification of dynamic children, each of which brings its own when it is started
    /// (Supervisor Behaviour, Simplified one_for_one Supervisors).
    Template,
}

impl<J: Drop, S: Drop> Runs<J, S> {
    /// Whether it is nothing yet.
    pub(crate) fn is_template(&self) -> bool
        ensures { result ≡ is_template self.now }
    {
        matches!(self, Runs::Template)
    }
}

/// The keys of a child's specification (Supervisor Behaviour, "Child Specification").
#[derive(Clone, Copy, Debug, PartialEq, Eq)]
pub struct ChildKeys {
    /// What the supervisor knows the child by; None where the id that was said has more than 32 bytes.
    pub id: Option<Name>,
    /// The module of the start function: the id, where None is said.
    pub start: Option<Name>,
    pub restart: Restart,
    /// Whether the child's end counts for the supervisor's automatic shutdown.
    pub significant: bool,
    /// None for the default of the child's type: 5000 milliseconds for a worker, infinity for a supervisor.
    pub shutdown: Option<Shutdown>,
    pub kind: ChildType,
    /// None for the one module of the start function.
    pub modules: Option<Modules>,
}

impl ChildKeys {
    /// The manual's defaults for a child of this type: it is permanent and not significant.
    pub fn new(id: &str, kind: ChildType) -> ChildKeys
        ensures { result ≡ default_keys (named id.now) kind }
    {
        ChildKeys {
            id: name_from(id),
            start: None,
            restart: Restart::Permanent,
            significant: false,
            shutdown: None,
            kind,
            modules: None,
        }
    }

    /// The keys that a specification says.
    pub fn of_spec(spec: &ChildSpec) -> ChildKeys
        ensures { result ≡ keys_of spec.now }
    {
        ChildKeys {
            id: Some(spec.id),
            start: Some(spec.start),
            restart: spec.restart,
            significant: spec.significant,
            shutdown: Some(spec.shutdown),
            kind: spec.kind,
            modules: Some(spec.modules),
        }
    }

    /// The specification that these keys say; None where the id has more than 32 bytes.
    pub fn spec(&self) -> Option<ChildSpec>
        ensures { result ≡ spec_of self.now }
    {
        let id = self.id?;
        let start = self.start.unwrap_or(id);
        Some(ChildSpec {
            id,
            start,
            restart: self.restart,
            significant: self.significant,
            shutdown: self.shutdown.unwrap_or(Shutdown::default_of(self.kind)),
            kind: self.kind,
            modules: self.modules.unwrap_or(Modules::One(start)),
        })
    }
}

/// A child that is drawn up: the keys of its specification, and what it runs. It is made with the manual's default for each
/// key, and has methods for those that are to be another:
///
/// ```text
/// root.add(Child::worker("cache", Cache).restart(Restart::Transient).shutdown(Shutdown::BrutalKill))?;
/// ```
#[derive(Drop)]
pub struct Child<J: Drop, S: Drop = BoxedSubsystem> {
    pub keys: ChildKeys,
    pub runs: Runs<J, S>,
}

impl<J: Drop, S: Drop> Child<J, S> {
    /// A worker that runs this job: it has 5000 milliseconds to shut down.
    pub fn worker(id: &str, job: J) -> Self
        ensures { result ≡ worker_of id.now job }
    {
        Child {
            keys: ChildKeys::new(id, ChildType::Worker),
            runs: Runs::Worker(job),
        }
    }

    /// A worker that is a bridge to this subsystem: it has 5000 milliseconds to shut down.
    pub fn bridge(id: &str, subsystem: S) -> Self
        ensures { result ≡ bridge_of id.now subsystem }
    {
        Child {
            keys: ChildKeys::new(id, ChildType::Worker),
            runs: Runs::Bridge(subsystem),
        }
    }

    /// A supervisor with all that is below it: it has as much time to shut down as it wants.
    pub fn supervisor(id: &str, tree: TreeDraft<J, S>) -> Self
        ensures { result ≡ supervisor_of id.now tree }
    {
        Child {
            keys: ChildKeys::new(id, ChildType::Supervisor),
            runs: Runs::Supervisor(tree),
        }
    }

    /// The one specification of dynamic children, under simple_one_for_one. Its id names none of them.
    pub fn template(id: &str) -> Self
        ensures { result ≡ template_of id.now }
    {
        Child {
            keys: ChildKeys::new(id, ChildType::Worker),
            runs: Runs::Template,
        }
    }

    /// The module of its start function, in place of its id.
    pub fn start(self, start: Name) -> Self
        ensures { result ≡ record self { keys = record self.keys { start = Some start } } }
    {
        let Child { mut keys, runs } = self;
        keys.start = Some(start);
        Child { keys, runs }
    }

    /// After which ends it is restarted.
    pub fn restart(self, restart: Restart) -> Self
        ensures { result ≡ record self { keys = record self.keys { restart = restart } } }
    {
        let Child { mut keys, runs } = self;
        keys.restart = restart;
        Child { keys, runs }
    }

    /// Its end counts for the supervisor's automatic shutdown.
    pub fn significant(self) -> Self
        ensures { result ≡ record self { keys = record self.keys { significant = true } } }
    {
        let Child { mut keys, runs } = self;
        keys.significant = true;
        Child { keys, runs }
    }

    /// How long it may take to shut down.
    pub fn shutdown(self, shutdown: Shutdown) -> Self
        ensures { result ≡ record self { keys = record self.keys { shutdown = Some shutdown } } }
    {
        let Child { mut keys, runs } = self;
        keys.shutdown = Some(shutdown);
        Child { keys, runs }
    }

    /// Its type. Where its shutdown isn't said, it is that of the type: 5000 milliseconds for a worker, infinity for a
    /// supervisor.
    pub fn kind(self, kind: ChildType) -> Self
        ensures { result ≡ record self { keys = record self.keys { kind = kind } } }
    {
        let Child { mut keys, runs } = self;
        keys.kind = kind;
        Child { keys, runs }
    }

    /// Its modules.
    pub fn modules(self, modules: Modules) -> Self
        ensures { result ≡ record self { keys = record self.keys { modules = Some modules } } }
    {
        let Child { mut keys, runs } = self;
        keys.modules = Some(modules);
        Child { keys, runs }
    }
}
