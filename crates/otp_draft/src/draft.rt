//! A tree is drawn up by value, supervisor by supervisor.
ghost use Rattle.std.specs.Prelude.{◌≡◌, ◌+◌, ◌<◌, ◌≤◌, ◌==◌, ◌++◌, ◌∷◌, All, [], None, Some, IfErr, IfNone, IfOk, OnErr, OnOk, length, position, slice_get, true, false, vec_capacity};
ghost use Rattle.otp_spec.specs.Flags.{is_simple};
ghost use Rattle.otp_spec.specs.Supervisor.{IsLawful, supervisor_fault};
ghost use Rattle.otp_spec.specs.declared.limits.TheConstants.{MAX_CHILDREN, MAX_TABLES};
ghost use Rattle.otp_draft.specs.Children.{spec_of};
ghost use Rattle.otp_draft.specs.Faults.{IsOfDraft, MayBeOpened, add_fault, finish_fault, kind_fault, is_infinity, is_supervisor, is_template, limit_fault, nest_fault, runs_fault, spec_fault, with_child, with_runs, worker_fault};
ghost use Rattle.otp_draft.specs.Kinds.{bridge_of, supervisor_of, template_of, worker_of};
ghost use Rattle.otp_draft.specs.Paths.{has_path, prefixes_of};
ghost use Rattle.otp_draft.specs.Plans.{IsNear};
ghost use Rattle.otp_draft.specs.Trees.{alone, plans_of, size, with_body, with_template, with_tree};
ghost use Rattle.otp_draft.specs.declared.limits.TheConstants.{MAX_DEPTH};

use crate::child::{Child, Runs};
use crate::fault::{DraftFault, Refused};
use crate::limits::MAX_DEPTH;
use crate::paths::{Nested, TreePath, find_path, paths_of};
use crate::plan::{DraftedTable, PlannedTable, TreePlan};
use otp_job::bridge::{BoxedSubsystem, Bridge};
use otp_job::{Body, TableNo};
use otp_spec::{
    ChildSpec, ChildType, MAX_CHILDREN, MAX_TABLES, Shutdown, SpecFault, SpecKey, SupFlags,
    SupSpec, check_supervisor,
};
use std::alloc::{AllocError, Global};
use std::marker::Model;

/// A supervisor with its children, and with all supervisors below it: 1 to 64 of them, on at most 16 levels, each with at
/// most 256 children. It goes by value below another ([`TreeDraft::add_supervisor`]), so no tree leads back to itself, and
/// nobody numbers supervisors.
///
/// ```text
/// let mut pool = TreeDraft::new(alloc, SupFlags::default());
/// pool.add_worker("a", Steady)?;
/// let mut root = TreeDraft::new(alloc, SupFlags::default());
/// root.add_worker("db", Steady)?;
/// root.add_supervisor("pool", pool)?;
/// ```
#[derive(Drop)]
pub struct TreeDraft<J: Drop, S: Drop = BoxedSubsystem> {
    flags: SupFlags,
    specs: Vec<ChildSpec>,
    bodies: Vec<Body<J, S>>,
    below: Vec<PlannedTable<J, S>>,
    nested: Vec<Nested>,
    depth: usize,
}

impl<J: Drop, S: Drop> Model for TreeDraft<J, S> {
    ghost use Rattle.otp_draft.specs.Inside.{IsDraft};
    ghost use Rattle.otp_draft.specs.Trees.{Tree};

    ghost Value = { Tree J S };

    ghost view = { λ d. record { flags = d.flags; specs = d.specs.items; bodies = d.bodies.items; below = d.below.items; nested = d.nested.items; depth = d.depth } };

    ghost invariant = { λ d. IsDraft d.flags d.specs.items d.bodies.items d.below.items d.nested.items d.depth };
}

/// The fault that says why no supervisor may have these flags and specifications.
fn spec_fault(flags: &SupFlags, specs: &[ChildSpec]) -> Option<DraftFault>
    ensures fault { result ≡ spec_fault (supervisor_fault flags.now specs.now) }
    ensures lawful { IfNone result (IsLawful flags.now specs.now) }
{
    match check_supervisor(flags, specs) {
        Ok(()) => None,
        Err(fault) => Some(DraftFault::Spec(fault)),
    }
}

/// Why a worker's job isn't what a child of this specification runs.
fn worker_fault(spec: &ChildSpec) -> Option<DraftFault>
    ensures { result ≡ worker_fault spec.now }
{
    match spec.kind {
        ChildType::Supervisor => Some(DraftFault::WrongBody),
        ChildType::Worker => None,
    }
}

/// Whether a child is handed a body, where the strategy says that it is or isn't.
fn kind_fault(is_simple: bool, is_template: bool) -> Option<DraftFault>
    ensures { result ≡ kind_fault is_simple is_template }
{
    match (is_simple, is_template) {
        (true, false) => Some(DraftFault::Dynamic),
        (false, true) => Some(DraftFault::NoBody),
        _ => None,
    }
}

/// Puts one, and then all of a list, behind another, which has room.
fn put_behind<T: Drop>(list: &mut Vec<T>, first: T, more: Vec<T>)
    requires { length list.old.items + 1 + length more.items ≤ vec_capacity list.old }
    ensures { list.new.items ≡ list.old.items ++ first ∷ more.items }
{
    list.push_reserved(first);
    put_all(list, more);
}

/// Puts all of a list behind another, which has room.
fn put_all<T: Drop>(list: &mut Vec<T>, more: Vec<T>)
    requires { length list.old.items + length more.items ≤ vec_capacity list.old }
    ensures { list.new.items ≡ list.old.items ++ more.items }
{
    for item in more {
        list.push_reserved(item);
    }
}

/// Room for one more child.
fn make_child_room<J: Drop, S: Drop>(
    specs: &mut Vec<ChildSpec>,
    bodies: &mut Vec<Body<J, S>>,
) -> Result<(), AllocError>
    ensures specs { specs.new.items ≡ specs.old.items }
    ensures bodies { bodies.new.items ≡ bodies.old.items }
    ensures specs_room { OnOk result (length specs.new.items < vec_capacity specs.new) }
    ensures bodies_room { OnOk result (length bodies.new.items < vec_capacity bodies.new) }
{
    specs.reserve(1)?;
    bodies.reserve(1)
}

/// Room for one more child, and this many more supervisors.
fn make_room<J: Drop, S: Drop>(
    specs: &mut Vec<ChildSpec>,
    bodies: &mut Vec<Body<J, S>>,
    below: &mut Vec<PlannedTable<J, S>>,
    nested: &mut Vec<Nested>,
    more: usize,
) -> Result<(), AllocError>
    ensures specs { specs.new.items ≡ specs.old.items }
    ensures bodies { bodies.new.items ≡ bodies.old.items }
    ensures below { below.new.items ≡ below.old.items }
    ensures nested { nested.new.items ≡ nested.old.items }
    ensures specs_room { OnOk result (length specs.new.items < vec_capacity specs.new) }
    ensures bodies_room { OnOk result (length bodies.new.items < vec_capacity bodies.new) }
    ensures below_room { OnOk result (length below.new.items + more ≤ vec_capacity below.new) }
    ensures nested_room { OnOk result (length nested.new.items + more ≤ vec_capacity nested.new) }
{
    make_child_room(specs, bodies)?;
    below.reserve(more)?;
    nested.reserve(more)
}

/// Room for a plan of this many supervisors, and for the same under their numbers.
fn plan_room<J: Drop, S: Drop>(
    alloc: Global,
    count: usize,
) -> Result<(Vec<PlannedTable<J, S>>, Vec<DraftedTable<J, S>>), AllocError>
    ensures tables { IfOk result (λ rooms. rooms.0.items ≡ []) }
    ensures plans { IfOk result (λ rooms. rooms.1.items ≡ []) }
    ensures tables_room { IfOk result (λ rooms. count ≤ vec_capacity rooms.0) }
    ensures plans_room { IfOk result (λ rooms. count ≤ vec_capacity rooms.1) }
{
    let tables = Vec::with_capacity(alloc, count)?;
    let Ok(plans) = Vec::with_capacity(alloc, count) else {
        drop(tables);
        return Err(AllocError);
    };
    Ok((tables, plans))
}

/// Puts what one more child runs behind the others, for which there is room.
fn put_near<J: Drop, S: Drop>(bodies: &mut Vec<Body<J, S>>, body: Body<J, S>)
    requires near { All IsNear bodies.old.items }
    requires body { IsNear body }
    requires room { length bodies.old.items < vec_capacity bodies.old }
    ensures bodies { bodies.new.items ≡ bodies.old.items ++ body ∷ [] }
    ensures near { All IsNear bodies.new.items }
{
    bodies.push_reserved(body);
}

impl<J: Drop, S: Drop> TreeDraft<J, S> {
    /// A supervisor without children. Takes no memory.
    pub fn new(alloc: Global, flags: SupFlags) -> Self
        ensures { result ≡ alone flags }
    {
        TreeDraft {
            flags,
            specs: Vec::new(alloc),
            bodies: Vec::new(alloc),
            below: Vec::new(alloc),
            nested: Vec::new(alloc),
            depth: 1,
        }
    }

    /// How many supervisors there are, itself among them.
    pub fn tables(&self) -> usize
        ensures value { result ≡ size self.now }
        ensures few { result ≤ MAX_TABLES }
    {
        let _ = &self.depth;
        self.below.len() + 1
    }

    /// How many levels of supervisors there are, its own the first.
    pub fn depth(&self) -> usize
        ensures value { result ≡ self.now.depth }
        ensures few { result ≤ MAX_DEPTH }
    {
        self.depth
    }

    /// The paths of its supervisors, by the numbers that they have once the tree is run: in the order of the walk, each before those
    /// below its own children. The supervisors of a report stand in this order too.
    ///
    /// # Errors
    ///
    /// Where memory is refused.
    pub fn paths(&self, alloc: Global) -> Result<Vec<TreePath>, AllocError>
        ensures { IfOk result (λ paths. paths.items ≡ prefixes_of self.now) }
    {
        paths_of(alloc, self.nested.as_slice())
    }

    /// The path of the supervisor with this number; None where there are fewer.
    ///
    /// # Errors
    ///
    /// Where memory is refused.
    pub fn path_of(&self, alloc: Global, number: usize) -> Result<Option<TreePath>, AllocError>
        ensures { IfOk result (λ path. path ≡ slice_get (prefixes_of self.now) number) }
    {
        let mut paths = self.paths(alloc)?;
        let path = if number < paths.len() {
            Some(paths.swap_remove(number))
        } else {
            None
        };
        drop(paths);
        Ok(path)
    }

    /// The number of the supervisor with this path, as `pool/cache`; the root's is `root`. Where ids have slashes, so that several
    /// have it, the first of them.
    ///
    /// # Errors
    ///
    /// Where memory is refused.
    pub fn table_of(&self, alloc: Global, path: &str) -> Result<Option<usize>, AllocError>
        ensures { IfOk result (λ number. number ≡ position (has_path path.now) (prefixes_of self.now)) }
    {
        let paths = self.paths(alloc)?;
        let number = find_path(paths.as_slice(), path);
        drop(paths);
        Ok(number)
    }

    /// How many children the supervisor has.
    pub fn len(&self) -> usize
        ensures value { result ≡ length self.now.specs }
        ensures few { result ≤ MAX_CHILDREN }
    {
        let _ = &self.depth;
        self.specs.len()
    }

    /// Whether it has none.
    pub fn is_empty(&self) -> bool
        ensures { result ≡ (length self.now.specs == 0) }
    {
        self.specs.is_empty()
    }

    /// Why this tree isn't put below that one by this specification.
    fn nest_fault(&self, spec: &ChildSpec, above: &TreeDraft<J, S>) -> Option<DraftFault>
        ensures fault { result ≡ nest_fault spec.now self.now above.now }
        ensures lawful { IfNone result (IsLawful self.now.flags self.now.specs) }
    {
        if spec.kind != ChildType::Supervisor {
            return Some(DraftFault::WrongBody);
        }
        if spec.shutdown != Shutdown::Infinity {
            return Some(DraftFault::NestedNotInfinity);
        }
        if self.depth >= MAX_DEPTH {
            return Some(DraftFault::TooDeep);
        }
        if above.tables() + self.tables() > MAX_TABLES {
            return Some(DraftFault::TooManyTables);
        }
        spec_fault(&self.flags, self.specs.as_slice())
    }

    /// Why a child of this specification that runs this isn't added.
    fn runs_fault(&self, spec: &ChildSpec, runs: &Runs<J, S>) -> Option<DraftFault>
        ensures fault { result ≡ runs_fault spec.now runs.now self.now }
        ensures lawful { IfNone result (MayBeOpened runs.now) }
    {
        match runs {
            Runs::Worker(_) => worker_fault(spec),
            Runs::Bridge(_) | Runs::Template => None,
            Runs::Supervisor(tree) => tree.nest_fault(spec, self),
        }
    }

    /// The specification of a child that may be added, or why it isn't.
    fn spec_for(&self, child: &Child<J, S>) -> Result<ChildSpec, DraftFault>
        ensures spec { IfOk result (λ spec. spec_of child.now.keys ≡ Some spec) }
        ensures none { OnOk result (add_fault child.now self.now ≡ None) }
        ensures few { OnOk result (length self.now.specs < MAX_CHILDREN) }
        ensures kind { OnOk result (kind_fault (is_simple self.now.flags.strategy) (is_template child.now.runs) ≡ None) }
        ensures fits { IfOk result (λ spec. runs_fault spec child.now.runs self.now ≡ None) }
        ensures lawful { OnOk result (MayBeOpened child.now.runs) }
        ensures fault { IfErr result (λ fault. add_fault child.now self.now ≡ Some fault) }
        ensures given { IfErr result IsOfDraft }
    {
        let Some(spec) = child.keys.spec() else {
            return Err(DraftFault::Spec(SpecFault::BadSpec {
                index: self.specs.len(),
                key: SpecKey::Id,
            }));
        };
        if self.specs.len() >= MAX_CHILDREN {
            return Err(DraftFault::Spec(SpecFault::TooManyChildren));
        }
        if let Some(fault) = kind_fault(self.flags.strategy.is_simple(), child.runs.is_template()) {
            return Err(fault);
        }
        match self.runs_fault(&spec, &child.runs) {
            Some(fault) => Err(fault),
            None => Ok(spec),
        }
    }

    /// Puts a child behind the others.
    fn put_body(&mut self, spec: ChildSpec, body: Body<J, S>) -> Result<(), Body<J, S>>
        requires few { length self.old.specs < MAX_CHILDREN }
        requires plain { is_simple self.old.flags.strategy ≡ false }
        requires near { IsNear body }
        ensures added { OnOk result (self.new ≡ with_body spec body self.old) }
        ensures back { IfErr result (λ back. back ≡ body) }
        ensures same { OnErr result (self.new ≡ self.old) }
    {
        let _ = &self.depth;
        let Ok(()) = make_child_room(&mut self.specs, &mut self.bodies) else {
            return Err(body);
        };
        self.specs.push_reserved(spec);
        put_near(&mut self.bodies, body);
        Ok(())
    }

    /// Puts a specification of dynamic children behind the others.
    fn put_template(&mut self, spec: ChildSpec) -> Result<(), AllocError>
        requires few { length self.old.specs < MAX_CHILDREN }
        requires simple { is_simple self.old.flags.strategy ≡ true }
        ensures added { OnOk result (self.new ≡ with_template spec self.old) }
        ensures same { OnErr result (self.new ≡ self.old) }
    {
        let _ = &self.depth;
        self.specs.reserve(1)?;
        self.specs.push_reserved(spec);
        Ok(())
    }

    /// The top supervisor, those below it, and whose child each of these is.
    fn into_tables(self) -> (PlannedTable<J, S>, Vec<PlannedTable<J, S>>, Vec<Nested>)
        requires { IsLawful self.flags self.specs }
        ensures tables { result.0 ∷ result.1.items ≡ plans_of self }
        ensures nested { result.2.items ≡ self.nested }
        ensures below_count { length result.1.items ≡ length self.below }
        ensures nested_count { length result.2.items ≡ length self.below }
    {
        let _ = &self.depth;
        let TreeDraft {
            flags,
            specs,
            bodies,
            below,
            nested,
            depth: _,
        } = self;
        (
            PlannedTable::new(SupSpec::new(flags, specs), bodies),
            below,
            nested,
        )
    }

    /// Puts a supervisor, with all that is below it, behind the other children.
    fn put_tree(&mut self, spec: ChildSpec, tree: TreeDraft<J, S>) -> Result<(), TreeDraft<J, S>>
        requires few { length self.old.specs < MAX_CHILDREN }
        requires plain { is_simple self.old.flags.strategy ≡ false }
        requires deep { tree.depth < MAX_DEPTH }
        requires many { size self.old + size tree ≤ MAX_TABLES }
        requires lawful { IsLawful tree.flags tree.specs }
        ensures added { OnOk result (self.new ≡ with_tree spec tree self.old) }
        ensures back { IfErr result (λ back. back ≡ tree) }
        ensures same { OnErr result (self.new ≡ self.old) }
    {
        let _ = &self.depth;
        let _ = &tree.depth;
        let more = tree.below.len() + 1;
        let Ok(()) = make_room(
            &mut self.specs,
            &mut self.bodies,
            &mut self.below,
            &mut self.nested,
            more,
        ) else {
            return Err(tree);
        };
        let behind = self.below.len() + 1;
        let id = spec.id;
        let depth = tree.depth;
        let (top, below, nested) = tree.into_tables();
        self.specs.push_reserved(spec);
        put_near(&mut self.bodies, Body::Sup(TableNo::new(behind)));
        put_behind(&mut self.below, top, below);
        put_behind(&mut self.nested, Nested { id, behind }, nested);
        self.depth = self.depth.max(depth + 1);
        Ok(())
    }

    /// Adds a child, which is started after those that are there.
    ///
    /// # Errors
    ///
    /// The first of these, with the child: its id has more than 32 bytes ([`SpecFault::BadSpec`]); there are 256 children
    /// ([`SpecFault::TooManyChildren`]); [`DraftFault::Dynamic`]; [`DraftFault::NoBody`]; [`DraftFault::WrongBody`]; and of a
    /// child that is a supervisor [`DraftFault::NestedNotInfinity`], [`DraftFault::TooDeep`], [`DraftFault::TooManyTables`], and
    /// the first fault of its flags and specifications ([`check_supervisor`]). Or [`DraftFault::OutOfMemory`].
    ///
    /// The other faults of this supervisor's own flags and specifications are told when it is put below another, or finished.
    pub fn add(&mut self, child: Child<J, S>) -> Result<(), Refused<Child<J, S>>>
        ensures added { OnOk result (self.new ≡ with_child child self.old) }
        ensures lawful { OnOk result (add_fault child self.old ≡ None) }
        ensures fault { IfErr result (λ back. IsOfDraft back.fault → add_fault child self.old ≡ Some back.fault) }
        ensures back { IfErr result (λ back. back.given ≡ child) }
        ensures same { OnErr result (self.new ≡ self.old) }
    {
        let spec = match self.spec_for(&child) {
            Ok(spec) => spec,
            Err(fault) => return Err(Refused {
                fault,
                given: child,
            }),
        };
        let Child { keys, runs } = child;
        match self.put(spec, runs) {
            Ok(()) => Ok(()),
            Err(runs) => Err(Refused {
                fault: DraftFault::OutOfMemory,
                given: Child { keys, runs },
            }),
        }
    }

    /// Puts what may be a child behind the others.
    fn put(&mut self, spec: ChildSpec, runs: Runs<J, S>) -> Result<(), Runs<J, S>>
        requires few { length self.old.specs < MAX_CHILDREN }
        requires kind { kind_fault (is_simple self.old.flags.strategy) (is_template runs) ≡ None }
        requires fits { runs_fault spec runs self.old ≡ None }
        requires lawful { MayBeOpened runs }
        ensures added { OnOk result (self.new ≡ with_runs spec runs self.old) }
        ensures back { IfErr result (λ back. back ≡ runs) }
        ensures same { OnErr result (self.new ≡ self.old) }
    {
        match runs {
            Runs::Worker(job) => match self.put_body(spec, Body::Worker(job)) {
                Ok(()) => Ok(()),
                Err(Body::Worker(job)) => Err(Runs::Worker(job)),
                Err(_) => unreachable!(),
            },
            Runs::Bridge(subsystem) => {
                match self.put_body(spec, Body::Bridge(Bridge::new(subsystem))) {
                    Ok(()) => Ok(()),
                    Err(Body::Bridge(bridge)) => Err(Runs::Bridge(bridge.into_subsystem())),
                    Err(_) => unreachable!(),
                }
            }
            Runs::Supervisor(tree) => match self.put_tree(spec, tree) {
                Ok(()) => Ok(()),
                Err(tree) => Err(Runs::Supervisor(tree)),
            },
            Runs::Template => match self.put_template(spec) {
                Ok(()) => Ok(()),
                Err(AllocError) => Err(Runs::Template),
            },
        }
    }

    /// Adds a worker that runs this job, with the manual's default for every key: a permanent child that has 5000 milliseconds
    /// to shut down ([`Child::worker`] for others).
    ///
    /// # Errors
    ///
    /// As [`TreeDraft::add`], with the job.
    pub fn add_worker(&mut self, id: &str, job: J) -> Result<(), Refused<J>>
        ensures added { OnOk result (self.new ≡ with_child (worker_of id.now job) self.old) }
        ensures lawful { OnOk result (add_fault (worker_of id.now job) self.old ≡ None) }
        ensures fault { IfErr result (λ back. IsOfDraft back.fault → add_fault (worker_of id.now job) self.old ≡ Some back.fault) }
        ensures back { IfErr result (λ back. back.given ≡ job) }
        ensures same { OnErr result (self.new ≡ self.old) }
    {
        match self.add(Child::worker(id, job)) {
            Ok(()) => Ok(()),
            Err(
                Refused {
                    fault,
                    given: Child {
                        keys: _,
                        runs: Runs::Worker(job),
                    },
                },
            ) => Err(Refused { fault, given: job }),
            Err(_) => unreachable!(),
        }
    }

    /// Adds a worker that is a bridge to this subsystem, with the manual's default for every key ([`Child::bridge`] for
    /// others).
    ///
    /// # Errors
    ///
    /// As [`TreeDraft::add`], with the subsystem.
    pub fn add_bridge(&mut self, id: &str, subsystem: S) -> Result<(), Refused<S>>
        ensures added { OnOk result (self.new ≡ with_child (bridge_of id.now subsystem) self.old) }
        ensures lawful { OnOk result (add_fault (bridge_of id.now subsystem) self.old ≡ None) }
        ensures fault { IfErr result (λ back. IsOfDraft back.fault → add_fault (bridge_of id.now subsystem) self.old ≡ Some back.fault) }
        ensures back { IfErr result (λ back. back.given ≡ subsystem) }
        ensures same { OnErr result (self.new ≡ self.old) }
    {
        match self.add(Child::bridge(id, subsystem)) {
            Ok(()) => Ok(()),
            Err(
                Refused {
                    fault,
                    given: Child {
                        keys: _,
                        runs: Runs::Bridge(subsystem),
                    },
                },
            ) => Err(Refused {
                fault,
                given: subsystem,
            }),
            Err(_) => unreachable!(),
        }
    }

    /// Adds a supervisor with all that is below it, permanent, with as much time to shut down as it wants
    /// ([`Child::supervisor`] for other keys).
    ///
    /// # Errors
    ///
    /// As [`TreeDraft::add`], with the tree.
    pub fn add_supervisor(
        &mut self,
        id: &str,
        tree: TreeDraft<J, S>,
    ) -> Result<(), Refused<TreeDraft<J, S>>>
        ensures added { OnOk result (self.new ≡ with_child (supervisor_of id.now tree) self.old) }
        ensures lawful { OnOk result (add_fault (supervisor_of id.now tree) self.old ≡ None) }
        ensures fault { IfErr result (λ back. IsOfDraft back.fault → add_fault (supervisor_of id.now tree) self.old ≡ Some back.fault) }
        ensures back { IfErr result (λ back. back.given ≡ tree) }
        ensures same { OnErr result (self.new ≡ self.old) }
    {
        match self.add(Child::supervisor(id, tree)) {
            Ok(()) => Ok(()),
            Err(
                Refused {
                    fault,
                    given: Child {
                        keys: _,
                        runs: Runs::Supervisor(tree),
                    },
                },
            ) => Err(Refused { fault, given: tree }),
            Err(_) => unreachable!(),
        }
    }

    /// Adds the one specification of dynamic children, with the manual's default for every key ([`Child::template`] for others).
    ///
    /// # Errors
    ///
    /// As [`TreeDraft::add`].
    pub fn add_template(&mut self, id: &str) -> Result<(), DraftFault>
        ensures added { OnOk result (self.new ≡ with_child (template_of id.now) self.old) }
        ensures lawful { OnOk result (add_fault (template_of id.now) self.old ≡ None) }
        ensures fault { IfErr result (λ fault. IsOfDraft fault → add_fault (template_of id.now) self.old ≡ Some fault) }
        ensures same { OnErr result (self.new ≡ self.old) }
    {
        match self.add(Child::template(id)) {
            Ok(()) => Ok(()),
            Err(back) => Err(DraftFault::from(back)),
        }
    }

    /// The plan of the tree: its supervisors, the root first, each before those below its own children.
    ///
    /// # Errors
    ///
    /// The first fault of the root's flags and specifications ([`check_supervisor`]), or [`DraftFault::OutOfMemory`], with the
    /// tree.
    pub fn finish(self, alloc: Global) -> Result<TreePlan<J, S>, Refused<TreeDraft<J, S>>>
        ensures plans { IfOk result (λ plan. plan ≡ plans_of self) }
        ensures lawful { OnOk result (finish_fault self ≡ None) }
        ensures fault { IfErr result (λ back. IsOfDraft back.fault → finish_fault self ≡ Some back.fault) }
        ensures back { IfErr result (λ back. back.given ≡ self) }
    {
        let _ = &self.depth;
        if let Some(fault) = spec_fault(&self.flags, self.specs.as_slice()) {
            return Err(Refused { fault, given: self });
        }
        let count = self.below.len() + 1;
        match plan_room(alloc, count) {
            Ok((tables, room)) => Ok(self.into_plan(tables, room)),
            Err(AllocError) => Err(Refused {
                fault: DraftFault::OutOfMemory,
                given: self,
            }),
        }
    }

    /// The plan of the tree ([`TreeDraft::finish`]), in these lists, which have room for it.
    fn into_plan(
        self,
        tables: Vec<PlannedTable<J, S>>,
        room: Vec<DraftedTable<J, S>>,
    ) -> TreePlan<J, S>
        requires lawful { IsLawful self.flags self.specs }
        requires empty { tables.items ≡ [] }
        requires tables_room { size self ≤ vec_capacity tables }
        requires none { room.items ≡ [] }
        requires plans_room { size self ≤ vec_capacity room }
        ensures { result ≡ plans_of self }
    {
        let _ = &self.depth;
        let (top, below, nested) = self.into_tables();
        drop(nested);
        let mut tables = tables;
        put_behind(&mut tables, top, below);
        TreePlan::new(tables, room)
    }
}
