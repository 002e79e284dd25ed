//! The supervisors of a tree in one list.
ghost use Rattle.std.specs.Prelude.{◌≡◌, ◌+◌, ◌<◌, ◌≤◌, ◌++◌, ◌∷◌, All, [], length, map, vec_capacity, vec_len};
ghost use Rattle.otp_spec.specs.declared.limits.TheConstants.{MAX_TABLES};
ghost use Rattle.otp_draft.specs.Plans.{HasAllBodies, IsNear, body_at, numbered, numbered_one, seen, wanted};

use otp_job::{Body, TableNo};
use otp_spec::SupSpec;
use std::marker::Model;

/// One supervisor of a tree: what it is opened with, which was tested ([`SupSpec::check`]), and a body for each of its child
/// specifications, in their order; none under simple_one_for_one.
///
/// The supervisors of a tree are numbered in the order in which they stand in the list that is opened; the root is the
/// first. The body of a child that is a supervisor is its number ([`Body::Sup`]).
#[derive(Drop)]
pub struct DraftedTable<J: Drop, S: Drop> {
    pub supervisor: SupSpec,
    pub bodies: Vec<Body<J, S>>,
}

/// A [`DraftedTable`] before the supervisors are numbered: the number of a child that is a supervisor says how many places behind
/// its parent it stands in the list.
#[derive(Drop)]
pub(crate) struct PlannedTable<J: Drop, S: Drop> {
    supervisor: SupSpec,
    bodies: Vec<Body<J, S>>,
}

impl<J: Drop, S: Drop> Model for PlannedTable<J, S> {
    ghost use Rattle.std.specs.Prelude.{◌≡◌, All, length};
    ghost use Rattle.otp_draft.specs.Plans.{IsNear, Planned, wanted};

    ghost Value = { Planned J S };

    ghost view = { λ p. record { supervisor = p.supervisor; bodies = p.bodies.items } };

    ghost invariant = { λ p. (length p.bodies.items ≡ wanted p.supervisor.flags p.supervisor.specs) × All IsNear p.bodies.items };
}

impl<J: Drop, S: Drop> PlannedTable<J, S> {
    /// A supervisor with what its children run.
    pub(crate) fn new(supervisor: SupSpec, bodies: Vec<Body<J, S>>) -> Self
        requires count { length bodies.items ≡ wanted supervisor.flags supervisor.specs }
        requires near { All IsNear bodies.items }
        ensures { result ≡ record { supervisor = supervisor; bodies = bodies.items } }
    {
        PlannedTable { supervisor, bodies }
    }

    /// The supervisor under its number. Takes no memory.
    fn numbered(self, number: usize) -> DraftedTable<J, S>
        requires { number < MAX_TABLES }
        ensures plan { seen result ≡ numbered_one number self }
        ensures bodies { HasAllBodies result }
    {
        let PlannedTable {
            supervisor,
            mut bodies,
        } = self;
        number_bodies(&mut bodies, number);
        DraftedTable { supervisor, bodies }
    }
}

/// Gives a child's body its number, where it is a supervisor's.
fn number_body<J: Drop, S: Drop>(body: &mut Body<J, S>, number: usize)
    requires near { IsNear body.old }
    requires few { number < MAX_TABLES }
    ensures { body.new ≡ body_at number body.old }
{
    if let Body::Sup(ahead) = body {
        *ahead = TableNo::new(number + ahead.number());
    }
}

/// Gives each child's body its number, where it is a supervisor's: the bodies are those of the supervisor with this number.
fn number_each<J: Drop, S: Drop>(bodies: &mut [Body<J, S>], number: usize)
    requires near { All IsNear bodies.old }
    requires few { number < MAX_TABLES }
    ensures { bodies.new ≡ map (body_at number) bodies.old }
{
    for body in bodies.iter_mut() {
        number_body(body, number);
    }
}

/// Gives the children of the supervisor with this number their numbers: before, that of a child which is a supervisor says how many
/// places it stands behind it.
pub fn number_bodies<J: Drop, S: Drop>(bodies: &mut Vec<Body<J, S>>, number: usize)
    requires near { All IsNear bodies.old.items }
    requires few { number < MAX_TABLES }
    ensures { bodies.new.items ≡ map (body_at number) bodies.old.items }
{
    number_each(bodies, number);
}

/// A tree that may be opened: 1 to 64 supervisors, the root first, each before those below its own children. Each may be
/// opened with its flags and specifications, and has a body for each child that it starts.
///
/// Where a tree has these supervisors, [`TreePlan::numbered`] gives each its number. It takes no memory: that was taken
/// when the plan was made.
#[derive(Drop)]
pub struct TreePlan<J: Drop, S: Drop> {
    tables: Vec<PlannedTable<J, S>>,
    room: Vec<DraftedTable<J, S>>,
}

impl<J: Drop, S: Drop> Model for TreePlan<J, S> {
    ghost use Rattle.std.specs.Prelude.{◌≡◌, ◌<◌, ◌≤◌, List, [], length, vec_capacity};
    ghost use Rattle.otp_spec.specs.declared.limits.TheConstants.{MAX_TABLES};
    ghost use Rattle.otp_draft.specs.Plans.{Planned};

    ghost Value = { List (Planned J S) };

    ghost view = { λ p. p.tables.items };

    ghost invariant = { λ p. (0 < length p.tables.items) × (length p.tables.items ≤ MAX_TABLES)
        × (p.room.items ≡ []) × (length p.tables.items ≤ vec_capacity p.room) };
}

impl<J: Drop, S: Drop> TreePlan<J, S> {
    /// The plan of these supervisors, with room for each.
    pub(crate) fn new(tables: Vec<PlannedTable<J, S>>, room: Vec<DraftedTable<J, S>>) -> Self
        requires some { 0 < length tables.items }
        requires few { length tables.items ≤ MAX_TABLES }
        requires empty { room.items ≡ [] }
        requires room { length tables.items ≤ vec_capacity room }
        ensures { result ≡ tables.items }
    {
        TreePlan { tables, room }
    }

    /// How many supervisors there are.
    pub fn len(&self) -> usize
        ensures value { result ≡ length self.now }
        ensures some { 0 < result }
        ensures few { result ≤ MAX_TABLES }
    {
        self.tables.len()
    }

    /// Its supervisors, where the root has this number and the others those that follow: 0 where a tree is opened. Takes no
    /// memory.
    pub fn numbered(self, first: usize) -> Vec<DraftedTable<J, S>>
        requires { first + length self ≤ MAX_TABLES }
        ensures plans { map seen result.items ≡ numbered first self }
        ensures count { length result.items ≡ length self }
        // Each has a body for each child that it starts.
        ensures bodies { All HasAllBodies result.items }
    {
        let TreePlan { tables, room } = self;
        number_all(tables, room, first)
    }
}

/// Puts a supervisor behind the others, for which there is room.
fn put_plan<J: Drop, S: Drop>(plans: &mut Vec<DraftedTable<J, S>>, plan: DraftedTable<J, S>)
    requires full { All HasAllBodies plans.old.items }
    requires plan { HasAllBodies plan }
    requires room { vec_len plans.old < vec_capacity plans.old }
    ensures plans { plans.new.items ≡ plans.old.items ++ plan ∷ [] }
    ensures full { All HasAllBodies plans.new.items }
    ensures len { vec_len plans.new ≡ vec_len plans.old + 1 }
    ensures capacity { vec_capacity plans.new ≡ vec_capacity plans.old }
{
    plans.push_reserved(plan);
}

/// Supervisors under their numbers, from this one on.
fn number_all<J: Drop, S: Drop>(
    tables: Vec<PlannedTable<J, S>>,
    room: Vec<DraftedTable<J, S>>,
    first: usize,
) -> Vec<DraftedTable<J, S>>
    requires few { first + length tables.items ≤ MAX_TABLES }
    requires empty { room.items ≡ [] }
    requires room { length tables.items ≤ vec_capacity room }
    ensures plans { map seen result.items ≡ numbered first tables.items }
    ensures count { length result.items ≡ length tables.items }
    ensures bodies { All HasAllBodies result.items }
{
    let mut plans = room;
    let mut number = first;
    for table in tables {
        put_plan(&mut plans, table.numbered(number));
        number += 1;
    }
    plans
}
