//! The supervisors of a tree are opened, each at its place, which is ready. Nothing here takes memory.
ghost use Rattle.std.specs.Prelude.{◌≡◌, ◌<◌, ◌≤◌, [], length, vec_capacity};
ghost use Rattle.otp_spec.specs.declared.limits.TheConstants.{MAX_TABLES};
ghost use Rattle.otp_run.specs.Lists.{AllAt};
ghost use Rattle.otp_open.specs.Opens.{slots_of};
ghost use Rattle.otp_open.specs.Plans.{ArePlanned, HasBodies, HaveBodies};
ghost use Rattle.otp_open.specs.Readies.{AreReadyFor, IsReadyFor};
ghost use Rattle.otp_open.specs.declared.opening.SystemFault.TheVariants.{OutOfMemory};
ghost use Rattle.otp_sup.specs.Plans.{IsPlanned};

use crate::plan::TablePlan;
use crate::ready::ReadyPlace;
use otp_hand::Shared;
use otp_hand::places::next_of;
use otp_inbox::Inbox;
use otp_job::Body;
use otp_signals::Words;
use otp_spec::MAX_CHILDREN;
use otp_sup::{Letter, Message, Office, Sup, SupNaming, Table};
use std::alloc::Global;

/// How many slots of signal words each supervisor has: one for each child that there can be.
pub const SLOTS: usize = MAX_CHILDREN;

/// How many slots of signal words a tree of so many supervisors has: those of each, and the root's own.
pub fn slots_of(tables: usize) -> usize
    requires { tables ≤ MAX_TABLES }
    ensures { result ≡ slots_of tables }
{
    1 + SLOTS * tables
}

/// Why a tree was not opened.
#[derive(Clone, Copy, Debug, PartialEq, Eq)]
pub enum SystemFault {
    /// E0: memory was refused.
    OutOfMemory,
    /// A child of this supervisor has no body in its plan.
    NoBody { table: usize },
}

/// A tree that was not opened: why, and its plans with all their bodies, as they were handed in.
#[derive(Drop)]
pub struct Unopened<J: Drop, S: Drop> {
    pub fault: SystemFault,
    pub plans: Vec<TablePlan<J, S>>,
}

impl<J: Drop, S: Drop> Unopened<J, S> {
    /// Memory was refused. Takes none.
    pub fn for_memory(plans: Vec<TablePlan<J, S>>) -> Self
        ensures fault { result.fault ≡ OutOfMemory }
        ensures plans { result.plans ≡ plans }
    {
        Unopened {
            fault: SystemFault::OutOfMemory,
            plans,
        }
    }
}

/// What the hands of a tree will share, while its supervisors have no plans yet: a ready place for each.
#[derive(Drop)]
pub struct Site<N: SupNaming, J: Drop, S: Drop> {
    pub words: Words<N>,
    pub places: Vec<ReadyPlace<N, J, S>>,
    /// To which the root's notes go.
    pub outer: Inbox<N, Message, Letter<Body<J, S>>>,
}

impl<N: SupNaming, J: Drop, S: Drop> Site<N, J, S> {
    /// The inbox of the place with this number, or of whoever opens the tree.
    pub(crate) fn inbox_of(&self, table: usize) -> &Inbox<N, Message, Letter<Body<J, S>>> {
        match self.places.get(table) {
            Some(place) => &place.inbox,
            None => &self.outer,
        }
    }

    /// The tree's shared parts, once each place has the supervisor of its plan. `sups` is empty and has room for them. No memory is
    /// taken.
    pub fn open(
        self,
        alloc: Global,
        plans: Vec<TablePlan<J, S>>,
        sups: Vec<Sup<N, Body<J, S>>>,
    ) -> Shared<N, J, S>
        requires ready { AreReadyFor 0 plans.items self.places.items }
        requires outer { self.outer ≡ length plans.items }
        requires plans { ArePlanned N.plan plans.items }
        requires bodies { HaveBodies plans.items }
        requires few { length plans.items ≤ MAX_TABLES }
        requires none { sups.items ≡ [] }
        requires room { length plans.items ≤ vec_capacity sups }
        ensures tables { result.tables ≡ length plans.items }
    {
        let Site {
            words,
            places,
            outer,
        } = self;
        let sups = open_all(alloc, plans, places, sups);
        Shared { words, sups, outer }
    }
}

/// The supervisors of these plans, each at its place, in a list that has the room for them.
fn open_all<N: SupNaming, J: Drop, S: Drop>(
    alloc: Global,
    plans: Vec<TablePlan<J, S>>,
    places: Vec<ReadyPlace<N, J, S>>,
    sups: Vec<Sup<N, Body<J, S>>>,
) -> Vec<Sup<N, Body<J, S>>>
    requires ready { AreReadyFor 0 plans.items places.items }
    requires plans { ArePlanned N.plan plans.items }
    requires bodies { HaveBodies plans.items }
    requires few { length plans.items ≤ MAX_TABLES }
    requires none { sups.items ≡ [] }
    requires room { length plans.items ≤ vec_capacity sups }
    ensures sups { AllAt (λ k sup. sup.inbox ≡ k) result.items }
    ensures many { length result.items ≡ length plans.items }
{
    let mut sups = sups;
    let mut places = places.into_iter();
    let mut number = 0;
    for plan in plans {
        let place = next_of(&mut places);
        sups.push_reserved(open_at(alloc, number, plan, place));
        number += 1;
    }
    sups
}

/// The supervisor of this plan, at the place with this number.
fn open_at<N: SupNaming, J: Drop, S: Drop>(
    alloc: Global,
    number: usize,
    plan: TablePlan<J, S>,
    place: ReadyPlace<N, J, S>,
) -> Sup<N, Body<J, S>>
    requires ready { IsReadyFor number plan place }
    requires plan { IsPlanned (N.plan number) plan.supervisor }
    requires bodies { HasBodies plan }
    requires few { number < MAX_TABLES }
    ensures { result.inbox ≡ number }
{
    let TablePlan { supervisor, bodies } = plan;
    let ReadyPlace {
        inbox,
        taker,
        seat,
        counts,
        space,
    } = place;
    let bodies = space.hand_in_list(bodies);
    let office = Office::open(alloc, supervisor, seat, 1 + SLOTS * number);
    let table = Table::new(alloc, office, taker, bodies, counts);
    Sup::new(inbox, table)
}
