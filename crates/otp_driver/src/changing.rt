//! A tree goes on under another tree file.

ghost use Rattle.std.specs.Prelude.{◌≡◌, ◌<◌, ◌⊎◌, ℕ, IfErr, IfNone, IfOk, IfSome, None, OnErr, OnOk, Some, false, length, option_map, position, true};
ghost use Rattle.std.specs.List.{list_any};
ghost use Rattle.otp_driver.specs.declared.driven.fault.ChangeRefusal.TheVariants.{OutOfMemory};
ghost use Rattle.otp_rules.specs.Progress.{process_number};
ghost use Rattle.otp_driver.specs.Changed.{Changes, GoesOnAs, IsHeld, IsHeldAt, IsHeldFrom, IsUntied, MayGoOnAs, MayGoOnFrom, RefusesChange, are_same, at_origin, changed_from, child_named, has_untied_row, is_kept, is_link_named, is_link_untied, is_untied, is_untied_row, link_on, links_from, member_on, members_from, origin_after, origin_at, origins_of, stay_fault, stay_fault_at};

use crate::driven::link::{find_process, find_row, nested_of};
use crate::driven::{ChangeRefusal, Link, Supervisor};
use crate::driver::Driver;
use otp_file::TreeSpec;
use otp_reason::Name;
use otp_spec::ChildSpec;
use otp_table::{Row, RowState};
use std::alloc::{AllocError, Global};
use thiserror::Error;

/// Why a tree doesn't go on under another tree file. It is then as it was.
#[derive(Clone, Copy, Debug, PartialEq, Eq, Error)]
#[error("supervisor {supervisor}: {why}")]
pub struct Unchanged {
    /// The number of the supervisor, in the tree that runs; 0 where memory was refused.
    pub supervisor: usize,
    pub why: ChangeRefusal,
}

impl From<AllocError> for Unchanged {
    ghost use Rattle.std.specs.Prelude.{◌≡◌};
    ghost use Rattle.otp_driver.specs.declared.driven.fault.ChangeRefusal.TheVariants.{OutOfMemory};

    ghost from_gives = { λ _ unchanged. unchanged.why ≡ OutOfMemory };

    fn from(_error: AllocError) -> Self {
        Unchanged {
            supervisor: 0,
            why: ChangeRefusal::OutOfMemory,
        }
    }
}

fn is_link_named(link: &Link, parent: usize, id: &Name) -> bool
    ensures { result ≡ is_link_named parent id.now link.now }
{
    match link.child {
        None => false,
        Some(spec) => link.parent == parent && spec.id == *id,
    }
}

fn find_named(olds: &[Link], parent: usize, id: &Name) -> Option<usize>
    ensures { result ≡ position (is_link_named parent id.now) olds.now }
{
    olds.iter().position(|link| is_link_named(link, parent, id))
}

/// The supervisor of the old tree that was the child of this id.
fn child_named(olds: &[Link], parent: Option<usize>, child: Option<ChildSpec>) -> Option<usize>
    ensures { result ≡ child_named olds.now parent child }
{
    match (parent, child) {
        (Some(parent), Some(spec)) => find_named(olds, parent, &spec.id),
        _ => None,
    }
}

fn origin_at(origins: &[Option<usize>], place: usize) -> Option<usize>
    ensures { result ≡ origin_at origins.now place }
{
    match origins.get(place) {
        None => None,
        Some(origin) => *origin,
    }
}

/// Where the supervisor with this link comes from, where those before it come from these.
fn origin_after(olds: &[Link], origins: &[Option<usize>], link: &Link) -> Option<usize>
    ensures { result ≡ origin_after olds.now origins.now link.now }
{
    if origins.is_empty() {
        Some(0)
    } else {
        child_named(olds, origin_at(origins, link.parent), link.child)
    }
}

/// Where the supervisors with these links come from.
#[tactic(auto, unfolding(crate::specs::Changed::origins_of))]
fn origins_of(
    alloc: Global,
    olds: &[Link],
    links: &[Link],
) -> Result<Vec<Option<usize>>, AllocError>
    ensures { IfOk result (λ origins. origins.items ≡ origins_of olds.now links.now) }
{
    let mut origins = Vec::new(alloc);
    for link in links {
        let origin = origin_after(olds, origins.as_slice(), link);
        origins.push(origin)?;
    }
    Ok(origins)
}

/// A supervisor that was planted, or the one that goes on in its place.
fn member_on(
    alloc: Global,
    olds: &[Supervisor],
    origin: Option<usize>,
    planted: Supervisor,
) -> Result<Supervisor, Unchanged>
    ensures ok { IfOk result (λ new. new ≡ member_on (at_origin olds.now origin) planted) }
    ensures may { OnOk result (MayGoOnAs (at_origin olds.now origin) planted) }
    ensures why { IfErr result (IsHeldAt olds.now origin planted) }
{
    let Some(supervisor) = origin else {
        return Ok(planted);
    };
    let Some(old) = olds.get(supervisor) else {
        return Ok(planted);
    };
    let changed = old.changed(alloc, &planted.flags(), planted.specs());
    drop(planted);
    match changed {
        Ok(new) => Ok(new),
        Err(why) => Err(Unchanged { supervisor, why }),
    }
}

/// The supervisors that were planted, each as it goes on.
fn members_on(
    alloc: Global,
    olds: &[Supervisor],
    origins: &[Option<usize>],
    planted: Vec<Supervisor>,
) -> Result<Vec<Supervisor>, Unchanged>
    ensures ok { IfOk result (λ list. list.items ≡ members_from olds.now origins.now 0 planted.items) }
    ensures may { OnOk result (MayGoOnFrom olds.now origins.now 0 planted.items) }
    ensures why { IfErr result (λ u. (u.why ≡ OutOfMemory) ⊎ IsHeldFrom olds.now origins.now 0 planted.items u) }
{
    let mut list = Vec::new(alloc);
    for supervisor in planted {
        list.reserve(1)?;
        let place = list.as_slice().len();
        let new = member_on(alloc, olds, origin_at(origins, place), supervisor)?;
        list.push_reserved(new);
    }
    Ok(list)
}

/// The link of a supervisor that goes on.
fn link_on(olds: &[Link], origin: Option<usize>, link: Link) -> Link
    ensures { result ≡ link_on (at_origin olds.now origin) link }
{
    let Some(place) = origin else {
        return link;
    };
    match olds.get(place) {
        None => link,
        Some(old) => Link {
            parent: link.parent,
            child: link.child,
            ..*old
        },
    }
}

/// The links that were planted, each as it goes on.
fn links_on(
    alloc: Global,
    olds: &[Link],
    origins: &[Option<usize>],
    planted: &[Link],
) -> Result<Vec<Link>, AllocError>
    ensures { IfOk result (λ list. list.items ≡ links_from olds.now origins.now 0 planted.now) }
{
    let mut list = Vec::new(alloc);
    for (place, link) in planted.iter().enumerate() {
        list.push(link_on(olds, origin_at(origins, place), *link))?;
    }
    Ok(list)
}

/// Whether a supervisor of the new tree comes from the one at this place.
fn is_kept(origins: &[Option<usize>], place: usize) -> bool
    ensures { result ≡ is_kept origins.now place }
{
    origins.iter().any(|origin| match *origin {
        None => false,
        Some(origin) => origin == place,
    })
}

/// Why a supervisor may not go, if it is none that is kept.
fn stay_fault(is_kept: bool, link: &Link, supervisor: &Supervisor) -> Option<ChangeRefusal>
    ensures { result ≡ stay_fault is_kept link.now supervisor.now }
{
    if is_kept {
        return None;
    }
    if supervisor.keeps_orders() {
        return Some(ChangeRefusal::OrdersWait);
    }
    if link.process.is_some() || !supervisor.has_ended() {
        Some(ChangeRefusal::Runs)
    } else {
        None
    }
}

fn are_same(one: Option<usize>, other: Option<usize>) -> bool
    ensures { result ≡ are_same one other }
{
    match (one, other) {
        (None, None) => true,
        (Some(one), Some(other)) => one == other,
        _ => false,
    }
}

/// The number of the child's process, if it has one.
fn process_number(state: &RowState) -> Option<u64>
    ensures { result ≡ process_number state.now }
{
    match *state {
        RowState::Starting(number, _)
        | RowState::Up(number)
        | RowState::Asked(number, _)
        | RowState::Killed(number) => Some(number),
        RowState::Undefined | RowState::Restarting(_) => None,
    }
}

/// Whether a child's process isn't that of the supervisor which the child is.
fn is_untied_row(links: &[Link], place: usize, row: &Row) -> bool
    ensures { result ≡ is_untied_row links.now place row.now }
{
    match process_number(&row.state) {
        None => false,
        Some(number) => !are_same(
            find_process(links, place, number),
            find_row(links, place, row),
        ),
    }
}

/// Whether one of these children of the supervisor at this place has such a process.
fn are_untied(links: &[Link], place: usize, rows: &[Row]) -> bool
    ensures { result ≡ list_any (is_untied_row links.now place) rows.now }
{
    rows.iter().any(|row| is_untied_row(links, place, row))
}

/// Whether a child of the supervisor at this place has such a process.
fn has_untied_row(links: &[Link], place: usize, supervisor: Option<&Supervisor>) -> bool
    ensures { result ≡ has_untied_row links.now place (option_map (λ m. m.now) supervisor.entry) }
{
    match supervisor {
        None => false,
        Some(supervisor) => are_untied(links, place, supervisor.rows()),
    }
}

impl Driver {
    /// Why the supervisor at this place may not go, if it is none that is kept.
    #[tactic(auto, unfolding(crate::specs::Changed::stay_fault_at))]
    fn stay_fault_at(&self, origins: &[Option<usize>], place: usize) -> Option<ChangeRefusal>
        ensures { result ≡ stay_fault_at origins.now self.now place }
    {
        let link = self.links.get(place)?;
        let supervisor = self.supervisors.get(place)?;
        stay_fault(is_kept(origins, place), link, supervisor)
    }

    /// Why the tree can't do without a supervisor that isn't kept, if it can't.
    fn find_staying(&self, origins: &[Option<usize>]) -> Option<Unchanged>
        ensures some { IfSome result (λ u. stay_fault_at origins.now self.now u.supervisor ≡ Some u.why) }
        ensures none { IfNone result ((place : ℕ) → place < length self.now.members → stay_fault_at origins.now self.now place ≡ None) }
    {
        for supervisor in 0..self.supervisors.len() {
            if let Some(why) = self.stay_fault_at(origins, supervisor) {
                return Some(Unchanged { supervisor, why });
            }
        }
        None
    }

    /// Whether the process of the supervisor with this link isn't that of the child which it is.
    fn is_link_untied(&self, place: usize, link: Option<&Link>) -> bool
        ensures { result ≡ is_link_untied self.now place (option_map (λ l. l.now) link.entry) }
    {
        let Some(link) = link else {
            return false;
        };
        let Some(number) = link.process else {
            return false;
        };
        let Some(parent) = self.supervisors.get(link.parent) else {
            return true;
        };
        let nested = nested_of(self.links.as_slice(), link.parent, parent.child(number));
        !are_same(nested, Some(place))
    }

    /// Whether the process of a child, or of the supervisor at this place, is one of another kind.
    #[tactic(auto, unfolding(crate::specs::Changed::is_untied))]
    fn is_untied(&self, place: usize) -> bool
        ensures { result ≡ is_untied self.now place }
    {
        let has_row = has_untied_row(self.links.as_slice(), place, self.supervisors.get(place));
        has_row || self.is_link_untied(place, self.links.get(place))
    }

    /// The place of a supervisor that isn't tied so.
    fn find_untied(&self) -> Option<usize>
        ensures some { IfSome result (λ place. is_untied self.now place ≡ true) }
        ensures none { IfNone result ((place : ℕ) → place < length self.now.members → is_untied self.now place ≡ false) }
    {
        for place in 0..self.supervisors.len() {
            if self.is_untied(place) {
                return Some(place);
            }
        }
        None
    }

    /// This tree as it goes on, where the supervisors that were planted come from these.
    fn changed_from(
        &self,
        alloc: Global,
        origins: &[Option<usize>],
        planted: Driver,
    ) -> Result<Driver, Unchanged>
        ensures ok { IfOk result (λ new. new ≡ changed_from origins.now self.now planted) }
        ensures may { OnOk result (MayGoOnFrom self.now.members origins.now 0 planted.members) }
        ensures why { IfErr result (λ u. (u.why ≡ OutOfMemory) ⊎ IsHeldFrom self.now.members origins.now 0 planted.members u) }
    {
        let links = links_on(
            alloc,
            self.links.as_slice(),
            origins,
            planted.links.as_slice(),
        )?;
        let supervisors = members_on(
            alloc,
            self.supervisors.as_slice(),
            origins,
            planted.supervisors,
        )?;
        Ok(Driver {
            supervisors,
            links,
            reading: self.reading,
            last: self.last,
            calls: self.calls,
        })
    }

    /// This tree as it goes on as the one that was planted says.
    fn changed_as(&self, alloc: Global, planted: Driver) -> Result<Driver, Unchanged>
        ensures ok { IfOk result (GoesOnAs self.now planted) }
        ensures why { IfErr result (λ u. (u.why ≡ OutOfMemory) ⊎ IsHeld self.now planted u) }
    {
        let origins = origins_of(alloc, self.links.as_slice(), planted.links.as_slice())?;
        if let Some(staying) = self.find_staying(origins.as_slice()) {
            return Err(staying);
        }
        let new = self.changed_from(alloc, origins.as_slice(), planted)?;
        match new.find_untied() {
            None => Ok(new),
            Some(place) => Err(Unchanged {
                supervisor: origin_at(origins.as_slice(), place).unwrap_or(0),
                why: ChangeRefusal::Turns,
            }),
        }
    }

    /// The tree as it goes on under another tree file; it itself stays as it is. A supervisor of both, which is the root or has the
    /// same ids down to it, goes on under the file's flags and specifications ([`Supervisor::changed`]) and keeps its process. One
    /// that is added was never opened, until a call starts it (restart_child). The clock, the process numbers and the calls go on.
    ///
    /// So no process is left without the supervisor or the child that it is one of: a supervisor that the file no longer has may have
    /// no process, nor may a child that it no longer has, or that it has as one of another kind.
    ///
    /// # Errors
    ///
    /// An [`Unchanged`].
    pub fn changed(&self, alloc: Global, tree: &TreeSpec) -> Result<Driver, Unchanged>
        ensures ok { IfOk result (Changes tree.now self.now) }
        ensures why { IfErr result (RefusesChange tree.now self.now) }
    {
        let planted = Driver::plant(alloc, tree)?;
        self.changed_as(alloc, planted)
    }
}
