//! Supervisors that a tree gets while it runs: how many there are, under one lock, and which of them each call added.
ghost use Rattle.std.specs.Prelude.{◌≡◌, ◌+◌, ◌<◌, ◌≤◌, ◌^◌, ℕ, IfNone, IfOk, IfSome, IsTrue, None, OnErr, OnOk, is_some, true};

use otp_sup::PlanNaming;
use std::alloc::{AllocError, Global};
use std::marker::{Model, PhantomData};
use std::sync::{Mutex, Wait};

/// How many supervisors a tree has. It lies under the one lock of all who add some.
///
/// None of the places from there on had a plan when the tree got its name.
#[derive(Drop)]
pub struct Desk<N: PlanNaming> {
    tables: usize,
    of: PhantomData<N>,
}

impl<N: PlanNaming> Model for Desk<N> {
    ghost use Rattle.std.specs.Prelude.{◌≡◌, ◌≤◌, ℕ, None};

    ghost Value = { ℕ };

    ghost view = { λ d. d.tables };

    ghost invariant = { λ d. (k : ℕ) → d.tables ≤ k → N.plan k ≡ None };
}

impl<N: PlanNaming> Desk<N> {
    /// So many are there.
    fn new(tables: usize) -> Self
        requires { (k : ℕ) → tables ≤ k → N.plan k ≡ None }
        ensures { result ≡ tables }
    {
        Desk {
            tables,
            of: PhantomData,
        }
    }

    /// How many there are.
    fn tables(&self) -> usize
        ensures value { result ≡ self.now }
        ensures free { (k : ℕ) → result ≤ k → N.plan k ≡ None }
    {
        let _ = &self.of;
        self.tables
    }

    /// The number that the first of so many more would have, where there are so many places. None where those are too few.
    pub fn first_for(&self, count: usize, places: usize) -> Option<usize>
        ensures first { IfSome result (λ first. first ≡ self.now) }
        ensures few { IfSome result (λ first. first + count ≤ places) }
        ensures free { IfSome result (λ first. (k : ℕ) → first ≤ k → N.plan k ≡ None) }
        ensures full { IfNone result (places < self.now + count) }
    {
        let first = self.tables();
        if first > places {
            return None;
        }
        if count > places - first {
            return None;
        }
        Some(first)
    }

    /// So many more are there.
    fn take(&mut self, count: usize)
        requires { self.old + count < 2 ^ 64 }
        ensures { self.new ≡ self.old + count }
    {
        let _ = &self.of;
        self.tables += count;
    }
}

/// Which supervisors a call added: so many, from this number on.
#[derive(Clone, Copy)]
struct Added {
    first: usize,
    count: usize,
}

impl Added {
    fn has(self, table: usize) -> bool {
        self.first <= table && table - self.first < self.count
    }
}

/// What a tree has that may get supervisors while it runs.
#[derive(Drop)]
pub struct Growth<N: PlanNaming> {
    /// How many it was opened with.
    opened: usize,
    desk: Mutex<Desk<N>>,
    /// An entry for each call that added some. Whoever looks for a supervisor walks over them, without a lock.
    added: boxcar::Vec<Added>,
}

impl<N: PlanNaming> Model for Growth<N> {
    ghost use Rattle.std.specs.Prelude.{◌≡◌, ◌≤◌, ℕ, None};

    ghost Value = { ℕ };

    ghost view = { λ g. g.opened };

    ghost invariant = { λ g. (k : ℕ) → g.opened ≤ k → N.plan k ≡ None };
}

impl<N: PlanNaming> Growth<N> {
    /// The tree was opened with so many supervisors, and no other had a plan when it got its name.
    pub fn open(alloc: Global, opened: usize) -> Result<Self, AllocError>
        requires { (k : ℕ) → opened ≤ k → N.plan k ≡ None }
        ensures { IfOk result (λ growth. growth ≡ opened) }
    {
        let added = boxcar::Vec::new(alloc)?;
        Ok(Growth {
            opened,
            desk: Mutex::new(Desk::new(opened)),
            added,
        })
    }

    /// The one lock of all who add supervisors.
    pub fn desk(&self) -> &Mutex<Desk<N>> {
        &self.desk
    }

    /// Adds so many supervisors, from the number on that the first of them has ([`Desk::first_for`]), by the desk that the caller holds
    /// locked. Whoever looks for them meets them from now on, so each place is to get its plan before the desk is let go.
    ///
    /// Nothing is added where memory is refused.
    pub fn take<R: Wait>(&self, rt: &R, desk: &mut Desk<N>, count: usize) -> Result<(), AllocError>
        requires { desk.old + count < 2 ^ 64 }
        ensures ok { OnOk result (desk.new ≡ desk.old + count) }
        ensures err { OnErr result (desk.new ≡ desk.old) }
    {
        let first = desk.tables();
        match self.added.push(rt, Added { first, count }) {
            Ok(_) => {
                desk.take(count);
                Ok(())
            }
            Err(_) => Err(AllocError),
        }
    }

    /// Whether the tree has the supervisor with this number: it was opened with it, or a call added it.
    pub(crate) fn has(&self, table: usize) -> bool
        ensures { is_some (N.plan table) ≡ true → IsTrue result }
    {
        if table < self.opened {
            return true;
        }
        self.has_added(table)
    }

    /// Whether the walk over what was added meets the supervisor with this number.
    fn has_added(&self, table: usize) -> bool {
        let entries = self.added.iter();
        for (_, entry) in entries {
            if entry.has(table) {
                return true;
            }
        }
        false
    }

    /// Whether it meets a tree whose top has this number.
    pub(crate) fn has_top(&self, table: usize) -> bool {
        let entries = self.added.iter();
        for (_, entry) in entries {
            if entry.first == table {
                return true;
            }
        }
        false
    }

    /// How many supervisors the tree has, as far as the walk meets them.
    pub(crate) fn count(&self) -> usize {
        let entries = self.added.iter();
        let mut count = self.opened;
        for (_, entry) in entries {
            count = count.saturating_add(entry.count);
        }
        count
    }

    /// How many it has, as the lock has it.
    pub(crate) fn known<R: Wait>(&self, rt: &R) -> usize
        ensures { (k : ℕ) → result ≤ k → N.plan k ≡ None }
    {
        let guard = self.desk.lock(rt);
        let desk = &*guard;
        desk.tables()
    }
}
