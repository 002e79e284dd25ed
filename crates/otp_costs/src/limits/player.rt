//! The player of a tree of whose children one after another crashes.

ghost use Rattle.std.specs.Prelude.{◌≡◌, IfOk};
ghost use Rattle.otp_costs.specs.Costs.{IsCost};
ghost use Rattle.otp_costs.specs.Falls.{IsFall};

use crate::limits::cost::Cost;
use crate::limits::fall::{Fall, MOST_FALLS, bear_from, find_given_up};
use crate::limits::known::KnownCosts;
use otp_file::TreeSpec;
use otp_reason::Name;
use otp_spec::SupSpec;
use otp_trial::{Clock, Halt, Trial, laws};
use std::alloc::Global;
use std::marker::Model;

/// A tree of whose children one after another crashes, each from the opening on. What supervisors no crash comes to stay as they are
/// for the next.
#[derive(Drop)]
pub struct TreePlayer<'t> {
    alloc: Global,
    tree: &'t TreeSpec,
    trial: Trial,
    known: KnownCosts,
    /// Where the ends of supervisors are told, which nobody reads.
    page: Vec<u8>,
    /// Memory was never refused in the midst of a trial. Else nothing more is played.
    is_whole: bool,
}

impl<'t> Model for TreePlayer<'t> {
    ghost use Rattle.otp_file.specs.Trees.{Tree};

    ghost Value = { Tree };

    ghost use Rattle.otp_costs.specs.Inside.{IsTreePlayer, tree_of};

    ghost view = { tree_of };

    ghost invariant = { IsTreePlayer };
}

impl<'t> TreePlayer<'t> {
    /// A tree of which nothing was opened yet.
    ///
    /// # Errors
    ///
    /// Where memory is refused.
    pub fn of(alloc: Global, tree: &'t TreeSpec) -> Result<Self, Halt>
        ensures { IfOk result (λ player. player ≡ tree.now) }
    {
        laws::trees_are_kept();
        let trial = Trial::plant(alloc, tree, false, Clock::Milliseconds, None)?;
        Ok(TreePlayer {
            alloc,
            tree,
            trial,
            known: KnownCosts::new(alloc),
            page: Vec::new(alloc),
            is_whole: true,
        })
    }

    /// Opens the tree, and lets a child of the supervisor at this place crash until the root has ended.
    ///
    /// # Errors
    ///
    /// Where memory is refused, or the opening itself doesn't come to its end.
    pub fn find_fall(&mut self, place: usize, id: &Name) -> Result<Fall, Halt>
        ensures fall { IfOk result (λ fall. IsFall self.old place id.now fall.root fall.ends) }
        ensures tree { self.new ≡ self.old }
    {
        laws::trees_are_kept();
        if !self.is_whole {
            return Err(Halt::OutOfMemory);
        }
        self.is_whole = false;
        let root = bear_from(&mut self.trial, place, id, MOST_FALLS, &mut self.page)?;
        let ends = find_given_up(self.alloc, self.trial.seats())?;
        self.is_whole = true;
        Ok(Fall { root, ends })
    }

    /// What the failure of a child costs a supervisor.
    ///
    /// # Errors
    ///
    /// Where memory is refused, or a supervisor has 2^62 events before the last crash of a run.
    pub fn find_cost(&mut self, supervisor: &SupSpec, id: &Name) -> Result<Cost, Halt>
        ensures cost { IfOk result (IsCost supervisor.now.flags supervisor.now.specs id.now) }
        ensures tree { self.new ≡ self.old }
    {
        self.known.find_cost(supervisor, id)
    }
}
