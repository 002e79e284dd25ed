//! Another intensity of one supervisor with which the root survives crashes of a child.

ghost use Rattle.std.specs.Prelude.{◌≡◌, ◌≤◌, ◌<◌, ◌-◌, IfOk};
ghost use Rattle.otp_costs.specs.declared.limits.steady.Verdict.TheVariants.{Falls, Lasts};
ghost use Rattle.otp_spec.specs.declared.limits.TheConstants.{MAX_INTENSITY};
ghost use Rattle.otp_suggest.specs.Remedies.{AreEnds, IsBorneWith, IsRemedy};

use crate::course::verdict_of;
use crate::edge::Bounds;
use otp_costs::limits::{Verdict, bear};
use otp_file::TreeSpec;
use otp_reason::Name;
use otp_spec::MAX_INTENSITY;
use otp_trial::{Change, Halt};
use std::alloc::Global;

/// Which intensity of a supervisor has the root survive.
#[derive(Clone, Copy, Debug, PartialEq, Eq)]
pub enum Remedy {
    /// The one that it has.
    Enough,
    /// This greater one, and one less isn't enough.
    Least(u64),
    /// None: the root ends even with the greatest.
    Nowhere,
}

/// Plays so many crashes of a child at once in the whole tree, where the supervisor at a place has this intensity.
fn judge_with(
    alloc: Global,
    tree: &TreeSpec,
    at: usize,
    id: &Name,
    count: u64,
    place: usize,
    intensity: u64,
) -> Result<Verdict, Halt>
    ensures { IfOk result (IsBorneWith tree.now at id.now count place intensity) }
{
    let root = bear(
        alloc,
        Some(Change { place, intensity }),
        tree,
        at,
        id,
        count,
    )?;
    Ok(verdict_of(root))
}

/// The bounds once crashes were played with an intensity between them.
fn narrow(
    alloc: Global,
    tree: &TreeSpec,
    at: usize,
    id: &Name,
    count: u64,
    place: usize,
    today: u64,
    bounds: Bounds,
    intensity: u64,
) -> Result<Bounds, Halt>
    requires bounds { AreEnds tree.now at id.now count place today bounds }
    requires inside { (bounds.short < intensity) × (intensity < bounds.long) }
    ensures bounds { IfOk result (AreEnds tree.now at id.now count place today) }
    ensures narrower { IfOk result (λ after. after.long - after.short < bounds.long - bounds.short) }
{
    match judge_with(alloc, tree, at, id, count, place, intensity)? {
        Verdict::Lasts => Ok(Bounds {
            short: bounds.short,
            long: intensity,
        }),
        Verdict::Falls => Ok(Bounds {
            short: intensity,
            long: bounds.long,
        }),
    }
}

/// Finds the least intensity by halving.
fn search(
    alloc: Global,
    tree: &TreeSpec,
    at: usize,
    id: &Name,
    count: u64,
    place: usize,
    today: u64,
) -> Result<Remedy, Halt>
    requires less { today < MAX_INTENSITY }
    requires falls { IsBorneWith tree.now at id.now count place today Falls }
    requires lasts { IsBorneWith tree.now at id.now count place MAX_INTENSITY Lasts }
    ensures { IfOk result (IsRemedy tree.now at id.now count place today) }
{
    let mut bounds = Bounds {
        short: today,
        long: MAX_INTENSITY,
    };
    'halving: while bounds.long - bounds.short > 1 {
        let middle = bounds.short + (bounds.long - bounds.short) / 2;
        bounds = narrow(alloc, tree, at, id, count, place, today, bounds, middle)?;
    }
    Ok(Remedy::Least(bounds.long))
}

/// Which intensity of the supervisor at a place, where it has this one, has the root survive so many crashes at once of a child of
/// the supervisor at another place.
///
/// # Errors
///
/// Where memory is refused, or a run can't be played to its end.
#[tactic(auto, unfolding(crate::specs::Remedies::IsRemedy))]
pub fn find_remedy(
    alloc: Global,
    tree: &TreeSpec,
    at: usize,
    id: &Name,
    count: u64,
    place: usize,
    today: u64,
) -> Result<Remedy, Halt>
    ensures { IfOk result (IsRemedy tree.now at id.now count place today) }
{
    match judge_with(alloc, tree, at, id, count, place, today)? {
        Verdict::Lasts => return Ok(Remedy::Enough),
        Verdict::Falls => {}
    }
    if today >= MAX_INTENSITY {
        return Ok(Remedy::Nowhere);
    }
    match judge_with(alloc, tree, at, id, count, place, MAX_INTENSITY)? {
        Verdict::Falls => Ok(Remedy::Nowhere),
        Verdict::Lasts => search(alloc, tree, at, id, count, place, today),
    }
}
