//! Children of a supervisor that are taken together.

ghost use Rattle.std.specs.Prelude.{◌≡◌, ◌++◌, IfOk, OnOk};
ghost use Rattle.std.specs.List.{list_any};
ghost use Rattle.otp_costs.specs.Alike.{is_alike};
ghost use Rattle.otp_costs.specs.Groups.{group_if, groups, groups_from, heads_after, name_if, names_with};

use crate::alike::{Grain, Weighed, is_alike, is_like_one};
use crate::limits::Listed;
use otp_reason::Name;
use otp_spec::Strategy;
use std::alloc::{AllocError, Global};

/// Children of a supervisor that are taken together.
#[derive(Debug, Drop)]
pub struct Group {
    /// The first of them in start order, which is played.
    pub first: Name,
    /// All of them, in start order.
    pub names: Listed<Name>,
}

/// The name of a child, where it is taken together with another one.
fn name_if(is_with: bool, child: &Weighed) -> Option<Name>
    ensures { result ≡ name_if is_with child.now }
{
    if is_with { Some(child.spec.id) } else { None }
}

/// Puts the names of those that are taken together with a child behind others.
fn put_names(
    grain: Grain,
    strategy: Strategy,
    child: &Weighed,
    all: &[Weighed],
    names: &mut Listed<Name>,
) -> Result<(), AllocError>
    ensures { OnOk result (names.new ≡ names.old ++ names_with (is_alike grain strategy child.now) all.now) }
{
    for other in all {
        if let Some(name) = name_if(is_alike(grain, strategy, child, other), other) {
            names.push(name)?;
        }
    }
    Ok(())
}

/// Puts the group with this child at its head behind others, unless an earlier one has it.
#[tactic(auto, unfolding(crate::specs::Groups::group_if, crate::specs::Groups::heads_after))]
fn put_group(
    alloc: Global,
    grain: Grain,
    strategy: Strategy,
    all: &[Weighed],
    child: &Weighed,
    heads: &mut Vec<Weighed>,
    groups: &mut Vec<Group>,
) -> Result<(), AllocError>
    ensures groups { OnOk result (groups.new.items ≡ groups.old.items ++ group_if (list_any (is_alike grain strategy child.now) heads.old.items) (is_alike grain strategy child.now) all.now child.now) }
    ensures heads { OnOk result (heads.new.items ≡ heads_after (list_any (is_alike grain strategy child.now) heads.old.items) heads.old.items child.now) }
{
    if is_like_one(grain, strategy, child, heads.as_slice()) {
        return Ok(());
    }
    let mut names = Listed::new(alloc);
    put_names(grain, strategy, child, all, &mut names)?;
    groups
        .push(Group {
            first: child.spec.id,
            names,
        })
        .map_err(|_| AllocError)?;
    heads.push(*child).map_err(|_| AllocError)
}

/// Puts the groups of these children behind others, where those were found before that have these heads.
fn put_groups(
    alloc: Global,
    grain: Grain,
    strategy: Strategy,
    all: &[Weighed],
    heads: &mut Vec<Weighed>,
    groups: &mut Vec<Group>,
) -> Result<(), AllocError>
    ensures { OnOk result (groups.new.items ≡ groups.old.items ++ groups_from (is_alike grain strategy) all.now heads.old.items all.now) }
{
    for child in all {
        put_group(alloc, grain, strategy, all, child, heads, groups)?;
    }
    Ok(())
}

/// The children of a supervisor of this strategy, those together that are taken together.
///
/// # Errors
///
/// Where memory is refused.
pub fn find_groups(
    alloc: Global,
    grain: Grain,
    strategy: Strategy,
    children: &[Weighed],
) -> Result<Vec<Group>, AllocError>
    ensures { IfOk result (λ found. found.items ≡ groups (is_alike grain strategy) children.now) }
{
    let mut heads = Vec::new(alloc);
    let mut found = Vec::new(alloc);
    put_groups(alloc, grain, strategy, children, &mut heads, &mut found)?;
    Ok(found)
}
