//! Which children of a supervisor are taken together.

ghost use Rattle.std.specs.Prelude.{◌≡◌};
ghost use Rattle.std.specs.List.{list_any};
ghost use Rattle.std.specs.Ordering.{on};
ghost use Rattle.std.specs.Str.{bytes_eq};
ghost use Rattle.otp_reason.specs.Names.{name_bytes};
ghost use Rattle.otp_costs.specs.Alike.{agree, has_no_places, is_alike, is_same_kind, takes_together};

use otp_spec::{ChildSpec, Strategy};

/// Which children are taken together.
#[derive(Clone, Copy, Debug, PartialEq, Eq)]
pub enum Grain {
    /// Those that are alike: the first of them is played.
    Alike,
    /// None: each is played.
    Each,
}

/// Whether two words are the same.
fn is_word(one: &str, other: &str) -> bool
    ensures { result ≡ bytes_eq one.now other.now }
{
    one.as_bytes() == other.as_bytes()
}

/// Whether both are true, or neither.
fn agree(one: bool, other: bool) -> bool
    ensures { result ≡ agree one other }
{
    if one { other } else { !other }
}

/// Whether they have the same restart type and type, and are both significant or both not.
fn is_same_kind(one: &ChildSpec, other: &ChildSpec) -> bool
    ensures { result ≡ is_same_kind one.now other.now }
{
    is_word(one.restart.word(), other.restart.word())
        && agree(one.significant, other.significant)
        && is_word(one.kind.word(), other.kind.word())
}

/// Whether it makes no difference where among its siblings a child stands.
#[tactic(auto, unfolding(crate::specs::Alike::has_no_places))]
fn has_no_places(strategy: Strategy) -> bool
    ensures { result ≡ has_no_places strategy }
{
    match strategy {
        Strategy::OneForOne | Strategy::OneForAll | Strategy::SimpleOneForOne => true,
        Strategy::RestForOne => false,
    }
}

/// Whether children that are alike are taken together under this strategy.
#[tactic(auto, unfolding(crate::specs::Alike::takes_together))]
fn takes_together(grain: Grain, strategy: Strategy) -> bool
    ensures { result ≡ takes_together grain strategy }
{
    match grain {
        Grain::Alike => has_no_places(strategy),
        Grain::Each => false,
    }
}

/// A child of a supervisor, and how many processes stand below it.
#[derive(Clone, Copy, Debug, PartialEq, Eq)]
pub struct Weighed {
    pub spec: ChildSpec,
    pub below: u64,
}

/// Whether two children of a supervisor are the same one.
fn is_same(one: &ChildSpec, other: &ChildSpec) -> bool
    ensures { result ≡ on name_bytes bytes_eq one.now.id other.now.id }
{
    one.id == other.id
}

/// Whether the second child of a supervisor of this strategy is taken together with the first: as many processes stand below it.
#[tactic(auto, unfolding(crate::specs::Alike::is_alike))]
pub fn is_alike(grain: Grain, strategy: Strategy, one: &Weighed, other: &Weighed) -> bool
    ensures { result ≡ is_alike grain strategy one.now other.now }
{
    if takes_together(grain, strategy) {
        is_same_kind(&one.spec, &other.spec) && one.below == other.below
    } else {
        is_same(&one.spec, &other.spec)
    }
}

/// Whether a child is taken together with one of these.
pub(crate) fn is_like_one(
    grain: Grain,
    strategy: Strategy,
    child: &Weighed,
    heads: &[Weighed],
) -> bool
    ensures { result ≡ list_any (is_alike grain strategy child.now) heads.now }
{
    heads
        .iter()
        .any(|head| is_alike(grain, strategy, child, head))
}
