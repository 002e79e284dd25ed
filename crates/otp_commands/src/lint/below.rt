//! What is known of the tree of a child: how long its stop takes, and whether it ends by itself.

ghost use Rattle.std.specs.Prelude.{◌≡◌, ◌+◌, ◌≤◌, ◌∷◌, ◌++◌, IfOk, OnOk, drop, length, map};
ghost use Rattle.std.specs.List.{list_all, list_any};
ghost use Rattle.otp_commands.specs.Below.{below_at, below_in, below_of, ends_by, is_ending, is_no_hindrance, is_restartable, is_significant, may_restart, may_shut_down, own_stop, own_table, plus, restarts_by, seen_from, seen_in, stop_by, stop_in, stop_of, table_of};

use otp_file::TreeSpec;
use otp_spec::{AutoShutdown, ChildSpec, MAX_READING, Restart, Shutdown, SupFlags};
use std::alloc::{AllocError, Global};

/// What is known of the tree of a child.
#[derive(Clone, Copy)]
pub(crate) struct Below {
    /// So many milliseconds the stop of its children takes, of those that have a limit.
    pub(crate) stop: u64,
    /// It may end by itself.
    pub(crate) ends: bool,
}

/// A child, and what is known of its tree, if it has one.
#[derive(Clone, Copy)]
pub(crate) struct LintedChild {
    pub(crate) spec: ChildSpec,
    pub(crate) tree: Option<Below>,
}

/// How many milliseconds the stop of a child takes by its shutdown; none where it has no limit.
#[tactic(auto, unfolding(crate::specs::Below::own_stop, otp_shutdown::specs::Stops::later))]
fn own_stop(shutdown: Shutdown) -> u64
    ensures { result ≡ own_stop shutdown }
{
    match shutdown {
        Shutdown::BrutalKill | Shutdown::Infinity => 0,
        Shutdown::Milliseconds(count) => u64::from(count),
    }
}

/// Two times that follow each other.
#[tactic(auto, unfolding(crate::specs::Below::plus))]
fn plus(one: u64, other: u64) -> u64
    ensures { result ≡ plus one other }
{
    one.saturating_add(other).min(MAX_READING)
}

/// How many milliseconds the stop of a child takes that is stopped so, and has this tree.
fn stop_by(shutdown: Shutdown, tree: Option<Below>) -> u64
    ensures { result ≡ stop_by shutdown tree }
{
    match tree {
        None => own_stop(shutdown),
        Some(tree) => tree.stop,
    }
}

/// How many milliseconds the stop of a child takes.
pub(crate) fn stop_of(child: &LintedChild) -> u64
    ensures { result ≡ stop_of child.now }
{
    stop_by(child.spec.shutdown, child.tree)
}

/// How many milliseconds the stops of these take, one after the other.
fn stop_in(children: &[LintedChild]) -> u64
    ensures { result ≡ stop_in children.now }
{
    match children {
        [] => 0,
        [child, others @ ..] => plus(stop_of(child), stop_in(others)),
    }
}

/// Whether a process with this key is started again after a crash.
#[tactic(auto, unfolding(crate::specs::Below::is_restartable))]
pub(crate) fn is_restartable(restart: Restart) -> bool
    ensures { result ≡ is_restartable restart }
{
    match restart {
        Restart::Permanent | Restart::Transient => true,
        Restart::Temporary => false,
    }
}

/// Whether a child with this key and this tree may end so that it is started again.
fn restarts_by(restart: Restart, tree: Option<Below>) -> bool
    ensures { result ≡ restarts_by restart tree }
{
    match tree {
        None => is_restartable(restart),
        Some(tree) => restart.is_permanent() && tree.ends,
    }
}

/// Whether a child may end so that it is started again, all others being up.
pub(crate) fn may_restart(child: &LintedChild) -> bool
    ensures { result ≡ may_restart child.now }
{
    restarts_by(child.spec.restart, child.tree)
}

/// Whether one of these may end so that it is started again.
pub(crate) fn has_restart(children: &[LintedChild]) -> bool
    ensures { result ≡ list_any may_restart children.now }
{
    children.iter().any(|child| may_restart(child))
}

/// Whether a child with this tree may end by itself.
fn ends_by(tree: Option<Below>) -> bool
    ensures { result ≡ ends_by tree }
{
    match tree {
        None => true,
        Some(tree) => tree.ends,
    }
}

/// Whether a significant child may end.
fn is_ending(child: &LintedChild) -> bool
    ensures { result ≡ is_ending child.now }
{
    child.spec.significant && ends_by(child.tree)
}

/// Whether no automatic shutdown waits for a child in vain.
fn is_no_hindrance(child: &LintedChild) -> bool
    ensures { result ≡ is_no_hindrance child.now }
{
    !child.spec.significant || ends_by(child.tree)
}

/// Whether one of these is significant and may end.
fn has_ending(children: &[LintedChild]) -> bool
    ensures { result ≡ list_any is_ending children.now }
{
    children.iter().any(|child| is_ending(child))
}

/// Whether one of these is significant.
fn has_significant(children: &[LintedChild]) -> bool
    ensures { result ≡ list_any is_significant children.now }
{
    children.iter().any(|child| child.spec.significant)
}

/// Whether no automatic shutdown waits for one of these in vain.
fn has_no_hindrance(children: &[LintedChild]) -> bool
    ensures { result ≡ list_all is_no_hindrance children.now }
{
    children.iter().all(|child| is_no_hindrance(child))
}

/// Whether the ends of significant children may end their supervisor.
#[tactic(auto, unfolding(crate::specs::Below::may_shut_down))]
fn may_shut_down(auto_shutdown: AutoShutdown, children: &[LintedChild]) -> bool
    ensures { result ≡ may_shut_down auto_shutdown children.now }
{
    match auto_shutdown {
        AutoShutdown::Never => false,
        AutoShutdown::AnySignificant => has_ending(children),
        AutoShutdown::AllSignificant => has_significant(children) && has_no_hindrance(children),
    }
}

/// What is known of the tree of a supervisor with these children.
fn below_of(flags: SupFlags, children: &[LintedChild]) -> Below
    ensures { result ≡ below_of flags children.now }
{
    Below {
        stop: stop_in(children),
        ends: has_restart(children) || may_shut_down(flags.auto_shutdown, children),
    }
}

/// What is known of the tree of the child at this place, if it has one: the trees are those of the children at the places.
fn below_at(place: usize, nested: &[usize], trees: &[Below]) -> Option<Below>
    ensures { result ≡ below_at place nested.now trees.now }
{
    let [other, others @ ..] = nested else {
        return None;
    };
    let [tree, rest @ ..] = trees else {
        return None;
    };
    if *other == place {
        Some(*tree)
    } else {
        below_at(place, others, rest)
    }
}

/// Puts children behind others, of which the first stands at this place, each with what is known of its tree.
fn put_seen(
    nested: &[usize],
    trees: &[Below],
    place: usize,
    specs: &[ChildSpec],
    out: &mut Vec<LintedChild>,
) -> Result<(), AllocError>
    requires { place + length specs.now ≤ 256 }
    ensures { OnOk result (out.new.items ≡ out.old.items ++ seen_from nested.now trees.now place specs.now) }
{
    match specs {
        [] => Ok(()),
        [spec, others @ ..] => {
            let seen = LintedChild {
                spec: *spec,
                tree: below_at(place, nested, trees),
            };
            out.push(seen).map_err(|_| AllocError)?;
            put_seen(nested, trees, place + 1, others, out)
        }
    }
}

/// The children of a supervisor, each with what is known of its tree.
pub(crate) fn seen_in(
    alloc: Global,
    tree: &TreeSpec,
    trees: &[Below],
) -> Result<Vec<LintedChild>, AllocError>
    ensures { IfOk result (λ seen. seen.items ≡ seen_in (own_table tree.now) trees.now) }
{
    let mut seen = Vec::new(alloc);
    put_seen(
        tree.nested(),
        trees,
        0,
        tree.supervisor().specs(),
        &mut seen,
    )?;
    Ok(seen)
}

/// Puts trees behind others, but for the first so many.
fn put_rest(count: usize, trees: &[Below], out: &mut Vec<Below>) -> Result<(), AllocError>
    ensures { OnOk result (out.new.items ≡ out.old.items ++ drop count trees.now) }
{
    if count < trees.len() {
        out.extend_from_slice(&trees[count..])
    } else {
        Ok(())
    }
}

/// One tree before others, of which so many are left out.
fn put_first(
    alloc: Global,
    first: Below,
    count: usize,
    trees: &[Below],
) -> Result<Vec<Below>, AllocError>
    ensures { IfOk result (λ all. all.items ≡ first ∷ drop count trees.now) }
{
    let mut all = Vec::new(alloc);
    all.push(first).map_err(|_| AllocError)?;
    put_rest(count, trees, &mut all)?;
    Ok(all)
}

/// What is known of the trees that tables make up, which stand in the order of the walk.
pub(crate) fn below_in(alloc: Global, tables: &[&TreeSpec]) -> Result<Vec<Below>, AllocError>
    ensures { IfOk result (λ trees. trees.items ≡ below_in (map table_of tables.now)) }
{
    let [table, others @ ..] = tables else {
        return Ok(Vec::new(alloc));
    };
    let trees = below_in(alloc, others)?;
    let children = seen_in(alloc, table, trees.as_slice())?;
    let first = below_of(table.supervisor().flags(), children.as_slice());
    put_first(alloc, first, table.nested().len(), trees.as_slice())
}
