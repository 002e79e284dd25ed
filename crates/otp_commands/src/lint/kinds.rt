//! Which remark of a kind there is on a child, or on a supervisor.

ghost use Rattle.std.specs.Prelude.{◌≡◌, count_by};
ghost use Rattle.std.specs.List.{list_any};
ghost use Rattle.otp_commands.specs.Lint.{alike_id, endless_worker, fan_out, gives_up, is_alone, is_always, is_longer, is_process, is_waited_for, is_worker, long_stop, never_ends, no_restart, starts_as};
ghost use Rattle.otp_shutdown.specs.Stops.{is_endless_by};

use crate::lint::below::{Below, LintedChild, has_restart, is_restartable, may_restart, stop_of};
use crate::lint::looks::first_alike;
use crate::lint::remark::RemarkKind;
use otp_spec::{ChildType, Shutdown, Strategy, SupFlags};

/// Whether a child is a supervisor of its own that may end by itself and is started again.
fn gives_up(child: &LintedChild) -> bool
    ensures { result ≡ gives_up child.now }
{
    child.tree.is_some() && may_restart(child)
}

/// Whether a restart waits for the stop of a child.
#[tactic(auto, unfolding(crate::specs::Lint::is_waited_for))]
fn is_waited_for(
    strategy: Strategy,
    earlier: &[LintedChild],
    child: &LintedChild,
    later: &[LintedChild],
) -> bool
    ensures { result ≡ is_waited_for strategy earlier.now child.now later.now }
{
    match strategy {
        Strategy::OneForOne => gives_up(child),
        Strategy::OneForAll => gives_up(child) || has_restart(earlier) || has_restart(later),
        Strategy::RestForOne => gives_up(child) || has_restart(earlier),
        Strategy::SimpleOneForOne => false,
    }
}

/// Whether so many milliseconds are more than so many seconds.
fn is_longer(stop: u64, period: u64) -> bool
    ensures { result ≡ is_longer stop period }
{
    period.saturating_mul(1000) < stop
}

/// That the stop of a child may last longer than its supervisor's period.
#[tactic(auto, unfolding(crate::specs::Lint::long_stop))]
pub(crate) fn long_stop(
    flags: SupFlags,
    earlier: &[LintedChild],
    child: &LintedChild,
    later: &[LintedChild],
) -> Option<RemarkKind>
    ensures { result ≡ long_stop flags earlier.now child.now later.now }
{
    let stop = stop_of(child);
    if 1 <= flags.intensity
        && is_restartable(child.spec.restart)
        && is_longer(stop, flags.period)
        && is_waited_for(flags.strategy, earlier, child, later)
    {
        Some(RemarkKind::LongStop {
            stop,
            period: flags.period,
        })
    } else {
        None
    }
}

/// How many of these are permanent.
fn count_always(children: &[LintedChild]) -> usize
    ensures { result ≡ count_by is_always children.now }
{
    children
        .iter()
        .filter(|child| child.spec.restart.is_permanent())
        .count()
}

/// That a supervisor of these children has an intensity of 0 over permanent ones.
#[tactic(auto, unfolding(crate::specs::Lint::no_restart))]
pub(crate) fn no_restart(flags: SupFlags, children: &[LintedChild]) -> Option<RemarkKind>
    ensures { result ≡ no_restart flags children.now }
{
    let count = count_always(children);
    if flags.intensity == 0 && 1 <= count {
        Some(RemarkKind::NoRestart { children: count })
    } else {
        None
    }
}

#[tactic(auto, unfolding(crate::specs::Lint::is_worker))]
fn is_worker(kind: ChildType) -> bool
    ensures { result ≡ is_worker kind }
{
    match kind {
        ChildType::Worker => true,
        ChildType::Supervisor => false,
    }
}

/// Whether a child has for ever to stop.
#[tactic(auto, unfolding(otp_shutdown::specs::Stops::is_endless_by))]
fn is_endless(shutdown: Shutdown) -> bool
    ensures { result ≡ is_endless_by shutdown }
{
    match shutdown {
        Shutdown::Infinity => true,
        Shutdown::BrutalKill | Shutdown::Milliseconds(_) => false,
    }
}

/// That a child is a worker that has for ever to stop.
#[tactic(auto, unfolding(crate::specs::Lint::endless_worker))]
pub(crate) fn endless_worker(child: &LintedChild) -> Option<RemarkKind>
    ensures { result ≡ endless_worker child.now }
{
    if child.tree.is_none() && is_worker(child.spec.kind) && is_endless(child.spec.shutdown) {
        Some(RemarkKind::EndlessWorker)
    } else {
        None
    }
}

/// Whether each child is restarted alone.
#[tactic(auto, unfolding(crate::specs::Lint::is_alone))]
fn is_alone(strategy: Strategy) -> bool
    ensures { result ≡ is_alone strategy }
{
    match strategy {
        Strategy::OneForOne => true,
        Strategy::OneForAll | Strategy::RestForOne | Strategy::SimpleOneForOne => false,
    }
}

/// Whether a child is a process that is started again after a crash.
fn is_process(child: &LintedChild) -> bool
    ensures { result ≡ is_process child.now }
{
    child.tree.is_none() && is_restartable(child.spec.restart)
}

/// Whether another child is such a process, of the start of this one.
fn starts_as(child: &LintedChild, other: &LintedChild) -> bool
    ensures { result ≡ starts_as child.now other.now }
{
    is_process(other) && other.spec.start == child.spec.start
}

/// Whether one of these is such a process.
fn has_start(child: &LintedChild, others: &[LintedChild]) -> bool
    ensures { result ≡ list_any (starts_as child.now) others.now }
{
    others.iter().any(|other| starts_as(child, other))
}

/// How many of these are such processes.
fn count_starts(child: &LintedChild, others: &[LintedChild]) -> usize
    ensures { result ≡ count_by (starts_as child.now) others.now }
{
    others
        .iter()
        .filter(|other| starts_as(child, other))
        .count()
}

/// That a child is the first of more siblings of one start than the intensity allows restarts: the siblings begin with it.
#[tactic(auto, unfolding(crate::specs::Lint::fan_out))]
pub(crate) fn fan_out(
    flags: SupFlags,
    earlier: &[LintedChild],
    child: &LintedChild,
    these: &[LintedChild],
) -> Option<RemarkKind>
    ensures { result ≡ fan_out flags earlier.now child.now these.now }
{
    let count = count_starts(child, these);
    if is_alone(flags.strategy)
        && 1 <= flags.intensity
        && is_process(child)
        && !has_start(child, earlier)
        && flags.intensity < count as u64
    {
        Some(RemarkKind::FanOut {
            children: count,
            start: child.spec.start,
            intensity: flags.intensity,
        })
    } else {
        None
    }
}

/// That a child is significant, and its tree never ends by itself.
#[tactic(auto, unfolding(crate::specs::Lint::never_ends))]
pub(crate) fn never_ends(significant: bool, tree: Option<Below>) -> Option<RemarkKind>
    ensures { result ≡ never_ends significant tree }
{
    match tree {
        None => None,
        Some(tree) => {
            if significant && !tree.ends {
                Some(RemarkKind::NeverEnds)
            } else {
                None
            }
        }
    }
}

/// That the id of a child looks like that of one before it.
pub(crate) fn alike_id(earlier: &[LintedChild], child: &LintedChild) -> Option<RemarkKind>
    ensures { result ≡ alike_id earlier.now child.now }
{
    match first_alike(child.spec.id.as_bytes(), earlier) {
        None => None,
        Some(other) => Some(RemarkKind::AlikeId { other }),
    }
}
