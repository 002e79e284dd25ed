//! Whether a checkpoint is in order.

ghost use Rattle.std.specs.Prelude.{◌≡◌, ◌+◌, ◌↔◌, ℕ, IsTrue, IfErr, OnOk, Option, reverse, true, false};
ghost use Rattle.otp_base.specs.States.{state_in};
ghost use Rattle.otp_rules.specs.Fit.{IsCovered, IsDistinct, IsLimited, IsSound};
ghost use Rattle.otp_rules.specs.InOrder.{Finishes, IsBare, IsCalm, IsInOrder, IsStopping, is_stop};
ghost use Rattle.otp_rules.specs.Progress.{ends_together, is_end};
ghost use Rattle.otp_rules.specs.State.{is_over};
ghost use Rattle.otp_needs.specs.Order.{AwaitsFew, BeginsNobody, IsIdle, IsOutOfOrder, IsRunning, StartsNobody, StopsNobody, StopsRunning};

use crate::order::rows::{are_covered, are_lone, are_to_stop, count_awaited, count_begun};
use otp_base::Base;
use otp_rules::{Phase, Sequel};
use thiserror::Error;

/// What of a checkpoint isn't in order.
#[derive(Clone, Copy, Debug, PartialEq, Eq, Error)]
pub enum OrderFault {
    /// The open work and the rows don't belong together: more answers are awaited than the work may await, or a process is to be
    /// stopped that no child has. So it is too where something is to be done though no work is open, where work is open though the
    /// supervisor has ended, and where an end starts children.
    #[error("the open work does not fit the rows")]
    Work,
    /// Two children have one process, or one has a greater number than any that was given.
    #[error("the process numbers do not fit")]
    Processes,
    /// The supervisor is ending, and a child that runs isn't to be stopped, or a start is awaited.
    #[error("the end does not stop all children")]
    Ending,
    /// It has ended, or was never opened, and has children.
    #[error("one that has ended has children")]
    Rows,
    /// A child is stopped for a call while another is started.
    #[error("a child is started while one is stopped for a call")]
    Stopping,
}

/// Tests whether a checkpoint is in order: the laws of a process's life hold from such a state on, for process numbers above
/// the greatest that it counts.
///
/// # Errors
///
/// The first part that isn't, as [`OrderFault`] lists them.
pub fn check_order(base: &Base) -> Result<(), OrderFault>
    ensures ok { OnOk result (IsInOrder (base.now.counts.greatest_number + 1) (state_in base.now)) }
    ensures err { IfErr result (IsOutOfOrder base.now) }
{
    if !is_sound(base) {
        return Err(OrderFault::Work);
    }
    if !are_distinct(base) {
        return Err(OrderFault::Processes);
    }
    if !finishes(base) {
        return Err(OrderFault::Ending);
    }
    if !is_bare(base) {
        return Err(OrderFault::Rows);
    }
    if !is_calm(base) {
        return Err(OrderFault::Stopping);
    }
    Ok(())
}

/// Whether so many answers may be awaited.
fn is_limited(follows: Option<Sequel>, awaited: usize) -> bool
    ensures { IsTrue result ↔ IsLimited follows awaited }
{
    match follows {
        None => awaited == 0,
        Some(Sequel::End(_)) => true,
        Some(_) => awaited <= 1,
    }
}

fn is_end(follows: Option<Sequel>) -> bool
    ensures { result ≡ is_end follows }
{
    matches!(follows, Some(Sequel::End(_)))
}

fn is_stop(follows: Option<Sequel>) -> bool
    ensures { result ≡ is_stop follows }
{
    matches!(follows, Some(Sequel::Stopped(_)))
}

fn is_over(phase: Phase) -> bool
    ensures { result ≡ is_over phase }
{
    !matches!(phase, Phase::Open(_))
}

/// Whether the lists of the open work are sound.
fn is_sound(base: &Base) -> bool
    ensures { IsTrue result ↔ IsSound (state_in base.now) }
{
    if !awaits_few(base) {
        return false;
    }
    if !is_covered(base) {
        return false;
    }
    if !is_idle(base) {
        return false;
    }
    if !is_running(base) {
        return false;
    }
    if !starts_nobody(base) {
        return false;
    }
    stops_nobody(base)
}

/// Whether no more answers are awaited than the open work may await.
fn awaits_few(base: &Base) -> bool
    ensures { IsTrue result ↔ AwaitsFew (state_in base.now) }
{
    is_limited(base.follows, count_awaited(base.rows.as_slice()))
}

/// Whether each process that is to be stopped is a child's that runs.
fn is_covered(base: &Base) -> bool
    ensures { IsTrue result ↔ IsCovered (state_in base.now).to_stop (state_in base.now).rows }
{
    are_covered(base.to_stop.as_slice(), base.rows.as_slice())
}

/// Whether nothing is to be done where no work is open.
fn is_idle(base: &Base) -> bool
    ensures { IsTrue result ↔ IsIdle (state_in base.now) }
{
    base.follows.is_some() || (base.to_stop.is_empty() && base.to_start.is_empty())
}

/// Whether no work is open where the supervisor doesn't run.
fn is_running(base: &Base) -> bool
    ensures { IsTrue result ↔ IsRunning (state_in base.now) }
{
    !is_over(base.phase) || base.follows.is_none()
}

/// Whether an end starts nobody.
fn starts_nobody(base: &Base) -> bool
    ensures { IsTrue result ↔ StartsNobody (state_in base.now) }
{
    !is_end(base.follows) || base.to_start.is_empty()
}

/// Whether nobody is left to stop where dynamic children end together.
fn stops_nobody(base: &Base) -> bool
    ensures { IsTrue result ↔ StopsNobody (state_in base.now) }
{
    !(is_end(base.follows) && base.flags.strategy.is_simple()) || base.to_stop.is_empty()
}

fn are_distinct(base: &Base) -> bool
    ensures { IsTrue result ↔ IsDistinct (base.now.counts.greatest_number + 1) (state_in base.now) }
{
    are_lone(base.counts.greatest_number, base.rows.as_slice())
}

fn finishes(base: &Base) -> bool
    ensures { IsTrue result ↔ Finishes (state_in base.now) }
{
    !is_end(base.follows) || is_stopping(base)
}

/// Whether each child that runs is to be stopped, and no start is awaited.
fn is_stopping(base: &Base) -> bool
    ensures { IsTrue result ↔ IsStopping (state_in base.now).to_stop (state_in base.now).rows }
{
    stops_running(base) && begins_nobody(base)
}

fn stops_running(base: &Base) -> bool
    ensures { IsTrue result ↔ StopsRunning (state_in base.now) }
{
    are_to_stop(base.to_stop.as_slice(), base.rows.as_slice())
}

fn begins_nobody(base: &Base) -> bool
    ensures { IsTrue result ↔ BeginsNobody (state_in base.now) }
{
    count_begun(base.rows.as_slice()) == 0
}

fn is_bare(base: &Base) -> bool
    ensures { IsTrue result ↔ IsBare (state_in base.now) }
{
    !is_over(base.phase) || base.rows.is_empty()
}

fn is_calm(base: &Base) -> bool
    ensures { IsTrue result ↔ IsCalm (state_in base.now) }
{
    !is_stop(base.follows) || (begins_nobody(base) && base.to_start.is_empty())
}
