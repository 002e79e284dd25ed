//! Places of a tree that had no supervisor are left out of its report.
ghost use Rattle.std.specs.Prelude.{◌≡◌, ◌≤◌, [], IsTrue, length, min};
ghost use Rattle.otp_close.specs.Spares.{AreFirst, AreUnusedFrom, IsUnused};

use crate::report::{Report, TableReport};
use otp_core::Core;

/// Whether it had no event.
#[tactic(auto, using(crate::proofs::SparePlaces::no_event))]
fn had_no_event(core: &Core) -> bool
    ensures { IsTrue result → core.now.history ≡ [] }
{
    core.events_cut() == 0 && core.history().len() == 0
}

/// Whether it had no event, nothing is left for it, and it had nothing to send.
fn is_unused(table: &TableReport) -> bool
    ensures { IsTrue result → IsUnused table.now }
{
    had_no_event(&table.core) && table.left.is_empty() && table.unsent == 0
}

/// Whether all are unused from this place on.
fn are_unused(tables: &[TableReport], from: usize) -> bool
    ensures { IsTrue result → AreUnusedFrom from tables.now }
{
    for place in from..tables.len() {
        if !is_unused(&tables[place]) {
            return false;
        }
    }
    true
}

/// How many there are without the unused behind the first so many.
fn count_used(tables: &[TableReport], known: usize) -> usize
    ensures few { result ≤ length tables.now }
    ensures many { min known (length tables.now) ≤ result }
    ensures unused { AreUnusedFrom result tables.now }
{
    for count in known..tables.len() {
        if are_unused(tables, count) {
            return count;
        }
    }
    tables.len()
}

/// The report of a tree that had so many supervisors: places behind them that had none are left out.
pub(crate) fn without_spares<J: Drop, S: Drop>(report: Report<J, S>, known: usize) -> Report<J, S>
    ensures tables { AreFirst known report.tables.items result.tables.items }
    ensures live { result.live ≡ report.live }
    ensures begun { result.begun ≡ report.begun }
    ensures ended { result.ended ≡ report.ended }
    ensures processes { result.processes ≡ report.processes }
    ensures last { result.last ≡ report.last }
    ensures heard { result.heard ≡ report.heard }
    ensures held { result.held ≡ report.held }
{
    let mut report = report;
    let count = count_used(report.tables.as_slice(), known);
    report.tables.truncate(count);
    report
}
