//! A tree is closed, once all its hands and its client are back.
ghost use Rattle.std.specs.Prelude.{IfErr, IfOk, IfSome, length};
ghost use Rattle.otp_close.specs.Closes.{HasTables, HaveBegun, IsComplete, IsMismatchOnly, IsMissingOnly, IsReportOf, NoneMissing, kept_in, report_in};
ghost use Rattle.otp_close.specs.Closings.{IsReportFrom};
ghost use Rattle.otp_close.specs.Tellings.{AreSo};
ghost use Rattle.otp_sup.specs.Plans.{AreAllPlanned};
ghost use Rattle.otp_tree.specs.Closes.{IsAsItWas};

use otp_close::report::Report;
use otp_close::{CloseFault, Intact, close, finish};
use otp_hand::{Hand, TreeClient, TreeNaming};
use otp_job::Body;
use otp_system::{Growth, System};
use std::alloc::Global;
use std::sync::Wait;

/// A tree that was not taken apart, as it was.
#[derive(Drop)]
pub struct Unclosed<N: TreeNaming, J: Drop, S: Drop> {
    pub system: System<N, J, S>,
    pub hands: Vec<Hand<N, J, S>>,
    pub client: TreeClient<N, Body<J, S>>,
}

/// Takes the tree apart, and reports what it was, with what is left in each inbox.
///
/// Of each supervisor stands what [`Table::keeps_rules`](otp_sup::Table::keeps_rules) says; and no process number is a child's in
/// two supervisors (`apart`), since each one's seat comes home to the client's.
///
/// What began and what ended adds up. As many processes began as starts were sent, and the root's (`starts`). As many ended as
/// notes of ends were made (`ends`): a supervisor took the note or left it, or whoever opened the tree did, or a hand had it still
/// to send.
///
/// # Errors
///
/// [`CloseFault::OutOfMemory`] (E0), [`CloseFault::Missing`] (E20) and [`CloseFault::Misplaced`] are found before
/// anything is taken apart; the tree, all hands and the client come back as they were. [`CloseFault::Mismatch`] (E17)
/// has the report.
pub fn close_tree<N: TreeNaming, J: Drop, S: Drop, R: Wait>(
    rt: &R,
    alloc: Global,
    system: System<N, J, S>,
    hands: Vec<Hand<N, J, S>>,
    client: TreeClient<N, Body<J, S>>,
) -> Result<Report<J, S>, CloseFault<J, S, Unclosed<N, J, S>>>
    // What the report says of these parts, where there is one, also with a mismatch (`Closings` of otp_close's definitions).
    ensures report { IfSome (report_in result) (IsReportFrom N.plan system hands.items client) }
    // Each end that a supervisor was told of another is one that the other's history gives.
    ensures told { IfOk result (λ report. AreSo report.tables.items) }
    ensures mismatch { IfErr result IsMismatchOnly }
    ensures missing { IfErr result (IsMissingOnly (IsComplete system hands.items client)) }
    ensures back { IfErr result (λ fault. IfSome (kept_in fault) (IsAsItWas system hands.items client)) }
{
    let known = system.known(rt);
    let (shared, growth) = system.into_parts();
    match close(rt, alloc, shared, hands, client, known) {
        Ok(report) => {
            drop(growth);
            Ok(report)
        }
        Err(CloseFault::Mismatch(mismatch, report)) => {
            drop(growth);
            Err(CloseFault::Mismatch(mismatch, report))
        }
        Err(CloseFault::OutOfMemory(tree)) => {
            Err(CloseFault::OutOfMemory(given_back(tree, growth)))
        }
        Err(CloseFault::Missing(tree)) => Err(CloseFault::Missing(given_back(tree, growth))),
        Err(CloseFault::Misplaced(tree, found)) => {
            Err(CloseFault::Misplaced(given_back(tree, growth), found))
        }
    }
}

/// Closes the tree ([`close_tree`]), once the processes that wait were given back to the run queue. Where it can't be
/// closed it is dropped.
pub fn finish_tree<N: TreeNaming, J: Drop, S: Drop, R: Wait>(
    rt: &R,
    alloc: Global,
    system: System<N, J, S>,
    hands: Vec<Hand<N, J, S>>,
    client: TreeClient<N, Body<J, S>>,
) -> Result<Report<J, S>, CloseFault<J, S, ()>>
    ensures whole { IfOk result (λ report. IsReportOf (length report.tables.items) report) }
    // It has each supervisor that the tree was opened with, and those that were added; places that never had one are left out.
    ensures count { IfOk result (λ report. HasTables N.plan system.tables (length report.tables.items)) }
    ensures report { AreAllPlanned N.plan system.tables → IfOk result (IsReportOf system.tables) }
    ensures plans { IfSome (report_in result) (λ report. HaveBegun N.plan report.tables.items) }
    ensures mismatch { IfErr result IsMismatchOnly }
    // Of a tree that is whole no part is said to be missing.
    ensures missing { IsComplete system hands.items client → IfErr result NoneMissing }
{
    let known = system.known(rt);
    let (shared, growth) = system.into_parts();
    drop(growth);
    finish(rt, alloc, shared, hands, client, known)
}

/// The tree as whoever opened it has it.
fn given_back<N: TreeNaming, J: Drop, S: Drop>(
    tree: Intact<N, J, S>,
    growth: Option<Growth<N>>,
) -> Unclosed<N, J, S>
    ensures { IsAsItWas tree.shared tree.hands.items tree.client result }
{
    let Intact {
        shared,
        hands,
        client,
    } = tree;
    Unclosed {
        system: System::of_parts(shared, growth),
        hands,
        client,
    }
}
