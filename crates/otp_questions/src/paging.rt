//! `tree` and `limits` as pages of HTML.

ghost use Rattle.std.specs.Prelude.{◌≡◌, IfErr, IfOk, false};
ghost use Rattle.otp_exit.specs.declared.ending.ProgramEnd.TheVariants.{Done};
ghost use Rattle.otp_costs.specs.Told.{is_all};
ghost use Rattle.otp_pages.specs.Limits.{TellsLimits};
ghost use Rattle.otp_questions.specs.Paged.{HasNoLimits, IsLimitsPage, IsNotMade, IsTreePage};

use crate::limiting::{end_of_halt, near_pick, not_found};
use otp_costs::{Grain, Pick};
use otp_exit::ProgramEnd;
use otp_file::{TreeSpec, read_tree};
use otp_pages::{write_limits_page, write_tree_page};
use otp_trial::Halt;
use std::alloc::Global;

/// The page of the tree that a file says.
///
/// # Errors
///
/// How the program ends where the file says none, or memory is refused.
pub fn page_of_tree<'a>(
    alloc: Global,
    name: &'a str,
    file: &[u8],
) -> Result<Vec<u8>, ProgramEnd<'a>>
    ensures page { IfOk result (λ page. IsTreePage name.now file.now Done page.items) }
    ensures none { IfErr result (λ ending. IsNotMade name.now ending file.now) }
{
    let tree = match read_tree(alloc, file) {
        Ok(tree) => tree,
        Err(fault) => return Err(ProgramEnd::of_no_tree(fault, name)),
    };
    let mut page = Vec::new(alloc);
    let written = write_tree_page(alloc, name.as_bytes(), &tree, &mut page);
    drop(tree);
    match written {
        Ok(()) => Ok(page),
        Err(_) => {
            drop(page);
            Err(ProgramEnd::OutOfMemory)
        }
    }
}

/// Appends the page of the limits of those children of a tree that are asked for, and says whether there are any.
#[tactic(auto, unfolding(otp_pages::specs::Limits::TellsRows))]
fn write_limits(
    alloc: Global,
    name: &str,
    tree: &TreeSpec,
    grain: Grain,
    pick: &Pick<'_>,
    out: &mut Vec<u8>,
) -> Result<bool, Halt>
    ensures told { IfOk result (λ found. TellsLimits found name.now grain pick.now tree.now out.old.items out.new.items) }
    ensures none { IfOk result (λ found. found ≡ false → is_all pick.now ≡ false) }
{
    write_limits_page(alloc, name.as_bytes(), tree, grain, pick, out)
}

/// The page of what crashes of those children cost that are asked for.
///
/// # Errors
///
/// How the program ends where the file says no tree, there are none of them, a history is full, or memory is refused.
pub fn page_of_limits<'a>(
    alloc: Global,
    name: &'a str,
    file: &[u8],
    pick: Pick<'a>,
    grain: Grain,
) -> Result<Vec<u8>, ProgramEnd<'a>>
    ensures page { IfOk result (λ page. IsLimitsPage grain pick.entry name.now file.now Done page.items) }
    ensures none { IfErr result (λ ending. HasNoLimits grain pick.entry name.now ending file.now) }
{
    let tree = match read_tree(alloc, file) {
        Ok(tree) => tree,
        Err(fault) => return Err(ProgramEnd::of_no_tree(fault, name)),
    };
    let near = near_pick(alloc, &tree, &pick);
    let mut page = Vec::new(alloc);
    let told = write_limits(alloc, name, &tree, grain, &pick, &mut page);
    drop(tree);
    match told {
        Ok(true) => Ok(page),
        Ok(false) => {
            drop(page);
            Err(not_found(pick, near))
        }
        Err(halt) => {
            drop(page);
            Err(end_of_halt(halt))
        }
    }
}
