//! A transcript is played on the supervisor of its tree.

ghost use Rattle.std.specs.Prelude.{◌≡◌, IfOk};
ghost use Rattle.otp_parity.specs.Prints.{Plays, Prints, refusal};

use otp_file::{TreeFault, TreeSpec, read_tree};
use otp_sim::{Counted, SimEnd, sim};
use std::alloc::{AllocError, Global};

/// Why a transcript can't be played to its end.
#[derive(Clone, Copy, Debug, PartialEq, Eq)]
pub enum Unplayed {
    /// Memory was refused.
    OutOfMemory,
    /// The tree is no TOML document.
    NotToml,
    /// The lines were not all taken.
    Ended(SimEnd),
}

impl From<AllocError> for Unplayed {
    ghost use Rattle.std.specs.Prelude.{◌≡◌};
    ghost use Rattle.otp_parity.specs.declared.play.Unplayed.TheVariants.{OutOfMemory};

    ghost from_gives = { λ _ why. why ≡ OutOfMemory };

    fn from(_error: AllocError) -> Self {
        Unplayed::OutOfMemory
    }
}

/// The orders that the supervisor of the tree gives for the lines, as lines; or the line for a tree that is refused.
pub fn play(alloc: Global, tree: &[u8], lines: &[u8]) -> Result<Vec<u8>, Unplayed>
    ensures { IfOk result (λ text. Prints tree.now lines.now text.items) }
{
    match read_tree(alloc, tree) {
        Ok(tree) => play_on(alloc, tree, lines),
        Err(TreeFault::OutOfMemory) => Err(Unplayed::OutOfMemory),
        Err(TreeFault::NotToml) => Err(Unplayed::NotToml),
        Err(fault) => Ok(refusal(alloc, fault)?),
    }
}

/// The orders for the lines.
fn play_on(alloc: Global, tree: TreeSpec, lines: &[u8]) -> Result<Vec<u8>, Unplayed>
    ensures { IfOk result (λ text. Plays tree lines.now text.items) }
{
    let mut input = Counted::new(lines);
    let mut output = Counted::new(Vec::new(alloc));
    let (supervisor, _, _) = tree.into_parts();
    match sim(alloc, supervisor, &mut input, &mut output) {
        SimEnd::Done => Ok(output.into_device()),
        end => Err(Unplayed::Ended(end)),
    }
}

/// The line for a tree that is refused.
fn refusal(alloc: Global, fault: TreeFault) -> Result<Vec<u8>, AllocError>
    ensures { IfOk result (λ text. text.items ≡ refusal fault) }
{
    let text = format!(in alloc; "tree refused: E{}\n", fault.code())?;
    Ok(text.into_bytes())
}
