//! Passes to the counts of supervisors are split off, for a new hand.
ghost use Rattle.std.specs.Prelude.{◌≡◌, IfOk, OnOk, map};
ghost use Rattle.otp_open.specs.Passes.{renewed};

use otp_signals::counts::CountsPass;
use std::alloc::{AllocError, Global};

/// Another pass beside each of these, in their order.
fn split_each(alloc: Global, passes: &mut [CountsPass]) -> Result<Vec<CountsPass>, AllocError>
    ensures same { OnOk result (passes.new ≡ passes.old) }
    ensures split { IfOk result (λ all. all.items ≡ map renewed passes.old) }
{
    let mut all = Vec::new(alloc);
    for pass in passes.iter_mut() {
        all.push(pass.split()?)?;
    }
    Ok(all)
}

/// Another pass beside each of this list, in their order.
pub fn split_all(alloc: Global, passes: &mut Vec<CountsPass>) -> Result<Vec<CountsPass>, AllocError>
    ensures same { OnOk result (passes.new.items ≡ passes.old.items) }
    ensures split { IfOk result (λ all. all.items ≡ map renewed passes.old.items) }
{
    split_each(alloc, passes)
}
