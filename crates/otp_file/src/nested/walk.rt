//! The walk over a tree.

ghost use Rattle.std.specs.Prelude.{◌≡◌, ℕ, List, [], ◌≤◌, ◌++◌, IfOk, OnOk, length};
ghost use Rattle.otp_spec.specs.declared.child.ChildSpec.{ChildSpec};
ghost use Rattle.otp_spec.specs.declared.flags.SupFlags.{SupFlags};
ghost use Rattle.otp_file.specs.declared.limits.TheConstants.{MAX_DEPTH};
ghost use Rattle.otp_file.specs.Nested.{IsPiece, id_at, path_below};

use crate::nested::piece::NestedText;
use crate::{MAX_DEPTH, TreeSpec};
use otp_spec::{ChildSpec, SupFlags};
use std::alloc::{AllocError, Global};

/// Who says something of a supervisor and all below it.
pub trait TableWriter {
    /// What is said of the supervisor whose children have this path before their names, with these flags and children, of which
    /// those at these places have trees of which that is said.
    ghost written: { Self → List ℕ → SupFlags → List ChildSpec → List ℕ → List (List ℕ) → List ℕ };

    /// Appends it.
    ///
    /// # Errors
    ///
    /// Where memory is refused.
    fn write(
        &self,
        path: &[u8],
        flags: &SupFlags,
        specs: &[ChildSpec],
        nested: &[usize],
        each: &[NestedText],
        out: &mut Vec<u8>,
    ) -> Result<(), AllocError>
        requires { length specs.now ≤ 256 }
        ensures { OnOk result (out.new.items ≡ out.old.items ++ written self.now path.now flags.now specs.now nested.now each.now) };
}

/// Appends the id of the child at this place, with a `/` behind it.
fn put_id_at(place: usize, specs: &[ChildSpec], out: &mut Vec<u8>) -> Result<(), AllocError>
    ensures { OnOk result (out.new.items ≡ out.old.items ++ id_at place specs.now) }
{
    match specs {
        [] => Ok(()),
        [spec, others @ ..] => {
            if place == 0 {
                out.extend_from_slice(spec.id.as_bytes())?;
                out.extend_from_slice(b"/")
            } else {
                put_id_at(place - 1, others, out)
            }
        }
    }
}

/// The path of the children of the supervisor at this place, which is a child of one with this path.
fn path_below(
    alloc: Global,
    path: &[u8],
    specs: &[ChildSpec],
    place: usize,
) -> Result<Vec<u8>, AllocError>
    ensures { IfOk result (λ below. below.items ≡ path_below path.now specs.now place) }
{
    let mut below = Vec::new(alloc);
    below.extend_from_slice(path)?;
    put_id_at(place, specs, &mut below)?;
    Ok(below)
}

/// What is said of a tree of so many levels at the most, whose root's children have this path.
fn piece_within<T: TableWriter>(
    alloc: Global,
    writer: &T,
    path: &[u8],
    tree: &TreeSpec,
    levels: usize,
) -> Result<NestedText, AllocError>
    ensures { IfOk result (IsPiece (T.written writer.now) levels path.now tree.now) }
{
    // No tree that a file says has more levels, nor another number of trees than of children that have one.
    let Some(left) = levels.checked_sub(1) else {
        return Err(AllocError);
    };
    let trees = tree.trees();
    let nested = tree.nested();
    if trees.len() != nested.len() {
        return Err(AllocError);
    }
    let supervisor = tree.supervisor();
    let specs = supervisor.specs();
    let mut each = Vec::new(alloc);
    for number in 0..trees.len() {
        let below = path_below(alloc, path, specs, nested[number])?;
        let piece = piece_within(alloc, writer, &below, &trees[number], left)?;
        each.push(piece).map_err(|_| AllocError)?;
    }
    let mut out = Vec::new(alloc);
    writer.write(
        path,
        &supervisor.flags(),
        specs,
        nested,
        each.as_slice(),
        &mut out,
    )?;
    drop(each);
    Ok(NestedText::new(out))
}

/// What a writer says of a tree, from its root on.
///
/// # Errors
///
/// Where memory is refused.
pub fn piece_of<T: TableWriter>(
    alloc: Global,
    writer: &T,
    tree: &TreeSpec,
) -> Result<NestedText, AllocError>
    ensures { IfOk result (IsPiece (T.written writer.now) MAX_DEPTH [] tree.now) }
{
    piece_within(alloc, writer, b"", tree, MAX_DEPTH)
}
