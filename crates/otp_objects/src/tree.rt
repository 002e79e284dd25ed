//! A tree as an object: the table that its file says, with what it leaves out.

ghost use Rattle.std.specs.Prelude.{◌≡◌, ◌++◌, OnOk};
ghost use Rattle.otp_objects.specs.Trees.{TellsTree, tree_object};

use crate::table::Objects;
use otp_file::TreeSpec;
use otp_file::nested::piece_of;
use otp_json::{put_key, put_text};
use std::alloc::{AllocError, Global};

/// Appends the object of a file and its tree, of which this is the object, a line.
#[tactic(auto, unfolding(crate::specs::Trees::tree_object))]
fn put_object(name: &[u8], piece: &[u8], out: &mut Vec<u8>) -> Result<(), AllocError>
    ensures { OnOk result (out.new.items ≡ out.old.items ++ tree_object name.now piece.now) }
{
    put_text(b"{", b"file", name, out)?;
    put_key(b", ", b"tree", out)?;
    out.extend_from_slice(piece)?;
    out.extend_from_slice(b"}\n")
}

/// Appends a tree as an object, with the name of its file: the table that the file says, each key with its value, also those that the
/// file leaves out.
///
/// # Errors
///
/// Where memory is refused.
pub fn write_tree_object(
    alloc: Global,
    name: &[u8],
    tree: &TreeSpec,
    out: &mut Vec<u8>,
) -> Result<(), AllocError>
    ensures { OnOk result (TellsTree name.now tree.now out.old.items out.new.items) }
{
    let piece = piece_of(alloc, &Objects, tree)?;
    let told = put_object(name, piece.as_bytes(), out);
    drop(piece);
    told
}
