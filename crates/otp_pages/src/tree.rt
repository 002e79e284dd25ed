//! A tree as a page.

ghost use Rattle.std.specs.Prelude.{◌≡◌, ℕ, List, ◌++◌, IfOk, OnErr, OnOk};
ghost use Rattle.otp_pages.specs.Trees.{TellsTree, tree_legend, tree_page};

use crate::html::{put_foot, put_head};
use crate::supervisor::Supervisors;
use otp_file::TreeSpec;
use otp_file::nested::piece_of;
use std::alloc::{AllocError, Global};

/// Appends what the page is to be read for.
#[tactic(auto, unfolding(crate::specs::Trees::tree_legend))]
fn put_legend(out: &mut Vec<u8>) -> Result<(), AllocError>
    ensures { OnOk result (out.new.items ≡ out.old.items ++ tree_legend) }
{
    out.extend_from_slice(
        b"<p class=\"legend\">Children stand in start order, and are stopped in reverse. A supervisor with more restarts in its time than it may have gives up.</p>\n<div class=\"tree\">\n",
    )
}

/// Appends the page of which this is the tree.
#[tactic(auto, unfolding(crate::specs::Trees::tree_page))]
fn put_page(name: &[u8], piece: &[u8], out: &mut Vec<u8>) -> Result<(), AllocError>
    ensures { OnOk result (out.new.items ≡ out.old.items ++ tree_page name.now piece.now) }
{
    put_head(b"Supervision tree of", name, out)?;
    put_legend(out)?;
    out.extend_from_slice(piece)?;
    out.extend_from_slice(b"</div>\n")?;
    put_foot(out)
}

/// The page of a tree, whose file has this name.
fn page_of(alloc: Global, name: &[u8], tree: &TreeSpec) -> Result<Vec<u8>, AllocError>
    ensures { IfOk result (λ page. TellsTree name.now tree.now page.items) }
{
    let piece = piece_of(alloc, &Supervisors, tree)?;
    let mut page = Vec::new(alloc);
    put_page(name, piece.as_bytes(), &mut page)?;
    drop(piece);
    Ok(page)
}

/// Appends a tree as a page of HTML, with the name of its file: the supervisors with how they restart, and below each its children
/// with their keys, in start order.
///
/// # Errors
///
/// Where memory is refused. Then nothing is appended.
pub fn write_tree_page(
    alloc: Global,
    name: &[u8],
    tree: &TreeSpec,
    out: &mut Vec<u8>,
) -> Result<(), AllocError>
    ensures page { OnOk result ((page : List ℕ) × (TellsTree name.now tree.now page × (out.new.items ≡ out.old.items ++ page))) }
    ensures same { OnErr result (out.new.items ≡ out.old.items) }
{
    let page = page_of(alloc, name, tree)?;
    out.extend_from_slice(page.as_slice())
}
