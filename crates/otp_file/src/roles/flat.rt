//! The tables of a tree in one list.
ghost use Rattle.std.specs.Prelude.{◌≡◌, ◌++◌, OnOk, map};
ghost use Rattle.otp_file.specs.Trees.{tables_of};
ghost use Rattle.otp_file.specs.RolesFaults.{is_nested, table_seen};

use crate::TreeSpec;
use otp_spec::SupSpec;
use std::alloc::{AllocError, Global};

/// A table of a tree, with the places of its children that have a tree.
#[derive(Drop)]
pub struct FlatTable {
    pub supervisor: SupSpec,
    pub nested: Vec<usize>,
}

/// Whether the child at this place has a tree, where these places are those of children that have one.
pub fn is_nested(nested: &[usize], place: usize) -> bool
    ensures { result ≡ is_nested nested.now place }
{
    nested.iter().any(|n| *n == place)
}

/// Appends the tables of a tree in the order of the walk: each before the trees of its children, those in list order.
pub(crate) fn flatten(
    alloc: Global,
    tree: TreeSpec,
    tables: &mut Vec<FlatTable>,
) -> Result<(), AllocError>
    ensures { OnOk result (map table_seen tables.new.items ≡ map table_seen tables.old.items ++ tables_of tree) }
{
    let (supervisor, nested, trees) = tree.into_parts();
    tables
        .push(FlatTable { supervisor, nested })
        .map_err(|_| AllocError)?;
    for tree in trees {
        flatten(alloc, tree, tables)?;
    }
    Ok(())
}
