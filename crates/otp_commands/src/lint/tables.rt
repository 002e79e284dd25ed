//! The tables of a tree in one list.

ghost use Rattle.std.specs.Prelude.{◌≡◌, ◌++◌, IfOk, OnOk, map};
ghost use Rattle.otp_file.specs.Trees.{tables_of};
ghost use Rattle.otp_commands.specs.Below.{table_of};

use otp_file::TreeSpec;
use std::alloc::{AllocError, Global};

/// Appends the tables of a tree in the order of the walk: each before the trees of its children, those in list order.
fn put_tables<'a>(tree: &'a TreeSpec, tables: &mut Vec<&'a TreeSpec>) -> Result<(), AllocError>
    ensures { OnOk result (map table_of tables.new.items ≡ map table_of tables.old.items ++ tables_of tree.now) }
{
    tables.push(tree).map_err(|_| AllocError)?;
    for sub in tree.trees() {
        put_tables(sub, tables)?;
    }
    Ok(())
}

/// The tables of a tree in the order of the walk.
pub(crate) fn tables_of<'a>(
    alloc: Global,
    tree: &'a TreeSpec,
) -> Result<Vec<&'a TreeSpec>, AllocError>
    ensures { IfOk result (λ tables. map table_of tables.items ≡ tables_of tree.now) }
{
    let mut tables = Vec::new(alloc);
    put_tables(tree, &mut tables)?;
    Ok(tables)
}
