//! Where a table of a tree file stands.

use crate::shown::write_shown;
use otp_text::write_number;
use std::alloc::AllocError;

/// A table of a tree file. Before it stands the path of the supervisor's child whose tree it is, or in whose tree it is;
/// that of the root is empty.
#[derive(Clone, Copy, Debug)]
pub(crate) enum Owner<'a> {
    /// A supervisor's table.
    Supervisor(&'a [u8]),
    /// The table of its child at this place, from 0, under this id.
    Child(&'a [u8], usize, Option<&'a str>),
}

/// Appends the path of a table: `supervisor`, `child 3 (db)`, `child 2 (pool), tree` or `child 2 (pool), child 1 (a)`.
pub(crate) fn write_owner(owner: &Owner<'_>, out: &mut Vec<u8>) -> Result<(), AllocError> {
    match owner {
        Owner::Supervisor(path) if path.is_empty() => out.extend_from_slice(b"supervisor"),
        Owner::Supervisor(path) => {
            out.extend_from_slice(path)?;
            out.extend_from_slice(b", tree")
        }
        Owner::Child(path, index, id) => write_child(path, *index, *id, out),
    }
}

/// Appends the path of the child at this place, from 0, of the supervisor that has this path: `child 2 (pool), child 1 (a)`.
pub fn write_child(
    path: &[u8],
    index: usize,
    id: Option<&str>,
    out: &mut Vec<u8>,
) -> Result<(), AllocError> {
    if !path.is_empty() {
        out.extend_from_slice(path)?;
        out.extend_from_slice(b", ")?;
    }
    out.extend_from_slice(b"child ")?;
    write_number(index.saturating_add(1) as u64, out)?;
    let Some(id) = id else {
        return Ok(());
    };
    out.extend_from_slice(b" (")?;
    write_shown(id, out)?;
    out.extend_from_slice(b")")
}
