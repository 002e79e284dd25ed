//! Copies of lists.

ghost use Rattle.std.specs.Prelude.{◌≡◌, IfOk};

use std::alloc::{AllocError, Global};
use std::collections::VecDeque;

/// A copy of a list.
pub(crate) fn copy_list<T: Copy + Drop>(alloc: Global, items: &[T]) -> Result<Vec<T>, AllocError>
    ensures { IfOk result (λ list. list.items ≡ items.now) }
{
    let mut list = Vec::new(alloc);
    list.extend_from_slice(items)?;
    Ok(list)
}

/// A queue's items, in their order.
pub(crate) fn list_queue<T: Copy + Drop>(
    alloc: Global,
    items: &VecDeque<T>,
) -> Result<Vec<T>, AllocError>
    ensures { IfOk result (λ list. list.items ≡ items.now.items) }
{
    let mut list = Vec::new(alloc);
    let (front, back) = items.as_slices();
    list.extend_from_slice(front)?;
    list.extend_from_slice(back)?;
    Ok(list)
}
