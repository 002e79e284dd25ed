//! Who is told what happens in a tree that was drawn up.

use otp_draft::{TreeDraft, TreePath};
use otp_live::{Seen, Watch};
use std::alloc::{AllocError, Global};

/// Tells a watch the path of each supervisor.
#[derive(Drop)]
pub(crate) struct AtPaths<'a, W> {
    /// The paths of the tree's supervisors, by their numbers.
    pub paths: &'a [TreePath],
    /// How many places the tree has: as the number of a supervisor it stands for whose child the root is.
    pub places: usize,
    pub watch: &'a W,
}

impl<W: Watch> Watch for AtPaths<'_, W> {
    fn saw(&self, seen: Seen) {
        if let Some(path) = self.paths.get(seen.table) {
            self.watch.saw_at(Some(path.as_bytes()), seen);
        } else if seen.table == self.places {
            self.watch.saw_at(None, seen);
        } else {
            // It was added, and its path depends on whose child it was made.
            self.watch.saw(seen);
        }
    }

    fn is_told(&self) -> bool {
        self.watch.is_told()
    }
}

/// The paths of a tree for a watch; none where it isn't told anything.
pub(crate) fn paths_for<J: Drop, S: Drop, W: Watch>(
    alloc: Global,
    root: &TreeDraft<J, S>,
    watch: &W,
) -> Result<Vec<TreePath>, AllocError> {
    if watch.is_told() {
        root.paths(alloc)
    } else {
        Ok(Vec::new(alloc))
    }
}
