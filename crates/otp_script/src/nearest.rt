//! The child that was meant.

use otp_reason::{Name, TEXT_SIZE, Text};
use std::alloc::{AllocError, Global};
use std::str::from_utf8;
use strsim::levenshtein;

/// The most changed characters of a name that is still near.
const MOST_CHANGED: usize = 2;

/// Of the children that were shown so far the one whose name is nearest to what is written: its path from the root's child
/// on, where that is no longer than a [`Text`].
#[derive(Clone, Copy, Debug)]
pub struct Nearest<'a> {
    written: &'a [u8],
    path: Option<Text>,
    /// In how many characters it differs; before the first, in how many one may not differ.
    changed: usize,
}

/// What stands behind the last `/`.
fn id_of(written: &[u8]) -> &[u8] {
    match written.iter().rposition(|byte| *byte == b'/') {
        Some(place) => &written[place + 1..],
        None => written,
    }
}

/// In how many characters two names differ, of which large letters are no other ones.
fn difference(alloc: Global, written: &[u8], name: &[u8]) -> Result<usize, AllocError> {
    let mut one = Vec::from_slice(alloc, written)?;
    one.make_ascii_lowercase();
    let mut other = Vec::from_slice(alloc, name)?;
    other.make_ascii_lowercase();
    match (from_utf8(one.as_slice()), from_utf8(other.as_slice())) {
        (Ok(one), Ok(other)) => levenshtein(alloc, one, other),
        _ => Ok(usize::MAX),
    }
}

impl<'a> Nearest<'a> {
    /// Before any child was shown. Less than half of the id may be changed.
    pub fn of(written: &'a [u8]) -> Self {
        let half = id_of(written).len().div_ceil(2);
        Nearest {
            written,
            path: None,
            changed: half.min(MOST_CHANGED + 1),
        }
    }

    /// Looks at the child with this id, in front of which stands this path. One that stands elsewhere may be meant too: then its id is
    /// near, and not its path.
    ///
    /// # Errors
    ///
    /// Where memory is refused.
    pub fn look(&mut self, alloc: Global, path: &[u8], id: &Name) -> Result<(), AllocError> {
        let mut whole = Vec::from_slice(alloc, path)?;
        whole.extend_from_slice(id.as_bytes())?;
        if self.written.len() > TEXT_SIZE {
            return Ok(());
        }
        let by_path = difference(alloc, self.written, whole.as_slice())?;
        let by_id = difference(alloc, id_of(self.written), id.as_bytes())?;
        let changed = by_path.min(by_id);
        if changed < self.changed
            && let Some(text) = Text::new(whole.as_slice())
        {
            self.path = Some(text);
            self.changed = changed;
        }
        Ok(())
    }

    /// The path of the nearest child, if one is near.
    pub fn path(&self) -> Option<Text> {
        self.path
    }
}
