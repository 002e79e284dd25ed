//! Events that are printed whole or not at all.

use crate::driven::{Driven, LinesEnd};
use crate::player::Player;
use std::alloc::AllocError;

impl Driven for Player {
    ghost sim = { λ player. player };

    /// An event that is refused memory halfway is cut off again.
    fn begin_line(&mut self, line: &[u8], out: &mut Vec<u8>) -> Result<(), AllocError> {
        let before = out.len();
        let begun = self.play_line(line, out);
        if begun.is_err() {
            out.truncate(before);
        }
        begun
    }

    /// An event that is refused memory halfway is cut off again.
    fn go_on(&mut self, out: &mut Vec<u8>) -> Result<bool, AllocError> {
        let before = out.len();
        let went_on = self.play_next(out);
        if went_on.is_err() {
            out.truncate(before);
        }
        went_on
    }

    fn end(&self) -> Option<LinesEnd> {
        self.stop()
    }
}
