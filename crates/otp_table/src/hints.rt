//! Where rows stand most likely, by their numbers.

ghost use Rattle.std.specs.Prelude.{◌<◌};

use otp_spec::MAX_CHILDREN;
use std::alloc::{AllocError, Global};

/// A place for each remainder of a number. It is only where to look first: whoever asks looks whether the row there has the
/// number, so that no clause speaks of a hint. A newer number of the same remainder takes the place of an older one.
#[derive(Drop)]
pub struct Hints {
    /// None, or a power of two of them.
    places: Vec<u16>,
}

impl Hints {
    /// None: takes no memory.
    pub fn new(alloc: Global) -> Self {
        Hints {
            places: Vec::new(alloc),
        }
    }

    /// Takes the memory for so many rows: twice as many hints. Those that are there are kept.
    pub fn reserve(&mut self, rows: usize) -> Result<(), AllocError> {
        let wanted = 2 * rows.min(MAX_CHILDREN);
        if self.places.is_empty() {
            self.places.resize(2, 0)?;
        }
        // No list can be doubled more often.
        for _ in 0..usize::BITS {
            if self.places.len() >= wanted {
                break;
            }
            self.places.extend_from_within(..)?;
        }
        Ok(())
    }

    /// The index of this number's hint; none where it isn't below their count.
    fn index_of(&self, number: u64) -> usize {
        number as usize & self.places.len().wrapping_sub(1)
    }

    /// Where the row with this number stands most likely.
    pub fn get(&self, number: u64) -> usize {
        let index = self.index_of(number);
        if index < self.places.len() {
            self.places[index] as usize
        } else {
            0
        }
    }

    /// The row at this place has this number now, if any.
    pub fn note(&mut self, number: Option<u64>, place: usize)
        requires { place < MAX_CHILDREN }
    {
        match number {
            None => {}
            Some(number) => self.set(number, place),
        }
    }

    fn set(&mut self, number: u64, place: usize)
        requires { place < MAX_CHILDREN }
    {
        let index = self.index_of(number);
        if index < self.places.len() {
            self.places[index] = place as u16;
        }
    }
}
