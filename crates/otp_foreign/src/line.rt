//! Lines and columns of a text.

/// A place in a text.
#[derive(Clone, Copy, Debug, PartialEq, Eq)]
pub struct Spot {
    /// So many bytes stand before it.
    pub place: usize,
    /// Its line, from 1.
    pub line: u64,
    /// Its column, from 1: a character has one.
    pub column: u64,
}

impl Spot {
    /// The first place of a text.
    pub const FIRST: Spot = Spot {
        place: 0,
        line: 1,
        column: 1,
    };

    /// The place behind a byte more.
    fn behind(self, byte: u8) -> Spot {
        let place = self.place.saturating_add(1);
        match byte {
            b'\n' => Spot {
                place,
                line: self.line.saturating_add(1),
                column: 1,
            },
            // The rest of a character of several bytes.
            0x80..=0xbf => Spot { place, ..self },
            _ => Spot {
                place,
                line: self.line,
                column: self.column.saturating_add(1),
            },
        }
    }

    /// This place of the text, which is sought from here on, or from its beginning.
    pub fn moved_to(self, text: &[u8], place: usize) -> Spot {
        let mut spot = if place < self.place {
            Spot::FIRST
        } else {
            self
        };
        for byte in text.get(spot.place..place).unwrap_or(b"") {
            spot = spot.behind(*byte);
        }
        spot
    }
}
