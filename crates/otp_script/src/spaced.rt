//! The words of a line with one space between them.

ghost use Rattle.std.specs.Prelude.{◌≡◌, ◌≤◌, ◌++◌, ◌∷◌, [], drop, length, take};
ghost use Rattle.otp_script.specs.Spaced.{spaced, spaced_behind};
ghost use Rattle.otp_script.specs.declared.spaced.TheConstants.{ROOM};

use crate::words::is_space;
use otp_text::LONGEST_LINE;

/// For each byte that a line of `sim` may have, the space before its first word, and one byte more: a line that is too long is
/// seen as such.
const ROOM: usize = LONGEST_LINE + 2;

/// The words of a line with one space between, as a line of `sim` has them.
#[derive(Drop)]
pub(crate) struct Spaced {
    /// The words, each behind a space.
    bytes: [u8; ROOM],
    length: usize,
}

impl Spaced {
    /// The words of a line, as many of their bytes as there is room for.
    pub fn of(line: &[u8]) -> Self
        ensures words { take result.length result.bytes ≡ take ROOM (spaced_behind 32 line.now) }
        ensures room { result.length ≤ ROOM }
    {
        let mut spaced = Spaced {
            bytes: [0; ROOM],
            length: 0,
        };
        let mut before = b' ';
        for byte in line {
            spaced.add(before, *byte);
            before = *byte;
        }
        spaced
    }

    /// Puts the next byte behind the others, where it is one of a word: behind a space, if the byte before it was none of a word.
    fn add(&mut self, before: u8, byte: u8)
        requires { self.old.length ≤ ROOM }
        ensures words { take self.new.length self.new.bytes ≡ take ROOM (take self.old.length self.old.bytes ++ spaced_behind before (byte ∷ [])) }
        ensures room { self.new.length ≤ ROOM }
    {
        if is_space(byte) {
            return;
        }
        if is_space(before) {
            self.push(b' ');
        }
        self.push(byte);
    }

    /// Puts a byte behind the others, where there is room.
    fn push(&mut self, byte: u8)
        requires { self.old.length ≤ ROOM }
        ensures words { take self.new.length self.new.bytes ≡ take ROOM (take self.old.length self.old.bytes ++ byte ∷ []) }
        ensures room { self.new.length ≤ ROOM }
    {
        if self.length < ROOM {
            self.bytes[self.length] = byte;
            self.length += 1;
        }
    }

    /// The words without the space before the first.
    pub fn as_slice(&self) -> &[u8]
        requires { self.now.length ≤ ROOM }
        ensures { result.now ≡ drop 1 (take self.now.length self.now.bytes) }
    {
        if self.length == 0 {
            return &[];
        }
        &self.bytes[1..self.length]
    }
}
