//! Names of children and modules: what a tree file takes, made from what other programs take.

use otp_reason::NAME_SIZE;
use std::alloc::AllocError;

/// A name as a tree file has it.
#[derive(Clone, Copy, Debug)]
pub struct Id {
    bytes: [u8; NAME_SIZE],
    len: usize,
    /// Something was left out since the last byte.
    is_apart: bool,
}

impl Id {
    /// A name in which nothing stands yet.
    fn empty() -> Self {
        Id {
            bytes: [0; NAME_SIZE],
            len: 0,
            is_apart: false,
        }
    }

    /// The name that is nearest to these bytes; `child` where none of them may stand in one.
    pub fn of(bytes: &[u8]) -> Self {
        let mut id = Id::empty();
        for byte in bytes {
            id.take(*byte);
        }
        if id.len == 0 {
            for byte in b"child" {
                id.put(*byte);
            }
        }
        id
    }

    pub fn as_slice(&self) -> &[u8] {
        self.bytes.get(..self.len).unwrap_or(b"")
    }

    /// Puts a byte behind the others, where there is room.
    fn put(&mut self, byte: u8) {
        if let Some(room) = self.bytes.get_mut(self.len) {
            *room = byte;
            self.len = self.len.saturating_add(1);
        }
    }

    /// Takes a byte. For those that may not stand in a name there is one `_`, unless they are the first or the last.
    fn take(&mut self, byte: u8) {
        if !may_stand(byte) {
            self.is_apart = self.len > 0;
            return;
        }
        if self.is_apart {
            self.put(b'_');
            self.is_apart = false;
        }
        self.put(byte);
    }

    /// This id with `-` and a number of up to three digits behind it.
    pub fn numbered(&self, number: usize) -> Self {
        let mut id = *self;
        id.len = id.len.min(NAME_SIZE - 4);
        id.put(b'-');
        if number >= 100 {
            id.put(digit(number / 100));
        }
        if number >= 10 {
            id.put(digit(number / 10));
        }
        id.put(digit(number));
        id
    }
}

/// The last digit of a number.
fn digit(number: usize) -> u8 {
    match number % 10 {
        0 => b'0',
        1 => b'1',
        2 => b'2',
        3 => b'3',
        4 => b'4',
        5 => b'5',
        6 => b'6',
        7 => b'7',
        8 => b'8',
        _ => b'9',
    }
}

/// Whether a byte may stand in a name.
fn may_stand(byte: u8) -> bool {
    byte.is_ascii_alphanumeric() || matches!(byte, b'_' | b'-' | b'.')
}

/// Whether one of these names is this one.
fn is_taken(taken: &[Id], id: &Id) -> bool {
    for other in taken {
        if other.as_slice() == id.as_slice() {
            return true;
        }
    }
    false
}

/// The name, or one with a number behind it where it is taken; then it is taken as well.
pub fn set_apart(id: Id, taken: &mut Vec<Id>) -> Result<Id, AllocError> {
    let mut apart = id;
    for number in 2..1000 {
        if !is_taken(taken.as_slice(), &apart) {
            break;
        }
        apart = id.numbered(number);
    }
    taken.push(apart).map_err(|_| AllocError)?;
    Ok(apart)
}
